//! Conversations: the lines that are heard at a terminal, and their answers.

ghost use Rattle.std.specs.Prelude.{◌≡◌, [], Ok, false, true, IfErr, OnOk, OnErr, ◌∷◌, List, ℕ, IfOk, IsOkAnd, Err};
ghost use Rattle.bsp_engine.specs.Inside.DueAt.{due_at, due_from};
ghost use Rattle.bsp_engine.specs.Inside.Talk.{Answered, BreaksOff, GoesOn, Says, SaysPart, Stopped, TalksOn};
ghost use Rattle.bsp_engine.specs.Talk.{TalksUntil};
ghost use Rattle.bsp_engine.specs.Asked.{asks_for_text};
ghost use Rattle.bsp_engine.specs.Document.{WithOwnText};
ghost use Rattle.bsp_engine.specs.JobOf.{job_of};
ghost use Rattle.bsp_engine.specs.Refusal.{IfFault};
ghost use Rattle.bsp_engine.specs.Inside.LiveReplies.{live_replying};
ghost use Rattle.bsp_engine.specs.Live.{due_of};

use crate::asked::{asked_of, asks_for_text};
use crate::asked_text::put_asked_text;
use crate::catalogue::Catalogue;
use crate::errors::{EngineError, JobError};
use crate::jobs::read_job_and_keys;
use crate::live::Live;
use crate::live_blocks::{begin, push_answer};
use crate::terminal::Terminal;
use bsp_crew::{DEPTH_OF_RUNS, Workers};
use bsp_gate::Gate;
use bsp_model::OutOfMemory;
use bsp_model::limits::MOST_DOCUMENT_BYTES;
use bsp_options::Detail;
use bsp_step::Program;
use bsp_text::push_line;
use std::alloc::AllocError;
use std::thread::Threads;

const CHUNK: usize = 4096;

#[derive(Drop)]
pub struct Attendant<P: Program> {
    pub live: Live<P>,
    /// The number of the last block.
    pub last: u64,
    /// The text of the keys of the document that are the catalogue's own.
    pub own: Vec<u8>,
    /// What is to be said next.
    pub text: Vec<u8>,
}

pub fn attendant_of<C: Catalogue, R: Threads + Sync, G: Gate>(
    workers: &Workers<'_, R, G>,
    detail: Detail,
    bytes: &[u8],
) -> Result<Attendant<C::Program>, JobError>
    ensures ok { IfOk result (λ attendant. IsOkAnd (job_of C.meaning bytes.now) (λ job. WithOwnText bytes.now (λ own.
        due_from C.Program.acts C.Program.ending C.Program.looks attendant
        ≡ due_of C.Program.acts C.Program.ending
        (live_replying C.Program.acts C.Program.ending C.Program.looks) detail own job))) }
    ensures fault { IfErr result (λ e. IfFault e (λ f. job_of C.meaning bytes.now ≡ Err f)) }
{
    let (job, own) = read_job_and_keys::<C>(workers.alloc, bytes)?;
    let last = job.batches.len() as u64;
    let mut text = Vec::new(workers.alloc);
    let live = begin(workers, detail, job, &mut text, b"ready\n")?;
    Ok(Attendant {
        live,
        last,
        own,
        text,
    })
}

/// Writes the answer to a line, which has no LF: the text for which it asks, or the block with the next number.
fn respond<P: Program + Drop, R: Threads + Sync, G: Gate>(
    workers: &Workers<'_, R, G>,
    attendant: &mut Attendant<P>,
    line: &[u8],
) -> Result<(), OutOfMemory>
    ensures { OnOk result ((later : List (List ℕ)) →
        due_at P.acts P.ending P.looks attendant.old (line.now ∷ later)
        ≡ due_from P.acts P.ending P.looks attendant.new later) }
{
    if asks_for_text(line) {
        let own = attendant.own.as_slice();
        let input = attendant.live.input();
        let history = attendant.live.history();
        return put_asked_text(&mut attendant.text, own, input, history, line);
    }
    // Where the numbers run out there is no room for a block either.
    let Some(number) = attendant.last.checked_add(1) else {
        return Err(AllocError);
    };
    attendant.last = number;
    attendant.text.clear();
    workers.gate.enter(DEPTH_OF_RUNS, number);
    push_line(&mut attendant.text, "run", &[number])?;
    let asked = asked_of(workers.alloc, line)?;
    push_answer(workers, &mut attendant.live, &mut attendant.text, asked)
}

fn say_all<T: Terminal>(terminal: &mut T, text: &[u8]) -> Result<(), EngineError>
    ensures ok { OnOk result (Says (T.log terminal.old) (T.log terminal.new) text.now) }
    ensures err { OnErr result (SaysPart (T.log terminal.old) (T.log terminal.new) text.now) }
    ensures write { IfErr result (λ e. e ≡ EngineError.Write) }
{
    let mut at = 0;
    while at < text.len() {
        let Ok(n) = terminal.say(&text[at..]) else {
            return Err(EngineError::Write);
        };
        if n == 0 {
            return Err(EngineError::Write);
        }
        at += n;
    }
    Ok(())
}

fn answer<P: Program + Drop, R: Threads + Sync, G: Gate, T: Terminal>(
    workers: &Workers<'_, R, G>,
    attendant: &mut Attendant<P>,
    terminal: &mut T,
    line: &[u8],
) -> Result<(), EngineError>
    ensures ok { OnOk result (Answered (due_at P.acts P.ending P.looks attendant.old)
        (due_at P.acts P.ending P.looks attendant.new) line.now (T.log terminal.old) (T.log terminal.new)) }
    ensures err { IfErr result (λ e. Stopped (due_at P.acts P.ending P.looks attendant.old) line.now
        (T.log terminal.old) (T.log terminal.new) e) }
{
    let answered = respond(workers, attendant, line);
    workers.gate.leave();
    match answered {
        Ok(()) => {
            let text = attendant.text.as_slice();
            say_all(terminal, text)?;
            terminal.answered(line, text, attendant.live.input());
            Ok(())
        }
        Err(_) => Err(EngineError::OutOfMemory),
    }
}

/// Takes the bytes that were heard, one after the other: an LF ends a line, which is answered. Of a line that is too long no more is kept.
fn attend_all<P: Program + Drop, R: Threads + Sync, G: Gate, T: Terminal>(
    workers: &Workers<'_, R, G>,
    attendant: &mut Attendant<P>,
    terminal: &mut T,
    begun: &mut Vec<u8>,
    bytes: &[u8],
) -> Result<(), EngineError>
    ensures ok { OnOk result (GoesOn (due_at P.acts P.ending P.looks attendant.old)
        (due_at P.acts P.ending P.looks attendant.new) begun.old.items bytes.now begun.new.items (T.log terminal.old)
        (T.log terminal.new)) }
    ensures err { IfErr result (λ e. BreaksOff
        (due_at P.acts P.ending P.looks attendant.old) begun.old.items bytes.now (T.log terminal.old)
        (T.log terminal.new) e) }
{
    for byte in bytes {
        if *byte == b'\n' {
            answer(workers, attendant, terminal, begun.as_slice())?;
            begun.clear();
            continue;
        }
        if begun.len() > MOST_DOCUMENT_BYTES {
            continue;
        }
        if begun.push(*byte).is_err() {
            return Err(EngineError::OutOfMemory);
        }
    }
    Ok(())
}

/// Waits for bytes, for which there is room in `chunk`, and answers the lines that end in them. False at the end, where
/// the line that was begun is answered.
fn attend_more<P: Program + Drop, R: Threads + Sync, G: Gate, T: Terminal>(
    workers: &Workers<'_, R, G>,
    attendant: &mut Attendant<P>,
    terminal: &mut T,
    begun: &mut Vec<u8>,
    chunk: &mut [u8],
) -> Result<bool, EngineError>
    ensures more { result ≡ Ok true → GoesOn (due_at P.acts P.ending P.looks attendant.old)
        (due_at P.acts P.ending P.looks attendant.new) begun.old.items [] begun.new.items (T.log terminal.old)
        (T.log terminal.new) }
    ensures end { result ≡ Ok false → TalksOn (due_at P.acts P.ending P.looks attendant.old) begun.old.items
        (T.log terminal.old) (T.log terminal.new) }
    ensures err { IfErr result (λ e. BreaksOff (due_at P.acts P.ending P.looks attendant.old) begun.old.items []
        (T.log terminal.old) (T.log terminal.new) e) }
{
    let Ok(n) = terminal.hear(chunk) else {
        return Err(EngineError::Read);
    };
    if n == 0 {
        let line = begun.as_slice();
        if line.is_empty() {
            return Ok(false);
        }
        let ended = answer(workers, attendant, terminal, line);
        return ended.and(Ok(false));
    }
    let attended = attend_all(workers, attendant, terminal, begun, &chunk[..n]);
    attended.and(Ok(true))
}

/// Says what is to be said next, and then answers each line that is heard before it waits for more, up to the end.
pub fn talk<P: Program + Drop, R: Threads + Sync, G: Gate, T: Terminal>(
    workers: &Workers<'_, R, G>,
    attendant: &mut Attendant<P>,
    terminal: &mut T,
) -> Result<(), EngineError>
    ensures { TalksUntil (due_from P.acts P.ending P.looks attendant.old) (T.log terminal.old)
        (T.log terminal.new) result }
{
    workers.gate.leave();
    say_all(terminal, attendant.text.as_slice())?;
    let mut begun = Vec::new(workers.alloc);
    let mut chunk = [0u8; CHUNK];
    for _ in 0..u64::MAX {
        let more = attend_more(workers, attendant, terminal, &mut begun, &mut chunk)?;
        if !more {
            return Ok(());
        }
    }
    // No terminal gives so many pieces.
    Err(EngineError::OutOfMemory)
}
