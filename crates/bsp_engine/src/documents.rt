//! From the bytes of a document to the bytes of its report, and on to the answers of a live session.

ghost use Rattle.std.specs.Prelude.{◌≡◌, ◌≢◌, ◌<◌, ◌≤◌, ◌+◌, ◌-◌, ◌^◌, length, IfOk, OnOk, IfErr, IfSome, Ok, Err, ◌⊎◌};
ghost use Rattle.std.specs.Io.KnownBytes.{IsAtEnd};
ghost use Rattle.bsp_engine.specs.Flow.{TakesAtMost};
ghost use Rattle.bsp_model.specs.Limits.{most_document_bytes};
ghost use Rattle.bsp_engine.specs.Refusal.{IfFault};
ghost use Rattle.bsp_engine.specs.Reported.{IsAnswered};
ghost use Rattle.bsp_engine.specs.Inside.Report.{report_of};
ghost use Rattle.bsp_engine.specs.Followed.{Follows};
ghost use Rattle.bsp_engine.specs.Talk.{HasFailed, HasNotWritten};

use crate::blocks::put_report;
use crate::catalogue::Catalogue;
use crate::conversation::{attendant_of, talk};
use crate::errors::{EngineError, JobError, JobFault};
use crate::flow::{Sink, Source, read_all, write_text};
use crate::jobs::read_job;
use crate::terminal::Terminal;
use bsp_crew::Workers;
use bsp_gate::{Gate, let_go};
use bsp_model::limits::MOST_WORKERS;
use bsp_options::Options;
use std::alloc::Global;
use std::thread::Threads;

fn put_report_of<C: Catalogue, R: Threads + Sync, G: Gate>(
    workers: &Workers<'_, R, G>,
    bytes: &[u8],
    options: Options,
    text: &mut Vec<u8>,
) -> Result<(), JobError>
    requires short { length bytes.now ≤ most_document_bytes }
    ensures ok { OnOk result
        (report_of C.meaning C.Program.acts C.Program.ending C.Program.looks options.scratch options.detail bytes.now
        ≡ Ok text.new.items) }
    ensures fault { IfErr result (λ e. IfFault e
        (λ f. report_of C.meaning C.Program.acts C.Program.ending C.Program.looks options.scratch options.detail
        bytes.now ≡ Err (EngineError.Job f))) }
{
    let job = read_job::<C>(workers.alloc, bytes)?;
    Ok(put_report(workers, options.scratch, options.detail, job, text)?)
}

/// Reads a document to its end, runs its job by `options.workers` workers, and writes the report: all of it is made before the first write.
///
/// From scratch the workers run each input from its start, and the report has no updates. With places each update tells its own, and with
/// changes each block after the first only what is another than before.
/// More than `MOST_DOCUMENT_BYTES` bytes are `TooLong`, and at most one byte more is taken from the reader. The document is left in `document`.
/// `Job` is answered where the bytes are no job, `Read` where a read failed, `Write` where a write failed or took no byte; then a beginning of
/// the report went out. After every other error nothing was written.
pub fn engine<C: Catalogue, R: Threads + Sync, S: Source, K: Sink, G: Gate>(
    rt: &R,
    alloc: Global,
    options: Options,
    reader: &mut S,
    writer: &mut K,
    document: &mut Vec<u8>,
    gate: &G,
) -> Result<(), EngineError>
    requires workers { (0 < options.workers) × (options.workers ≤ MOST_WORKERS) }
    requires source { S.failures reader.old < 2 ^ 64 - 1 }
    requires sink { K.failures writer.old < 2 ^ 64 - 1 }

    // The document's report went out, or it has none for the reason that is answered, unless the machine failed; and nothing else went out.
    ensures answer { IfSome (S.remaining reader.old) (λ bytes.
        IsAnswered C.meaning C.Program.acts C.Program.ending C.Program.looks options.scratch options.detail bytes
        (K.contents writer.old) (K.contents writer.new) result) }
    ensures nothing { IfErr result (λ e. e ≢ EngineError.Write → writer.new ≡ writer.old) }

    // All was read, and never more than one byte past the limit.
    ensures end { OnOk result (IsAtEnd (S.remaining reader.new)) }
    ensures taken { TakesAtMost (most_document_bytes + 1) (S.remaining reader.old) (S.remaining reader.new) }

    // The document is there for whoever tells more of its fault.
    ensures document { (fault : JobFault) → result ≡ Err (EngineError.Job fault)
        → IfSome (S.remaining reader.old) (λ bytes. document.new.items ≡ bytes) }

    // Failures are counted where they are answered.
    ensures read_failed { result ≡ Err EngineError.Read → S.failures reader.new ≡ S.failures reader.old + 1 }
    ensures read_calm { result ≢ Err EngineError.Read → S.failures reader.new ≡ S.failures reader.old }
    ensures write_failed { result ≡ Err EngineError.Write → K.failures writer.new ≡ K.failures writer.old + 1 }
    ensures write_calm { result ≢ Err EngineError.Write → K.failures writer.new ≡ K.failures writer.old }
{
    read_all(reader, document)?;
    let workers = Workers::new(rt, alloc, options.workers, gate);
    let mut text = Vec::new(alloc);
    put_report_of::<C, _, _>(&workers, document.as_slice(), options, &mut text)?;
    gate.leave();
    match write_text(writer, text.as_slice()) {
        Ok(()) => Ok(()),
        Err(_) => Err(EngineError::Write),
    }
}

/// Reads a document to its end, says its report and a line `ready`, and then answers each line that is heard with a block, until there are no more.
/// `options.workers` workers share the work.
///
/// The document is left in `document`. `Job` is answered where its bytes are no job, `TooLong` where they are more than `MOST_DOCUMENT_BYTES`, `Read` where
/// a read failed, `Write` where a write failed or took no byte; then a beginning of what is due was said. After every other error whole blocks were.
pub fn follow<C: Catalogue, R: Threads + Sync, S: Source, T: Terminal, G: Gate>(
    rt: &R,
    alloc: Global,
    options: Options,
    source: &mut S,
    terminal: &mut T,
    document: &mut Vec<u8>,
    gate: &G,
) -> Result<(), EngineError>
    requires workers { (0 < options.workers) × (options.workers ≤ MOST_WORKERS) }
    requires source { S.failures source.old < 2 ^ 64 - 1 }

    // The job's report was said, and then a block for each line, before more was waited for; or this broke off. A document that has no job
    // is answered why.
    ensures answer { IfSome (S.remaining source.old) (λ bytes.
        Follows C.meaning C.Program.acts C.Program.ending C.Program.looks options.detail bytes
        (T.log terminal.old) (T.log terminal.new) (terminal.new ≡ terminal.old) result) }

    // All of the document was read, and never more than one byte past the limit.
    ensures end { OnOk result (IsAtEnd (S.remaining source.new)) }
    ensures taken { TakesAtMost (most_document_bytes + 1) (S.remaining source.old) (S.remaining source.new) }

    // The document is there for whoever tells more of its fault.
    ensures document { (fault : JobFault) → result ≡ Err (EngineError.Job fault) →
        IfSome (S.remaining source.old) (λ bytes. document.new.items ≡ bytes) }

    // A failure is counted, or it is the newest event at the terminal.
    ensures read_failed { result ≡ Err EngineError.Read →
        (S.failures source.new ≡ S.failures source.old + 1) ⊎ HasFailed (T.log terminal.new) }
    ensures read_calm { result ≢ Err EngineError.Read → S.failures source.new ≡ S.failures source.old }
    ensures write_failed { result ≡ Err EngineError.Write → HasNotWritten (T.log terminal.new) }
{
    read_all(source, document)?;
    let workers = Workers::new(rt, alloc, options.workers, gate);
    let mut attendant = attendant_of::<C, _, _>(&workers, options.detail, document.as_slice())?;
    let talked = talk(&workers, &mut attendant, terminal);
    let_go(attendant, gate);
    talked
}
