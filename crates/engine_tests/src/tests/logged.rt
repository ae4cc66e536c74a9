//! A terminal whose log is known.

ghost use Rattle.std.specs.Prelude.{◌∷◌, [], OnOk, OnErr, if◌then◌else◌};
ghost use Rattle.bsp_engine.specs.Talk.{Fails, Goes, heard, said};

use bsp_engine::{Failed, Terminal};
use std::alloc::Global;
use std::collections::VecDeque;

/// Bytes that were heard or said at once.
#[derive(Drop)]
struct Piece {
    is_said: bool,
    bytes: Vec<u8>,
}

/// A terminal at which a text is heard, at most `at_once` bytes a call, and as many are said. It keeps what happens, the newest first.
#[derive(Drop)]
pub struct LoggedTerminal<'a> {
    alloc: Global,
    text: &'a [u8],
    at_once: usize,
    hears_left: usize,
    pieces: VecDeque<Piece>,
    has_failed: bool,
}

impl<'a> LoggedTerminal<'a> {
    /// A terminal at which nothing happened yet. It fails to hear after so many calls.
    pub fn new(
        alloc: Global,
        text: &'a [u8],
        at_once: usize,
        hears_left: usize,
    ) -> LoggedTerminal<'a> {
        LoggedTerminal {
            alloc,
            text,
            at_once,
            hears_left,
            pieces: VecDeque::new(alloc),
            has_failed: false,
        }
    }

    /// Whether this text is all that was said.
    pub fn has_said(&self, text: &[u8]) -> bool {
        let mut left = text;
        for piece in self.pieces.iter().rev() {
            if piece.is_said {
                let Some(later) = left.strip_prefix(piece.bytes.as_slice()) else {
                    return false;
                };
                left = later;
            }
        }
        left.is_empty()
    }

    /// Keeps what was heard or said, unless something failed before.
    fn keep(&mut self, is_said: bool, bytes: &[u8]) -> Result<(), Failed>
        ensures ok { OnOk result (Goes
            (⟦<LoggedTerminal<'a> as Terminal>⟧.log self.old)
            (⟦<LoggedTerminal<'a> as Terminal>⟧.log self.new)
            ((if is_said then said bytes.now else heard bytes.now) ∷ [])) }
        ensures err { OnErr result (Fails
            (⟦<LoggedTerminal<'a> as Terminal>⟧.log self.old)
            (⟦<LoggedTerminal<'a> as Terminal>⟧.log self.new)) }
    {
        if !self.has_failed
            && let Ok(bytes) = bytes.iter().copied().collect(self.alloc)
            && self.pieces.push_front(Piece { is_said, bytes }).is_ok()
        {
            return Ok(());
        }
        self.has_failed = true;
        Err(Failed)
    }
}

impl<'a> Terminal for LoggedTerminal<'a> {
    ghost use Rattle.std.specs.Prelude.{◌∷◌, map, Some, if◌then◌else◌};
    ghost use Rattle.bsp_engine.specs.Talk.{failed, heard, said};

    ghost log = { λ t.
        let events = map (λ piece. if piece.is_said then said piece.bytes.items else heard piece.bytes.items) t.pieces.items in
        Some (if t.has_failed then failed ∷ events else events) };

    fn hear(&mut self, buf: &mut [u8]) -> Result<usize, Failed> {
        if self.hears_left == 0 {
            self.has_failed = true;
            return Err(Failed);
        }
        self.hears_left -= 1;
        let n = self.text.len().min(self.at_once).min(buf.len());
        let (now, later) = self.text.split_at(n);
        buf[..n].copy_from_slice(now);
        self.text = later;
        self.keep(false, now)?;
        Ok(n)
    }

    fn say(&mut self, buf: &[u8]) -> Result<usize, Failed> {
        let n = buf.len().min(self.at_once);
        self.keep(true, &buf[..n])?;
        Ok(n)
    }
}
