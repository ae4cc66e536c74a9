//! Two ends of a conversation: what is heard and what is said, in the order in which it was.

ghost use Rattle.std.specs.Prelude.{◌≡◌, ◌≤◌, ◌∷◌, [], List, Option, length, take, IfOk, OnErr, ◌+◌, ◌-◌, ◌^◌, ◌<◌, nat_lt};
ghost use Rattle.bsp_engine.specs.Talk.{Event, Fails, Goes, heard, said};

use crate::explain::explain_line;
use crate::flow::{Failed, Sink, Source};
use bsp_model::Input;
use std::alloc::Global;
use std::io::{Read, Write};
use std::marker::Model;

/// Where bytes come from and where they go to, of which the one may wait for the other.
pub trait Terminal {
    // What happened, the newest first, where it is known. Where it is not, it stays so.
    ghost log: { Self → Option (List Event) };

    /// Waits for bytes, and puts them at the front of `buf`: as many as it answers. Of a `buf` with room 0 is the answer only at the end.
    fn hear(&mut self, buf: &mut [u8]) -> Result<usize, Failed>
        ensures bound { IfOk result (λ n. n ≤ length buf.new) }
        ensures heard { IfOk result (λ n. Goes (log self.old) (log self.new) (heard (take n buf.new) ∷ [])) }
        ensures failed { OnErr result (Fails (log self.old) (log self.new)) };

    /// Hands on bytes from the front of `buf`, as many as it answers, and keeps none of them back. After `Failed` none went out.
    fn say(&mut self, buf: &[u8]) -> Result<usize, Failed>
        ensures bound { IfOk result (λ n. n ≤ length buf.now) }
        ensures said { IfOk result (λ n. Goes (log self.old) (log self.new) (said (take n buf.now) ∷ [])) }
        ensures failed { OnErr result (Fails (log self.old) (log self.new)) };

    /// Called where all of the answer to a line was said, with the input after it. Somewhere else more may be told of the line.
    fn answered(&mut self, _line: &[u8], _answer: &[u8], _input: &Input)
        ensures kept { log self.new ≡ log self.old }
    {}
}

/// A reader and a writer of std, and a runtime, whose standard error is told why a line had no effect. Nothing is known of what happened.
#[derive(Drop)]
pub struct Console<'a, E, R, W> {
    rt: &'a E,
    reader: R,
    writer: W,
}

impl<'a, E, R, W> Console<'a, E, R, W> {
    /// The three as one.
    pub fn new(rt: &'a E, reader: R, writer: W) -> Console<'a, E, R, W> {
        Console { rt, reader, writer }
    }
}

impl<'a, E: Alloc<A = Global> + Eprint, R: Read, W: Write> Terminal for Console<'a, E, R, W> {
    ghost use Rattle.std.specs.Prelude.{None};

    ghost log = { λ _. None };

    fn hear(&mut self, buf: &mut [u8]) -> Result<usize, Failed> {
        self.reader.read(buf).or(Err(Failed))
    }

    fn say(&mut self, buf: &[u8]) -> Result<usize, Failed> {
        let n = self.writer.write(buf).or(Err(Failed))?;
        self.writer.flush().and(Ok(n)).or(Err(Failed))
    }

    fn answered(&mut self, line: &[u8], answer: &[u8], input: &Input) {
        explain_line(self.rt, line, answer, input);
    }
}

/// A reader or writer of std, and how often it failed. It answers as that does; any error is `Failed`.
#[derive(Drop)]
pub struct Counted<T> {
    inner: T,
    failures: u64,
}

impl<T> Model for Counted<T> {
    ghost use Rattle.bsp_engine.specs.Counting.{Counting};

    ghost Value = { Counting T };

    ghost view = { λ c. record { inner = c.inner; failures = c.failures } };
}

impl<T> Counted<T> {
    /// No failure is counted yet.
    pub fn new(inner: T) -> Counted<T>
        ensures { result ≡ record { inner = inner; failures = 0 } }
    {
        Counted { inner, failures: 0 }
    }

    /// Whether a failure is counted.
    pub fn has_failed(&self) -> bool
        ensures { result ≡ nat_lt 0 self.now.failures }
    {
        self.failures > 0
    }

    fn count_failure(&mut self)
        requires { self.old.failures < 2 ^ 64 - 1 }
        ensures { self.new ≡ record self.old { failures = self.old.failures + 1 } }
    {
        self.failures += 1;
    }
}

impl<R: Read> Source for Counted<R> {
    ghost remaining = { λ c. R.remaining c.inner };

    ghost failures = { λ c. c.failures };

    fn read(&mut self, buf: &mut [u8]) -> Result<usize, Failed> {
        match self.inner.read(buf) {
            Ok(n) => Ok(n),
            Err(_) => {
                self.count_failure();
                Err(Failed)
            }
        }
    }
}

impl<W: Write> Sink for Counted<W> {
    ghost contents = { λ c. W.contents c.inner };

    ghost failures = { λ c. c.failures };

    fn write(&mut self, buf: &[u8]) -> Result<usize, Failed> {
        match self.inner.write(buf) {
            Ok(n) => {
                if n == 0 && !buf.is_empty() {
                    self.count_failure();
                }
                Ok(n)
            }
            Err(_) => {
                self.count_failure();
                Err(Failed)
            }
        }
    }
}
