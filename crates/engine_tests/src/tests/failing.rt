//! A source and a sink over bytes, with a set point of failure.

ghost use Rattle.std.specs.Prelude.{◌≡◌, Some};

use super::bundled::Flow;
use bsp_engine::{Failed, Sink, Source};
use std::alloc::Global;
use std::io::Read;

/// A source of bytes, at most `at_once` a read, of which a read fails once `reads_left` were made.
#[derive(Drop)]
pub struct FailingSource<'a> {
    pub bytes: &'a [u8],
    pub at_once: usize,
    pub reads_left: usize,
    pub failures: u64,
}

impl<'a> Source for FailingSource<'a> {
    ghost remaining = { λ s. Some s.bytes.now };

    ghost failures = { λ s. s.failures };

    fn read(&mut self, buf: &mut [u8]) -> Result<usize, Failed> {
        if self.reads_left == 0 {
            self.failures += 1;
            return Err(Failed);
        }
        self.reads_left -= 1;
        let most = self.at_once.max(1).min(buf.len());
        match self.bytes.read(&mut buf[..most]) {
            Ok(n) => Ok(n),
            Err(_) => {
                self.failures += 1;
                Err(Failed)
            }
        }
    }
}

/// A sink that keeps the bytes, at most `at_once` a write. Once `room` bytes went out, it takes no byte, or fails.
#[derive(Drop)]
pub struct FailingSink {
    pub bytes: Vec<u8>,
    pub at_once: usize,
    pub room: usize,
    pub takes_none: bool,
    pub failures: u64,
}

impl Sink for FailingSink {
    ghost contents = { λ s. Some s.bytes.items };

    ghost failures = { λ s. s.failures };

    fn write(&mut self, buf: &[u8]) -> Result<usize, Failed> {
        let n = buf.len().min(self.at_once).min(self.room);
        if n == 0 && !buf.is_empty() {
            self.failures += 1;
            return if self.takes_none { Ok(0) } else { Err(Failed) };
        }
        if self.bytes.extend_from_slice(&buf[..n]).is_err() {
            self.failures += 1;
            return Err(Failed);
        }
        self.room -= n;
        Ok(n)
    }
}

/// The source of a document.
pub fn source(bytes: &[u8], flow: Flow) -> FailingSource<'_>
    ensures { result.failures ≡ 0 }
{
    FailingSource {
        bytes,
        at_once: flow.at_once,
        reads_left: flow.reads_left,
        failures: 0,
    }
}

/// The sink of a report.
pub fn sink(alloc: Global, flow: Flow) -> FailingSink
    ensures { result.failures ≡ 0 }
{
    FailingSink {
        bytes: Vec::new(alloc),
        at_once: flow.at_once,
        room: flow.room,
        takes_none: flow.takes_none,
        failures: 0,
    }
}
