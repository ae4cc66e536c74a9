//! Progress: long work shows on standard error the run and the superstep that it is at.

use bsp_crew::DEPTH_OF_RUNS;
use bsp_gate::Gate;
use std::env::Env;
use std::io::IsTerminal;
use std::sync::atomic::{AtomicU64, Ordering};
use std::time::{Clock, Instant};

/// After so many milliseconds the first line is written.
const FIRST_MILLIS: u64 = 500;

/// So many milliseconds lie between two lines at least.
const NEXT_MILLIS: u64 = 100;

/// Stands for no time.
const NEVER: u64 = u64::MAX;

/// Where this variable of the environment is 1, runs start their workers at once, as many as are asked for. It is for tests.
const AT_ONCE: &str = "FANNULAVO_WORKERS_AT_ONCE";

/// A runtime that tells whether its standard error is a terminal.
pub trait Watched {
    fn is_watched(&self) -> bool;
}

impl Watched for HostRuntime {
    fn is_watched(&self) -> bool {
        self.stderr().is_terminal()
    }
}

/// The gate of a tool. It tells the time of a runtime, and writes to its standard error the run and the superstep that the work is at: one line,
/// which is rewritten in place and taken away in the end.
#[derive(Drop)]
pub struct Progress<'a, R> {
    rt: &'a R,
    /// Whether callers are told the time.
    tells_time: bool,
    /// When the tool began, where progress is shown. The times below are milliseconds from then on.
    began: Option<Instant>,
    /// When the present work began, or `NEVER` where there is none.
    since: AtomicU64,
    /// When the line was written that stands there, or `NEVER` where none does.
    written: AtomicU64,
    run: AtomicU64,
}

fn starts_at_once<R: Env>(rt: &R) -> bool {
    let mut value = [0u8; 1];
    matches!(rt.var(AT_ONCE, &mut value), Ok(1)) && value[0] == b'1'
}

impl<'a, R: Clock + Eprint + Env> Progress<'a, R> {
    pub fn new(rt: &'a R, is_shown: bool) -> Progress<'a, R> {
        Progress {
            rt,
            tells_time: !starts_at_once(rt),
            began: if is_shown {
                Instant::now(rt).ok()
            } else {
                None
            },
            since: AtomicU64::new(0),
            written: AtomicU64::new(NEVER),
            run: AtomicU64::new(0),
        }
    }
}

impl<'a, R: Clock + Eprint> Progress<'a, R> {
    fn millis(&self) -> Option<u64> {
        let began = self.began?;
        let now = Instant::now(self.rt).ok()?;
        let millis = now.duration_since(began).as_nanos() / 1_000_000;
        Some(millis.min(u128::from(NEVER)) as u64)
    }

    /// Whether a line is due. Of several threads one is told so, and writes it.
    fn claims_line(&self) -> bool {
        let Some(now) = self.millis() else {
            return false;
        };
        let written = self.written.load(Ordering::SeqCst);
        let due = if written == NEVER {
            self.since
                .load(Ordering::SeqCst)
                .saturating_add(FIRST_MILLIS)
        } else {
            written.saturating_add(NEXT_MILLIS)
        };
        due <= now
            && self
                .written
                .compare_exchange(written, now, Ordering::SeqCst, Ordering::SeqCst)
                .is_ok()
    }
}

impl<'a, R: Clock + Eprint + Sync> Gate for Progress<'a, R> {
    fn pass(&self, _job: usize) {}

    fn now(&self) -> Option<Instant> {
        if self.tells_time {
            Instant::now(self.rt).ok()
        } else {
            None
        }
    }

    fn enter(&self, depth: usize, number: u64) {
        if depth == DEPTH_OF_RUNS {
            self.run.store(number, Ordering::SeqCst);
            // After a pause the time of the work begins anew.
            if self.since.load(Ordering::SeqCst) == NEVER {
                let now = self.millis().unwrap_or(NEVER);
                self.since.store(now, Ordering::SeqCst);
            }
        } else if self.claims_line() {
            let run = self.run.load(Ordering::SeqCst);
            let _ = eprint!(self.rt; "\rrun {run}, superstep {number}\x1b[K");
        }
    }

    fn leave(&self) {
        self.since.store(NEVER, Ordering::SeqCst);
        if self.written.swap(NEVER, Ordering::SeqCst) != NEVER {
            let _ = eprint!(self.rt; "\r\x1b[K");
        }
    }

    fn ends_process(&self) -> bool {
        true
    }
}
