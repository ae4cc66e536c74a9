//! The workers of a run.

ghost use Rattle.std.specs.Prelude.{◌≡◌, ◌<◌, ◌≤◌, ◌-◌, min};

use bsp_gate::Gate;
use std::alloc::Global;
use std::thread::{Threads, available_parallelism};

/// A runtime, where memory comes from, how many workers may be started, and the gate that each job passes.
#[derive(Drop)]
pub struct Workers<'a, R, G> {
    pub rt: &'a R,
    pub alloc: Global,
    /// 1 to 16.
    pub count: usize,
    pub gate: &'a G,
    pub ghost some: { 0 < count },
    pub ghost few: { count ≤ 16 },
}

impl<'a, R, G> Workers<'a, R, G> {
    /// A bundle for `count` workers, 1 to 16.
    pub fn new(rt: &'a R, alloc: Global, count: usize, gate: &'a G) -> Workers<'a, R, G>
        requires { (0 < count) × (count ≤ 16) }
        ensures { result.count ≡ count }
    {
        Workers {
            rt,
            alloc,
            count,
            gate,
        }
    }

    /// The number of workers that find work in a run of `processes` processes.
    pub fn useful(&self, processes: usize) -> usize
        ensures { result ≡ min self.now.count processes }
    {
        self.count.min(processes)
    }
}

impl<'a, R: Threads, G: Gate> Workers<'a, R, G> {
    /// The number of workers that start beside the calling thread, which is one of the `useful` workers. Where the gate tells the time, all
    /// together are no more than the processors.
    pub fn beside(&self, useful: usize) -> usize
        ensures { result ≤ useful - 1 }
    {
        if self.gate.now().is_none() {
            return useful.saturating_sub(1);
        }
        match available_parallelism(self.rt) {
            Ok(processors) => useful.min(processors.get()).saturating_sub(1),
            Err(_) => 0,
        }
    }
}
