//! A program that is watched, with its workers.

use bsp_gate::Gate;
use bsp_incr::Place;
use bsp_model::{End, OutOfMemory};
use bsp_step::{Ctx, Program, View};
use std::alloc::{AllocError, Global};
use std::sync::atomic::Ordering::SeqCst;
use std::sync::atomic::{AtomicBool, AtomicU64};

/// The most supersteps of a run whose places are counted.
const MOST_STEPS: usize = 8;

/// Places of such a run: for each superstep a bit for each process.
#[derive(Drop)]
struct Places {
    processes: [AtomicU64; MOST_STEPS],
}

impl Places {
    fn new() -> Places {
        let none = || AtomicU64::new(0);
        Places {
            processes: [
                none(),
                none(),
                none(),
                none(),
                none(),
                none(),
                none(),
                none(),
            ],
        }
    }

    fn insert(&self, step: u64, pid: u64) {
        if let Some(processes) = self.processes.get(step as usize) {
            let bit = 1u64.rotate_left(u32::try_from(pid).unwrap_or(0));
            processes.fetch_or(bit, SeqCst);
        }
    }

    fn has(&self, place: &Place) -> bool {
        match self.processes.get(place.step as usize) {
            Some(processes) => {
                let bit = 1u64.rotate_left(u32::try_from(place.pid).unwrap_or(0));
                processes.load(SeqCst) & bit != 0
            }
            None => false,
        }
    }

    /// How many there are. Then there are none again.
    fn take_count(&self) -> u64 {
        let mut count = 0u64;
        for processes in &self.processes {
            count = count.saturating_add(u64::from(processes.swap(0, SeqCst).count_ones()));
        }
        count
    }
}

/// What an update has to do: the turns, the deliveries and the looks at words, and at how many places it may look at most, where that was counted by hand.
#[derive(Clone, Copy)]
pub struct Work {
    pub turns: u64,
    pub deliveries: u64,
    pub looks: u64,
    pub most_places: Option<u64>,
}

/// Where and how often a program was asked for a step, and at how many words whether it looks there; how many jobs passed the gate; and whether the steps
/// find no memory for now.
#[derive(Drop)]
pub struct Calls {
    steps: AtomicU64,
    looks: AtomicU64,
    jobs: AtomicU64,
    stepped: Places,
    looked_at: Places,
    pub refuses: AtomicBool,
}

impl Calls {
    pub fn new() -> Calls {
        Calls {
            steps: AtomicU64::new(0),
            looks: AtomicU64::new(0),
            jobs: AtomicU64::new(0),
            stepped: Places::new(),
            looked_at: Places::new(),
            refuses: AtomicBool::new(false),
        }
    }

    /// Whether a step was asked for at each of these places.
    pub fn were_at(&self, places: &[Place]) -> bool {
        places.iter().all(|place| self.stepped.has(place))
    }

    /// Whether so much was done on all threads together, at as many places as there were turns. Then it counts from 0 again. The calling thread makes the
    /// part of a late worker again, and the worker goes on with it in vain. So with workers beside it a turn or a delivery may be made twice, and not more.
    pub fn were(&self, work: Work, workers: usize) -> bool {
        let most = if workers > 1 { 2 } else { 1 };
        let steps = self.steps.swap(0, SeqCst);
        let delivered = self.jobs.swap(0, SeqCst).wrapping_sub(steps);
        let looks = self.looks.swap(0, SeqCst);
        let places = self.stepped.take_count();
        let looked_at = self.looked_at.take_count();
        places == work.turns
            && is_between(steps, work.turns, most)
            && is_between(delivered, work.deliveries, most)
            && looks == work.looks
            && work.most_places.is_none_or(|most| looked_at <= most)
    }
}

/// Whether `count` is `least`, or at most so many times that.
fn is_between(count: u64, least: u64, most: u64) -> bool {
    least <= count && count <= least.saturating_mul(most)
}

/// Each turn and each delivery passes the gate once, on the thread that makes it.
impl Gate for Calls {
    fn pass(&self, _job: usize) {
        self.jobs.fetch_add(1, SeqCst);
    }
}

/// A program, with its footprint, whose calls are counted. That its steps may find no memory changes nothing of what they do else.
#[derive(Drop)]
pub struct Counted<'a, P> {
    pub program: P,
    pub calls: &'a Calls,
}

impl<P: Program> Program for Counted<'_, P> {
    ghost acts = { λ c. P.acts c.program };

    ghost ending = { λ c. P.ending c.program };

    ghost looks = { λ c. P.looks c.program };

    ghost footprint = { λ c. P.footprint c.program };

    fn looks(&self, view: &View<'_>, address: u64) -> bool {
        let calls = self.calls;
        calls.looks.fetch_add(1, SeqCst);
        calls.looked_at.insert(view.step, view.pid);
        self.program.looks(view, address)
    }

    fn step(&self, alloc: Global, ctx: &mut Ctx<'_>) -> Result<End, OutOfMemory> {
        let calls = self.calls;
        calls.steps.fetch_add(1, SeqCst);
        calls.stepped.insert(ctx.step(), ctx.pid());
        calls.looked_at.insert(ctx.step(), ctx.pid());
        if calls.refuses.load(SeqCst) {
            return Err(AllocError);
        }
        self.program.step(alloc, ctx)
    }
}

/// A program with the footprint that looks everywhere.
#[derive(Drop)]
pub struct Everywhere<P>(pub P);

impl<P: Program> Program for Everywhere<P> {
    ghost use Rattle.std.specs.Prelude.{true};
    ghost use Rattle.bsp_step.specs.LooksEverywhere.{looks_everywhere};

    ghost acts = { λ e. P.acts e.0 };

    ghost ending = { λ e. P.ending e.0 };

    ghost looks = { λ _ _ _. true };

    ghost footprint = { λ e. looks_everywhere (P.acts e.0) (P.ending e.0) };

    fn looks(&self, _view: &View<'_>, _address: u64) -> bool {
        true
    }

    fn step(&self, alloc: Global, ctx: &mut Ctx<'_>) -> Result<End, OutOfMemory> {
        self.0.step(alloc, ctx)
    }
}
