//! When a run is worth workers.

ghost use Rattle.std.specs.Prelude.{◌≡◌, false, None, IfNone};

use bsp_gate::Gate;
use bsp_run::Recording;
use std::time::Instant;

/// How many nanoseconds a run goes on alone at least. To start a few threads, each with an arena of the allocator, takes some 200,000.
const NANOS_ALONE: u128 = 500_000;

/// How many nanoseconds a superstep takes at least, on average, that is worth workers.
const NANOS_A_SUPERSTEP: u128 = 20_000;

/// The same where a record is kept, for which each worker has to take memory in every superstep.
const NANOS_A_RECORDED_SUPERSTEP: u128 = 100_000;

/// The time that a run has gone on alone, its supersteps so far, and how long they should be.
#[derive(Clone, Copy)]
pub struct Pace {
    began: Option<Instant>,
    supersteps: u64,
    nanos_a_superstep: u128,
}

impl Pace {
    /// That of a run which begins now.
    pub fn new<G: Gate>(gate: &G, recording: Recording) -> Pace {
        let nanos_a_superstep = match recording {
            Recording::Kept => NANOS_A_RECORDED_SUPERSTEP,
            Recording::None => NANOS_A_SUPERSTEP,
        };
        Pace {
            began: gate.now(),
            supersteps: 0,
            nanos_a_superstep,
        }
    }

    /// Whether the supersteps so far took long enough for workers to be worth their start. Where the gate tells no time, they are.
    pub fn is_worth_workers<G: Gate>(&mut self, gate: &G) -> bool {
        let (Some(began), Some(now)) = (self.began, gate.now()) else {
            return true;
        };
        let nanos = now.duration_since(began).as_nanos();
        let worth = u128::from(self.supersteps).saturating_mul(self.nanos_a_superstep);
        self.supersteps = self.supersteps.saturating_add(1);
        nanos >= NANOS_ALONE && nanos >= worth
    }
}

/// Whether workers are worth their start, where there is a pace.
pub fn calls_workers<G: Gate>(pace: &mut Option<Pace>, gate: &G) -> bool
    ensures never { IfNone pace.old (result ≡ false) }
    ensures none { IfNone pace.old (pace.new ≡ None) }
{
    match pace {
        Some(pace) => pace.is_worth_workers(gate),
        None => false,
    }
}
