//! Lanes of units, and the hands of a worker at all lanes.

ghost use Rattle.std.specs.Prelude.{◌≡◌, ◌<◌, ◌≤◌, IfOk, IfSome, length};
ghost use Rattle.bsp_pool.specs.Lanes.{HasDrawn};

use crate::OutOfMemory;
use crate::hand::{Hand, hands_of_lane};
use std::alloc::Global;

/// The most workers of a pool, each with a lane.
pub const MOST_WORKERS: usize = 16;

/// The units of a phase, dealt to the lanes in their order. Each lane has equally many, but the last lanes may have fewer.
#[derive(Clone, Copy)]
pub struct Deal {
    units: usize,
    a_lane: usize,
    /// The number of the first unit of each lane: its claim word as the phase opens.
    firsts: [u64; MOST_WORKERS],
}

impl Deal {
    /// How many units the phase has.
    pub(crate) fn units(&self) -> usize {
        self.units
    }
}

/// The hands of a worker, one at each lane, and the phase in which it draws. It draws from its own lane first, and from each further lane once the lanes
/// before have no unit left.
#[derive(Drop)]
pub struct Hands {
    hands: Vec<Hand>,
    own: usize,
    deal: Deal,
    /// How many lanes have no unit left, its own lane counted first.
    passed: usize,
}

impl Hands {
    fn new(alloc: Global, own: usize) -> Hands {
        Hands {
            hands: Vec::new(alloc),
            own,
            deal: Deal {
                units: 0,
                a_lane: 0,
                firsts: [0; MOST_WORKERS],
            },
            passed: 0,
        }
    }

    /// Opens a phase of so many units, in which this worker draws from now on.
    pub fn deal(&mut self, units: usize) -> Deal {
        let mut firsts = [0; MOST_WORKERS];
        for (lane, hand) in self.hands.iter().enumerate() {
            if lane < MOST_WORKERS {
                firsts[lane] = hand.next();
            }
        }
        let deal = Deal {
            units,
            a_lane: units.div_ceil(self.hands.len().max(1)),
            firsts,
        };
        self.begin(&deal);
        deal
    }

    /// From now on the worker draws in this phase.
    pub(crate) fn begin(&mut self, deal: &Deal) {
        self.deal = *deal;
        self.passed = 0;
    }

    /// Draws a unit, if the phase has one left: its number, counted from 0.
    pub fn draw(&mut self) -> Option<usize>
        ensures unit { IfSome result (λ unit. unit < self.old.deal.units) }
        ensures drawn { IfSome result (λ unit. HasDrawn self.old.deal unit self.new.hands.items) }
    {
        let lanes = self.hands.len();
        for passed in self.passed..lanes {
            self.passed = passed;
            let drawn = self.draw_at((self.own.saturating_add(passed)) % lanes);
            if drawn.is_some() {
                return drawn;
            }
        }
        self.passed = lanes;
        None
    }

    /// Draws a unit of this lane.
    fn draw_at(&mut self, lane: usize) -> Option<usize>
        requires { lane < length self.old.hands.items }
        ensures deal { self.new.deal ≡ self.old.deal }
        ensures lanes { length self.new.hands.items ≡ length self.old.hands.items }
        ensures unit { IfSome result (λ unit. unit < self.old.deal.units) }
        ensures drawn { IfSome result (λ unit. HasDrawn self.old.deal unit self.new.hands.items) }
    {
        if lane >= MOST_WORKERS {
            return None;
        }
        let first = self.deal.firsts[lane];
        let before = lane.saturating_mul(self.deal.a_lane).min(self.deal.units);
        let count = (self.deal.units - before).min(self.deal.a_lane);
        let unit = self.hands[lane].draw(first, count as u64)?;
        Some(before + unit as usize)
    }
}

/// The hands of each of so many workers, 1 to 16, or `OutOfMemory`.
pub(crate) fn hands_of_workers(alloc: Global, workers: usize) -> Result<Vec<Hands>, OutOfMemory>
    requires { workers ≤ 16 }
    ensures { IfOk result (λ all. length all.items ≡ workers) }
{
    let mut all = Vec::with_capacity(alloc, workers)?;
    for worker in 0..workers {
        all.push_reserved(Hands::new(alloc, worker));
    }
    for _lane in 0..workers {
        let mut hands = hands_of_lane(alloc, workers)?;
        for worker in 0..workers {
            if let Some(hand) = hands.pop() {
                all[worker].hands.push(hand)?;
            }
        }
    }
    Ok(all)
}
