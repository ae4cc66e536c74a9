//! Workers that stay until a run is over, and draw the units of its phases beside the calling thread.

ghost use Rattle.std.specs.Prelude.{◌≡◌, ◌-◌, ◌<◌, ◌≤◌, IfOk, length};

use crate::OutOfMemory;
use crate::lanes::{Deal, hands_of_workers};
use crate::patience::Patience;
use crate::seat::{Desk, Seat, Sheet};
use bsp_gate::Gate;
use crossbeam_utils::CachePadded;
use std::alloc::Global;
use std::marker::Model;
use std::sync::MutexGuard;
use std::sync::atomic::AtomicU64;
use std::sync::atomic::Ordering::SeqCst;
use std::thread::{Threads, map_indices};
use std::time::Instant;

/// The workers of a pool, each with a lane and a sheet. The first is the calling thread. Contracts see a pool as the number of its workers.
#[derive(Drop)]
pub struct Pool<S> {
    seats: Vec<Seat<S>>,
    /// 1 once the run is over, so that the workers leave.
    over: CachePadded<AtomicU64>,
}

impl<S> Model for Pool<S> {
    ghost use Rattle.std.specs.Prelude.{ℕ, length};

    ghost Value = { ℕ };

    ghost view = { λ p. length p.seats.items };
}

impl<S: Sheet> Pool<S> {
    /// A pool of as many workers as there are sheets, at most 16; or `OutOfMemory`.
    pub fn new(alloc: Global, sheets: Vec<S>) -> Result<Pool<S>, OutOfMemory>
        requires { length sheets.items ≤ 16 }
        ensures { IfOk result (λ pool. pool ≡ length sheets.items) }
    {
        let workers = sheets.len();
        let hands = hands_of_workers(alloc, workers)?;
        let mut seats = Vec::with_capacity(alloc, workers)?;
        for (hands, sheet) in hands.into_iter().zip(sheets) {
            seats.push(Seat::new(hands, sheet))?;
        }
        Ok(Pool {
            seats,
            over: CachePadded::new(AtomicU64::new(0)),
        })
    }

    /// The seats of all workers, that of the calling thread first.
    pub(crate) fn seats(&self) -> &[Seat<S>]
        ensures { length result.now ≡ self.now }
    {
        self.seats.as_slice()
    }

    /// The desk of the calling thread.
    pub fn own_desk(&self) -> Option<MutexGuard<'_, Desk<S>>> {
        self.seats.first()?.take_back()
    }

    /// Lets the workers beside the calling thread that are free draw in a phase.
    pub(crate) fn open(&self, deal: &Deal) {
        for seat in self.useful(deal) {
            if let Some(desk) = seat.take_anew() {
                seat.open(desk, deal);
            }
        }
    }

    /// The seats of the workers beside it.
    pub fn beside(&self) -> &[Seat<S>]
        ensures { length result.now ≡ self.now - 1 }
    {
        match self.seats.split_first() {
            Some((_own, beside)) => beside,
            None => &[],
        }
    }

    /// The seats of the workers beside it that are of use in a phase, which are fewer than its units.
    pub fn useful(&self, deal: &Deal) -> &[Seat<S>] {
        let beside = self.beside();
        let useful = deal.units().saturating_sub(1).min(beside.len());
        &beside[..useful]
    }

    /// Tells the workers to leave.
    pub fn dismiss(&self) {
        let over: &AtomicU64 = &self.over;
        over.store(1, SeqCst);
    }

    /// Waits until no worker beside the calling thread is at work, or patience ends. The calling thread worked from this time on.
    pub(crate) fn wait<G: Gate>(&self, began: Option<Instant>, gate: &G) {
        let mut patience = Patience::new(began, gate);
        for _look in 0..u64::MAX {
            if !self.waits(&mut patience, gate) {
                return;
            }
        }
    }

    /// Waits a little, where a worker beside the calling thread is at work and patience lasts. Else false.
    pub fn waits<G: Gate>(&self, patience: &mut Patience, gate: &G) -> bool {
        for seat in self.beside() {
            if seat.is_at_work() {
                return patience.lasts(gate);
            }
        }
        false
    }

    /// Lets the workers beside the calling thread draw in all phases until they are told to leave, each in a thread of its own where one can be made.
    /// A worker works each unit by its number, and rests after each phase.
    pub fn attend<F: Fn(&mut S, usize) + Sync, H: Fn() + Sync, R: Threads + Sync>(
        &self,
        rt: &R,
        alloc: Global,
        work: &F,
        rest: &H,
    )
    where
        S: Send,
        requires work { F.IsAlwaysCallable work.now }
        requires rest { H.IsAlwaysCallable rest.now }
    {
        let seats = self.beside();
        let attend = |place: usize|
            requires { (place < length seats.now) × F.IsAlwaysCallable work.now × H.IsAlwaysCallable rest.now }
        { seats[place].attend(work, rest, &self.over) };
        // Where a thread cannot start, its desk stays empty: the units of its lane are drawn by the rest.
        let _ = map_indices(rt, alloc, seats.len(), &attend);
    }
}
