//! The place of a worker in a pool.

use crate::lanes::{Deal, Hands};
use crate::patience::{LOOKS_FOR_AN_ORDER, pause};
use crossbeam_utils::CachePadded;
use std::sync::atomic::AtomicU64;
use std::sync::atomic::Ordering::SeqCst;
use std::sync::{Mutex, MutexGuard};

/// There is no order, and no answer.
const IDLE: u64 = 0;

/// An order waits for the worker.
const WAITING: u64 = 1;

/// The worker draws and works units, and has the lock.
const WORKING: u64 = 2;

/// The same, of an earlier phase.
const LATE: u64 = 3;

/// The worker has answered.
const ANSWERED: u64 = 4;

/// What a worker writes on, and where it leaves what it makes.
pub trait Sheet: Drop {
    /// Called once no unit is left in the phase.
    fn close(&mut self);
}

/// The hands of a worker, and its sheet.
#[derive(Drop)]
pub struct Desk<S> {
    pub hands: Hands,
    pub sheet: S,
}

impl<S: Sheet> Desk<S> {
    /// Draws units, until none is left, and works each by its number.
    pub fn work<F: Fn(&mut S, usize)>(&mut self, work: &F)
        requires { F.IsAlwaysCallable work.now }
    {
        for _drawn in 0..u64::MAX {
            let Some(unit) = self.hands.draw() else {
                self.sheet.close();
                return;
            };
            work(&mut self.sheet, unit);
        }
    }
}

/// The desk of a worker, and a word that tells of it. Both threads only try the lock, so neither waits for it. The word has cache lines of its own, since
/// the calling thread looks at it while the worker is at work.
#[derive(Drop)]
pub struct Seat<S> {
    state: CachePadded<AtomicU64>,
    desk: CachePadded<Mutex<Desk<S>>>,
}

impl<S: Sheet> Seat<S> {
    pub(crate) fn new(hands: Hands, sheet: S) -> Seat<S> {
        Seat {
            state: CachePadded::new(AtomicU64::new(IDLE)),
            desk: CachePadded::new(Mutex::new(Desk { hands, sheet })),
        }
    }

    fn state(&self) -> u64 {
        let state: &AtomicU64 = &self.state;
        state.load(SeqCst)
    }

    fn set_state(&self, new: u64) {
        let state: &AtomicU64 = &self.state;
        state.store(new, SeqCst);
    }

    /// The desk, unless the worker is at it. The order that lay there is taken back.
    pub fn take_back(&self) -> Option<MutexGuard<'_, Desk<S>>> {
        let state = self.state();
        if state == WORKING {
            return None;
        }
        let desk = self.desk.try_lock()?;
        if state == WAITING {
            self.set_state(IDLE);
        }
        Some(desk)
    }

    /// The desk, for an order of the next phase. Where the worker is still at it, its answer will be of an earlier phase.
    pub fn take_anew(&self) -> Option<MutexGuard<'_, Desk<S>>> {
        let desk = self.take_back();
        if desk.is_none() {
            self.set_state(LATE);
        }
        desk
    }

    /// Lets the worker draw in a phase.
    pub fn open(&self, mut desk: MutexGuard<'_, Desk<S>>, deal: &Deal) {
        desk.hands.begin(deal);
        drop(desk);
        self.set_state(WAITING);
    }

    /// Whether the worker is at work in the phase.
    pub(crate) fn is_at_work(&self) -> bool {
        self.state() == WORKING
    }

    /// The desk, if the worker has answered its last order.
    pub fn answer(&self) -> Option<MutexGuard<'_, Desk<S>>> {
        if self.state() != ANSWERED {
            return None;
        }
        self.take_back()
    }

    fn work<F: Fn(&mut S, usize)>(&self, work: &F)
        requires { F.IsAlwaysCallable work.now }
    {
        let Some(mut desk) = self.desk.try_lock() else {
            return;
        };
        // The order may have been taken back since the worker saw it.
        if self.state() != WAITING {
            return;
        }
        self.set_state(WORKING);
        desk.work(work);
        drop(desk);
        let state: &AtomicU64 = &self.state;
        if state
            .compare_exchange(WORKING, ANSWERED, SeqCst, SeqCst)
            .is_err()
        {
            self.set_state(IDLE);
        }
    }

    /// Works in the phases of the pool, until it is over, and rests after each. An order that still waits then is not begun.
    pub(crate) fn attend<F: Fn(&mut S, usize), H: Fn()>(&self, work: &F, rest: &H, over: &AtomicU64)
        requires work { F.IsAlwaysCallable work.now }
        requires rest { H.IsAlwaysCallable rest.now }
    {
        let mut looks = 0;
        for _look in 0..u64::MAX {
            if over.load(SeqCst) != 0 {
                return;
            }
            if self.state() == WAITING {
                self.work(work);
                rest();
                looks = 0;
            } else {
                pause(looks, LOOKS_FOR_AN_ORDER);
                looks = looks.saturating_add(1);
            }
        }
    }
}
