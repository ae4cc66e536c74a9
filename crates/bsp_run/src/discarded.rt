//! The lists of a history that is needed no more.

ghost use Rattle.std.specs.Prelude.{◌≡◌, []};

use crate::{History, Superstep, Views};
use bsp_deliver::Cells;
use bsp_step::Outcomes;
use std::alloc::Global;
use std::mem;

/// The supersteps of a history that is needed no more. A run that is made again takes its turns and makes its deliveries in the lists of the same
/// superstep, where no other history shares them.
pub struct Discarded {
    /// The supersteps to come that ended by delivery, the last first.
    past: Vec<Superstep>,
    last: Option<Superstep>,
    open: Option<Superstep>,
}

// docs/DECISIONS.md says why it has a drop of its own.
impl Drop for Discarded {
    fn drop(self) {
        let Self { past, last, open } = self;
    }
}

impl Discarded {
    /// No superstep.
    pub fn none(alloc: Global) -> Discarded {
        Discarded {
            past: Vec::new(alloc),
            last: None,
            open: None,
        }
    }

    /// The supersteps of this history, before the first.
    pub fn of(history: History) -> Discarded {
        let (mut past, last) = history.into_supersteps();
        past.reverse();
        Discarded {
            past,
            last: Some(last),
            open: None,
        }
    }

    /// Goes on to the next superstep, if there is one.
    pub fn go_on(&mut self) {
        let next = match self.past.pop() {
            Some(superstep) => Some(superstep),
            None => self.last.take(),
        };
        drop(mem::replace(&mut self.open, next));
    }

    /// The outcomes of the open superstep, unless they are taken.
    pub fn take_outcomes(&mut self) -> Outcomes {
        match &mut self.open {
            Some(superstep) => mem::replace(&mut superstep.outcomes, Outcomes::new()),
            None => Outcomes::new(),
        }
    }

    /// An empty list of cells. Its room is that of the views of the open superstep, as `Views::room_of` has it.
    pub fn take_cells(&mut self, alloc: Global, count: usize) -> Cells
        ensures { result ≡ [] }
    {
        match self.open.take() {
            Some(Superstep { views, outcomes }) => {
                drop(outcomes);
                Views::room_of(alloc, views, count)
            }
            None => Cells::new(alloc),
        }
    }
}
