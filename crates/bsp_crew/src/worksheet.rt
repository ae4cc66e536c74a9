//! The order of a worker of a run, and its answer.

ghost use Rattle.std.specs.Prelude.{◌≡◌, IfOk, None, OnOk, true};
ghost use Rattle.std.specs.Option.{ForSome};
ghost use Rattle.bsp_run.specs.TurnBy.{turn_by};
ghost use Rattle.bsp_crew.specs.Parts.{IsLeft, IsPart, asks_turns};

use crate::part::Part;
use crate::piece::Piece;
use crate::shared_run::SharedRun;
use crate::task::{Made, Means, Task};
use bsp_gate::Gate;
use bsp_model::OutOfMemory;
use bsp_pool::Sheet;
use bsp_step::{Gathering, Program};
use std::alloc::Global;
use std::marker::PhantomData;

/// The number of words that a worker asks for in one piece, 1 MiB. The C library takes the first such piece from the system apart, and from then on
/// serves pieces of this length from the arena of the thread.
const WORDS_AT_ONCE: usize = 131_072;

/// A large piece of memory. Asked for and given back, it makes the C library's arena of the thread grow at once by as much as some thousand pages take,
/// each of which would else be a call of the system that holds up the page faults of all threads. It is not inlined, so that no compiler leaves it out.
#[inline(never)]
pub(crate) fn large_piece(alloc: Global) -> Result<Vec<u64>, OutOfMemory> {
    Vec::with_capacity(alloc, WORDS_AT_ONCE)
}

/// What a worker has made of its units: a piece for each row of units that stand one behind the other in the list.
#[derive(Drop)]
pub(crate) struct Pieces<J: SharedRun> {
    pieces: Vec<Piece<J>>,
    /// How many pieces are of the present phase.
    count: usize,
    spare: Option<Gathering>,
}

impl<J: SharedRun> Pieces<J> {
    fn new(alloc: Global) -> Pieces<J> {
        Pieces {
            pieces: Vec::new(alloc),
            count: 0,
            spare: None,
        }
    }

    /// Begins with no piece.
    pub fn clear(&mut self) {
        self.count = 0;
    }

    /// The piece to which this part is to be added, or `OutOfMemory`.
    fn piece(&mut self, alloc: Global, task: &Task, part: &Part<'_>) -> Result<usize, OutOfMemory> {
        if self.count > 0
            && let Some(last) = self.pieces.get(self.count - 1)
            && last.goes_on(part)
        {
            return Ok(self.count - 1);
        }
        let place = self.count.min(self.pieces.len());
        if place == self.pieces.len() {
            self.pieces.push(Piece::new(alloc))?;
        }
        self.pieces[place].begin(alloc, task, part);
        self.count = place + 1;
        Ok(place)
    }

    /// Does the work of a part more. Where memory is refused, it is given up.
    pub fn work<P: Program, G: Gate>(
        &mut self,
        means: &Means<'_, P, G>,
        task: &Task,
        part: &Part<'_>,
    )
        requires turn { asks_turns task.now ≡ true → J.turn ≡ turn_by P.Program means.now.program.now }
        requires part { IsPart J.turn (J.views part.now.step) part.now.processes.now task.now }
    {
        if let Ok(place) = self.piece(means.alloc, task, part)
            && place < self.pieces.len()
        {
            self.pieces[place].work(means, task, part, &mut self.spare);
        }
    }

    /// Adds to `made` the pieces of which the rest of a list is made, one behind the other: what is left of it.
    pub fn add_to<'a>(&mut self, rest: &Part<'a>, made: &mut Made) -> Result<Part<'a>, OutOfMemory>
        ensures { IfOk result (λ left. IsLeft J.turn J.views rest.now made.old left made.new) }
    {
        let mut left = *rest;
        for place in 0..self.count.min(self.pieces.len()) {
            left = self.pieces[place].add_to(&left, made)?;
        }
        Ok(left)
    }
}

/// The order of a worker of a run, and its answer: the list of a superstep, its task until no unit of it is left, and what the worker made.
#[derive(Drop)]
pub(crate) struct Worksheet<J: SharedRun> {
    /// The number of the superstep, from 0.
    step: u64,
    processes: Vec<usize>,
    /// How many processes a unit has.
    size: usize,
    task: Option<Task>,
    pub pieces: Pieces<J>,
    run: PhantomData<J>,
    ghost is_part: { ForSome task (IsPart J.turn (J.views step) processes.items) },
}

impl<J: SharedRun> Worksheet<J> {
    pub fn new(alloc: Global) -> Worksheet<J> {
        Worksheet {
            step: 0,
            processes: Vec::new(alloc),
            size: 1,
            task: None,
            pieces: Pieces::new(alloc),
            run: PhantomData,
        }
    }

    /// Orders the work of a list, of which so many processes are a unit. Without memory for the list there is no order.
    pub fn order(&mut self, list: &Part<'_>, size: usize, task: Task)
        requires { IsPart J.turn (J.views list.now.step) list.now.processes.now task }
    {
        self.take_back();
        self.pieces.clear();
        if make_same(&mut self.processes, list.processes).is_err() {
            drop(task);
            return;
        }
        self.step = list.step;
        self.size = size;
        drop(self.task.replace(task));
    }

    /// Does the work of the unit of this number, counted from 0.
    pub fn work<P: Program, G: Gate>(&mut self, means: &Means<'_, P, G>, unit: usize)
        requires { J.turn ≡ turn_by P.Program means.now.program.now }
    {
        let Some(task) = &self.task else {
            return;
        };
        let list = Part {
            step: self.step,
            processes: self.processes.as_slice(),
            first: 0,
        };
        let part = list.unit(unit, self.size);
        self.pieces.work(means, task, &part);
    }

    /// Takes the order back.
    pub fn take_back(&mut self)
        ensures { self.new.task ≡ None }
    {
        drop(self.task.take());
    }
}

/// Makes a list the same as another. One that is the same, as in all supersteps of a run from scratch, stays in the worker's cache.
fn make_same(list: &mut Vec<usize>, processes: &[usize]) -> Result<(), OutOfMemory>
    ensures { OnOk result (list.new.items ≡ processes.now) }
{
    if list.as_slice() != processes {
        list.clear();
        list.extend_from_slice(processes)?;
    }
    Ok(())
}

impl<J: SharedRun> Sheet for Worksheet<J> {
    fn close(&mut self) {
        self.take_back();
    }
}
