//! The round machine.

ghost use Rattle.std.specs.Prelude.{◌≡◌, ◌<◌, ◌≤◌, List, [], All, IfOk, length, map, slice_index_or, take};
ghost use Rattle.bsp_pool.specs.declared.machine.CoreRefusal.TheVariants.{OutOfMemory};
ghost use Rattle.bsp_pool.specs.declared.machine.Event.{Event};
ghost use Rattle.bsp_pool.specs.EventLists.{KeepsRounds};
ghost use Rattle.bsp_pool.specs.Rounds.{Applies};
ghost use Rattle.bsp_pool.specs.Machine.{starting, step, round_step, IsSound};

use crate::OutOfMemory;
use crate::round::{Round, turn};
use crate::row::Row;
use crate::work::Work;
use std::alloc::{AllocError, Global};
use std::marker::Model;
use thiserror::Error;

/// What may happen in a round machine. Workers have the numbers from 0 on.
#[derive(Clone, Copy, Debug)]
pub enum Event {
    /// The worker takes the next number: one `fetch_add` of 1 on the claim word.
    Draw(usize),
    /// The worker works the input of the number that it holds, and keeps the output.
    Ran(usize),
    /// The worker leaves, and gives up a number that it holds.
    Left(usize),
    /// Once all have left: what has no output is worked, the outputs are committed, and the next phase opens. (It is the
    /// machine that turns to its next phase. What a process does in a superstep is called a turn too.)
    Turn,
}

/// Why an event was refused. The machine is then as before.
#[derive(Clone, Copy, Debug, PartialEq, Eq, Error)]
pub enum CoreRefusal {
    /// The event isn't allowed now, or all phases are committed.
    #[error("the event is not allowed now")]
    NotNow,
    /// The event is allowed, and memory for it was refused.
    #[error("memory was refused")]
    OutOfMemory,
}

impl From<AllocError> for CoreRefusal {
    ghost from_gives = { λ _ refusal. refusal ≡ OutOfMemory };

    fn from(_error: AllocError) -> CoreRefusal {
        CoreRefusal::OutOfMemory
    }
}

/// The round machine: the pool, step by step, on one thread. It has a list of phases, each a list of inputs. In the
/// round of the open phase workers draw its numbers, work their inputs and leave, and a turn commits the outputs.
///
/// Contracts see it as its work, its phases, the outputs committed so far, and the open round: who drew each number,
/// what each worker is at, and the outputs kept. After every list of events, refused ones included, the committed
/// outputs are those of the first phases, in order.
#[derive(Drop)]
pub struct Core<W: Work> {
    alloc: Global,
    work: W,
    phases: Vec<Row<W::In>>,
    committed: Vec<Row<W::Out>>,
    round: Round<W::Out>,
}

impl<W: Work> Model for Core<W> {
    ghost use Rattle.std.specs.Prelude.{All};
    ghost use Rattle.bsp_pool.specs.Machine.{Machine, machine, IsSound};

    ghost Value = { Machine W W.In W.Out };

    ghost view = { λ c. machine c.work c.phases.items c.committed.items c.round };

    ghost invariant = { λ c. All (All (W.accepts c.work)) c.phases.items
        × IsSound (W.does c.work) (machine c.work c.phases.items c.committed.items c.round) };
}

impl<W: Work + Drop> Core<W> {
    /// The machine over these phases with so many workers (1 to 16), of which nothing has happened yet. After every
    /// list of events from here on, refused ones included, the committed outputs are those of the first phases, and
    /// the next number is how many draws were made in the open round.
    ///
    /// # Errors
    /// `OutOfMemory` where memory is refused.
    pub fn new(
        alloc: Global,
        work: W,
        phases: Vec<Row<W::In>>,
        workers: usize,
    ) -> Result<Core<W>, OutOfMemory>
        requires workers { (0 < workers) × (workers ≤ 16) }
        requires accepts { All (All (W.accepts work)) phases.items }
        ensures start { IfOk result (λ core. core ≡ starting work phases.items workers) }
        ensures law { IfOk result (λ core. (events : List Event) → KeepsRounds (W.does work) core events) }
    {
        let inputs = inputs_at(phases.as_slice(), 0);
        match Round::open(alloc, inputs.len(), workers) {
            Ok(round) => Ok(Core {
                alloc,
                work,
                phases,
                committed: Vec::new(alloc),
                round,
            }),
            Err(error) => {
                drop(work);
                drop(phases);
                Err(error)
            }
        }
    }

    /// The outputs of the phases that are committed, in order: what the work gives for the inputs of the first phases.
    pub fn committed(&self) -> &[Row<W::Out>]
        ensures rows { result.now ≡ map (map (W.does self.now.work)) (take (length result.now) self.now.phases) }
        ensures state { result.now ≡ self.now.committed }
        ensures sound { IsSound (W.does self.now.work) self.now }
    {
        self.committed.as_slice()
    }

    /// Makes the event, if it is allowed now.
    ///
    /// # Errors
    /// `NotNow` exactly where the event isn't allowed, and `OutOfMemory` where it is and memory for it is refused.
    /// The machine is then as before.
    pub fn apply(&mut self, event: Event) -> Result<(), CoreRefusal>
        ensures { Applies (step (W.does self.old.work) self.old event) self.old result self.new }
    {
        if self.committed.len() >= self.phases.len() {
            return Err(CoreRefusal::NotNow);
        }
        match event {
            Event::Draw(worker) => {
                let inputs = inputs_at(self.phases.as_slice(), self.committed.len());
                self.round.draw(worker, inputs.len())
            }
            Event::Ran(worker) => self.run(worker),
            Event::Left(worker) => self.round.leave(worker),
            Event::Turn => self.turn(),
        }
    }

    fn run(&mut self, worker: usize) -> Result<(), CoreRefusal>
        requires { length self.old.committed < length self.old.phases }
        ensures { Applies (round_step (W.does self.old.work) self.old (Event.Ran worker)) self.old result self.new }
    {
        let Some(number) = self.round.held(worker) else {
            return Err(CoreRefusal::NotNow);
        };
        let inputs = inputs_at(self.phases.as_slice(), self.committed.len());
        let output = self.work.work(self.alloc, &inputs[number])?;
        self.round.keep(worker, number, output);
        Ok(())
    }

    fn turn(&mut self) -> Result<(), CoreRefusal>
        requires { length self.old.committed < length self.old.phases }
        ensures { Applies (round_step (W.does self.old.work) self.old Event.Turn) self.old result self.new }
    {
        if !self.round.is_over() {
            return Err(CoreRefusal::NotNow);
        }
        self.committed.reserve(1)?;
        let inputs = inputs_at(self.phases.as_slice(), self.committed.len());
        let next_inputs = inputs_at(self.phases.as_slice(), self.committed.len() + 1);
        let outputs = turn(
            self.alloc,
            &self.work,
            inputs,
            &mut self.round,
            next_inputs.len(),
        )?;
        self.committed.push_reserved(Row::from_vec(outputs));
        Ok(())
    }
}

/// The inputs of the phase of this number, none if there is no such phase.
fn inputs_at<T>(phases: &[Row<T>], phase: usize) -> &[T]
    ensures { result.now ≡ slice_index_or phases.now phase [] }
{
    match phases.get(phase) {
        Some(row) => row.as_slice(),
        None => &[],
    }
}
