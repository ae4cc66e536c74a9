//! A round: what is known of the open phase of the round machine.

ghost use Rattle.std.specs.Prelude.{◌≡◌, ◌<◌, All, IfOk, OnErr, OnOk, length, replicate, slice_get};
ghost use Rattle.std.specs.List.{list_all};
ghost use Rattle.bsp_pool.specs.Rounds.{opened, after_draw, after_leave, with_output, is_gone, finished, Applies};
ghost use Rattle.bsp_pool.specs.Inside.Holding.{number_of};

use crate::OutOfMemory;
use crate::machine::CoreRefusal;
use crate::turning::{merged, work_missing};
use crate::work::Work;
use std::alloc::Global;
use std::marker::Model;
use std::mem;

/// The state of a worker in a round.
#[derive(Clone, Copy)]
pub(crate) enum Worker {
    Ready,
    /// It holds this number, whose input it is to work.
    Holding(usize),
    PastEnd,
    Gone,
}

/// Who drew each number, in order, what each worker is at, and the outputs kept, by number.
#[derive(Drop)]
pub(crate) struct Round<T> {
    draws: Vec<usize>,
    workers: Vec<Worker>,
    outputs: Vec<Option<T>>,
}

impl<T> Model for Round<T> {
    ghost use Rattle.bsp_pool.specs.Rounds.{RoundParts};

    ghost Value = { RoundParts T };

    ghost view = { λ r. record { draws = r.draws.items; workers = r.workers.items; outputs = r.outputs.items } };
}

impl<T: Drop> Round<T> {
    /// A round that opens, with all workers ready.
    pub(crate) fn open(
        alloc: Global,
        inputs: usize,
        workers: usize,
    ) -> Result<Round<T>, OutOfMemory>
        ensures { IfOk result (λ r. r ≡ opened inputs workers) }
    {
        let workers = vec![in alloc; Worker::Ready; workers]?;
        match no_outputs(alloc, inputs) {
            Ok(outputs) => Ok(Round {
                draws: Vec::new(alloc),
                workers,
                outputs,
            }),
            Err(error) => {
                drop(workers);
                Err(error)
            }
        }
    }

    pub(crate) fn draw(&mut self, worker: usize, inputs: usize) -> Result<(), CoreRefusal>
        ensures { Applies (after_draw inputs self.old worker (slice_get self.old.workers worker))
            self.old result self.new }
    {
        let Some(Worker::Ready) = self.workers.get(worker) else {
            return Err(CoreRefusal::NotNow);
        };
        let number = self.draws.len();
        self.draws.reserve(1)?;
        self.draws.push_reserved(worker);
        self.workers[worker] = if number < inputs {
            Worker::Holding(number)
        } else {
            Worker::PastEnd
        };
        Ok(())
    }

    pub(crate) fn held(&self, worker: usize) -> Option<usize>
        ensures { result ≡ number_of (slice_get self.now.workers worker) }
    {
        match self.workers.get(worker) {
            Some(Worker::Holding(number)) => Some(*number),
            _ => None,
        }
    }

    /// The worker keeps the output of the number that it held.
    pub(crate) fn keep(&mut self, worker: usize, number: usize, output: T)
        requires worker { worker < length self.old.workers }
        requires number { number < length self.old.outputs }
        ensures { self.new ≡ with_output self.old worker number (Some output) }
    {
        self.workers[worker] = Worker::Ready;
        self.outputs[number] = Some(output);
    }

    pub(crate) fn leave(&mut self, worker: usize) -> Result<(), CoreRefusal>
        ensures { Applies (after_leave self.old worker (slice_get self.old.workers worker))
            self.old result self.new }
    {
        match self.workers.get(worker) {
            None | Some(Worker::Gone) => Err(CoreRefusal::NotNow),
            Some(_) => {
                self.workers[worker] = Worker::Gone;
                Ok(())
            }
        }
    }

    pub(crate) fn is_over(&self) -> bool
        ensures { result ≡ list_all is_gone self.now.workers }
    {
        for worker in &self.workers {
            if !matches!(worker, Worker::Gone) {
                return false;
            }
        }
        true
    }
}

/// The outputs of a round, and the next round opened in its place.
pub(crate) fn turn<W: Work>(
    alloc: Global,
    work: &W,
    inputs: &[W::In],
    round: &mut Round<W::Out>,
    next_inputs: usize,
) -> Result<Vec<W::Out>, OutOfMemory>
    requires accepts { All (W.accepts work.now) inputs.now }
    requires places { length round.old.outputs ≡ length inputs.now }
    ensures outputs { IfOk result (λ outputs. outputs.items ≡ finished (W.does work.now) inputs.now round.old.outputs) }
    ensures next { OnOk result (round.new ≡ opened next_inputs (length round.old.workers)) }
    ensures err { OnErr result (round.new ≡ round.old) }
{
    let places = no_outputs(alloc, next_inputs)?;
    let missing = work_missing(alloc, work, inputs, round.outputs.as_slice())?;
    round.draws.clear();
    round.workers.fill(Worker::Ready);
    let kept = mem::replace(&mut round.outputs, places);
    Ok(merged(kept, missing))
}

/// A list of so many places, in which no output is kept.
pub(crate) fn no_outputs<T: Drop>(
    alloc: Global,
    inputs: usize,
) -> Result<Vec<Option<T>>, OutOfMemory>
    ensures { IfOk result (λ v. v.items ≡ replicate inputs None) }
{
    let mut outputs = Vec::with_capacity(alloc, inputs)?;
    for _number in 0..inputs {
        outputs.push_reserved(None);
    }
    Ok(outputs)
}
