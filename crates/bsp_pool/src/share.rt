//! What a worker makes of the inputs of a phase.

ghost use Rattle.std.specs.Prelude.{◌≡◌, List, Some, slice_get};
ghost use Rattle.bsp_pool.specs.Shares.{AreOutputs, IsPhase};
ghost use Rattle.bsp_pool.specs.Inside.Kept.{AreKept};

use crate::seat::Sheet;
use crate::work::Work;
use bsp_gate::Gate;
use std::alloc::Global;
use std::marker::{Brand, PhantomData};
use std::mem;

/// A phase, as a type parameter of the sheets of its workers.
pub(crate) trait Outputs<T> {
    ghost use Rattle.std.specs.Prelude.{List};

    /// The outputs of its inputs, in order.
    ghost outputs: { List T };
}

impl<T> Outputs<T> for Brand {
    ghost use Rattle.std.specs.Prelude.{[]};

    ghost outputs = { [] };
}

/// The jobs of a phase: the means of its workers.
#[derive(Drop)]
pub(crate) struct Jobs<'a, W: Work, G: Gate> {
    pub(crate) alloc: Global,
    pub(crate) work: &'a W,
    pub(crate) inputs: &'a [W::In],
    pub(crate) gate: &'a G,
}

/// The outputs that a worker made.
#[derive(Drop)]
pub(crate) struct Share<N: Outputs<T>, T> {
    alloc: Global,
    /// The numbers of the inputs, in the order of drawing.
    numbers: Vec<usize>,
    /// Their outputs, in the same order.
    outputs: Vec<T>,
    phase: PhantomData<N>,
    ghost in_order: { AreOutputs N.outputs numbers.items outputs.items },
}

impl<N: Outputs<T>, T: Drop> Share<N, T> {
    pub(crate) fn new(alloc: Global) -> Share<N, T> {
        Share {
            alloc,
            numbers: Vec::new(alloc),
            outputs: Vec::new(alloc),
            phase: PhantomData,
        }
    }

    /// Adds the output of an input. Without memory it is given up.
    fn add(&mut self, number: usize, output: T)
        requires { slice_get N.outputs number ≡ Some output }
    {
        if self.numbers.reserve(1).is_err() || self.outputs.reserve(1).is_err() {
            drop(output);
            return;
        }
        self.numbers.push_reserved(number);
        self.outputs.push_reserved(output);
    }

    /// Keeps the outputs by their numbers.
    pub(crate) fn keep_in(&mut self, kept: &mut Vec<Option<T>>)
        ensures { AreKept N.outputs kept.old.items → AreKept N.outputs kept.new.items }
    {
        let numbers = mem::replace(&mut self.numbers, Vec::new(self.alloc));
        let outputs = mem::replace(&mut self.outputs, Vec::new(self.alloc));
        keep(kept, numbers, outputs);
    }
}

/// Keeps outputs by their numbers.
fn keep<T: Drop>(kept: &mut Vec<Option<T>>, mut numbers: Vec<usize>, mut outputs: Vec<T>)
    ensures { (outs : List T) → AreOutputs outs numbers.items outputs.items → AreKept outs kept.old.items
        → AreKept outs kept.new.items }
{
    while let (Some(number), Some(output)) = (numbers.pop(), outputs.pop()) {
        if number < kept.len() {
            kept[number] = Some(output);
        }
    }
}

impl<N: Outputs<T>, T: Drop> Sheet for Share<N, T> {
    fn close(&mut self) {}
}

/// Works the input of this number into a share. Without memory its output is given up.
pub(crate) fn work_input<N: Outputs<W::Out>, W: Work, G: Gate>(
    jobs: &Jobs<'_, W, G>,
    share: &mut Share<N, W::Out>,
    number: usize,
)
    requires { IsPhase (W.accepts jobs.now.work.now) (W.does jobs.now.work.now) jobs.now.inputs.now N.outputs }
{
    if number < jobs.inputs.len() {
        jobs.gate.pass(number);
        if let Ok(output) = jobs.work.work(jobs.alloc, &jobs.inputs[number]) {
            share.add(number, output);
        }
    }
}
