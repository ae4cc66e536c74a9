//! What a turn leaves.

ghost use Rattle.std.specs.Prelude.{◌≡◌, ◌↔◌, IsTrue};

use crate::outcome_rows::OpenRows;
use bsp_model::{
    Fault, Get, MemoryRef, OutOfMemory, PrintedLinesRef, PutsRef, Same, SendsRef, StoresRef,
    TryCopy, Workspace, are_same,
};
use bsp_table::Area;
use std::marker::Model;

/// How a turn ended.
#[derive(Clone, Copy, PartialEq, Eq)]
pub enum Ended {
    Sync,
    /// The process has ended, or has a fault.
    Halt,
}

/// What a turn has left. What it issued stands in a row behind the outcomes of earlier turns.
#[derive(Drop)]
pub(crate) struct Turned {
    pub(crate) fault: Option<Fault>,
    /// How the turn ended; `Halt` where there is a fault.
    pub(crate) ended: Ended,
    /// The memory after computing, and the stores that were made, in order.
    pub(crate) workspace: Box<Workspace>,
    pub(crate) rows: Box<OpenRows>,
    /// The choice of the next tag size, if one was made.
    pub(crate) tag: Option<u64>,
    pub(crate) work: u64,
}

/// What a turn leaves (Hill et al. 1998; stores, lines, work and faults are this profile's). It is read through `as_ref`.
#[derive(Drop)]
pub struct Outcome {
    pub(crate) turned: Turned,
}

impl Model for Outcome {
    ghost use Rattle.bsp_step.specs.OutcomeParts.{OutcomeParts};

    ghost Value = { OutcomeParts };

    ghost use Rattle.bsp_step.specs.OutcomeInside.{outcome_parts, IsLawful};

    ghost view = { outcome_parts };

    ghost invariant = { IsLawful };
}

impl Outcome {
    /// This outcome, to be read where it lies.
    pub fn as_ref(&self) -> OutcomeRef<'_>
        ensures { result ≡ self.now }
    {
        let turned = &self.turned;
        let workspace: &Workspace = &turned.workspace;
        let rows: &OpenRows = &turned.rows;
        OutcomeRef {
            fault: turned.fault,
            ended: turned.ended,
            memory: workspace.local.memory(),
            stores: workspace.local.stores(),
            puts: rows.puts(),
            gets: rows.gets(),
            sends: rows.sends(),
            pops: rows.pops(),
            pushes: rows.pushes(),
            tag: turned.tag,
            lines: rows.lines(),
            work: turned.work,
        }
    }
}

impl TryCopy for Outcome {
    fn copy(&self) -> Result<Outcome, OutOfMemory> {
        let turned = &self.turned;
        let workspace: &Workspace = &turned.workspace;
        let alloc = turned.rows.allocator();
        Ok(Outcome {
            turned: Turned {
                fault: turned.fault,
                ended: turned.ended,
                workspace: Box::new(alloc, Workspace::of(alloc, workspace.local.copy()?))?,
                rows: Box::new(alloc, turned.rows.copy_turn()?)?,
                tag: turned.tag,
                work: turned.work,
            },
        })
    }
}

impl Same for Outcome {
    fn same(&self, other: &Outcome) -> bool {
        self.as_ref().same(&other.as_ref())
    }
}

/// The parts of an outcome, wherever they lie.
#[derive(Drop)]
pub struct OutcomeRef<'a> {
    pub fault: Option<Fault>,
    pub ended: Ended,
    pub memory: MemoryRef<'a>,
    pub stores: StoresRef<'a>,
    pub puts: PutsRef<'a>,
    pub gets: &'a [Get],
    pub sends: SendsRef<'a>,
    pub pops: &'a [usize],
    pub pushes: &'a [Area],
    pub tag: Option<u64>,
    pub lines: PrintedLinesRef<'a>,
    pub work: u64,
}

impl<'a> Model for OutcomeRef<'a> {
    ghost use Rattle.bsp_step.specs.OutcomeParts.{OutcomeParts};

    ghost Value = { OutcomeParts };

    ghost use Rattle.bsp_step.specs.OutcomeRefInside.{outcome_parts, IsLawful};

    ghost view = { outcome_parts };

    ghost invariant = { IsLawful };
}

impl<'a> OutcomeRef<'a> {
    ghost use Rattle.bsp_step.specs.Inside.SameOutcome.{HasSameRequests};

    fn has_same_requests(&self, other: &OutcomeRef<'a>) -> bool
        ensures { IsTrue result ↔ HasSameRequests self.now other.now }
    {
        self.puts.same(&other.puts)
            && are_same(self.gets, other.gets)
            && self.sends.same(&other.sends)
            && are_same(self.pops, other.pops)
            && are_same(self.pushes, other.pushes)
    }
}

impl<'a> Same for OutcomeRef<'a> {
    fn same(&self, other: &OutcomeRef<'a>) -> bool {
        self.has_same_requests(other)
            && self.fault == other.fault
            && self.ended == other.ended
            && self.memory.same(&other.memory)
            && self.stores.same(&other.stores)
            && self.tag == other.tag
            && self.lines.same(&other.lines)
            && self.work == other.work
    }
}
