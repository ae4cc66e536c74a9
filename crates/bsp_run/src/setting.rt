//! What all processes of a superstep see alike.

ghost use Rattle.std.specs.Prelude.{◌≡◌, ◌≤◌, [], IfOk};

use crate::Arguments;
use bsp_model::OutOfMemory;
use bsp_model::limits::MOST_PROCESSES;
use bsp_table::Table;
use std::alloc::Global;

/// What stands in a superstep beside the memories and the queues.
#[derive(Drop)]
pub struct Setting {
    /// The number of the superstep, from 0.
    pub step: u64,
    pub args: Arguments,
    pub table: Table,
    /// The tag size in force, in words.
    pub tag_size: u64,
}

impl Setting {
    /// That of superstep 0: no slots, and tag size 0.
    pub(crate) fn first(
        alloc: Global,
        args: Arguments,
        nprocs: usize,
    ) -> Result<Setting, OutOfMemory>
        requires some { 1 ≤ nprocs }
        requires few { nprocs ≤ MOST_PROCESSES }
        ensures { IfOk result (λ s. s ≡ record { step = 0; args = args; table = []; tag_size = 0 }) }
    {
        Ok(Setting {
            step: 0,
            args,
            table: Table::new(alloc, nprocs)?,
            tag_size: 0,
        })
    }
}
