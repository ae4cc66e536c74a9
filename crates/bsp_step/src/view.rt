//! What a process sees in a superstep.

use bsp_model::{Blocks, MemoryRef, Message, MessagesRef, Same, are_same_words};
use bsp_table::Table;
use std::marker::Model;

/// A message queue: the messages that were sent to a process in the superstep before, by sender, then by issue.
pub type Queue = Blocks<Message>;

/// What a process may see in a superstep (Hill et al. 1998). Its parts are read where they lie.
#[derive(Drop)]
pub struct View<'a> {
    /// The number of processes, 1 to `MOST_PROCESSES`.
    pub nprocs: u64,
    /// The own number, below `nprocs`.
    pub pid: u64,
    /// The number of the superstep, from 0, at most `MOST_SUPERSTEPS`.
    pub step: u64,
    /// The own arguments: at most `MOST_ARGUMENTS` words.
    pub args: &'a [u64],
    /// The own memory: at most `MOST_MEMORY_WORDS` words.
    pub memory: MemoryRef<'a>,
    /// The registration table: at most `MOST_SLOTS` slots.
    pub table: &'a Table,
    /// The tag size in force: at most `MOST_TAG_WORDS` words.
    pub tag_size: u64,
    /// The messages that came: at most `MOST_MESSAGES`.
    pub queue: MessagesRef<'a>,
}

impl<'a> Model for View<'a> {
    ghost use Rattle.bsp_step.specs.ViewParts.{ViewParts};

    ghost Value = { ViewParts };

    ghost use Rattle.bsp_step.specs.ViewInside.{view_parts, IsLawful};

    ghost view = { view_parts };

    ghost invariant = { IsLawful };
}

impl<'a> Same for View<'a> {
    fn same(&self, other: &View<'a>) -> bool {
        self.nprocs == other.nprocs
            && self.pid == other.pid
            && self.step == other.step
            && are_same_words(self.args, other.args)
            && self.memory.same(&other.memory)
            && self.table.same(other.table)
            && self.tag_size == other.tag_size
            && self.queue.same(&other.queue)
    }
}
