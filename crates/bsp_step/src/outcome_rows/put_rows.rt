//! The puts of several turns, whose memories are handed on.

ghost use Rattle.std.specs.Prelude.{◌≡◌, ◌<◌, [], length, map, slice_index_or};

use super::OutcomeRows;
use crate::Outcomes;
use crate::lists::{Lists, TurnEnd};
use bsp_model::{Memories, OutOfMemory, PutsRef};
use std::marker::Model;

/// The puts of the turns of several processes, by process, once the memories that these turns left are handed on.
#[derive(Drop)]
pub struct PutRows {
    ends: Vec<TurnEnd>,
    lists: Box<Lists>,
}

impl Model for PutRows {
    ghost use Rattle.std.specs.Prelude.{List};
    ghost use Rattle.bsp_model.specs.declared.request.Put.{Put};
    ghost use Rattle.bsp_step.specs.Inside.Outcomes.{puts_of};

    ghost Value = { List (List Put) };

    ghost view = { λ r. puts_of r.ends.items r.lists.value };
}

impl OutcomeRows {
    pub(crate) fn into_memories(self) -> (Memories, PutRows)
        ensures memories { result.0 ≡ map (λ o. o.memory) self }
        ensures puts { result.1 ≡ map (λ o. o.puts) self }
    {
        let OutcomeRows {
            ends,
            memories,
            lists,
        } = self;
        (memories, PutRows { ends, lists })
    }
}

impl PutRows {
    /// The number of processes.
    pub fn count(&self) -> usize
        ensures { result ≡ length self.now }
    {
        self.ends.len()
    }

    /// The puts of a process.
    #[inline(always)]
    pub fn get(&self, pid: usize) -> PutsRef<'_>
        requires { pid < length self.now }
        ensures { result ≡ slice_index_or self.now pid [] }
    {
        let lists: &Lists = &self.lists;
        lists.puts.get(pid)
    }

    /// Keeps the room of these, and of memories that are no longer needed, in the place of no outcomes.
    pub fn keep_room(self, memories: Memories, outcomes: &mut Outcomes) -> Result<(), OutOfMemory>
        requires { outcomes.old ≡ [] }
        ensures { outcomes.new ≡ [] }
    {
        let PutRows {
            mut ends,
            mut lists,
        } = self;
        let mut memories = memories;
        ends.clear();
        memories.clear();
        lists.clear();
        let rows = OutcomeRows {
            ends,
            memories,
            lists,
        };
        *outcomes = rows.share()?;
        Ok(())
    }
}
