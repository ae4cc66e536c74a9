//! The next memories and queues of several processes.

ghost use Rattle.std.specs.Prelude.{◌≡◌, ◌<◌, ◌++◌, ◌∷◌, [], IfOk, OnErr, OnOk, length, slice_index_or};

use bsp_model::{
    ByProcess, Memories, Memory, MemoryRef, MessageColumn, MessagesRef, OutOfMemory, Share,
};
use std::alloc::Global;
use std::marker::Model;

/// The next memory and the next queue of each of several processes, in the order of a list, in few lists.
pub struct Cells {
    pub(crate) memories: Memories,
    /// The queue of each memory. Those past the last memory belong to no process.
    pub(crate) queues: MessageColumn,
}

impl Drop for Cells {
    fn drop(self) {
        let Self { memories, queues } = self;
    }
}

impl Model for Cells {
    ghost use Rattle.std.specs.Prelude.{List, ℕ};
    ghost use Rattle.bsp_model.specs.declared.request.Message.{Message};
    ghost use Rattle.bsp_deliver.specs.Inside.Cells.{cells_of};

    ghost Value = { List ((List ℕ) × (List Message)) };

    ghost view = { λ c. cells_of c.memories c.queues };
}

impl Cells {
    /// Of no process, which takes no memory.
    pub fn new(alloc: Global) -> Cells
        ensures { result ≡ [] }
    {
        Cells {
            memories: Memories::new(alloc),
            queues: MessageColumn::new(alloc),
        }
    }

    /// From now on a memory in one piece keeps a list of its own, unless it is short.
    pub fn keep_lists(&mut self)
        ensures { self.new ≡ self.old }
    {
        self.memories.keep_lists();
    }

    /// Makes room for so many processes more. For none it takes no memory.
    pub fn reserve(&mut self, count: usize) -> Result<(), OutOfMemory>
        ensures { self.new ≡ self.old }
    {
        self.memories.reserve(count)
    }

    /// Takes all processes away. The room stays.
    pub fn clear(&mut self)
        ensures { self.new ≡ [] }
    {
        self.memories.clear();
        self.queues.clear();
    }

    /// The number of processes.
    #[inline(always)]
    pub fn len(&self) -> usize
        ensures { result ≡ length self.now }
    {
        self.memories.len()
    }

    /// The memory of a process.
    #[inline(always)]
    pub fn memory(&self, place: usize) -> MemoryRef<'_>
        requires { place < length self.now }
        ensures { result ≡ (slice_index_or self.now place ([], [])).0 }
    {
        self.memories.get(place)
    }

    /// The queue of a process.
    #[inline(always)]
    pub fn queue(&self, place: usize) -> MessagesRef<'_>
        requires { place < length self.now }
        ensures { result ≡ (slice_index_or self.now place ([], [])).1 }
    {
        self.queues.get(place)
    }

    /// Adds one process more, and takes the words out of its memory. After `OutOfMemory` these cells have not changed.
    pub fn push(&mut self, memory: &mut Memory, queue: &MessagesRef<'_>) -> Result<(), OutOfMemory>
        ensures ok { OnOk result (self.new ≡ self.old ++ (memory.old, queue.now) ∷ []) }
        ensures err { OnErr result (self.new ≡ self.old) }
    {
        self.queues.put(self.memories.len(), queue)?;
        self.memories.push_from(memory)
    }

    /// Adds one process more, with copies of this memory and this queue. After `OutOfMemory` nothing has changed.
    pub fn push_copy(
        &mut self,
        memory: &MemoryRef<'_>,
        queue: &MessagesRef<'_>,
    ) -> Result<(), OutOfMemory>
        ensures ok { OnOk result (self.new ≡ self.old ++ (memory.now, queue.now) ∷ []) }
        ensures err { OnErr result (self.new ≡ self.old) }
    {
        self.queues.put(self.memories.len(), queue)?;
        self.memories.push_copy(memory)
    }

    /// Adds the processes of `more`, whose memories are handed on. After `OutOfMemory` both may have any processes.
    pub fn append(&mut self, more: &mut Cells) -> Result<(), OutOfMemory>
        ensures { OnOk result (self.new ≡ self.old ++ more.old) }
    {
        let (place, count) = (self.memories.len(), more.memories.len());
        self.queues.take_range(place, &more.queues, 0, count)?;
        self.memories.append(&mut more.memories)
    }
}

impl ByProcess for Cells {
    ghost use Rattle.std.specs.Prelude.{List, ℕ, refl};
    ghost use Rattle.bsp_model.specs.Replaced.{replaced};
    ghost use Rattle.bsp_model.specs.declared.request.Message.{Message};

    ghost Item = { (List ℕ) × (List Message) };

    ghost items = { λ c. c };

    ghost lay = { replaced };

    ghost lays = { λ _ _ _. refl };

    fn count(&self) -> usize {
        self.len()
    }

    fn room_like(&self, alloc: Global) -> Result<Cells, OutOfMemory> {
        let mut room = Cells::new(alloc);
        let memories = room.memories.reserve_like(&self.memories, Share::whole());
        let reserved = memories.and(room.queues.reserve_like(&self.queues, Share::whole()));
        reserved.and(Ok(room))
    }

    fn capacity(&self) -> usize {
        self.memories.capacity()
    }

    fn into_room(mut self) -> Cells {
        self.clear();
        self
    }

    fn append_range(&mut self, more: &Cells, from: usize, to: usize) -> Result<(), OutOfMemory> {
        self.queues
            .take_range(self.memories.len(), &more.queues, from, to)?;
        self.memories.append_range(&more.memories, from, to)
    }
}
