//! What is kept of an update from superstep to superstep.

ghost use Rattle.std.specs.Prelude.{◌≡◌, []};
ghost use Rattle.bsp_incr.specs.declared.compare.known_table.KnownTable.TheVariants.{Unknown};

use crate::Update;
use crate::compare::KnownTable;
use bsp_model::ProcessSet;
use bsp_run::Discarded;
use bsp_step::Gathering;
use std::alloc::Global;

/// Lists that serve a run which is made again as room.
#[derive(Drop)]
pub struct Room {
    /// Lists in which the next turns are taken, if there are any.
    pub spare: Option<Gathering>,
    /// Lists of a history that is needed no more.
    pub discarded: Discarded,
}

/// An update under way, between two supersteps of the run that is made again.
pub struct UnderWay {
    /// The processes whose memory, queue or arguments may differ in the open superstep from the previous run.
    pub marks: ProcessSet,
    /// What is known of the table and the tag size of the open superstep.
    pub table: KnownTable,
    /// What was done again so far.
    pub update: Update,
    pub room: Room,
}

impl Drop for UnderWay {
    fn drop(self) {
        let Self {
            marks,
            table,
            update,
            room,
        } = self;
    }
}

impl UnderWay {
    /// Nothing is done yet, and nothing is known of the table.
    pub fn new(alloc: Global, marks: ProcessSet, discarded: Discarded) -> UnderWay
        ensures marks { result.marks ≡ marks }
        ensures table { result.table ≡ Unknown }
        ensures executed { result.update.executed ≡ [] }
        ensures redelivered { result.update.redelivered ≡ [] }
    {
        UnderWay {
            marks,
            table: KnownTable::Unknown,
            update: Update::none(alloc),
            room: Room {
                spare: None,
                discarded,
            },
        }
    }

    pub fn into_update(self) -> Update
        ensures { result ≡ self.update }
    {
        let UnderWay {
            marks,
            table,
            update,
            room,
        } = self;
        drop(room);
        update
    }
}
