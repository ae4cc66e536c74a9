//! The dirty processes of a superstep: those whose view may differ from that of the previous run.

ghost use Rattle.std.specs.Prelude.{◌↔◌, IsTrue};
ghost use Rattle.bsp_incr.specs.Inside.Marks.{AreMarked};
ghost use Rattle.bsp_incr.specs.Inside.Known.{AreDirty, AreMarkedAlone, HaveSameTable, IsKnown};

use crate::compare::both_supersteps::OpenSuperstep;
use crate::compare::known_table::KnownTable;
use crate::compare::looking::has_table;
use bsp_model::ProcessSet;

/// The processes whose view may differ from that of the previous run, and whether the table is known to be that of the previous run.
#[derive(Clone, Copy)]
pub struct Dirty {
    /// The dirty processes.
    pub processes: ProcessSet,
    /// Whether all are known to see the table and the tag size of the previous run.
    pub same_table: bool,
}

/// Whether all see the table and the tag size that they saw in the previous run. False where it took no turns of such a superstep.
fn is_same_table(superstep: &OpenSuperstep<'_, '_>, known: KnownTable) -> bool
    requires { IsKnown known superstep.now.old_views superstep.now.views.now }
    ensures { IsTrue result ↔ HaveSameTable superstep.now.old_views superstep.now.views.now }
{
    if superstep.old_views.is_empty() {
        return false;
    }
    match known {
        KnownTable::AsBefore => true,
        KnownTable::Unknown => {
            let now = superstep.views.get(0);
            has_table(&superstep.old_views.get(0), now.table, now.tag_size)
        }
    }
}

impl Dirty {
    /// The processes that are marked, where the table and the tag size are those of the previous run, and else all.
    pub fn among(superstep: &OpenSuperstep<'_, '_>, marks: &ProcessSet, known: KnownTable) -> Dirty
        requires marks { AreMarked superstep.now.old_views superstep.now.views.now marks.now }
        requires known { IsKnown known superstep.now.old_views superstep.now.views.now }
        ensures dirty { AreDirty superstep.now.old_views superstep.now.views.now result }
        ensures few { AreMarkedAlone superstep.now.old_views superstep.now.views.now marks.now result }
    {
        let same_table = is_same_table(superstep, known);
        let processes = if same_table {
            *marks
        } else {
            ProcessSet::all(marks.count())
        };
        Dirty {
            processes,
            same_table,
        }
    }
}
