//! The processes that edits and places name.

ghost use Rattle.std.specs.Prelude.{◌≡◌, map, slice_set, true};
ghost use Rattle.std.specs.List.{flat_map};
ghost use Rattle.bsp_incr.specs.Named.{arg_pids, with_members, word_pids};

use crate::{Edit, Place};
use bsp_model::ProcessSet;

fn add_process(processes: &mut ProcessSet, pid: u64)
    ensures { processes.new ≡ slice_set processes.old pid true }
{
    if pid < processes.count() as u64 {
        processes.insert(pid as usize);
    }
}

/// Adds to a set the processes of which edits name a word. A number of no process is passed over.
pub fn add_word_processes(processes: &mut ProcessSet, edits: &[Edit])
    ensures { processes.new ≡ with_members processes.old (flat_map word_pids edits.now) }
{
    for edit in edits {
        if let Edit::Word { pid, .. } = edit {
            add_process(processes, *pid);
        }
    }
}

/// Adds to a set the processes of which edits name an argument. A number of no process is passed over.
pub fn add_arg_processes(processes: &mut ProcessSet, edits: &[Edit])
    ensures { processes.new ≡ with_members processes.old (flat_map arg_pids edits.now) }
{
    for edit in edits {
        if let Edit::Arg { pid, .. } = edit {
            add_process(processes, *pid);
        }
    }
}

/// Adds to a set the processes of these places. A number of no process is passed over.
pub fn add_place_processes(processes: &mut ProcessSet, places: &[Place])
    ensures { processes.new ≡ with_members processes.old (map (λ q. q.pid) places.now) }
{
    for place in places {
        add_process(processes, place.pid);
    }
}
