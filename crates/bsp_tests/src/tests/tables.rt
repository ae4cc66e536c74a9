//! The registration table where a superstep ends.

use bsp_table::{Area, Registers, Table, TableFault};
use std::alloc::Global;

/// One process, which pushes areas.
#[derive(Drop)]
struct Pusher<'a> {
    areas: &'a [Area],
}

impl<'a> Registers for Pusher<'a> {
    ghost use Rattle.std.specs.Prelude.{[], replicate};

    ghost pops = { λ _. replicate 1 [] };

    ghost pushes = { λ pusher. replicate 1 pusher.areas.now };

    fn count(&self) -> usize {
        1
    }

    fn pops(&self, _pid: usize) -> &[usize] {
        &[]
    }

    fn pushes(&self, _pid: usize) -> &[Area] {
        self.areas
    }

    fn has_no_pops(&self) -> bool {
        true
    }

    fn has_no_pushes(&self) -> bool {
        self.areas.is_empty()
    }
}

/// Whether an area that is pushed has the one slot of the next table.
pub fn is_found_once_pushed(alloc: Global) -> Result<bool, TableFault> {
    let areas = [Area { start: 3, len: 2 }];
    let before = Table::new(alloc, 1)?;
    let synced = before.synced(&Pusher { areas: &areas });
    drop(before);
    let table = synced?;
    let is_found = table.len() == 1 && table.find(0, 3) == Some(0);
    drop(table);
    Ok(is_found)
}

#[test]
fn a_pushed_area_is_found_in_the_next_superstep(rt: HostRuntime) {
    assert!(rt; is_found_once_pushed(rt.alloc()) == Ok(true));
}
