//! The places of processes in a superstep.

ghost use Rattle.std.specs.Prelude.{◌≡◌, ◌++◌, OnOk};
ghost use Rattle.bsp_incr.specs.Inside.Changes.{places_of};

use crate::Place;
use bsp_model::{OutOfMemory, Seq};

/// A list of places begins with room for so many, since most updates have some.
const FIRST_PLACES: usize = 32;

fn make_first_room(places: &mut Seq<Place>) -> Result<(), OutOfMemory>
    ensures { places.new ≡ places.old }
{
    if !places.is_empty() {
        return Ok(());
    }
    *places = Seq::with_capacity(places.allocator(), FIRST_PLACES)?;
    Ok(())
}

/// Adds the places of these processes in a superstep.
pub fn add_places(
    places: &mut Seq<Place>,
    step: u64,
    processes: &[usize],
) -> Result<(), OutOfMemory>
    ensures { OnOk result (places.new ≡ places.old ++ places_of step processes.now) }
{
    if processes.is_empty() {
        return Ok(());
    }
    make_first_room(places)?;
    for process in processes {
        places.push(Place {
            step,
            pid: *process as u64,
        })?;
    }
    Ok(())
}
