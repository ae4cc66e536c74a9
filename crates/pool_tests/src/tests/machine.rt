use crate::tests::doubling::Doubling;
use bsp_pool::{Core, CoreRefusal, Event, OutOfMemory, Row};
use std::alloc::Global;

/// An event, whether it is allowed, and how many phases are committed after it.
type Played = (Event, bool, usize);

/// What two workers do over phases of three inputs and of one input.
static EVENTS: [Played; 17] = [
    (Event::Draw(0), true, 0),
    (Event::Draw(1), true, 0),
    (Event::Ran(1), true, 0),
    (Event::Draw(1), true, 0),
    (Event::Turn, false, 0),
    (Event::Ran(0), true, 0),
    (Event::Left(0), true, 0),
    // Number 2 is given up, so the turn runs it.
    (Event::Left(1), true, 0),
    (Event::Turn, true, 1),
    (Event::Draw(0), true, 1),
    (Event::Ran(0), true, 1),
    (Event::Draw(0), true, 1),
    (Event::Ran(0), false, 1),
    (Event::Left(0), true, 1),
    (Event::Left(1), true, 1),
    (Event::Turn, true, 2),
    (Event::Draw(0), false, 2),
];

/// How many of the events, from the first one on, are answered and commit as they have to.
fn count_of_right(core: &mut Core<Doubling>) -> usize {
    for i in 0..EVENTS.len() {
        let (event, is_allowed, committed) = EVENTS[i];
        let is_right = match core.apply(event) {
            Ok(()) => is_allowed,
            Err(CoreRefusal::NotNow) => !is_allowed,
            Err(CoreRefusal::OutOfMemory) => false,
        };
        if !is_right || core.committed().len() != committed {
            return i;
        }
    }
    EVENTS.len()
}

fn are_committed(rows: &[Row<u64>]) -> bool {
    match rows {
        [first, second] => {
            first.as_slice() == [10, 12, 14].as_slice() && second.as_slice() == [16].as_slice()
        }
        _ => false,
    }
}

/// Two workers over the phases [5, 6, 7] and [8].
fn two_phases(alloc: Global) -> Result<Core<Doubling>, OutOfMemory> {
    let mut phases = Vec::new(alloc);
    phases.push(Row::from_vec(vec![in alloc; 5, 6, 7]?))?;
    phases.push(Row::from_vec(vec![in alloc; 8]?))?;
    Core::new(alloc, Doubling::refusing(0), phases, 2)
}

/// How many of the events go right, and whether the outputs of the phases are committed then.
fn played(alloc: Global) -> Result<(usize, bool), OutOfMemory> {
    let mut core = two_phases(alloc)?;
    let count = count_of_right(&mut core);
    let are_committed = are_committed(core.committed());
    drop(core);
    Ok((count, are_committed))
}

#[test]
fn two_phases_event_by_event(rt: HostRuntime) {
    assert!(rt; played(rt.alloc()) == Ok((17, true)));
}

#[test]
fn a_refusal_is_told(rt: HostRuntime) {
    let said = format!(in rt.alloc(); "{}", CoreRefusal::NotNow);
    assert!(rt; said.is_ok_and(|said| said.as_str() == "the event is not allowed now"));
}
