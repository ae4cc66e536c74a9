//! How runs end, read off the history and off the result that it gives, and the inputs of which there is no run.

use super::known::{BROKEN_RANKS, CUT_SUMS, End, Known, NO_PRODUCT, RANKS, SUMS, is_memory};
use bsp_model::{Fault, Input, InputFault, Memory, OutOfMemory, Seq, Words};
use bsp_run::{History, RunError, RunResult, Status};
use bsp_whole::run_plain;
use std::alloc::Global;
use std::process::Abort;

/// How a run ends.
enum Ended {
    Halted,
    Limit,
    Faulted {
        step: u64,
        faults: &'static [(u64, Fault)],
    },
}

/// A known run, its supersteps, and how it ends.
struct Ending {
    known: Known,
    steps: usize,
    ended: Ended,
}

static ENDINGS: [Ending; 4] = [
    Ending {
        known: RANKS,
        steps: 4,
        ended: Ended::Halted,
    },
    Ending {
        known: CUT_SUMS,
        steps: 2,
        ended: Ended::Limit,
    },
    Ending {
        known: BROKEN_RANKS,
        steps: 2,
        ended: Ended::Faulted {
            step: 1,
            faults: &[(0, Fault::BadPid(9))],
        },
    },
    Ending {
        known: NO_PRODUCT,
        steps: 3,
        ended: Ended::Faulted {
            step: 2,
            faults: &[(0, Fault::Abort(3)), (1, Fault::Abort(3))],
        },
    },
];

fn is_ended(status: &Status, ended: &Ended) -> bool {
    match (status, ended) {
        (Status::Halted, Ended::Halted) | (Status::Limit, Ended::Limit) => true,
        (
            Status::Faulted { step, faults },
            Ended::Faulted {
                step: at,
                faults: all,
            },
        ) => {
            let faults = faults.as_slice();
            step == at
                && faults.len() == all.len()
                && faults.iter().zip(all.iter()).all(|(fault, (pid, why))| fault.pid == *pid
                    && fault.fault == *why)
        }
        _ => false,
    }
}

/// Whether a result has the memories and the total of an end.
fn is_result(given: &RunResult, end: &End) -> bool {
    for pid in 0..end.memories.len() {
        if pid >= given.memories.len() || !is_memory(&given.memories.get(pid), end.memories[pid]) {
            return false;
        }
    }
    given.total == end.total
}

fn ends_so(history: &History, known: &Known, ending: &Ending) -> Result<bool, OutOfMemory> {
    let given = history.result()?;
    let is_same = is_ended(&given.status, &ending.ended)
        && is_result(&given, &known.end)
        && given.costs.as_slice() == history.costs()
        && given.lines.len() == known.memories.len();
    drop(given);
    Ok(is_same && history.steps() == ending.steps && is_ended(history.status(), &ending.ended))
}

fn is_ending(alloc: Global, ending: &Ending) -> Result<bool, RunError> {
    let known = &ending.known;
    let input = known.input(alloc)?;
    let run = run_plain(alloc, &known.program, &input);
    drop(input);
    let history = run?;
    let found = ends_so(&history, known, ending);
    drop(history);
    Ok(found?)
}

fn find_ending(rt: &impl Abort, alloc: Global, ending: &Ending) {
    assert!(rt; is_ending(alloc, ending) == Ok(true), "{}", ending.steps);
}

#[test]
fn runs_end_as_they_have_to(rt: HostRuntime) {
    for i in 0..ENDINGS.len() {
        find_ending(&rt, rt.alloc(), &ENDINGS[i]);
    }
}

/// So many memories, each of so many words, as many argument lists or one less, each of so many words, and the numbers of an input.
struct Sizes {
    memories: usize,
    words: usize,
    lists: usize,
    arguments: usize,
    limit: u64,
    g: u64,
    l: u64,
}

const LAWFUL: Sizes = Sizes {
    memories: 2,
    words: 1,
    lists: 2,
    arguments: 1,
    limit: 1,
    g: 0,
    l: 0,
};

/// Each fault before those that follow it, and the largest input of which there is a run.
static CHECKED: [(Sizes, Result<(), InputFault>); 10] = [
    (
        Sizes {
            memories: 0,
            lists: 1,
            limit: 0,
            ..LAWFUL
        },
        Err(InputFault::NoProcess),
    ),
    (
        Sizes {
            memories: 65,
            words: 4_097,
            ..LAWFUL
        },
        Err(InputFault::TooMany),
    ),
    (
        Sizes {
            lists: 1,
            words: 4_097,
            ..LAWFUL
        },
        Err(InputFault::LengthsDiffer),
    ),
    (
        Sizes {
            words: 4_097,
            arguments: 65,
            ..LAWFUL
        },
        Err(InputFault::MemoryTooLong),
    ),
    (
        Sizes {
            arguments: 65,
            limit: 0,
            ..LAWFUL
        },
        Err(InputFault::ArgsTooLong),
    ),
    (
        Sizes {
            limit: 0,
            g: 1_000_001,
            ..LAWFUL
        },
        Err(InputFault::BadLimit),
    ),
    (
        Sizes {
            limit: 1_025,
            ..LAWFUL
        },
        Err(InputFault::BadLimit),
    ),
    (
        Sizes {
            g: 1_000_001,
            ..LAWFUL
        },
        Err(InputFault::BadPrice),
    ),
    (
        Sizes {
            l: 1_000_001,
            ..LAWFUL
        },
        Err(InputFault::BadPrice),
    ),
    (
        Sizes {
            memories: 64,
            words: 4_096,
            lists: 64,
            arguments: 64,
            limit: 1_024,
            g: 1_000_000,
            l: 1_000_000,
        },
        Ok(()),
    ),
];

static WORDS: [u64; 4_097] = [0; 4_097];

fn fill(alloc: Global, input: &mut Input, sizes: &Sizes) -> Result<(), OutOfMemory> {
    let words = &WORDS[..sizes.words.min(4_097)];
    for _ in 0..sizes.memories {
        input.mems.push(Memory::from_words(alloc, words)?)?;
    }
    let words = &WORDS[..sizes.arguments.min(4_097)];
    for _ in 0..sizes.lists {
        input.args.push(Words::from_slice(alloc, words)?)?;
    }
    Ok(())
}

/// The check of an input of these sizes, which a run answers too.
fn checked(alloc: Global, sizes: &Sizes) -> Result<Result<(), InputFault>, OutOfMemory> {
    let mut input = Input {
        mems: Seq::new(alloc),
        args: Seq::new(alloc),
        limit: sizes.limit,
        g: sizes.g,
        l: sizes.l,
    };
    fill(alloc, &mut input, sizes)?;
    let checked = input.check();
    let is_told = match run_plain(alloc, &SUMS.program, &input) {
        Ok(history) => {
            drop(history);
            checked == Ok(())
        }
        Err(RunError::Input(fault)) => checked == Err(fault),
        Err(RunError::OutOfMemory) => false,
    };
    drop(input);
    Ok(if is_told { checked } else { Ok(()) })
}

#[test]
fn inputs_are_checked(rt: HostRuntime) {
    for i in 0..CHECKED.len() {
        let (sizes, want) = &CHECKED[i];
        assert!(rt; checked(rt.alloc(), sizes) == Ok(*want), "{i}");
    }
}
