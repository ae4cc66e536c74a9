//! The run of the stored document, and runs whose allocations are counted.

use crate::kernel::Heat;
use bsp_model::{Input, Memory, OutOfMemory, Seq, Words};
use bsp_right::run_computing;
use bsp_run::History;
use std::alloc::Global;
use std::test::Fail;

/// A rod of 12 cells between the temperatures 100 and 400.
const MEMORIES: [[u64; 5]; 4] = [
    [100, 0, 0, 0, 0],
    [0, 0, 0, 0, 0],
    [0, 0, 0, 0, 0],
    [0, 0, 0, 0, 400],
];

/// Its memories after six time steps, as the report has them.
const LEFT: [[u64; 5]; 4] = [
    [100, 57, 25, 7, 0],
    [5, 1, 0, 0, 0],
    [0, 0, 1, 8, 25],
    [4, 36, 106, 232, 400],
];

/// What the processes print, by the report.
const SUMS: [u64; 4] = [89, 1, 9, 374];

fn stored_input(alloc: Global) -> Result<Input, OutOfMemory> {
    let mut mems = Seq::new(alloc);
    let mut args = Seq::new(alloc);
    for words in &MEMORIES {
        mems.push(Memory::from_words(alloc, words)?)?;
        args.push(Words::from_slice(alloc, &[6])?)?;
    }
    Ok(Input {
        mems,
        args,
        limit: 16,
        g: 4,
        l: 10,
    })
}

/// A word of a process at the end.
fn word_left(history: &History, pid: u64, address: u64) -> Option<u64> {
    history.memory(pid)?.load(address)
}

/// The only word of the only line that a process printed.
fn word_printed(history: &History, pid: u64) -> Option<u64> {
    let lines = history.lines(pid)?;
    match lines.get(0)? {
        [word] if lines.len() == 1 => Some(*word),
        _ => None,
    }
}

#[test]
fn rod_of_the_stored_document(rt: HostRuntime) -> Result<(), Fail> {
    let history = run_computing(rt.alloc(), &Heat, &stored_input(rt.alloc())?)?;
    for pid in 0..4 {
        for address in 0..5 {
            assert_eq!(rt;
                word_left(&history, pid as u64, address as u64),
                Some(LEFT[pid][address])
            );
        }
        assert_eq!(rt; word_printed(&history, pid as u64), Some(SUMS[pid]));
    }
    assert_eq!(rt; history.total(), 136);
    Ok(())
}

/// A run on one thread of a rod with 32 cells for each of so many processes, up to so many supersteps.
fn run_long(alloc: Global, processes: usize, limit: u64) -> Result<(), Fail> {
    let mut mems = Seq::new(alloc);
    let mut args = Seq::new(alloc);
    for _pid in 0..processes {
        mems.push(Memory::from_words(alloc, &[7; 34])?)?;
        args.push(Words::from_slice(alloc, &[1000])?)?;
    }
    let input = Input {
        mems,
        args,
        limit,
        g: 4,
        l: 10,
    };
    run_computing(alloc, &Heat, &input)?;
    Ok(())
}

// `ci/count_allocations` counts what these allocate, by their names.

#[test]
fn plain_run_of_8_with_9(rt: HostRuntime) -> Result<(), Fail> {
    run_long(rt.alloc(), 8, 9)
}

#[test]
fn plain_run_of_8_with_10(rt: HostRuntime) -> Result<(), Fail> {
    run_long(rt.alloc(), 8, 10)
}

#[test]
fn plain_run_of_64_with_9(rt: HostRuntime) -> Result<(), Fail> {
    run_long(rt.alloc(), 64, 9)
}

#[test]
fn plain_run_of_64_with_10(rt: HostRuntime) -> Result<(), Fail> {
    run_long(rt.alloc(), 64, 10)
}
