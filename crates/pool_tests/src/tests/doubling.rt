ghost use Rattle.std.specs.Prelude.{◌*◌, ◌<◌, ◌≤◌};

use bsp_pool::{Gate, OutOfMemory, Work, phase};
use std::alloc::{AllocError, Global};
use std::sync::atomic::AtomicU64;
use std::sync::atomic::Ordering::SeqCst;
use std::thread::Threads;

/// Doubles, and counts its calls. It refuses memory for input 1 in its first calls with it.
#[derive(Drop)]
pub(crate) struct Doubling {
    pub(crate) refusals: u64,
    pub(crate) refused: AtomicU64,
    pub(crate) calls: AtomicU64,
}

impl Doubling {
    /// It refuses memory so often.
    pub(crate) fn refusing(refusals: u64) -> Doubling {
        Doubling {
            refusals,
            refused: AtomicU64::new(0),
            calls: AtomicU64::new(0),
        }
    }
}

impl Work for Doubling {
    type In = u32;

    type Out = u64;

    ghost accepts = { λ _ _. Unit {0} };

    ghost does = { λ _ x. 2 * x };

    fn work(&self, _alloc: Global, input: &u32) -> Result<u64, OutOfMemory> {
        let input = *input;
        self.calls.fetch_add(1, SeqCst);
        if input == 1 && self.refused.fetch_add(1, SeqCst) < self.refusals {
            return Err(AllocError);
        }
        Ok(u64::from(input) * 2)
    }
}

pub(crate) static EIGHT: [u32; 8] = [0, 1, 2, 3, 4, 5, 6, 7];

fn are_doubles(outputs: &[u64], inputs: &[u32]) -> bool {
    if outputs.len() != inputs.len() {
        return false;
    }
    for i in 0..inputs.len() {
        if outputs[i] != u64::from(inputs[i]) * 2 {
            return false;
        }
    }
    true
}

/// Whether a phase by so many workers that pass a gate doubles the inputs.
pub(crate) fn doubles<R: Threads + Sync, G: Gate>(
    rt: &R,
    alloc: Global,
    work: &Doubling,
    inputs: &[u32],
    workers: usize,
    gate: &G,
) -> Result<bool, OutOfMemory>
    requires { (0 < workers) × (workers ≤ 16) }
{
    let outputs = phase(rt, alloc, work, inputs, workers, gate)?;
    let are_right = are_doubles(outputs.as_slice(), inputs);
    drop(outputs);
    Ok(are_right)
}
