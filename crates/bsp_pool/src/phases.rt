//! A phase by itself, whose outputs are kept by number.

ghost use Rattle.std.specs.Prelude.{◌≡◌, ◌<◌, ◌≤◌, List, All, IfOk, map};
ghost use Rattle.bsp_pool.specs.Shares.{IsPhase};
ghost use Rattle.bsp_pool.specs.Inside.Kept.{AreKept};

use crate::OutOfMemory;
use crate::pool::Pool;
use crate::round::no_outputs;
use crate::share::{Jobs, Outputs, Share, work_input};
use crate::turning::{merged, work_missing};
use crate::work::Work;
use bsp_gate::Gate;
use std::alloc::Global;
use std::marker::Brand;
use std::thread::{Threads, join};

/// The output of each input, in the order of the inputs, whoever worked it. There are `workers` (1 to 16), but no more
/// than inputs. Each draws numbers of inputs, passes the gate with the number, and works that input.
///
/// No worker's want of memory ends the call. What no worker has answered, the calling thread works at the end, and
/// passes no gate for it.
///
/// # Errors
/// `OutOfMemory` where that work, or a list of outputs, is refused memory.
pub fn phase<W: Work, G: Gate, R: Threads + Sync>(
    rt: &R,
    alloc: Global,
    work: &W,
    inputs: &[W::In],
    workers: usize,
    gate: &G,
) -> Result<Vec<W::Out>, OutOfMemory>
    requires workers { (0 < workers) × (workers ≤ 16) }
    requires accepts { All (W.accepts work.now) inputs.now }
    ensures { IfOk result (λ outputs. outputs.items ≡ map (W.does work.now) inputs.now) }
{
    let kept = no_outputs(alloc, inputs.len())?;
    let jobs = Jobs {
        alloc,
        work,
        inputs,
        gate,
    };
    let kept = kept_by_pool::<Brand, W, G, R>(rt, &jobs, workers, kept);
    let missing = work_missing(alloc, work, inputs, kept.as_slice())?;
    Ok(merged(kept, missing))
}

/// A pool of so many workers, none of which has made an output yet; or `OutOfMemory`.
fn pool_of<N: Outputs<T>, T: Drop>(
    alloc: Global,
    workers: usize,
) -> Result<Pool<Share<N, T>>, OutOfMemory>
    requires { workers ≤ 16 }
{
    let mut sheets = Vec::with_capacity(alloc, workers)?;
    for _worker in 0..workers {
        sheets.push_reserved(Share::new(alloc));
    }
    Pool::new(alloc, sheets)
}

/// Keeps the outputs that a pool of so many workers makes.
fn kept_by_pool<N: Outputs<W::Out> + Send, W: Work, G: Gate, R: Threads + Sync>(
    rt: &R,
    jobs: &Jobs<'_, W, G>,
    workers: usize,
    kept: Vec<Option<W::Out>>,
) -> Vec<Option<W::Out>>
    requires workers { (0 < workers) × (workers ≤ 16) }
    requires phase { IsPhase (W.accepts jobs.now.work.now) (W.does jobs.now.work.now) jobs.now.inputs.now N.outputs }
    requires kept { AreKept N.outputs kept.items }
    ensures { AreKept N.outputs result.items }
{
    // A worker beyond the number of inputs would find nothing to draw.
    let useful = workers.min(jobs.inputs.len()).max(1);
    let Ok(pool) = pool_of::<N, W::Out>(jobs.alloc, useful) else {
        return kept;
    };
    let pool = &pool;
    if useful > 1 {
        let attend = ||
            requires { IsPhase (W.accepts jobs.now.work.now) (W.does jobs.now.work.now) jobs.now.inputs.now N.outputs }
        { attend_inputs(rt, pool, jobs) };
        let conduct = ||
            requires { IsPhase (W.accepts jobs.now.work.now) (W.does jobs.now.work.now) jobs.now.inputs.now N.outputs }
        {
            work_inputs(pool, jobs);
            pool.dismiss();
        };
        // Where no thread can start, `join` calls its second closure first. The workers are dismissed then, so the first returns.
        join(rt, attend, conduct);
    } else {
        work_inputs(pool, jobs);
    }
    kept_shares(pool, kept)
}

/// Lets the workers beside the calling thread work inputs until they are told to leave.
fn attend_inputs<N: Outputs<W::Out> + Send, W: Work, G: Gate, R: Threads + Sync>(
    rt: &R,
    pool: &Pool<Share<N, W::Out>>,
    jobs: &Jobs<'_, W, G>,
)
    requires { IsPhase (W.accepts jobs.now.work.now) (W.does jobs.now.work.now) jobs.now.inputs.now N.outputs }
{
    let work = |share: &mut Share<N, W::Out>, number: usize|
        requires { IsPhase (W.accepts jobs.now.work.now) (W.does jobs.now.work.now) jobs.now.inputs.now N.outputs }
    { work_input(jobs, share, number) };
    pool.attend(rt, jobs.alloc, &work, &|| ());
}

/// Opens the phase to the workers, works inputs beside them, and waits for theirs.
fn work_inputs<N: Outputs<W::Out> + Send, W: Work, G: Gate>(
    pool: &Pool<Share<N, W::Out>>,
    jobs: &Jobs<'_, W, G>,
)
    requires { IsPhase (W.accepts jobs.now.work.now) (W.does jobs.now.work.now) jobs.now.inputs.now N.outputs }
{
    let Some(mut own) = pool.own_desk() else {
        return;
    };
    let deal = own.hands.deal(jobs.inputs.len());
    pool.open(&deal);
    let began = jobs.gate.now();
    let work = |share: &mut Share<N, W::Out>, number: usize|
        requires { IsPhase (W.accepts jobs.now.work.now) (W.does jobs.now.work.now) jobs.now.inputs.now N.outputs }
    { work_input(jobs, share, number) };
    own.work(&work);
    pool.wait(began, jobs.gate);
}

/// Keeps the outputs of each worker that has answered.
fn kept_shares<N: Outputs<T>, T: Drop>(
    pool: &Pool<Share<N, T>>,
    mut kept: Vec<Option<T>>,
) -> Vec<Option<T>>
    requires { AreKept N.outputs kept.items }
    ensures { AreKept N.outputs result.items }
{
    for seat in pool.seats() {
        if let Some(mut desk) = seat.take_back() {
            desk.sheet.keep_in(&mut kept);
        }
    }
    kept
}
