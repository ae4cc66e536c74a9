//! A get and puts that meet on the same words, by each call that delivers them.

ghost use Rattle.std.specs.Prelude.{◌<◌, length};
ghost use Rattle.bsp_deliver.specs.Condition.{AreDeliverable};
ghost use Rattle.bsp_step.specs.Calls.{Runs};
ghost use Rattle.bsp_tests.specs.Clash.{clash_plan};

use super::known::{End as Left, is_memory};
use bsp_deliver::{deliver, deliver_inbox, inbox};
use bsp_gate::Open;
use bsp_model::{CostRow, End, Input, Memory, OutOfMemory, Same, Seq, Words};
use bsp_run::{History, RunError};
use bsp_step::{Ctx, Outcomes, Program, Queue, Stop, View, settle};
use bsp_whole::{run_plain, run_wide};
use std::alloc::Global;
use std::thread::Threads;

/// The program of two processes with two words each.
#[derive(Clone, Copy)]
pub struct Clash;

impl Program for Clash {
    ghost use Rattle.std.specs.Prelude.{true};
    ghost use Rattle.bsp_step.specs.LooksEverywhere.{looks_everywhere};
    ghost use Rattle.bsp_tests.specs.Clash.{clash_plan};

    ghost acts = { λ _ v. (clash_plan v).acts };

    ghost ending = { λ _ v. (clash_plan v).ending };

    ghost looks = { λ _ _ _. true };

    ghost footprint = { λ _. looks_everywhere (λ v. (clash_plan v).acts) (λ v. (clash_plan v).ending) };

    fn looks(&self, _view: &View<'_>, _address: u64) -> bool {
        true
    }

    fn step(&self, _alloc: Global, ctx: &mut Ctx<'_>) -> Result<End, OutOfMemory> {
        settle(run(ctx))
    }
}

fn run(ctx: &mut Ctx<'_>) -> Result<End, Stop>
    ensures { let plan = clash_plan ctx.old.view in Runs ctx.old plan.acts plan.ending ctx.new result }
{
    match ctx.step() {
        0 => ctx.push_reg(0, 2)?,
        1 if ctx.pid() == 0 => {
            ctx.get(1, 0, 0, 0, 2)?;
            ctx.put(1, &[88, 89], 0, 0)?;
        }
        1 => ctx.put(0, &[77], 0, 0)?,
        _ => return Ok(End::Halt),
    }
    Ok(End::Sync)
}

const END: Left = Left {
    memories: &[&[77, 21], &[88, 89]],
    prints: &[],
    total: 32,
};

fn input(alloc: Global) -> Result<Input, OutOfMemory> {
    let mut input = Input {
        mems: Seq::new(alloc),
        args: Seq::new(alloc),
        limit: 16,
        g: 4,
        l: 10,
    };
    for words in [[10, 11], [20, 21]] {
        input.mems.push(Memory::from_words(alloc, &words)?)?;
        input.args.push(Words::new(alloc))?;
    }
    Ok(input)
}

/// Runs the program by one thread, or by two workers.
fn run_by<R: Threads + Sync>(rt: &R, alloc: Global, is_wide: bool) -> Result<History, RunError> {
    let input = input(alloc)?;
    let run = if is_wide {
        run_wide(rt, alloc, &Clash, &input, 2, &Open)
    } else {
        run_plain(alloc, &Clash, &input)
    };
    drop(input);
    run
}

/// Whether the run is right: a put wins over a get, and the get reads the words over which puts are written.
pub fn is_right<R: Threads + Sync>(rt: &R, alloc: Global, is_wide: bool) -> Result<bool, RunError> {
    let history = run_by(rt, alloc, is_wide)?;
    let is_right = END.is_of(&history);
    drop(history);
    Ok(is_right)
}

/// Whether a delivery leaves these words, and no message.
fn is_left(
    delivered: Result<(Memory, Queue), OutOfMemory>,
    words: &[u64],
) -> Result<bool, OutOfMemory> {
    let (memory, queue) = delivered?;
    let is_left = is_memory(&memory.as_ref(), words) && queue.as_ref().is_empty();
    drop(memory);
    drop(queue);
    Ok(is_left)
}

/// Whether the inbox of a process is the same when it is made again, is another than the inbox of the other process, and brings the right words.
fn is_inbox(alloc: Global, outcomes: &Outcomes, d: usize) -> Result<bool, OutOfMemory>
    requires known { d < length outcomes.now }
    requires deliverable { AreDeliverable outcomes.now }
{
    let own = inbox(alloc, d, outcomes)?;
    let again = inbox(alloc, d, outcomes)?;
    let other = inbox(alloc, usize::from(d == 0), outcomes)?;
    let is_compared = own.same(&again) && !own.same(&other) && !other.same(&own);
    let delivered = deliver_inbox(alloc, d, &own, outcomes);
    drop(own);
    drop(again);
    drop(other);
    let words = END.memories.get(d).copied().unwrap_or(&[]);
    Ok(is_compared && is_left(delivered, words)? && is_left(deliver(alloc, d, outcomes), words)?)
}

fn are_inboxes(alloc: Global, history: &History) -> Result<bool, OutOfMemory> {
    let Some(outcomes) = history.outcomes(1) else {
        return Ok(false);
    };
    if outcomes.len() != 2 {
        return Ok(false);
    }
    Ok(is_inbox(alloc, outcomes, 0)? && is_inbox(alloc, outcomes, 1)?)
}

/// Whether the superstep in which they meet costs 3 words and a synchronisation, beside the first synchronisation.
fn are_costs(costs: &[CostRow]) -> bool {
    match costs {
        [first, second, last] => {
            (first.h, first.cost) == (0, 10)
                && (second.h, second.cost) == (3, 22)
                && (last.h, last.cost) == (0, 0)
        }
        _ => false,
    }
}

fn is_delivered<R: Threads + Sync>(rt: &R, alloc: Global) -> Result<bool, RunError> {
    let history = run_by(rt, alloc, false)?;
    let are_costs = are_costs(history.costs());
    let are_inboxes = are_inboxes(alloc, &history);
    drop(history);
    Ok(are_costs && are_inboxes?)
}

#[test]
fn a_put_wins_over_a_get(rt: HostRuntime) {
    assert!(rt; is_right(&rt, rt.alloc(), false) == Ok(true));
    assert!(rt; is_right(&rt, rt.alloc(), true) == Ok(true));
    assert!(rt; is_delivered(&rt, rt.alloc()) == Ok(true));
}
