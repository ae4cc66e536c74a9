//! Heat in a rod.
#![tactic(auto, using(bsp_step::proofs::Laws::running))]

ghost use Rattle.std.specs.Prelude.{◌≡◌, ◌≤◌, ◌<◌, ◌+◌, ◌-◌, ◌%◌, ◌^◌, ◌∷◌, length, sum, take, drop, slice_index, OnOk};
ghost use Rattle.bsp_step.specs.Blocks.{stores, stored};
ghost use Rattle.bsp_step.specs.Calls.{Runs};
ghost use Rattle.heat.specs.Heat.{heat_plan, heat_advancing, heat_charging, heat_telling, next_cell, next_cells, own_cells, put_above, puts_to_neighbours};

use bsp_model::{Change, End, OutOfMemory};
use bsp_step::{Ctx, Program, Stop, View, settle};
use std::alloc::Global;

/// Heat in a rod of cells, which are dealt to the processes in a row. In each time step every cell takes a quarter of the sum of the word
/// before it, twice its own and the word after it, modulo 2^64 and rounded down. After the last one each process prints the sum of its cells.
///
/// A memory has at least three words. The first and the last are the nearest cells of the processes below and above, or, at both ends of the
/// rod, a fixed temperature; the others are own cells. Each of these two words is registered as an area of its own, so that neighbours reach it
/// however long the memories are. Argument 0 is the number of time steps. A missing argument ends the turn by `Abort(2)`, a shorter memory by
/// `Abort(1)`.
#[derive(Clone, Copy)]
pub struct Heat;

impl Program for Heat {
    ghost use Rattle.heat.specs.Heat.{heat_plan, heat_looks};
    ghost use Rattle.heat.specs.HeatFootprint.{heat_footprint};

    ghost acts = { λ _ v. (heat_plan v v.memory).acts };

    ghost ending = { λ _ v. (heat_plan v v.memory).ending };

    ghost looks = { λ _ v a. heat_looks v a };

    ghost footprint = { λ _. heat_footprint };

    fn looks(&self, view: &View<'_>, address: u64) -> bool {
        let Some(&time_steps) = view.args.first() else {
            return false;
        };
        let len = view.memory.len() as u64;
        if len < 3 {
            return false;
        }
        match view.step {
            0 => false,
            1 if time_steps == 0 => address >= 1 && address < len - 1,
            1 => {
                (address == 1 && view.pid > 0) || (address == len - 2 && view.pid + 1 < view.nprocs)
            }
            _ => true,
        }
    }

    fn step(&self, _alloc: Global, ctx: &mut Ctx<'_>) -> Result<End, OutOfMemory> {
        settle(run(ctx))
    }
}

/// The turn of a process. It takes no memory but what the acts take.
fn run(ctx: &mut Ctx<'_>) -> Result<End, Stop>
    ensures { let plan = heat_plan ctx.old.view ctx.old.memory in Runs ctx.old plan.acts plan.ending ctx.new result }
{
    let Some(time_steps) = ctx.arg(0) else {
        return Ok(End::Abort(2));
    };
    let len = ctx.memory_len();
    if len < 3 {
        return Ok(End::Abort(1));
    }
    match ctx.step() {
        0 => {
            ctx.push_reg(0, 1)?;
            ctx.push_reg(len - 1, 1)?;
            Ok(End::Sync)
        }
        1 => tell(ctx, time_steps),
        _ => advance(ctx, time_steps),
    }
}

/// Makes a time step, and goes on.
fn advance(ctx: &mut Ctx<'_>, time_steps: u64) -> Result<End, Stop>
    requires { 3 ≤ length ctx.old.memory }
    ensures { let plan = heat_advancing ctx.old.view time_steps ctx.old.memory
        in Runs ctx.old plan.acts plan.ending ctx.new result }
{
    store_next_cells(ctx)?;
    charge_cells(ctx, time_steps)
}

/// Charges for each own cell, and goes on.
#[tactic(auto, using(crate::specs::Cells::length_of_own_cells))]
fn charge_cells(ctx: &mut Ctx<'_>, time_steps: u64) -> Result<End, Stop>
    requires { 3 ≤ length ctx.old.memory }
    ensures { let plan = heat_charging ctx.old.view time_steps (own_cells ctx.old.memory)
        in Runs ctx.old plan.acts plan.ending ctx.new result }
{
    ctx.charge(ctx.memory_len() - 2)?;
    tell(ctx, time_steps)
}

/// Stores what each own cell becomes, all from the words as they are before.
fn store_next_cells(ctx: &mut Ctx<'_>) -> Result<(), Stop>
    requires { 3 ≤ length ctx.old.memory }
    ensures acted { Runs ctx.old (stores 1 (next_cells ctx.old.memory)) tt ctx.new result }
    ensures cells { OnOk result (own_cells ctx.new.memory ≡ next_cells ctx.old.memory) }
    ensures len { OnOk result (length ctx.new.memory ≡ length ctx.old.memory) }
    ensures view { OnOk result (ctx.new.view ≡ ctx.old.view) }
{
    let end = ctx.memory_len() - 1;
    let mut before = ctx.load(0).unwrap();
    let mut start = 1;
    while start < end {
        let count = ctx.piece_len(start).min(end - start);
        before = store_block(ctx, start, count, before)?;
        start += count;
    }
    Ok(())
}

/// A time step of cells one behind the other, between the words before and after them.
#[derive(Clone, Copy)]
struct TimeStep {
    before: u64,
    after: u64,
}

impl Change for TimeStep {
    ghost use Rattle.std.specs.Prelude.{◌∷◌, ◌++◌, []};
    ghost use Rattle.heat.specs.Heat.{next_cells};

    ghost makes = { λ step cells. next_cells (step.before ∷ cells ++ step.after ∷ []) };

    fn change(&self, cells: &[u64], next: &mut [u64]) {
        let Some(last) = cells.len().checked_sub(1) else {
            return;
        };
        let mut before = self.before;
        for i in 0..last {
            let own = cells[i];
            next[i] = next_cell(before, own, cells[i + 1]);
            before = own;
        }
        next[last] = next_cell(before, cells[last], self.after);
    }
}

/// Stores what `count` cells from `start` on become, where `before` is what the word before them was. Answers what the last of them was.
fn store_block(ctx: &mut Ctx<'_>, start: u64, count: u64, before: u64) -> Result<u64, Stop>
    requires some { 1 ≤ count }
    requires within { start + count < length ctx.old.memory }
    requires fits { start + count < 2 ^ 64 }
    ensures acted { Runs ctx.old (stores start (next_cells (before ∷ take (count + 1) (drop start ctx.old.memory))))
        (slice_index ctx.old.memory (start + count - 1)) ctx.new result }
    ensures memory { OnOk result (ctx.new.memory ≡ stored ctx.old.memory start (next_cells (before ∷ take (count + 1)
        (drop start ctx.old.memory)))) }
    ensures view { OnOk result (ctx.new.view ≡ ctx.old.view) }
{
    let last = ctx.load(start + count - 1).unwrap();
    let after = ctx.load(start + count).unwrap();
    ctx.change_words(start, count, &TimeStep { before, after })?
        .unwrap();
    Ok(last)
}

/// What a cell becomes in a time step.
fn next_cell(before: u64, own: u64, after: u64) -> u64
    ensures { result ≡ next_cell before own after }
{
    before.wrapping_add(own.wrapping_mul(2)).wrapping_add(after) / 4
}

/// Puts the outer ones of the own cells to the neighbours where time steps are left; else prints the sum of all. A time step of a short rod takes little
/// more time than a call, so this and the puts are inlined.
#[inline(always)]
fn tell(ctx: &mut Ctx<'_>, time_steps: u64) -> Result<End, Stop>
    requires { 3 ≤ length ctx.old.memory }
    ensures { let plan = heat_telling ctx.old.view time_steps (own_cells ctx.old.memory)
        in Runs ctx.old plan.acts plan.ending ctx.new result }
{
    if ctx.step() > time_steps {
        let sum = sum_of_cells(ctx);
        ctx.print(&[sum])?;
        return Ok(End::Halt);
    }
    put_to_neighbours(ctx)
}

/// Puts the first own cell to the process below and the last to the process above, if there are such.
#[inline(always)]
fn put_to_neighbours(ctx: &mut Ctx<'_>) -> Result<End, Stop>
    requires { 3 ≤ length ctx.old.memory }
    ensures { Runs ctx.old (puts_to_neighbours ctx.old.view (own_cells ctx.old.memory)) End.Sync ctx.new result }
{
    let pid = ctx.pid();
    if pid == 0 {
        return put_above(ctx);
    }
    let first = ctx.load(1).unwrap();
    ctx.put(pid - 1, &[first], ctx.memory_len() - 1, 0)?;
    put_above(ctx)
}

/// Puts the last own cell to the process above, if there is one.
#[tactic(auto, using(crate::specs::Cells::length_of_own_cells, crate::specs::Cells::own_cell))]
#[inline(always)]
fn put_above(ctx: &mut Ctx<'_>) -> Result<End, Stop>
    requires { 3 ≤ length ctx.old.memory }
    ensures { Runs ctx.old (put_above ctx.old.view (own_cells ctx.old.memory)) End.Sync ctx.new result }
{
    let pid = ctx.pid();
    if pid + 1 < ctx.nprocs() {
        let last = ctx.load(ctx.memory_len() - 2).unwrap();
        ctx.put(pid + 1, &[last], 0, 0)?;
    }
    Ok(End::Sync)
}

fn sum_of_cells(ctx: &Ctx<'_>) -> u64
    requires { 3 ≤ length ctx.now.memory }
    ensures { result ≡ sum (own_cells ctx.now.memory) % 2 ^ 64 }
{
    let end = ctx.memory_len() - 1;
    let mut sum: u64 = 0;
    let mut start = 1;
    while start < end {
        let count = ctx.piece_len(start).min(end - start).min(64);
        sum = sum.wrapping_add(sum_of_block(ctx, start, count));
        start += count;
    }
    sum
}

fn sum_of_block(ctx: &Ctx<'_>, start: u64, count: u64) -> u64
    requires few { count ≤ 64 }
    requires within { start + count ≤ length ctx.now.memory }
    ensures { result ≡ sum (take count (drop start ctx.now.memory)) % 2 ^ 64 }
{
    let mut words = [0; 64];
    let words = &mut words[..count as usize];
    ctx.load_words(start, words).unwrap();
    sum_of(words)
}

fn sum_of(words: &[u64]) -> u64
    ensures { result ≡ sum words.now % 2 ^ 64 }
{
    let mut sum: u64 = 0;
    for word in words {
        sum = sum.wrapping_add(*word);
    }
    sum
}
