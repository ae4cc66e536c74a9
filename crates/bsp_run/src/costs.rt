//! The cost of a run.

ghost use Rattle.std.specs.Prelude.{◌≡◌, ◌+◌, ◌*◌, ◌≤◌, ◌++◌, All, IfOk, length, map, option_map, option_to_list};
ghost use Rattle.bsp_model.specs.Limits.{most_cost, most_h, most_work};
ghost use Rattle.bsp_deliver.specs.Condition.{AreDeliverable};
ghost use Rattle.bsp_run.specs.Result.{largest_work, cost_of_delivery, cost_of_end, total_of, IsSmall};

use bsp_deliver::h_of;
use bsp_model::limits::{HIGHEST_PRICE, MOST_SUPERSTEPS};
use bsp_model::{CostRow, OutOfMemory, SharedSeq};
use bsp_step::Outcomes;
use std::alloc::Global;

fn largest_work(outcomes: &Outcomes) -> u64
    ensures value { result ≡ largest_work outcomes.now }
    ensures small { result ≤ most_work }
{
    let mut most = 0;
    for pid in 0..outcomes.len() {
        most = most.max(outcomes.get(pid).work);
    }
    most
}

/// What a superstep of this work and h-relation costs that ended by delivery.
fn cost_row(g: u64, l: u64, work: u64, h: u64) -> CostRow
    requires small_g { g ≤ HIGHEST_PRICE }
    requires small_l { l ≤ HIGHEST_PRICE }
    requires small_work { work ≤ most_work }
    requires small_h { h ≤ most_h }
    ensures value { result ≡ record { work = work; h = h; cost = work + h * g + l } }
    ensures small { IsSmall result }
{
    CostRow {
        work,
        h,
        cost: work + h * g + l,
    }
}

/// The cost of a superstep that ended by delivery.
pub fn cost_of_delivery(g: u64, l: u64, outcomes: &Outcomes) -> CostRow
    requires deliverable { AreDeliverable outcomes.now }
    requires small_g { g ≤ HIGHEST_PRICE }
    requires small_l { l ≤ HIGHEST_PRICE }
    ensures value { result ≡ cost_of_delivery g l outcomes.now }
    ensures small { IsSmall result }
{
    cost_row(g, l, largest_work(outcomes), h_of(outcomes))
}

/// The cost at these prices of a superstep whose work and h-relation are recorded.
pub fn cost_at(g: u64, l: u64, row: &CostRow) -> CostRow
    requires small_g { g ≤ HIGHEST_PRICE }
    requires small_l { l ≤ HIGHEST_PRICE }
    requires small_row { IsSmall row.now }
    ensures value { result ≡ record { work = row.now.work; h = row.now.h; cost = row.now.work + row.now.h * g + l } }
    ensures small { IsSmall result }
{
    cost_row(g, l, row.work, row.h)
}

/// The cost of the superstep that ended the run.
pub fn cost_of_end(outcomes: &Outcomes) -> CostRow
    ensures value { result ≡ cost_of_end outcomes.now }
    ensures small { result.cost ≤ most_cost }
{
    let work = largest_work(outcomes);
    CostRow {
        work,
        h: 0,
        cost: work,
    }
}

/// The cost of each superstep, where those are given that ended by delivery.
pub fn all_costs(
    alloc: Global,
    past: &[CostRow],
    last: Option<&Outcomes>,
) -> Result<SharedSeq<CostRow>, OutOfMemory>
    requires { All (λ row. row.cost ≤ most_cost) past.now }
    ensures rows { IfOk result (λ rows. rows
        ≡ past.now ++ map cost_of_end (option_to_list (option_map (λ o. o.now) last.entry))) }
    ensures small { IfOk result (λ rows. All (λ row. row.cost ≤ most_cost) rows) }
{
    let mut rows = past.to_vec(alloc)?;
    if let Some(outcomes) = last {
        rows.push(cost_of_end(outcomes))?;
    }
    SharedSeq::try_from_vec(rows)
}

/// The sum of the costs.
pub fn total_of(rows: &[CostRow]) -> u64
    requires few { length rows.now ≤ MOST_SUPERSTEPS }
    requires small { All (λ row. row.cost ≤ most_cost) rows.now }
    ensures { result ≡ total_of rows.now }
{
    let mut total = 0;
    for row in rows {
        total += row.cost;
    }
    total
}
