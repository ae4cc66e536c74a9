//! What an update costs.

ghost use Rattle.std.specs.Prelude.{◌≡◌, ℕ, ◌+◌, ◌<◌, ◌≤◌, ◌^◌, ◌==◌, ◌||◌, if◌then◌else◌, not, [], IfOk, OnOk, Some, length, option_map};
ghost use Rattle.std.specs.List.{list_any};
ghost use Rattle.bsp_model.specs.Limits.{most_cost, most_work};
ghost use Rattle.bsp_deliver.specs.Condition.{AreDeliverable};
ghost use Rattle.bsp_run.specs.Supersteps.{supersteps_of};
ghost use Rattle.bsp_table.specs.Same.{same_table};
ghost use Rattle.bsp_incr.specs.Exact.{AreInOrder};
ghost use Rattle.bsp_causes.specs.Travel.{has_requests};
ghost use Rattle.bsp_causes.specs.Inside.Walk.{processes_of};
ghost use Rattle.bsp_causes.specs.UpdateCost.{work_of, outcomes_at, views_after, have_other_tables, row_again, update_cost};
ghost use Rattle.bsp_causes.specs.Inside.Travel.{requests_in, AreBounded};
ghost use Rattle.bsp_causes.specs.Inside.Walk.{AreBySuperstep, BeginsAt, rows_at, rows_below, with_rows};

use crate::moved::h_again;
use crate::travel::{Redone, any_travels, set_of};
use bsp_incr::{Place, Update};
use bsp_model::limits::MOST_SUPERSTEPS;
use bsp_model::{CostRow, OutOfMemory, Same, Seq};
use bsp_run::{History, ViewsRef};
use bsp_step::{Outcomes, View};
use std::alloc::Global;

/// The cost of a superstep of an update.
#[derive(Clone, Copy)]
pub struct StepCost {
    /// The number of the superstep, from 0.
    pub step: u64,
    /// The largest work of its turns that were taken again; the h-relation of the requests that travel again; and their cost.
    pub row: CostRow,
}

/// The cost of an update.
#[derive(Drop)]
pub struct UpdateCost {
    /// The supersteps in which turns were taken or deliveries made again, in order.
    pub rows: Seq<StepCost>,
    /// The sum of the costs.
    pub total: u64,
}

/// Where the places of a superstep end that begin at `from`.
fn end_of(places: &[Place], from: usize, step: u64) -> usize
    requires in_order { AreBySuperstep places.now }
    requires begin { BeginsAt places.now step from }
    ensures end { BeginsAt places.now (step + 1) result }
    ensures later { from ≤ result }
{
    for at in from..places.len() {
        if places[at].step != step {
            return at;
        }
    }
    places.len()
}

fn work_of(outcomes: &Outcomes, places: &[Place]) -> u64
    ensures value { result ≡ work_of (processes_of places.now) outcomes.now }
    ensures small { result ≤ most_work }
{
    let mut most = 0;
    for place in places {
        let pid = place.pid as usize;
        if pid < outcomes.len() {
            most = most.max(outcomes.get(pid).work);
        }
    }
    most
}

/// What the processes see after the delivery of a superstep of a run; nothing where it made none.
fn views_after<'a>(run: Option<&'a History>, step: u64) -> ViewsRef<'a>
    requires { step < MOST_SUPERSTEPS }
    ensures { result ≡ views_after (option_map (λ h. h.now) run.entry) step }
{
    match run {
        Some(history) => match history.views(step + 1) {
            Some(views) => views.as_ref(),
            None => ViewsRef::none(),
        },
        None => ViewsRef::none(),
    }
}

fn is_other_tag_size(old: &View<'_>, new: &View<'_>) -> bool
    ensures { result ≡ not (old.now.tag_size == new.now.tag_size) }
{
    old.tag_size != new.tag_size
}

fn is_other_table(old: &View<'_>, new: &View<'_>) -> bool
    ensures { result ≡ not (same_table old.now.table new.now.table) }
{
    !old.table.same(new.table)
}

fn sees_other_table(old: &View<'_>, new: &View<'_>) -> bool
    ensures { result ≡ (not (old.now.tag_size == new.now.tag_size) || not (same_table old.now.table new.now.table)) }
{
    is_other_tag_size(old, new) || is_other_table(old, new)
}

fn have_other_tables(olds: &ViewsRef<'_>, news: &ViewsRef<'_>) -> bool
    ensures { result ≡ have_other_tables olds.now news.now }
{
    if olds.is_empty() {
        return true;
    }
    if news.is_empty() {
        return true;
    }
    let old = olds.get(0);
    let new = news.get(0);
    sees_other_table(&old, &new)
}

/// What the turns of a superstep left.
fn outcomes_there(run: &History, step: usize) -> &Outcomes
    requires { step < length (supersteps_of run.now) }
    ensures value { result.now ≡ outcomes_at (Some run.now) step }
    ensures deliverable { AreDeliverable result.now }
{
    run.outcomes(step as u64).unwrap()
}

/// The same; `none` where the run took no turns there.
fn outcomes_if_any<'a>(run: Option<&'a History>, step: usize, none: &'a Outcomes) -> &'a Outcomes
    requires { none.now ≡ [] }
    ensures value { result.now ≡ outcomes_at (option_map (λ h. h.now) run.entry) step }
    ensures bounded { AreBounded result.now }
{
    match run {
        Some(history) if step < history.steps() => outcomes_there(history, step),
        _ => none,
    }
}

/// Whether a superstep that ends by delivery is synchronised again.
fn is_synchronised(
    redone: &Redone,
    olds: &ViewsRef<'_>,
    news: &ViewsRef<'_>,
    before: &Outcomes,
    after: &Outcomes,
) -> bool
    requires before { AreBounded before.now }
    requires after { AreBounded after.now }
    ensures { result ≡ (have_other_tables olds.now news.now
        || list_any has_requests (requests_in redone.now before.now after.now after.now)
        || list_any has_requests (requests_in redone.now before.now after.now before.now)) }
{
    have_other_tables(olds, news)
        || any_travels(redone, before, after, after)
        || any_travels(redone, before, after, before)
}

/// The price of a synchronisation where one is paid again.
fn l_again(
    price: u64,
    redone: &Redone,
    olds: &ViewsRef<'_>,
    news: &ViewsRef<'_>,
    before: &Outcomes,
    after: &Outcomes,
) -> u64
    requires before { AreBounded before.now }
    requires after { AreBounded after.now }
    ensures value { result ≡ (if have_other_tables olds.now news.now
        || list_any has_requests (requests_in redone.now before.now after.now after.now)
        || list_any has_requests (requests_in redone.now before.now after.now before.now) then price else 0) }
    ensures small { result ≤ price }
{
    if is_synchronised(redone, olds, news, before, after) {
        price
    } else {
        0
    }
}

/// What a superstep costs in which these turns were taken again, and these deliveries made again.
fn row_again(
    old: Option<&History>,
    new: &History,
    step: usize,
    turned: &[Place],
    delivered: &[Place],
) -> CostRow
    requires known { step < length (supersteps_of new.now) }
    requires few { step < MOST_SUPERSTEPS }
    ensures value { result ≡ row_again (option_map (λ h. h.now) old.entry) new.now step (processes_of turned.now)
        (processes_of delivered.now) }
    ensures small { result.cost ≤ most_cost }
{
    let none = Outcomes::new();
    let after = outcomes_there(new, step);
    let work = work_of(after, turned);
    let delivered_steps = new.past().len();
    if step >= delivered_steps {
        return CostRow {
            work,
            h: 0,
            cost: work,
        };
    }
    let before = outcomes_if_any(old, step, &none);
    let redone = Redone {
        turned: set_of(turned),
        delivered: set_of(delivered),
    };
    let h = h_again(&redone, before, after);
    let olds = views_after(old, step as u64);
    let news = views_after(Some(new), step as u64);
    let (g, price) = new.prices();
    let l = l_again(price, &redone, &olds, &news, before, after);
    CostRow {
        work,
        h,
        cost: work + h * g + l,
    }
}

fn add_row(
    cost: &mut UpdateCost,
    old: Option<&History>,
    new: &History,
    step: usize,
    turned: &[Place],
    delivered: &[Place],
) -> Result<(), OutOfMemory>
    requires known { step < length (supersteps_of new.now) }
    requires few { step < MOST_SUPERSTEPS }
    requires room { cost.old.total + most_cost < 2 ^ 64 }
    ensures rows { OnOk result (cost.new ≡ with_rows cost.old (rows_at (option_map (λ h. h.now) old.entry) new.now step
        (processes_of turned.now) (processes_of delivered.now))) }
    ensures small { OnOk result (cost.new.total ≤ cost.old.total + most_cost) }
{
    if turned.is_empty() && delivered.is_empty() {
        return Ok(());
    }
    let row = row_again(old, new, step, turned, delivered);
    cost.rows.push(StepCost {
        step: step as u64,
        row,
    })?;
    cost.total += row.cost;
    Ok(())
}

fn add_rows(
    cost: &mut UpdateCost,
    old: Option<&History>,
    new: &History,
    update: &Update,
) -> Result<(), OutOfMemory>
    requires executed { AreInOrder update.now.executed }
    requires redelivered { AreInOrder update.now.redelivered }
    requires none { cost.old.total ≡ 0 }
    ensures { OnOk result (cost.new ≡ with_rows cost.old (rows_below (option_map (λ h. h.now) old.entry) new.now
        update.now (length (supersteps_of new.now)))) }
{
    let turns = update.executed.as_slice();
    let deliveries = update.redelivered.as_slice();
    let mut turn = 0;
    let mut delivery = 0;
    for step in 0..new.steps() {
        let turn_end = end_of(turns, turn, step as u64);
        let delivery_end = end_of(deliveries, delivery, step as u64);
        let turned = &turns[turn..turn_end];
        let delivered = &deliveries[delivery..delivery_end];
        add_row(cost, old, new, step, turned, delivered)?;
        turn = turn_end;
        delivery = delivery_end;
    }
    Ok(())
}

/// What an update cost that made the run `new` of the run `old`, in units of one operation on a local word (the usual additive BSP cost formula, later
/// than Valiant 1990; over what was done again: this profile). A superstep costs `w + h*g`, and `l` where it is synchronised again. Here `w` is the
/// largest work of a turn that was taken again, and `h` counts the requests alone that travel again. Each list of places is gone over once.
pub fn update_cost(
    alloc: Global,
    old: Option<&History>,
    new: &History,
    update: &Update,
) -> Result<UpdateCost, OutOfMemory>
    requires executed { AreInOrder update.now.executed }
    requires redelivered { AreInOrder update.now.redelivered }
    ensures { IfOk result (λ cost. cost ≡ update_cost (option_map (λ h. h.now) old.entry) new.now update.now) }
{
    let mut cost = UpdateCost {
        rows: Seq::new(alloc),
        total: 0,
    };
    let added = add_rows(&mut cost, old, new, update);
    added.and(Ok(cost))
}
