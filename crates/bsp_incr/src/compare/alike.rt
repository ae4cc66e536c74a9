//! What the outcomes of a superstep have in common with those of the previous run.

ghost use Rattle.std.specs.Prelude.{◌≡◌, ◌<◌, if◌then◌else◌, length, true, All};
ghost use Rattle.bsp_incr.specs.declared.compare.known_table.KnownTable.TheVariants.{AsBefore, Unknown};
ghost use Rattle.bsp_step.specs.OutcomeParts.{outcome_of};
ghost use Rattle.bsp_incr.specs.Inside.Alike.{AllCostAlike, AllEndAlike, CostsAlike, EndsAlike, LeftOnlyPuts};
ghost use Rattle.bsp_incr.specs.Inside.Given.{delivered_beside};
ghost use Rattle.bsp_incr.specs.Inside.Marks.{OutcomesDifferAtMost};

use crate::compare::both_supersteps::delivered_beside;
use crate::compare::dirty::Dirty;
use crate::compare::known_table::KnownTable;
use crate::compare::moving::{gets_move_alike, puts_move_alike, sends_move_alike};
use crate::rerun::Given;
use bsp_model::are_same;
use bsp_run::Tape;
use bsp_step::{ListKind, OutcomeRef, Outcomes, Program};

/// True only where no turn left a fault, a choice of a tag size, or a request but puts. Most supersteps are such.
fn left_only_puts(outcomes: &Outcomes) -> bool
    ensures { result ≡ true → All LeftOnlyPuts outcomes.now }
{
    outcomes.is_without(ListKind::Faults)
        && outcomes.is_without(ListKind::Tags)
        && outcomes.is_without(ListKind::Pops)
        && outcomes.is_without(ListKind::Pushes)
        && outcomes.is_without(ListKind::Gets)
        && outcomes.is_without(ListKind::Sends)
}

/// True only where the turns of both supersteps left nothing but puts.
fn both_left_only_puts(old: &Outcomes, new: &Outcomes) -> bool
    ensures { result ≡ true → All LeftOnlyPuts old.now × All LeftOnlyPuts new.now }
{
    left_only_puts(old) && left_only_puts(new)
}

/// Whether two turns charged the same work, and moved as many words between the same processes.
fn costs_alike(old: &OutcomeRef<'_>, new: &OutcomeRef<'_>) -> bool
    ensures { result ≡ true → CostsAlike old.now new.now }
{
    old.work == new.work
        && puts_move_alike(&old.puts, &new.puts)
        && gets_move_alike(old.gets, new.gets)
        && sends_move_alike(&old.sends, &new.sends)
}

/// The same of two turns that left nothing but puts.
#[inline(always)]
fn puts_cost_alike(old: &OutcomeRef<'_>, new: &OutcomeRef<'_>) -> bool
    requires old { LeftOnlyPuts old.now }
    requires new { LeftOnlyPuts new.now }
    ensures { result ≡ true → CostsAlike old.now new.now }
{
    old.work == new.work && puts_move_alike(&old.puts, &new.puts)
}

/// Whether two turns ended alike, and asked for the same table and tag size.
fn ends_alike(old: &OutcomeRef<'_>, new: &OutcomeRef<'_>) -> bool
    ensures { result ≡ true → EndsAlike old.now new.now }
{
    old.fault == new.fault
        && old.ended == new.ended
        && old.tag == new.tag
        && are_same(old.pops, new.pops)
        && are_same(old.pushes, new.pushes)
}

/// The same of two turns that left nothing but puts.
#[inline(always)]
fn puts_end_alike(old: &OutcomeRef<'_>, new: &OutcomeRef<'_>) -> bool
    requires old { LeftOnlyPuts old.now }
    requires new { LeftOnlyPuts new.now }
    ensures { result ≡ true → EndsAlike old.now new.now }
{
    old.ended == new.ended
}

/// What is the same of all turns of a superstep as in the previous run, which ended that superstep by delivery.
#[derive(Clone, Copy)]
pub struct Alike {
    /// The table and the tag size that the processes saw, how each turn ended, and the table and the tag size for which it asked. So the superstep ends
    /// by delivery again, and leaves the same table and tag size.
    pub ends: bool,
    /// The work that was charged, and the words that were moved between the same processes. So the superstep costs as much, at the same prices.
    pub costs: bool,
}

impl Alike {
    fn look_at(&mut self, old: &Outcomes, new: &Outcomes, only_puts: bool, p: usize)
        requires old { p < length old.now }
        requires new { p < length new.now }
        requires only_puts { only_puts ≡ true → All LeftOnlyPuts old.now × All LeftOnlyPuts new.now }
        ensures ends { self.new.ends ≡ true → (self.old.ends ≡ true)
            × EndsAlike (outcome_of old.now p) (outcome_of new.now p) }
        ensures costs { self.new.costs ≡ true → (self.old.costs ≡ true)
            × CostsAlike (outcome_of old.now p) (outcome_of new.now p) }
    {
        let (before, after) = (old.get(p), new.get(p));
        if only_puts {
            self.ends = self.ends && puts_end_alike(&before, &after);
            self.costs = self.costs && puts_cost_alike(&before, &after);
            return;
        }
        self.ends = self.ends && ends_alike(&before, &after);
        self.costs = self.costs && costs_alike(&before, &after);
    }

    /// What is the same of these turns. Only those of dirty processes are looked at.
    fn among(old: &Outcomes, new: &Outcomes, dirty: &Dirty) -> Alike
        requires some { 0 < length old.now }
        requires count { length old.now ≡ length new.now }
        requires dirty { OutcomesDifferAtMost old.now new.now dirty.now.processes }
        ensures table { result.ends ≡ true → dirty.now.same_table ≡ true }
        ensures ends { result.ends ≡ true → AllEndAlike old.now new.now }
        ensures costs { result.costs ≡ true → AllCostAlike old.now new.now }
    {
        let mut alike = Alike {
            ends: dirty.same_table,
            costs: true,
        };
        let only_puts = both_left_only_puts(old, new);
        for process in dirty.processes.iter() {
            alike.look_at(old, new, only_puts, process);
        }
        alike
    }

    /// So much is known of the table after the superstep.
    pub fn next_table(&self) -> KnownTable
        ensures { result ≡ (if self.now.ends then AsBefore else Unknown) }
    {
        if self.ends {
            KnownTable::AsBefore
        } else {
            KnownTable::Unknown
        }
    }
}

/// What is the same of the turns of the open superstep. Nothing is, where the previous run did not end it by delivery.
pub fn alike_beside<P: Program, G>(
    given: &Given<'_, P, G>,
    tape: &Tape,
    dirty: &Dirty,
    new: &Outcomes,
) -> Alike
    requires count { length new.now ≡ length given.now.input.mems }
    requires dirty { OutcomesDifferAtMost (delivered_beside given.now tape.now) new.now dirty.now.processes }
    ensures table { result.ends ≡ true → dirty.now.same_table ≡ true }
    ensures ends { result.ends ≡ true → AllEndAlike (delivered_beside given.now tape.now) new.now }
    ensures costs { result.costs ≡ true → AllCostAlike (delivered_beside given.now tape.now) new.now }
{
    match delivered_beside(given, tape) {
        Some(old) => Alike::among(old, new, dirty),
        None => Alike {
            ends: false,
            costs: false,
        },
    }
}
