//! Which requests of a superstep travel again in an update.

ghost use Rattle.std.specs.Prelude.{◌≡◌, ◌<◌, ◌||◌, ℕ, not, nat_eq, All, length, slice_index};
ghost use Rattle.std.specs.List.{list_any};
ghost use Rattle.bsp_step.specs.OutcomeParts.{outcome_of};
ghost use Rattle.bsp_causes.specs.Inside.Travel.{reads_other};
ghost use Rattle.bsp_causes.specs.Travel.{has_requests};
ghost use Rattle.bsp_causes.specs.Inside.Walk.{processes_of};
ghost use Rattle.bsp_causes.specs.UpdateCost.{is_one_of};
ghost use Rattle.bsp_causes.specs.Inside.Travel.{is_in, requests_of, requests_in, AreBounded, HasAddresses};

use bsp_incr::Place;
use bsp_model::limits::MOST_PROCESSES;
use bsp_model::{Get, ProcessSet, PutsRef, SendsRef};
use bsp_step::{OutcomeRef, Outcomes};

/// The processes whose turns of a superstep were taken again, and those to which deliveries were made again.
#[derive(Clone, Copy)]
pub(crate) struct Redone {
    pub turned: ProcessSet,
    pub delivered: ProcessSet,
}

/// The processes of these places, among all that there may be.
pub(crate) fn set_of(places: &[Place]) -> ProcessSet
    ensures { (p : ℕ) → p < MOST_PROCESSES → is_in result p ≡ is_one_of (processes_of places.now) p }
{
    let mut set = ProcessSet::none(MOST_PROCESSES);
    for place in places {
        let pid = place.pid as usize;
        if pid < MOST_PROCESSES {
            set.insert(pid);
        }
    }
    set
}

/// The word at an address of the memory that a turn left; 0 where there is none.
fn word_left(outcomes: &Outcomes, pid: u64, address: u64) -> u64
    ensures { result ≡ slice_index (outcome_of outcomes.now pid).memory address }
{
    if pid as usize >= outcomes.len() {
        return 0;
    }
    outcomes.memory(pid as usize).load(address).unwrap_or(0)
}

/// Whether a get reads other words. Neither superstep has to have them.
pub(crate) fn reads_other(before: &Outcomes, after: &Outcomes, get: &Get) -> bool
    requires { HasAddresses get.now }
    ensures { result ≡ reads_other before.now after.now get.now }
{
    for i in 0..get.len {
        let address = get.start + i;
        if word_left(before, get.owner, address) != word_left(after, get.owner, address) {
            return true;
        }
    }
    false
}

fn any_reads_other(before: &Outcomes, after: &Outcomes, gets: &[Get]) -> bool
    requires { All HasAddresses gets.now }
    ensures { result ≡ list_any (reads_other before.now after.now) gets.now }
{
    for get in gets {
        if reads_other(before, after, get) {
            return true;
        }
    }
    false
}

fn any_put_to(puts: &PutsRef<'_>, targets: &ProcessSet) -> bool
    ensures { result ≡ list_any (λ p. is_in targets.now p.target) puts.now }
{
    for place in 0..puts.len() {
        if targets.contains(puts.at(place).target as usize) {
            return true;
        }
    }
    false
}

fn any_send_to(sends: &SendsRef<'_>, targets: &ProcessSet) -> bool
    ensures { result ≡ list_any (λ m. is_in targets.now m.target) sends.now }
{
    for place in 0..sends.len() {
        if targets.contains(sends.at(place).target as usize) {
            return true;
        }
    }
    false
}

/// Whether there is a put or a message to one of the targets, or a get.
fn issues(puts: &PutsRef<'_>, gets: &[Get], sends: &SendsRef<'_>, targets: &ProcessSet) -> bool
    ensures { result ≡ (list_any (λ p. is_in targets.now p.target) puts.now || not (nat_eq (length gets.now) 0)
        || list_any (λ m. is_in targets.now m.target) sends.now) }
{
    any_put_to(puts, targets) || !gets.is_empty() || any_send_to(sends, targets)
}

/// Whether a request of a process travels again.
fn travels(
    redone: &Redone,
    before: &Outcomes,
    after: &Outcomes,
    pid: usize,
    own: &OutcomeRef<'_>,
) -> bool
    requires { All HasAddresses own.now.gets }
    ensures { result ≡ has_requests (requests_of redone.now before.now after.now pid own.now) }
{
    if redone.turned.contains(pid) {
        return issues(&own.puts, own.gets, &own.sends, &redone.delivered);
    }
    if !redone.delivered.contains(pid) {
        return false;
    }
    any_reads_other(before, after, own.gets)
}

/// Whether a request of these outcomes travels again.
pub(crate) fn any_travels(
    redone: &Redone,
    before: &Outcomes,
    after: &Outcomes,
    outcomes: &Outcomes,
) -> bool
    requires { AreBounded outcomes.now }
    ensures { result ≡ list_any has_requests (requests_in redone.now before.now after.now outcomes.now) }
{
    for pid in 0..outcomes.len() {
        let own = outcomes.get(pid);
        if travels(redone, before, after, pid, &own) {
            return true;
        }
    }
    false
}
