//! Why a delivery was made again.

ghost use Rattle.std.specs.Prelude.{◌≡◌, ◌<◌, ◌++◌, All, IfOk, IfSome, OnOk, length, option_map};
ghost use Rattle.std.specs.List.{list_any};
ghost use Rattle.bsp_step.specs.OutcomeParts.{outcome_of};
ghost use Rattle.bsp_deliver.specs.Condition.{AreDeliverable};
ghost use Rattle.bsp_deliver.specs.Readable.{IsReadable};
ghost use Rattle.bsp_run.specs.Supersteps.{superstep_at};
ghost use Rattle.bsp_incr.specs.Exact.{HasDelivery, delivered_before};
ghost use Rattle.bsp_incr.specs.Inside.Before.{outcomes_if_any};
ghost use Rattle.bsp_causes.specs.DeliveryCauses.{HaveAsMany, reads_others, parcel_causes, delivery_causes};
ghost use Rattle.bsp_model.specs.ProcessSet.{processes_where};
ghost use Rattle.bsp_causes.specs.Inside.Parts.{AreComparedAt, is_other};

use bsp_deliver::{are_same_puts, are_same_sends, get_reads_same_words};
use bsp_incr::Place;
use bsp_model::{Get, OutOfMemory, Same, Seq, are_same};
use bsp_run::History;
use bsp_step::Outcomes;
use std::alloc::Global;

/// Why a delivery was made again: which of its parts differ from the previous run.
#[derive(Drop)]
pub struct DeliveryCauses {
    /// The previous run has no delivery at the place. Then nothing else is named.
    pub is_new: bool,
    /// The process's own memory after computing is another.
    pub memory: bool,
    pub gets: bool,
    /// The owners, ascending, of which its gets read other words, where it asks by the same gets.
    pub read: Seq<u64>,
    /// The senders, ascending, whose puts to it are others.
    pub puts: Seq<u64>,
    /// The senders, ascending, whose messages to it are others.
    pub sends: Seq<u64>,
}

/// In what a delivery depends on the other processes.
#[derive(Clone, Copy)]
enum Part {
    Read,
    Puts,
    Sends,
}

fn reads_others(old: &Outcomes, new: &Outcomes, owner: u64, gets: &[Get]) -> bool
    requires old { All (IsReadable old.now) gets.now }
    requires new { All (IsReadable new.now) gets.now }
    ensures { result ≡ list_any (reads_others old.now new.now owner) gets.now }
{
    for get in gets {
        if get.owner == owner && !get_reads_same_words(old, new, get) {
            return true;
        }
    }
    false
}

/// Whether the delivery to `d` depends in this part on something else of `q`. Words that are read are compared where `d` asks by the same gets.
fn is_other(part: Part, old: &Outcomes, new: &Outcomes, d: usize, q: usize) -> bool
    requires compared { AreComparedAt old.now new.now d }
    requires gets { part ≡ Part.Read → (outcome_of old.now d).gets ≡ (outcome_of new.now d).gets }
    requires among { q < length new.now }
    ensures { result ≡ is_other part old.now new.now d q }
{
    match part {
        Part::Read => reads_others(old, new, q as u64, new.gets(d)),
        Part::Puts => !are_same_puts(&old.get(q), &new.get(q), d as u64),
        Part::Sends => !are_same_sends(&old.get(q), &new.get(q), d as u64),
    }
}

/// The processes, ascending, of which the delivery to `d` depends on something else in this part.
fn other_processes(
    alloc: Global,
    part: Part,
    old: &Outcomes,
    new: &Outcomes,
    d: usize,
) -> Result<Seq<u64>, OutOfMemory>
    requires compared { AreComparedAt old.now new.now d }
    requires gets { part ≡ Part.Read → (outcome_of old.now d).gets ≡ (outcome_of new.now d).gets }
    ensures { IfOk result (λ ps. ps ≡ processes_where (length new.now) (is_other part old.now new.now d)) }
{
    let mut processes = Seq::new(alloc);
    for q in 0..new.len() {
        if is_other(part, old, new, d, q) {
            processes.push(q as u64)?;
        }
    }
    Ok(processes)
}

fn parcel_causes(
    alloc: Global,
    old: &Outcomes,
    new: &Outcomes,
    d: usize,
) -> Result<DeliveryCauses, OutOfMemory>
    requires { AreComparedAt old.now new.now d }
    ensures { IfOk result (λ c. c ≡ parcel_causes old.now new.now d) }
{
    let before = old.get(d);
    let after = new.get(d);
    let same_gets = are_same(before.gets, after.gets);
    let read = if same_gets {
        other_processes(alloc, Part::Read, old, new, d)?
    } else {
        Seq::new(alloc)
    };
    let puts = other_processes(alloc, Part::Puts, old, new, d)?;
    let sends = other_processes(alloc, Part::Sends, old, new, d)?;
    Ok(DeliveryCauses {
        is_new: false,
        memory: !before.memory.same(&after.memory),
        gets: !same_gets,
        read,
        puts,
        sends,
    })
}

/// The outcomes of a superstep of a run that ended by delivery; none where there is no run, or no such superstep of it.
fn delivered_in<'a>(run: Option<&'a History>, step: u64) -> Option<&'a Outcomes>
    ensures outcomes { outcomes_if_any (option_map (λ o. o.now) result)
        ≡ (superstep_at (delivered_before (option_map (λ h. h.now) run.entry)) step).outcomes }
    ensures deliverable { IfSome result (λ o. AreDeliverable o.now) }
{
    let history = run?;
    let superstep = history.past().get(step as usize)?;
    Some(&superstep.outcomes)
}

/// Why the delivery at a place of the run `after` was made, against the run `before`, or `OutOfMemory`: which of its parts differ. Where
/// both runs have a delivery at the place, their supersteps there have as many processes.
pub fn delivery_causes(
    alloc: Global,
    before: Option<&History>,
    after: &History,
    place: Place,
) -> Result<DeliveryCauses, OutOfMemory>
    requires known { HasDelivery after.now.past place }
    requires as_many { HaveAsMany (delivered_before (option_map (λ h. h.now) before)) after.now.past place }
    ensures { IfOk result (λ c. c ≡ delivery_causes (delivered_before (option_map
        (λ h. h.now) before.entry)) after.now.past place) }
{
    let new = delivered_in(Some(after), place.step).unwrap();
    let pid = place.pid as usize;
    match delivered_in(before, place.step) {
        Some(old) if pid < old.len() => parcel_causes(alloc, old, new, pid),
        _ => Ok(DeliveryCauses {
            is_new: true,
            memory: false,
            gets: false,
            read: Seq::new(alloc),
            puts: Seq::new(alloc),
            sends: Seq::new(alloc),
        }),
    }
}
