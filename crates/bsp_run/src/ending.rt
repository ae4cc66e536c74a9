//! How a superstep ends.

ghost use Rattle.std.specs.Prelude.{◌≡◌, ◌≤◌, length, All, IfOk};
ghost use Rattle.std.specs.List.{list_any};
ghost use Rattle.std.specs.Prelude.{is_some};
ghost use Rattle.bsp_table.specs.NextTable.{AreSlots};
ghost use Rattle.bsp_run.specs.Ending.{end_of, faults_from};

use crate::{ProcessFault, Status};
use bsp_deliver::{all_sync, sync_fault};
use bsp_model::{OutOfMemory, Seq};
use bsp_step::{ListKind, Outcomes};
use bsp_table::Table;
use std::alloc::Global;

/// Whether some process has a fault. Where no fault stands, no process is looked at.
fn has_fault(outcomes: &Outcomes) -> bool
    ensures { result ≡ list_any (λ o. is_some o.fault) outcomes.now }
{
    if outcomes.is_without(ListKind::Faults) {
        return false;
    }
    for pid in 0..outcomes.len() {
        if outcomes.get(pid).fault.is_some() {
            return true;
        }
    }
    false
}

fn faults(alloc: Global, outcomes: &Outcomes) -> Result<Seq<ProcessFault>, OutOfMemory>
    ensures { IfOk result (λ faults. faults ≡ faults_from 0 outcomes.now) }
{
    let mut faults = Seq::new(alloc);
    for pid in 0..outcomes.len() {
        let outcome = outcomes.get(pid);
        if let Some(fault) = outcome.fault {
            faults.push(ProcessFault {
                pid: pid as u64,
                fault,
            })?;
        }
    }
    Ok(faults)
}

/// How the run ends with a superstep of these outcomes, or none where the superstep ends by delivery. Faults of processes come before the fault of the
/// superstep's end (this profile).
#[tactic(auto, using(bsp_deliver::proofs::EndTests::not_mixed), unfolding(crate::specs::Ending::end_of))]
pub fn end_of(
    alloc: Global,
    step: u64,
    table: &Table,
    outcomes: &Outcomes,
) -> Result<Option<Status>, OutOfMemory>
    requires some { 1 ≤ length outcomes.now }
    requires slots { All (λ o. AreSlots table.now o.pops) outcomes.now }
    ensures { IfOk result (λ end. end ≡ end_of step table.now outcomes.now) }
{
    if has_fault(outcomes) {
        let faults = faults(alloc, outcomes)?;
        return Ok(Some(Status::Faulted { step, faults }));
    }
    if let Some(fault) = sync_fault(outcomes, table) {
        return Ok(Some(Status::SyncFaulted { step, fault }));
    }
    if all_sync(outcomes) {
        return Ok(None);
    }
    Ok(Some(Status::Halted))
}
