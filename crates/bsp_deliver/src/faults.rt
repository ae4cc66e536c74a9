//! The faults of a superstep's end, and the next tag size.

ghost use Rattle.std.specs.Prelude.{◌≡◌, ◌≤◌, ◌&&◌, false, length, All};
ghost use Rattle.std.specs.List.{list_all};
ghost use Rattle.bsp_table.specs.NextTable.{AreSlots};
ghost use Rattle.bsp_deliver.specs.SyncFault.{some_sync, some_halt, same_tag, sync_fault, next_tag_size};

use bsp_model::SyncFault;
use bsp_model::limits::MOST_TAG_WORDS;
use bsp_step::{Ended, ListKind, OutcomeRef, Outcomes};
use bsp_table::Table;

/// Whether some processes ended by sync and some by halt.
fn is_mixed(outcomes: &Outcomes) -> bool
    requires { 1 ≤ length outcomes.now }
    ensures { result ≡ some_sync outcomes.now && some_halt outcomes.now }
{
    let first = outcomes.get(0).ended;
    for pid in 1..outcomes.len() {
        if outcomes.get(pid).ended != first {
            return true;
        }
    }
    false
}

/// Whether all processes ended by sync, where all ended alike. It takes no memory.
pub fn all_sync(outcomes: &Outcomes) -> bool
    requires some { 1 ≤ length outcomes.now }
    ensures { some_sync outcomes.now && some_halt outcomes.now ≡ false → result ≡ some_sync outcomes.now }
{
    matches!(outcomes.get(0).ended, Ended::Sync)
}

/// Whether all processes chose the tag size that the first one chose. Where no choice stands, no process is looked at.
fn is_same_tag_choice(first: &OutcomeRef<'_>, outcomes: &Outcomes) -> bool
    ensures { result ≡ list_all (λ o. same_tag first.now.tag o.tag) outcomes.now }
{
    if first.tag.is_none() && outcomes.is_without(ListKind::Tags) {
        return true;
    }
    for pid in 0..outcomes.len() {
        if first.tag != outcomes.get(pid).tag {
            return false;
        }
    }
    true
}

/// The first of S1 `MixedEnd`, S2 `TagMismatch`, S3 `PopMismatch`, S4 `PushMismatch` and S5 `TooManySlots` that holds, and none where all
/// processes halt (this profile). It takes no memory.
pub fn sync_fault(outcomes: &Outcomes, table: &Table) -> Option<SyncFault>
    requires some { 1 ≤ length outcomes.now }
    requires slots { All (λ o. AreSlots table.now o.pops) outcomes.now }
    ensures { result ≡ sync_fault outcomes.now table.now }
{
    if is_mixed(outcomes) {
        return Some(SyncFault::MixedEnd);
    }
    if !all_sync(outcomes) {
        return None;
    }
    if !is_same_tag_choice(&outcomes.get(0), outcomes) {
        return Some(SyncFault::TagMismatch);
    }
    table.fault(outcomes)
}

/// The tag size of the next superstep, in words: the common choice, or the old size where none was made (Hill et al. 1998). It takes no memory.
pub fn next_tag_size(old: u64, outcomes: &Outcomes) -> u64
    requires { 1 ≤ length outcomes.now }
    ensures choice { result ≡ next_tag_size old outcomes.now }
    ensures small { old ≤ MOST_TAG_WORDS → result ≤ MOST_TAG_WORDS }
{
    outcomes.get(0).tag.unwrap_or(old)
}
