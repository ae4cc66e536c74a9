//! Where processes stand in ascending lists of them.

ghost use Rattle.std.specs.Prelude.{◌≡◌, ◌≢◌, ◌≤◌, ◌+◌, ◌-◌, ℕ, ◌<◌, ◌↔◌, All, IfNone, IfSome, IsTrue, length, nat_le, slice_index_or, ◌/◌};
ghost use Rattle.std.specs.List.{Contains};
ghost use Rattle.bsp_model.specs.Replaced.{IsAscending};

/// The new items of at most one process in so many lie apart.
const ONE_APART_OF: usize = 4;

/// Whether the new items of `some` of `all` processes are few enough to lie apart.
pub fn are_few(some: usize, all: usize) -> bool
    ensures { result ≡ nat_le some (all / ONE_APART_OF) }
{
    some <= all / ONE_APART_OF
}

/// Where a process stands in an ascending list, if it does: not behind the place that it has in a run of consecutive numbers.
#[inline(always)]
pub fn place_among(processes: &[usize], pid: usize) -> Option<usize>
    requires ascending { IsAscending processes.now }
    ensures some { IfSome result (λ k. (k < length processes.now) × (slice_index_or processes.now k 0 ≡ pid)) }
    ensures none { IfNone result ((k : ℕ) → k < length processes.now → pid ≢ slice_index_or processes.now k 0) }
{
    if processes.is_empty() || pid < processes[0] {
        return None;
    }
    let mut place = (pid - processes[0]).min(processes.len() - 1);
    while processes[place] > pid {
        place -= 1;
    }
    if processes[place] == pid {
        Some(place)
    } else {
        None
    }
}

/// Where the run of consecutive numbers ends that begins at a place of an ascending list of processes.
pub fn end_of_run(processes: &[usize], place: usize) -> usize
    requires ascending { IsAscending processes.now }
    requires known { place < length processes.now }
    ensures some { place < result }
    ensures inside { result ≤ length processes.now }
    ensures run { (k : ℕ) → place ≤ k → k < result →
        slice_index_or processes.now k 0 ≡ slice_index_or processes.now place 0 + (k - place) }
    ensures longest { result < length processes.now →
        slice_index_or processes.now place 0 + (result - place) < slice_index_or processes.now result 0 }
{
    for end in place + 1..processes.len() {
        if processes[end] - processes[place] > end - place {
            return end;
        }
    }
    processes.len()
}

/// Whether each of these processes stands in a list in ascending order.
pub fn are_among(some: &[usize], processes: &[usize]) -> bool
    requires ascending { IsAscending processes.now }
    ensures { IsTrue result ↔ All (Contains processes.now) some.now }
{
    for k in 0..some.len() {
        let Some(_place) = place_among(processes, some[k]) else {
            return false;
        };
    }
    true
}
