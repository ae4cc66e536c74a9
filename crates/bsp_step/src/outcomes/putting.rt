//! Who puts something to some processes.

ghost use Rattle.std.specs.Prelude.{◌≤◌, ◌<◌, ℕ, All, length};
ghost use Rattle.bsp_model.specs.PutsTo.{AreToNone};
ghost use Rattle.bsp_model.specs.Replaced.{IsAscending};
ghost use Rattle.bsp_step.specs.OutcomeParts.{outcome_of};

use crate::Outcomes;
use bsp_model::ProcessSet;

/// The first process from a number on in a list of them in ascending order, or a number that is no process's.
fn first_from(processes: &[usize], from: usize) -> usize
    requires { IsAscending processes.now }
    ensures later { from ≤ result }
    ensures first { All (λ p. from ≤ p → result ≤ p) processes.now }
{
    let Some(first) = processes.first() else {
        return usize::MAX;
    };
    // Not behind the place that it has in a run of consecutive numbers.
    let mut place = from.saturating_sub(*first).min(processes.len());
    while place > 0 && processes[place - 1] >= from {
        place -= 1;
    }
    match processes.get(place) {
        Some(process) => *process,
        None => usize::MAX,
    }
}

impl Outcomes {
    /// The first process from `from` on whose turn may put something to one of these processes, or the number of processes. None before it does.
    pub fn next_putting_to(&self, targets: &ProcessSet, from: usize) -> usize
        requires { from ≤ length self.now }
        ensures later { from ≤ result }
        ensures before { (p : ℕ) → from ≤ p → p < result → AreToNone targets.now (outcome_of self.now p).puts }
    {
        let Some(rows) = &self.rows else {
            return 0;
        };
        let (base, apart) = rows.layers();
        match apart {
            Some(apart) => {
                let next = base.next_putting_to(targets, from);
                next.min(first_from(apart.processes.as_slice(), from))
            }
            None => base.next_putting_to(targets, from),
        }
    }
}
