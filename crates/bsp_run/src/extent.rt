//! How many supersteps a run took, and at what prices.

ghost use Rattle.std.specs.Prelude.{◌≡◌, ◌≤◌, length};
ghost use Rattle.bsp_run.specs.Supersteps.{supersteps_of};

use crate::History;
use crate::limit::is_limit;
use bsp_model::limits::{HIGHEST_PRICE, MOST_SUPERSTEPS};

impl History {
    /// The prices of a word of the h-relation and of a synchronisation.
    pub fn prices(&self) -> (u64, u64)
        ensures g { result.0 ≡ self.now.g }
        ensures l { result.1 ≡ self.now.l }
        ensures small_g { result.0 ≤ HIGHEST_PRICE }
        ensures small_l { result.1 ≤ HIGHEST_PRICE }
    {
        let run = &self.run;
        (run.g, run.l)
    }

    /// The number of supersteps.
    pub fn steps(&self) -> usize
        ensures count { result ≡ length (supersteps_of self.now) }
        ensures few { result ≤ MOST_SUPERSTEPS }
    {
        let run = &self.run;
        if is_limit(&run.phase) {
            run.past.len()
        } else {
            run.past.len() + 1
        }
    }
}
