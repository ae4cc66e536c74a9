//! Sessions: a program, its input, and the run that stays ready for edits of the input.
#![tactic(auto)]

mod compare;
mod edit;
mod named;
mod reply;
mod rerun;
mod session;
mod superstep;

pub use edit::{Batch, Edit, EditError, EditFault, EditRefusal};
pub use named::{add_place_processes, add_word_processes};
pub use reply::{Place, Reply, Update};
pub use rerun::{recorded_alone, recorded_run};
pub use session::{Session, scratch_run, scratch_run_behind, session_run};
