//! One turn of a process: what it sees, what it does, and what it leaves.
#![tactic(auto)]

mod ctx;
mod gathering;
mod list_kind;
mod lists;
mod open_lists;
mod outcome;
mod outcome_rows;
mod outcomes;
mod program;
mod stop;
mod view;

pub use ctx::Ctx;
pub use gathering::Gathering;
pub use list_kind::ListKind;
pub use outcome::{Ended, Outcome, OutcomeRef};
pub use outcome_rows::{OutcomeRows, PutRows};
pub use outcomes::Outcomes;
pub use program::{Program, add_turn, turn};
pub use stop::{Stop, settle};
pub use view::{Queue, View};
