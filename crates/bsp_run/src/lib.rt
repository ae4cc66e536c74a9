//! Whole runs of BSP programs.
#![tactic(auto)]

mod copying;
mod costs;
mod discarded;
mod ending;
mod extent;
mod history;
mod keeping;
mod limit;
mod lines;
mod next;
mod opening;
mod phase;
mod process_lines;
mod result;
mod setting;
mod superstep;
mod taking_over;
mod tape;
mod views;

pub use copying::copied;
pub use costs::{cost_of_delivery, cost_of_end, total_of};
pub use discarded::Discarded;
pub use history::{History, add_memories};
pub use lines::each_lines;
pub use opening::Recording;
pub use phase::Phase;
pub use process_lines::Lines;
pub use result::{ProcessFault, RunError, RunResult, Status};
pub use setting::Setting;
pub use superstep::{Arguments, Superstep};
pub use tape::Tape;
pub use views::{Views, ViewsRef};
