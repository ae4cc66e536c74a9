//! The lines of reports, and the texts of turns, of views and of inputs. Each call appends to a text, and answers `OutOfMemory` where there is no room:
//! then a beginning of what was to be appended may stand there.
#![tactic(auto)]

mod lines;
mod session_document;
mod turn_lines;

pub use lines::{push_field, push_fields, push_joined_line, push_line, push_memory_line};
pub use session_document::put_document;
pub use turn_lines::{push_fault, push_turn, push_view};
