//! What a run that is made again has in common with the previous run.

mod alike;
mod before;
mod both_supersteps;
mod dirty;
mod known_table;
mod looking;
mod marks;
mod moving;
mod places;

pub use alike::{Alike, alike_beside};
pub use before::views_after;
pub use both_supersteps::{OpenSuperstep, delivered_beside, open_superstep};
pub use dirty::Dirty;
pub use known_table::KnownTable;
pub use looking::{has_table, serves};
pub use marks::{Marks, all_marks, marks_of_edits};
pub use places::add_places;
