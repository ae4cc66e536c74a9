//! Why an update took turns and made deliveries again, and what it cost.
#![tactic(auto)]

mod costs;
mod deliveries;
mod moved;
mod travel;
mod turns;

pub use costs::{StepCost, UpdateCost, update_cost};
pub use deliveries::{DeliveryCauses, delivery_causes};
pub use turns::{TurnCauses, turn_causes};
