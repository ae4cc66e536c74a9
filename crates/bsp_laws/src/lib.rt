//! Laws of runs, of edits and updates, of their reach, their causes and their costs, and calls on batches that keep them.
#![tactic(auto)]

mod batches;
mod laws;

pub use batches::{coalesce, join};
pub use laws::{
    acceptance_stays, edits_of_different_parts_commute, last_edit_wins, lengths_stay,
    limits_and_prices_go_on, lower_limits_do_nothing, no_turn_serves_more, no_turn_without_a_cause,
    nothing_costs_nothing, nothing_for_the_same_run, one_run, openings_cost_the_run,
    out_of_reach_sees_the_same, tables_stay, travels_are_paid, turns_are_reused,
    updates_are_within_reach, updates_cost_at_most_the_run, updates_have_causes,
};
