//! Laws of runs, of edits, and of updates: their reach, their causes and their costs.

ghost use Rattle.bsp_run.specs.Law.{OneRun};
ghost use Rattle.bsp_laws.specs.Batches.{AcceptanceStays, LengthsStay, LastWins, LastWinsInBatch, EditsCommute};
ghost use Rattle.bsp_laws.specs.Causes.{UpdatesHaveCauses};
ghost use Rattle.bsp_laws.specs.Costs.{NothingCostsNothing, OpeningsCostTheRun, TravelsArePaid, UpdatesCostAtMostTheRun};
ghost use Rattle.bsp_laws.specs.Least.{NoTurnServesMore};
ghost use Rattle.bsp_laws.specs.Reach.{SeesTheSame, UpdatesAreWithinReach, TablesStay, NoTurnWithoutACause};
ghost use Rattle.bsp_laws.specs.Updates.{NothingForTheSameRun, LimitsAndPricesGoOn, LowerLimitsDoNothing, TurnsAreReused};

/// The law fixes every part of a run: of each lawful input there is one run, which is the machine's.
pub fn one_run()
    ensures { OneRun }
{}

/// Whether a batch is accepted does not depend on the batches before it.
pub fn acceptance_stays()
    ensures { AcceptanceStays }
{}

/// No batch changes the number of processes, or the length of a memory or of a list of arguments.
pub fn lengths_stay()
    ensures { LengthsStay }
{}

/// Of two edits of one part the last wins, also in a batch.
pub fn last_edit_wins()
    ensures two { LastWins }
    ensures batch { LastWinsInBatch }
{}

/// Edits of different parts may be made in either order.
pub fn edits_of_different_parts_commute()
    ensures { EditsCommute }
{}

/// A process that edits do not reach through deliveries sees in a superstep what it saw before the edits.
pub fn out_of_reach_sees_the_same()
    ensures { SeesTheSame }
{}

/// A process that the edits do not reach takes no turn again.
pub fn updates_are_within_reach()
    ensures { UpdatesAreWithinReach }
{}

/// The tables and the tag sizes are the same as before the edits where all that was registered is.
pub fn tables_stay()
    ensures { TablesStay }
{}

/// A process takes no turn again in the next superstep unless something else was delivered to it, its arguments were edited, or the table or the tag
/// size is another one there.
pub fn no_turn_without_a_cause()
    ensures { NoTurnWithoutACause }
{}

/// Where the run is the previous run, nothing was done.
pub fn nothing_for_the_same_run()
    ensures { NothingForTheSameRun }
{}

/// Other prices and another limit take turns and make deliveries only in supersteps where the previous run has none.
pub fn limits_and_prices_go_on()
    ensures { LimitsAndPricesGoOn }
{}

/// Other prices and a lower limit do nothing.
pub fn lower_limits_do_nothing()
    ensures { LowerLimitsDoNothing }
{}

/// Where a turn does not serve, it may not be taken over by views and footprint alone: so no turn less could be taken.
pub fn no_turn_serves_more()
    ensures { NoTurnServesMore }
{}

/// Where a recorded turn serves, the run after an update has that turn's outcome, with its stores made again in order on the memory that the process has now.
pub fn turns_are_reused()
    ensures { TurnsAreReused }
{}

/// After an accepted batch a turn of the new run was taken again exactly where it has a cause, and a delivery was made again exactly where it has one.
/// The others have none.
pub fn updates_have_causes()
    ensures { UpdatesHaveCauses }
{}

/// The update of an opening costs the rows and the total of its run.
pub fn openings_cost_the_run()
    ensures { OpeningsCostTheRun }
{}

/// An update that does nothing costs nothing.
pub fn nothing_costs_nothing()
    ensures { NothingCostsNothing }
{}

/// An update costs in no superstep more than the run does there, and in all at most the run's total.
pub fn updates_cost_at_most_the_run()
    ensures { UpdatesCostAtMostTheRun }
{}

/// A superstep in which words travelled again costs at least `l` and their `h*g`, beside the work.
pub fn travels_are_paid()
    ensures { TravelsArePaid }
{}
