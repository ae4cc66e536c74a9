//! The lines of an update.

ghost use Rattle.std.specs.Prelude.{◌≡◌, ◌++◌, OnOk, Some, [], option_map, All};
ghost use Rattle.bsp_incr.specs.Exact.{AreInOrder, HasDelivery, HasTurn, delivered_before, supersteps_before};
ghost use Rattle.bsp_causes.specs.UpdateCost.{update_cost};
ghost use Rattle.bsp_engine.specs.Inside.Causes.{IsUpdateTo};
ghost use Rattle.bsp_engine.specs.Text.{update_lines};
ghost use Rattle.bsp_engine.specs.WhyLines.{more_lines, update_cost_lines, cause, named_cause, delivery_cause_words, step_words, turn_cause_words, why_delivery_line, why_turn_line};
ghost use Rattle.std.specs.List.{flat_map};
ghost use Rattle.bsp_run.specs.Supersteps.{supersteps_of};
ghost use Rattle.bsp_causes.specs.DeliveryCauses.{HaveAsMany};
ghost use Rattle.bsp_causes.specs.TurnCauses.{HaveSameSizes};

use crate::block_lines::{begin_line, push_counts, push_update_places};
use bsp_causes::{
    DeliveryCauses, TurnCauses, UpdateCost, delivery_causes, turn_causes, update_cost,
};
use bsp_incr::{Place, Update};
use bsp_model::OutOfMemory;
use bsp_options::Detail;
use bsp_run::History;
use bsp_step::Program;
use bsp_text::{push_field, push_fields, push_line};

fn push_costs(text: &mut Vec<u8>, cost: &UpdateCost) -> Result<(), OutOfMemory>
    ensures { OnOk result (text.new.items ≡ text.old.items ++ update_cost_lines cost.now) }
{
    for step in cost.rows.as_slice() {
        let row = step.row;
        push_line(text, "update", &[step.step, row.work, row.h, row.cost])?;
    }
    push_line(text, "update total", &[cost.total])
}

fn push_update_cost(
    text: &mut Vec<u8>,
    old: Option<&History>,
    new: &History,
    update: &Update,
) -> Result<(), OutOfMemory>
    requires executed { AreInOrder update.now.executed }
    requires redelivered { AreInOrder update.now.redelivered }
    ensures { OnOk result (text.new.items ≡ text.old.items ++ update_cost_lines
        (update_cost (option_map (λ h. h.now) old.entry) new.now update.now)) }
{
    let cost = update_cost(*text.allocator(), old, new, update)?;
    let pushed = push_costs(text, &cost);
    drop(cost);
    pushed
}

#[tactic(auto, unfolding(crate::specs::WhyLines::more_lines))]
pub fn push_update<P: Program>(
    text: &mut Vec<u8>,
    detail: Detail,
    program: &P,
    old: Option<&History>,
    new: &History,
    update: &Update,
) -> Result<(), OutOfMemory>
    requires steps { IsUpdateTo (option_map (λ h. h.now) old) new.now update.now }
    ensures { OnOk result (text.new.items ≡ text.old.items ++ update_lines detail.places
        (more_lines detail (P.looks program.now) (option_map (λ h. h.now) old.entry) new.now update.now)
        (Some update.now)) }
{
    push_update_places(text, detail.places, update)?;
    if detail.why {
        push_why_turns(text, program, old, new, update.executed.as_slice())?;
        push_why_deliveries(text, old, new, update.redelivered.as_slice())?;
    }
    if detail.update_cost {
        push_update_cost(text, old, new, update)?;
    }
    push_counts(text, update)
}

pub fn push_update_alone(
    text: &mut Vec<u8>,
    places: bool,
    update: &Option<Update>,
) -> Result<(), OutOfMemory>
    ensures { OnOk result (text.new.items ≡ text.old.items ++ update_lines places [] update.now) }
{
    let Some(update) = update else {
        return Ok(());
    };
    push_update_places(text, places, update)?;
    push_counts(text, update)
}

fn push_cause(text: &mut Vec<u8>, word: &str, is: bool) -> Result<(), OutOfMemory>
    ensures { OnOk result (text.new.items ≡ text.old.items ++ cause word.now is) }
{
    if !is {
        return Ok(());
    }
    text.push(b' ')?;
    text.extend_from_slice(word.as_bytes())
}

fn push_named_cause(text: &mut Vec<u8>, word: &str, numbers: &[u64]) -> Result<(), OutOfMemory>
    ensures { OnOk result (text.new.items ≡ text.old.items ++ named_cause word.now numbers.now) }
{
    if numbers.is_empty() {
        return Ok(());
    }
    push_cause(text, word, true)?;
    push_fields(text, numbers)
}

fn push_turn_causes(text: &mut Vec<u8>, causes: &TurnCauses) -> Result<(), OutOfMemory>
    ensures { OnOk result (text.new.items ≡ text.old.items ++ turn_cause_words causes.now) }
{
    push_cause(text, "new", causes.is_new)?;
    push_cause(text, "args", causes.args)?;
    push_cause(text, "queue", causes.queue)?;
    push_cause(text, "table", causes.table)?;
    push_cause(text, "tagsize", causes.tag_size)?;
    push_named_cause(text, "word", causes.words.as_slice())
}

fn push_delivery_causes(text: &mut Vec<u8>, causes: &DeliveryCauses) -> Result<(), OutOfMemory>
    ensures { OnOk result (text.new.items ≡ text.old.items ++ delivery_cause_words causes.now) }
{
    push_cause(text, "new", causes.is_new)?;
    push_cause(text, "memory", causes.memory)?;
    push_cause(text, "gets", causes.gets)?;
    push_named_cause(text, "read", causes.read.as_slice())?;
    push_named_cause(text, "puts", causes.puts.as_slice())?;
    push_named_cause(text, "sends", causes.sends.as_slice())
}

fn begin_step(text: &mut Vec<u8>, step: &str, place: &Place) -> Result<(), OutOfMemory>
    ensures { OnOk result (text.new.items ≡ text.old.items ++ step_words step.now place.now) }
{
    begin_line(text, step, place.step)?;
    push_field(text, place.pid)
}

fn push_why_turns<P: Program>(
    text: &mut Vec<u8>,
    program: &P,
    old: Option<&History>,
    new: &History,
    places: &[Place],
) -> Result<(), OutOfMemory>
    requires known { All (HasTurn (supersteps_of new.now)) places.now }
    requires same_sizes { All (HaveSameSizes (supersteps_before (option_map (λ h. h.now) old)) (supersteps_of new.now)) places.now }
    ensures { OnOk result (text.new.items ≡ text.old.items ++ flat_map (why_turn_line (P.looks program.now)
        (option_map (λ h. h.now) old.entry) new.now) places.now) }
{
    for place in places {
        begin_step(text, "why turn", place)?;
        let causes = turn_causes(*text.allocator(), program, old, new, *place)?;
        push_turn_causes(text, &causes)?;
        text.push(b'\n')?;
    }
    Ok(())
}

fn push_why_deliveries(
    text: &mut Vec<u8>,
    old: Option<&History>,
    new: &History,
    places: &[Place],
) -> Result<(), OutOfMemory>
    requires known { All (HasDelivery new.now.past) places.now }
    requires as_many { All (HaveAsMany (delivered_before (option_map (λ h. h.now) old)) new.now.past) places.now }
    ensures { OnOk result (text.new.items ≡ text.old.items ++ flat_map (why_delivery_line (option_map
        (λ h. h.now) old.entry) new.now) places.now) }
{
    for place in places {
        begin_step(text, "why delivery", place)?;
        let causes = delivery_causes(*text.allocator(), old, new, *place)?;
        push_delivery_causes(text, &causes)?;
        text.push(b'\n')?;
    }
    Ok(())
}
