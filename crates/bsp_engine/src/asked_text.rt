//! The texts for which a line of a live session asks.

ghost use Rattle.std.specs.Prelude.{◌≡◌, OnOk, ◌++◌};
ghost use Rattle.bsp_engine.specs.Help.{help_block};
ghost use Rattle.bsp_engine.specs.Live.{asked_text};
ghost use Rattle.bsp_engine.specs.Shown.{turn_text, view_text};

use crate::asked::{asked_place, asks_by_word, asks_of_place};
use bsp_incr::Place;
use bsp_model::{Input, OutOfMemory};
use bsp_run::History;
use bsp_text::{push_turn, push_view, put_document};

#[tactic(auto, unfolding(crate::specs::Help::help_block))]
fn help_block() -> &'static [u8]
    ensures { result.now ≡ help_block }
{
    b"help
[EDIT, ..]  a batch of edits; an EDIT is [\"word\", pid, addr, value], [\"arg\", pid, index, value],
            [\"limit\", n] or [\"prices\", g, l]; a blank line is the batch without edits
undo        takes back the last accepted batch that still stands
document    writes the input as a document
view S P    writes what process P saw in superstep S
turn S P    writes what the turn of process P left in superstep S
help        writes these lines
end
"
}

pub fn put_asked_text(
    text: &mut Vec<u8>,
    own: &[u8],
    input: &Input,
    history: &History,
    line: &[u8],
) -> Result<(), OutOfMemory>
    ensures { OnOk result (text.new.items ≡ asked_text own.now input.now history.now line.now) }
{
    if asks_by_word(b"document", line) {
        return put_document(text, own, input);
    }
    text.clear();
    if asks_by_word(b"help", line) {
        return text.extend_from_slice(help_block());
    }
    let place = asked_place(line);
    if asks_of_place(b"view", line) {
        return push_view_text(text, history, place);
    }
    push_turn_text(text, history, place)
}

const UNREAD_PLACE: &[u8] = b"unread place\n";

fn push_view_text(
    text: &mut Vec<u8>,
    history: &History,
    place: Option<Place>,
) -> Result<(), OutOfMemory>
    ensures { OnOk result (text.new.items ≡ text.old.items ++ view_text history.now place) }
{
    if let Some(place) = place
        && let Some(views) = history.views(place.step)
        && place.pid < views.len() as u64
    {
        let view = views.get(place.pid as usize);
        return push_view(text, place.step, place.pid, &view);
    }
    text.extend_from_slice(UNREAD_PLACE)
}

fn push_turn_text(
    text: &mut Vec<u8>,
    history: &History,
    place: Option<Place>,
) -> Result<(), OutOfMemory>
    ensures { OnOk result (text.new.items ≡ text.old.items ++ turn_text history.now place) }
{
    if let Some(place) = place
        && let Some(outcomes) = history.outcomes(place.step)
        && place.pid < outcomes.len() as u64
    {
        let turn = outcomes.get(place.pid as usize);
        return push_turn(text, place.step, place.pid, &turn);
    }
    text.extend_from_slice(UNREAD_PLACE)
}
