//! What is known of reports, of documents and of the answers to lines.

ghost use Rattle.bsp_engine.specs.LineLaws.{LinesAreBatches, UndoTakesBack};
ghost use Rattle.bsp_engine.specs.ReadsBack.{DocumentsReadBack};
ghost use Rattle.bsp_engine.specs.Untouched.{UntouchedProcessesStay};
ghost use Rattle.bsp_engine.specs.Whole.{ChangesTellTheRest, TextsTellTheRest};

use crate::catalogue::Catalogue;
use bsp_step::Program;

/// The lines of changes say enough: with the result before, of as many processes, they give the next result whole. The texts alone say enough too: that
/// of the whole block before, and that of the changes.
pub fn changes_tell_the_rest()
    ensures items { ChangesTellTheRest }
    ensures texts { TextsTellTheRest }
{}

/// Let a run end as the previous run did. Take a process of which no edit changed a word, which took no turn again, and to which nothing was delivered
/// again. Its memory and its lines are those of the previous run.
pub fn untouched_processes_stay()
    ensures { UntouchedProcessesStay }
{}

/// What a session writes for a line `document` is a document of the same program, with the input as it is and no
/// batches.
pub fn documents_read_back<C: Catalogue>()
    ensures { DocumentsReadBack C.meaning }
{}

/// Lines that ask for batches are answered as a document is that has these batches.
pub fn lines_are_batches<P: Program + Drop>()
    ensures { LinesAreBatches P.acts P.ending P.looks }
{}

/// A line `undo` after an accepted batch takes it back.
pub fn undo_takes_back<P: Program + Drop>()
    ensures { UndoTakesBack P }
{}
