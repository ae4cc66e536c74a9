//! Programs that are proved to compute something.

ghost use Rattle.std.specs.Prelude.{◌≡◌, None, IfOk, IfErr, OnOk};
ghost use Rattle.bsp_model.specs.Input.{input_fault};
ghost use Rattle.bsp_step.specs.Turn.{turn_of};
ghost use Rattle.bsp_run.specs.Run.{run};
ghost use Rattle.bsp_run.specs.RunErrors.{input_fault_of};

use bsp_incr::Session;
use bsp_model::Input;
use bsp_run::{History, RunError};
use bsp_step::Program;
use bsp_whole::run_plain;
use std::alloc::Global;

/// A program of which it is proved what its runs compute.
pub trait Computes: Program {
    ghost use Rattle.bsp_model.specs.declared.input.Input.{Input};
    ghost use Rattle.bsp_step.specs.Turn.{turn_of};
    ghost use Rattle.bsp_run.specs.Run.{Run, run};

    /// What is claimed of the run of an input.
    ghost computes: { Self → Input → Run → Type 0 };

    /// The law: it holds of the run of every input.
    fn law(input: &Input)
        ensures { (program : Self)
            → computes program input.now (run (turn_of (Self.acts program) (Self.ending program)) input.now) };
}

/// The run of a program on an input, on one thread. What the program claims of it holds. `Input(f)` comes exactly where the input's check
/// answers f; or `OutOfMemory`.
pub fn run_computing<P: Computes>(
    alloc: Global,
    program: &P,
    input: &Input,
) -> Result<History, RunError>
    ensures lawful { OnOk result (input_fault input.now ≡ None) }
    ensures run { IfOk result (λ history. history ≡ run (turn_of (P.acts program.now)
        (P.ending program.now)) input.now) }
    ensures computes { IfOk result (λ history. P.computes program.now input.now history) }
    ensures input { IfErr result (λ e. input_fault input.now ≡ input_fault_of e) }
{
    P::law(input);
    run_plain(alloc, program, input)
}

/// What a program claims of the run of an input holds of the history of each of its sessions, however the input was edited: the history is the
/// run of the input.
pub fn session_computes<P: Computes + Drop>(session: &Session<P>)
    ensures { P.computes session.now.program session.now.input session.now.history }
{
    P::law(session.input());
    let _history = session.history();
}
