//! Whole runs in one call: with their record, or their result alone; on the calling thread, or by several workers.

ghost use Rattle.std.specs.Prelude.{◌≡◌, ◌<◌, ◌≤◌, None, IfOk, IfErr, OnOk};
ghost use Rattle.bsp_model.specs.Input.{input_fault};
ghost use Rattle.bsp_step.specs.Turn.{turn_of};
ghost use Rattle.bsp_run.specs.Run.{run};
ghost use Rattle.bsp_run.specs.Result.{result_of};
ghost use Rattle.bsp_run.specs.Law.{IsBspRun, IsBspResult};
ghost use Rattle.bsp_run.specs.RunErrors.{input_fault_of};

use bsp_crew::Workers;
use bsp_gate::{Gate, Open};
use bsp_incr::{recorded_alone, recorded_run};
use bsp_model::Input;
use bsp_model::limits::MOST_WORKERS;
use bsp_run::{History, RunError, RunResult};
use bsp_scratch::{lawful_result, wide_result};
use bsp_step::Program;
use std::alloc::Global;
use std::thread::Threads;

fn checked(input: &Input) -> Result<(), RunError>
    ensures ok { OnOk result (input_fault input.now ≡ None) }
    ensures err { IfErr result (λ e. input_fault input.now ≡ input_fault_of e) }
{
    match input.check() {
        Ok(()) => Ok(()),
        Err(fault) => Err(RunError::Input(fault)),
    }
}

/// The run of a program on an input, on one thread: every process from its first superstep, up to the superstep limit. `law` says what it is in
/// the words of BSP. `Input(f)` comes exactly where the input's check answers f; or `OutOfMemory`.
pub fn run_plain<P: Program>(alloc: Global, program: &P, input: &Input) -> Result<History, RunError>
    ensures lawful { OnOk result (input_fault input.now ≡ None) }
    ensures run { IfOk result (λ history. history ≡ run (turn_of (P.acts program.now)
        (P.ending program.now)) input.now) }
    ensures law { IfOk result (λ history. IsBspRun (turn_of (P.acts program.now)
        (P.ending program.now)) input.now history) }
    ensures input { IfErr result (λ e. input_fault input.now ≡ input_fault_of e) }
{
    checked(input)?;
    Ok(recorded_alone(alloc, program, input, &Open)?)
}

/// What `run_plain` answers, by 1 to `MOST_WORKERS` workers, the calling thread among them. It goes on alone until workers are worth their start. Where the gate
/// tells no time they start at once. Whoever takes a turn passes the gate with the number of its process before, and whoever makes a delivery too.
pub fn run_wide<P: Program, G: Gate, R: Threads + Sync>(
    rt: &R,
    alloc: Global,
    program: &P,
    input: &Input,
    workers: usize,
    gate: &G,
) -> Result<History, RunError>
    requires workers { (0 < workers) × (workers ≤ MOST_WORKERS) }
    ensures lawful { OnOk result (input_fault input.now ≡ None) }
    ensures run { IfOk result (λ history. history ≡ run (turn_of (P.acts program.now)
        (P.ending program.now)) input.now) }
    ensures law { IfOk result (λ history. IsBspRun (turn_of (P.acts program.now)
        (P.ending program.now)) input.now history) }
    ensures input { IfErr result (λ e. input_fault input.now ≡ input_fault_of e) }
{
    checked(input)?;
    let workers = Workers::new(rt, alloc, workers, gate);
    Ok(recorded_run(&workers, program, input)?.0)
}

/// What the run of a program on an input gives. It keeps no record of the run: beside the lines and the costs, memory for one superstep.
/// `law` says what it is in the words of BSP. `Input(f)` comes exactly where the input's check answers f; or `OutOfMemory`.
pub fn run_result<P: Program>(
    alloc: Global,
    program: &P,
    input: &Input,
) -> Result<RunResult, RunError>
    ensures lawful { OnOk result (input_fault input.now ≡ None) }
    ensures result { IfOk result (λ r. r ≡ result_of (run (turn_of (P.acts program.now)
        (P.ending program.now)) input.now)) }
    ensures law { IfOk result (λ r. IsBspResult (turn_of (P.acts program.now) (P.ending program.now)) input.now r) }
    ensures input { IfErr result (λ e. input_fault input.now ≡ input_fault_of e) }
{
    checked(input)?;
    Ok(lawful_result(alloc, program, input, &Open)?)
}

/// What `run_result` answers, by 1 to `MOST_WORKERS` workers, which start as those of `run_wide` do.
pub fn run_result_wide<P: Program, G: Gate, R: Threads + Sync>(
    rt: &R,
    alloc: Global,
    program: &P,
    input: &Input,
    workers: usize,
    gate: &G,
) -> Result<RunResult, RunError>
    requires workers { (0 < workers) × (workers ≤ MOST_WORKERS) }
    ensures lawful { OnOk result (input_fault input.now ≡ None) }
    ensures result { IfOk result (λ r. r ≡ result_of (run (turn_of (P.acts program.now)
        (P.ending program.now)) input.now)) }
    ensures law { IfOk result (λ r. IsBspResult (turn_of (P.acts program.now) (P.ending program.now)) input.now r) }
    ensures input { IfErr result (λ e. input_fault input.now ≡ input_fault_of e) }
{
    checked(input)?;
    let workers = Workers::new(rt, alloc, workers, gate);
    Ok(wide_result(&workers, program, input)?)
}
