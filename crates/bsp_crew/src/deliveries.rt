//! The deliveries of a superstep, by the calling thread or by a crew beside it.

ghost use Rattle.std.specs.Prelude.{◌≡◌, ◌++◌, [], IfOk, IfSome, OnOk, map};
ghost use Rattle.bsp_deliver.specs.Condition.{CanDeliver};
ghost use Rattle.bsp_run.specs.Shares.{deliveries_to};

use crate::crew::Crew;
use crate::part::Part;
use crate::shared_run::SharedRun;
use crate::task::{Made, Means, Task};
use bsp_deliver::{Cells, deliver_some};
use bsp_gate::Gate;
use bsp_model::{OutOfMemory, TryCopy};
use bsp_step::{Outcomes, Program};

/// Adds cells behind cells. Where there are none yet, the new ones are handed on.
pub(crate) fn add_cells(cells: &mut Cells, mut more: Cells) -> Result<(), OutOfMemory>
    ensures { OnOk result (cells.new ≡ cells.old ++ more) }
{
    if cells.len() == 0 {
        *cells = more;
        return Ok(());
    }
    cells.append(&mut more)
}

impl<'a, P, G: Gate> Means<'a, P, G> {
    /// Adds to `cells` the next memory and queue of the processes of a part, by this thread, which goes over the requests once. The gate is passed with
    /// their places in the superstep's list before all deliveries.
    pub(crate) fn make_deliveries(
        &self,
        outcomes: &Outcomes,
        part: &Part<'_>,
        cells: &mut Cells,
    ) -> Result<(), OutOfMemory>
        requires { CanDeliver outcomes.now part.now.processes.now }
        ensures { OnOk result (cells.new ≡ cells.old ++ deliveries_to outcomes.now part.now.processes.now) }
    {
        for place in 0..part.processes.len() {
            self.gate.pass(part.first + place);
        }
        if cells.len() == 0 {
            return deliver_some(self.alloc, outcomes, part.processes, cells);
        }
        let mut more = Cells::new(self.alloc);
        deliver_some(self.alloc, outcomes, part.processes, &mut more)?;
        cells.append(&mut more)
    }
}

impl<J: SharedRun> Crew<J> {
    /// The next memory and queue of the processes of a list of two or more, made in the room of `cells`.
    fn deliver<P: Program, G: Gate>(
        &self,
        means: &Means<'_, P, G>,
        outcomes: &Outcomes,
        whole: &Part<'_>,
        cells: Cells,
    ) -> Result<Cells, OutOfMemory>
        requires none { cells ≡ [] }
        requires can { CanDeliver outcomes.now whole.now.processes.now }
        requires made { outcomes.now ≡ map J.turn (J.views whole.now.step) }
        ensures { IfOk result (λ cells. cells ≡ deliveries_to outcomes.now whole.now.processes.now) }
    {
        let task = Task::Deliveries(outcomes.copy()?);
        let mut made = Made::Delivered(cells);
        let worked = self.work_units(means, &task, whole, &mut None, &mut made);
        drop(task);
        match (worked, made) {
            (Ok(()), Made::Delivered(cells)) => Ok(cells),
            (Ok(()), Made::Taken(_)) => unreachable!(),
            (Err(error), _) => Err(error),
        }
    }
}

/// The next memory and queue of some processes, in the order of the list: where there is a crew, by its workers beside the calling thread. `processes`
/// are places in `outcomes`, which all turns of superstep `step` left. They ascend. Whoever makes the delivery at the place k of the list, counted from
/// 0, passes the gate with k before. They are made in the room of `cells`.
///
/// # Errors
/// `OutOfMemory` where the calling thread is refused memory for a delivery that no worker hands in, or to add the deliveries.
pub fn wide_deliveries<J: SharedRun, P: Program, G: Gate>(
    means: &Means<'_, P, G>,
    outcomes: &Outcomes,
    processes: &[usize],
    step: u64,
    mut cells: Cells,
    crew: Option<&Crew<J>>,
) -> Result<Cells, OutOfMemory>
    requires none { cells ≡ [] }
    requires can { CanDeliver outcomes.now processes.now }
    requires made { IfSome crew (λ _. outcomes.now ≡ map J.turn (J.views step)) }
    ensures { IfOk result (λ cells. cells ≡ deliveries_to outcomes.now processes.now) }
{
    let whole = Part {
        step,
        processes,
        first: 0,
    };
    match crew {
        Some(crew) if processes.len() > 1 => crew.deliver(means, outcomes, &whole, cells),
        _ => {
            let delivered = means.make_deliveries(outcomes, &whole, &mut cells);
            delivered.and(Ok(cells))
        }
    }
}
