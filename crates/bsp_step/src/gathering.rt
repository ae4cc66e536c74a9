//! Turns that are gathered.

ghost use Rattle.std.specs.Prelude.{◌≡◌, ◌++◌, ◌∷◌, [], IfOk};
ghost use Rattle.bsp_step.specs.OutcomeParts.{IsOutcome};
ghost use Rattle.bsp_step.specs.Inside.Turned.{outcome_left};

use crate::OutcomeRows;
use crate::lists::TurnEnd;
use crate::outcome::Turned;
use crate::outcome_rows::OpenRows;
use bsp_model::{LocalMemory, OutOfMemory, Workspace};
use std::alloc::Global;
use std::marker::Model;

/// The outcomes of the turns that a thread has taken one after the other, and the lists in which it takes the next turn.
#[derive(Drop)]
pub struct Gathering {
    pub(crate) rows: Box<OpenRows>,
    pub(crate) workspace: Box<Workspace>,
}

impl Model for Gathering {
    ghost use Rattle.std.specs.Prelude.{List, ◌≡◌};
    ghost use Rattle.bsp_step.specs.OutcomeParts.{OutcomeParts};
    ghost use Rattle.bsp_step.specs.Inside.Gathered.{begun};

    ghost Value = { List OutcomeParts };

    ghost view = { λ g. g.rows.value.earlier };

    ghost invariant = { λ g. g.rows.value ≡ begun g.rows.value.earlier };
}

impl Gathering {
    /// No outcomes, or `OutOfMemory`.
    pub fn new(alloc: Global) -> Result<Gathering, OutOfMemory>
        ensures { IfOk result (λ g. g ≡ []) }
    {
        Ok(Gathering {
            rows: Box::new(alloc, OpenRows::new(alloc))?,
            workspace: Box::new(alloc, Workspace::of(alloc, LocalMemory::new(alloc)))?,
        })
    }

    /// Exchanges the outcomes with others.
    pub fn swap(&mut self, rows: &mut OutcomeRows)
        ensures taken { self.new ≡ rows.old }
        ensures given { rows.new ≡ self.old }
    {
        self.rows.swap(rows);
    }

    /// The outcomes of the earlier turns, and behind them that of a turn which has ended. Or `OutOfMemory`.
    #[inline(always)]
    pub(crate) fn with_turn(turned: Turned) -> Result<Gathering, OutOfMemory>
        requires { IsOutcome (outcome_left turned) }
        ensures { IfOk result (λ g. g ≡ turned.rows.value.earlier ++ outcome_left turned ∷ []) }
    {
        let Turned {
            fault,
            ended,
            mut workspace,
            mut rows,
            tag,
            work,
        } = turned;
        let end = TurnEnd {
            ended,
            work: work as u32,
            stored: workspace.local.one_range(),
        };
        rows.end_turn(end, fault, tag, &mut workspace)?;
        Ok(Gathering { rows, workspace })
    }
}
