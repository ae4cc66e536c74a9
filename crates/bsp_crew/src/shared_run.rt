//! The run that several workers make together.

use std::marker::Brand;

/// A run, as a type parameter of the sheets that its workers hand each other.
pub trait SharedRun {
    ghost use Rattle.std.specs.Prelude.{List, ℕ};
    ghost use Rattle.bsp_step.specs.ViewParts.{ViewParts};
    ghost use Rattle.bsp_step.specs.OutcomeParts.{OutcomeParts};

    /// The turn of its program.
    ghost turn: { ViewParts → OutcomeParts };

    /// The views of the processes in each superstep.
    ghost views: { ℕ → List ViewParts };
}

impl SharedRun for Brand {
    ghost use Rattle.std.specs.Prelude.{[]};
    ghost use Rattle.bsp_step.specs.OutcomeParts.{no_outcome};

    ghost turn = { λ _. no_outcome };

    ghost views = { λ _. [] };
}
