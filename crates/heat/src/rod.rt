//! What heat in a rod computes.

use crate::kernel::Heat;
use bsp_model::Input;
use bsp_right::Computes;

/// Where each memory has three words or more, all processes name one number T of time steps, and the limit is T + 2 at least, the run of heat halts.
/// The cells of all processes, one process after the other, are then those of the rod in one piece after T time steps, and each process has printed
/// the sum of its own, modulo 2^64. With P processes, of which one has c cells and none has more, the total cost is
/// `T * (min(P - 1, 2) * g + l + c) + l`.
impl Computes for Heat {
    ghost use Rattle.heat.specs.Rod.{Advances};

    ghost computes = { λ _. Advances };

    fn law(_input: &Input) {}
}
