//! Why a turn follows no further instruction.

use bsp_model::End;
use bsp_step::Stop;

/// Why a turn follows no further instruction.
#[derive(Clone, Copy)]
pub enum Exit {
    /// The turn has ended so: by an instruction, or by a word that is missing.
    Ended(End),
    /// A call kept a fault, or memory was refused.
    Stopped(Stop),
}
