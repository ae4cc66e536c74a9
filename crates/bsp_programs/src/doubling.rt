//! The distances of programs that double their reach in each superstep.

ghost use Rattle.std.specs.Prelude.{◌≡◌, ◌≤◌};
ghost use Rattle.bsp_programs.specs.Doubling.{distance};

/// The distance that is bridged in a superstep from 1: 1, 2, 4 and so on up to 128.
pub(crate) fn distance(step: u64) -> u64
    ensures value { result ≡ distance step }
    ensures small { result ≤ 128 }
{
    1 << (step.clamp(1, 8) - 1)
}
