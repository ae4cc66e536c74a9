//! The numbers of all processes.

ghost use Rattle.std.specs.Prelude.{◌≡◌, ◌≤◌};
ghost use Rattle.std.specs.List.{range_with_len};

use crate::limits::MOST_PROCESSES;

/// The numbers of as many processes as a set has bits.
static NUMBERS: [usize; 64] = [
    0, 1, 2, 3, 4, 5, 6, 7, 8, 9, 10, 11, 12, 13, 14, 15, 16, 17, 18, 19, 20, 21, 22, 23, 24, 25,
    26, 27, 28, 29, 30, 31, 32, 33, 34, 35, 36, 37, 38, 39, 40, 41, 42, 43, 44, 45, 46, 47, 48, 49,
    50, 51, 52, 53, 54, 55, 56, 57, 58, 59, 60, 61, 62, 63,
];

/// The numbers of so many processes, from 0 on, of which there are at most `MOST_PROCESSES`. They take no memory.
pub fn numbers(count: usize) -> &'static [usize]
    requires { count ≤ MOST_PROCESSES }
    ensures { result.now ≡ range_with_len 0 count }
{
    &NUMBERS[..count]
}
