//! Processes in a row of a superstep.

ghost use Rattle.std.specs.Prelude.{◌≡◌, ◌+◌, ◌<◌, ◌^◌, length, min};

/// Processes in a row in the list of a superstep, whose turns are to be taken, or to which deliveries are to be made.
#[derive(Clone, Copy)]
pub(crate) struct Part<'a> {
    /// The number of the superstep, from 0.
    pub step: u64,
    pub processes: &'a [usize],
    /// The place of the first of them in the superstep's list.
    pub first: usize,
    ghost fits: { first + length processes.now < 2 ^ 64 },
}

impl<'a> Part<'a> {
    ghost use Rattle.bsp_crew.specs.Parts.{AreParts, IsWithin};

    /// The first processes, at most so many, and the rest.
    pub fn split(&self, size: usize) -> (Part<'a>, Part<'a>)
        ensures cut { AreParts result.0 result.1 self.now }
        ensures size { length result.0.processes.now ≡ min size (length self.now.processes.now) }
    {
        let size = size.min(self.processes.len());
        let (processes, rest) = self.processes.split_at(size);
        let part = Part {
            step: self.step,
            processes,
            first: self.first,
        };
        let rest = Part {
            step: self.step,
            processes: rest,
            first: self.first + size,
        };
        (part, rest)
    }

    /// The unit of this number, of units of so many processes.
    pub fn unit(&self, unit: usize, size: usize) -> Part<'a>
        ensures { IsWithin result self.now }
    {
        let (_, behind) = self.split(unit.saturating_mul(size));
        behind.split(size).0
    }
}
