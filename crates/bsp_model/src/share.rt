//! How much of the room that all processes take some of them get.

/// Whether lists for so many of `all` processes begin with their share of the room, or in the whole of it. For very few it is cheaper that the lists that
/// are used grow.
pub fn is_worth_room(count: usize, all: usize) -> bool {
    count <= all && all < count.saturating_mul(16)
}

/// Some of several processes, by their numbers.
#[derive(Clone, Copy)]
pub struct Share {
    some: usize,
    all: usize,
}

impl Share {
    /// So many of `all` processes.
    pub fn of(some: usize, all: usize) -> Share {
        Share { some, all }
    }

    /// All processes.
    pub fn whole() -> Share {
        Share { some: 1, all: 1 }
    }

    /// Their part of so many items that all have, rounded up.
    pub fn part(self, items: usize) -> usize {
        if self.some >= self.all {
            return items;
        }
        items.saturating_mul(self.some).div_ceil(self.all)
    }
}
