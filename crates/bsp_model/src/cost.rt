//! The cost of a superstep.

/// What a superstep cost, in units of one operation on a local word (the usual additive BSP cost formula, which is later than Valiant 1990).
#[derive(Clone, Copy, PartialEq, Eq)]
pub struct CostRow {
    /// The largest work that a process charged: 0 to `MOST_WORK`.
    pub work: u64,
    /// The h-relation: the largest number of words that a process sent or received. 0 where nothing was delivered.
    pub h: u64,
    /// `work + h * g + l` where the superstep ended by delivery, else `work`.
    pub cost: u64,
}
