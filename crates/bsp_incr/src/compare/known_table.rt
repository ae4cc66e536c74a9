//! What is known of tables, without a look at them.

/// What is known of the table and the tag size of a superstep.
#[derive(Clone, Copy)]
pub enum KnownTable {
    /// They are those of the same superstep of the previous run, if that run has such a superstep.
    AsBefore,
    /// They may be others.
    Unknown,
}
