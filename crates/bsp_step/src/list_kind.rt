//! The kinds of lists that a turn may leave.

/// A kind of list that a turn may leave. A kind of which no turn leaves any is not gone over. A fault and a choice of a tag size are lists of at most one.
#[derive(Clone, Copy, PartialEq, Eq)]
pub enum ListKind {
    Faults,
    Gets,
    Sends,
    Pops,
    Pushes,
    Tags,
    Lines,
}
