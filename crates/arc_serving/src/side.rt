// The two kinds of sessions.

/// Which kind of session a caller has.
#[derive(Clone, Copy, Debug, PartialEq, Eq)]
pub enum Side {
    /// A line: panels report on it.
    Lines,
    /// A desk: an operator works at it.
    Desks,
}
