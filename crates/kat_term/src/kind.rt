//! The kinds of limits.

/// A limit that symbolic execution can pass, in the order in which two that are passed at once are
/// named.
#[derive(Clone, Copy, Debug, PartialEq, Eq, Drop)]
pub enum Kind {
    /// Ended paths of an item.
    Paths,
    /// Steps of a path.
    Steps,
    /// Nodes of a term.
    Nodes,
    /// Depth of a term.
    Depth,
    /// Rules used in one `norm`.
    Rules,
    /// Chunks at once.
    Chunks,
    /// Depth of calls.
    Inline,
    /// Variables of a path.
    Vars,
}
