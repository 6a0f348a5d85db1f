//! The two modes of symbolic execution.

/// How a path treats calls, predicates and proof statements.
#[derive(Clone, Copy, Debug, PartialEq, Eq, Drop)]
pub enum Mode {
    /// Calls go by contracts, predicates are chunks, and proof statements are done.
    ByContract,
    /// Calls run in place, predicates are their definitions, and proof statements are skipped.
    Inline,
}
