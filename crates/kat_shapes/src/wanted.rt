//! What a tree that has no form should have been.

/// What is wanted at a tree that has no form there.
#[derive(Clone, Copy, Debug, PartialEq, Eq, Drop)]
pub enum Wanted {
    Spec,
    Version,
    Declaration,
    Type,
    Name,
    Number,
    Place,
    Statement,
    Expression,
    Assertion,
    Phase,
    Part,
}
