//! What trees are read as.

ghost use Rattle.std.specs.Prelude.{◌≡◌};
ghost use Rattle.kat_shapes.specs.Sorts.{wanted_of};

use crate::wanted::Wanted;

/// What a tree is to be read as.
#[derive(Clone, Copy, Debug, PartialEq, Eq, Drop)]
pub enum Sort {
    /// The root of a specification.
    Spec,
    /// The number of a version.
    Version,
    /// The root of a declaration by itself, too.
    Declaration,
    TypeName,
    /// A name other than `true`, `false` and `unit`.
    Name,
    Number,
    /// `plain`, `protected` or `outside`
    RegisterPlace,
    /// `protected` or `outside`
    CellsPlace,
    Statement,
    Expression,
    Assertion,
    Phase,
    /// `(x ..)`, at least one
    Members,
    /// `((x T) ..)`
    Params,
    /// `((x T) ..)`, at least one
    Fields,
    /// `(x T)`
    Param,
    /// `(A S)`
    CaseArm,
    /// `(K x S)`
    MatchArm,
    /// `(pre A)`
    Pre,
    /// `(res x)`
    Res,
    /// `(post A)`
    Post,
    /// `(steps S ..)`
    Steps,
    /// `(when E phase)`
    When,
    /// `(else phase)`
    Else,
    /// `(entry A)`
    Entry,
    /// `(within n)`
    Within,
    /// `(change E)`
    Change,
    /// The word with which a form begins, by which the form was told.
    Word,
}

impl Sort {
    /// What is wanted where a tree has no form of the sort.
    pub(crate) fn wanted(self) -> Wanted
        ensures { result ≡ wanted_of self }
    {
        match self {
            Sort::Spec => Wanted::Spec,
            Sort::Version => Wanted::Version,
            Sort::Declaration => Wanted::Declaration,
            Sort::TypeName => Wanted::Type,
            Sort::Name => Wanted::Name,
            Sort::Number => Wanted::Number,
            Sort::RegisterPlace | Sort::CellsPlace => Wanted::Place,
            Sort::Statement => Wanted::Statement,
            Sort::Expression => Wanted::Expression,
            Sort::Assertion => Wanted::Assertion,
            Sort::Phase => Wanted::Phase,
            _ => Wanted::Part,
        }
    }
}
