//! The version that a text states.

ghost use Rattle.std.specs.Prelude.{◌≡◌};
ghost use Rattle.kat_shapes.specs.Version.{version_of, stated_of};

use crate::sort::Sort;
use kat_tree::{Token, Tree};
use kat_value::{NEWEST, is_version};

/// The version of a text whose root is of this sort. A specification states its own. A declaration
/// by itself states none and may be of any: it may have each form that some version has, so it is
/// judged by the newest, and who puts it into a specification asks there for that one's version.
pub(crate) fn version_of(tree: &Tree, root: Sort) -> u64
    ensures { result ≡ version_of root tree.now }
{
    match root {
        Sort::Spec => stated(tree),
        _ => NEWEST,
    }
}

/// The version that stands behind the first word of a list.
fn stated(tree: &Tree) -> u64
    ensures { result ≡ stated_of tree.now }
{
    let Tree::List(parts) = tree else {
        return NEWEST;
    };
    match parts.as_slice() {
        [_, Tree::Atom(Token::Number(n)), ..] if is_version(*n) => *n,
        _ => NEWEST,
    }
}
