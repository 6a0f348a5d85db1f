//! Whether a text has right form, and the first tree in it that has none.

ghost use Rattle.std.specs.Prelude.{◌≡◌, ◌+◌, true, map, MatchResult, IfOk};
ghost use Rattle.std.specs.Option.{option_map};
ghost use Rattle.kat_tree.specs.Preorder.{count_of};
ghost use Rattle.kat_shapes.specs.Fits.{first_word, judged, fits, fits_in};
ghost use Rattle.kat_shapes.specs.Places.{AllHaveForm, IsFirstMisfit, IsMisfitFrom, capped_place, word_before};

use crate::form::{has_count, sort_at};
use crate::misfit::Misfit;
use crate::sort::Sort;
use crate::table::form_of;
use crate::token::fits_token;
use crate::version::version_of;
use kat_tree::{Token, Tree};

/// Goes over a text whose root is of this sort once: `Ok` where each tree that is read as something
/// has a form there, else the first, in preorder, that has none. Of a text of fewer than 2^64 trees
/// the misfit's place is its number; a number past the greatest of 64 bits stands still there.
pub fn judge(tree: &Tree, root: Sort) -> Result<(), Misfit>
    ensures judged { MatchResult result
        (λ _. AllHaveForm root tree.now)
        (IsFirstMisfit root tree.now) }
    // What has right form fits its sort, part by part, in the newest version too.
    ensures fits { IfOk result (λ _. fits root tree.now ≡ true) }
{
    let _ = judge_from(version_of(tree, root), tree, root, 0)?;
    Ok(())
}

/// Goes over a tree that is read as this and has this number, and gives the number behind it; or
/// the first tree, in preorder, that has no form.
fn judge_from(version: u64, tree: &Tree, sort: Sort, place: u64) -> Result<u64, Misfit>
    ensures { MatchResult result
        (λ next. (fits_in version sort tree.now ≡ true)
        × (next ≡ capped_place (place + count_of tree.now)))
        (IsMisfitFrom version sort tree.now place) }
{
    match tree {
        Tree::Atom(token) => {
            if fits_token(version, sort, token) {
                Ok(place.saturating_add(1))
            } else {
                Err(Misfit::at(sort, place))
            }
        }
        Tree::List(parts) => {
            let parts = parts.as_slice();
            let Some(form) = form_of(version, sort, first_word(parts)) else {
                return Err(Misfit::at(sort, place));
            };
            if !has_count(&form, parts.len()) {
                return Err(Misfit::at(sort, place));
            }
            let mut next = place.saturating_add(1);
            let mut at = 0;
            for part in parts {
                let Some(wanted) = sort_at(&form, parts.len(), at) else {
                    unreachable!();
                };
                next = judge_from(version, part, wanted, next)?;
                at += 1;
            }
            Ok(next)
        }
    }
}

/// The word with which a list begins, if it does with one: it tells the list's form.
pub fn first_word(parts: &[Tree]) -> Option<&str>
    ensures word { option_map (λ w. w.now) result ≡ word_before parts.now }
    // The same of what is judged of the parts, as `fits` sees them.
    ensures judged { option_map (λ w. w.now) result ≡ first_word (map judged parts.now) }
{
    match parts {
        [Tree::Atom(Token::Name(word)), ..] => Some(word.as_str()),
        _ => None,
    }
}
