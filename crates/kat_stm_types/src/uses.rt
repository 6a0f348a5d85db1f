//! What statements and assertions share: conditions, cells and registers with their values, and
//! uses of predicates and lemmas.

ghost use Rattle.std.specs.Prelude.{◌≡◌, ◌+◌, ◌<◌, ◌^◌, map, Some};
ghost use Rattle.std.specs.Option.{option_copied};
ghost use Rattle.kat_value.specs.Signatures.{agree};
ghost use Rattle.kat_value.specs.declared.types.Ty.TheVariants as ty;
ghost use Rattle.kat_ast.specs.Expressions.{trees_of_expr, trees_of_exprs};
ghost use Rattle.kat_syntax.specs.TypeRules.{least_with};
ghost use Rattle.kat_syntax.specs.TypingStatements.{condition_faults};
ghost use Rattle.kat_expr_types.specs.Judging.{known_here};
ghost use Rattle.kat_stm_types.specs.Uses.{cell_parts_faults, register_value_faults, use_faults};

use kat_expr_types::{
    Faults, Setting, judge_expr, judge_given, judge_known, judge_memory, judge_wanting,
};
use kat_syntax::{Expr, TypeRule};
use kat_tables::{Params, ProofSeen};
use kat_text::Text;
use kat_value::Ty;
use sqlite_items::Items;

/// A condition at this tree, and how many trees it has.
pub fn judge_truth(setting: &Setting<'_, '_, '_>, at: u32, test: &Expr, faults: &mut Faults) -> u32
    requires { at + trees_of_expr test.now < 2 ^ 32 }
    ensures trees { result ≡ trees_of_expr test.now }
    ensures faults { faults.new ≡ least_with faults.old
        (condition_faults (agree (Some ty.Bool)) at (known_here setting.now test.now)) }
{
    let known = judge_expr(setting, at, test, faults);
    judge_wanting(Some(Ty::Bool), at, known.ty, faults);
    known.trees
}

/// Two expressions behind a form's head at this tree: an index and a value of the memory before.
/// The answer is the trees of the whole.
pub fn judge_cell_parts(
    setting: &Setting<'_, '_, '_>,
    at: u32,
    index: &Expr,
    value: &Expr,
    faults: &mut Faults,
) -> u32
    requires { at + 2 + trees_of_expr index.now + trees_of_expr value.now < 2 ^ 32 }
    ensures trees { result ≡ 2 + trees_of_expr index.now + trees_of_expr value.now }
    ensures faults { faults.new ≡ least_with faults.old (cell_parts_faults
        setting.now.around.now at (known_here setting.now index.now)
        (known_here setting.now value.now)) }
{
    let around = setting.around;
    judge_memory(around, at, faults);
    let place = judge_expr(setting, at + 2, index, faults);
    judge_wanting(around.index_type(), at + 2, place.ty, faults);
    let value_at = at + 2 + place.trees;
    let known = judge_expr(setting, value_at, value, faults);
    judge_wanting(around.cell_type(), value_at, known.ty, faults);
    2 + place.trees + known.trees
}

/// A register and its value behind a form's head at this tree. The answer is the trees of the
/// whole.
pub fn judge_register_value(
    setting: &Setting<'_, '_, '_>,
    at: u32,
    register: &Text,
    value: &Expr,
    faults: &mut Faults,
) -> u32
    requires { at + 3 + trees_of_expr value.now < 2 ^ 32 }
    ensures trees { result ≡ 3 + trees_of_expr value.now }
    ensures faults { faults.new ≡ least_with faults.old (register_value_faults
        setting.now.around.now at register.now (known_here setting.now value.now)) }
{
    let around = setting.around;
    judge_known(around.register(register).is_some(), at + 2, faults);
    let known = judge_expr(setting, at + 3, value, faults);
    judge_wanting(around.type_of_register(register), at + 3, known.ty, faults);
    3 + known.trees
}

/// A use of a predicate or a lemma, which has to be declared earlier, with its arguments, of which
/// these are wanted. The answer is the trees of the whole.
pub fn judge_use(
    setting: &Setting<'_, '_, '_>,
    at: u32,
    found: Option<&ProofSeen<'_, '_>>,
    wanted: Option<&Params<'_, '_>>,
    args: &Items<Expr>,
    faults: &mut Faults,
) -> u32
    requires { at + 3 + trees_of_exprs args.now < 2 ^ 32 }
    ensures trees { result ≡ 3 + trees_of_exprs args.now }
    ensures faults { faults.new ≡ least_with faults.old (use_faults
        setting.now.around.now (option_copied found.entry) (option_copied wanted.entry) at
        (map (known_here setting.now) args.now)) }
{
    match found {
        Some(seen) => {
            let is_before = setting.around.is_before(seen.decl());
            faults.unless(is_before, at + 2, TypeRule::UsedBefore);
        }
        None => judge_known(false, at + 2, faults),
    }
    judge_given(setting, at, wanted, args, faults)
}
