//! Arguments: of operations, and of what a name gives parameters to.

ghost use Rattle.std.specs.Prelude.{◌≡◌, ◌+◌, ◌<◌, ◌^◌, ◌∷◌, ◌++◌, [], List, Option, length, map, take, slice_get};
ghost use Rattle.std.specs.Option.{option_copied, option_flatten};
ghost use Rattle.kat_value.specs.declared.signature.Signature.{Signature as SignatureSeen};
ghost use Rattle.kat_value.specs.Signatures.{type_given};
ghost use Rattle.kat_value.specs.Words.{numbers_of_op};
ghost use Rattle.kat_ast.specs.declared.expr.Expr.TheVariants as expr;
ghost use Rattle.kat_ast.specs.Expressions.{trees_of_exprs};
ghost use Rattle.kat_syntax.specs.TypeRules.{least_with};
ghost use Rattle.kat_syntax.specs.TypingExpressions.{given_faults, stated_width, width_rule};
ghost use Rattle.kat_expr_types.specs.Judging.{Tells, known_here};
ghost use Rattle.kat_expr_types.specs.Operands.{Keeps, count_fault, gives_fixed, wanted_types};

use crate::expr::judge_expr;
use crate::faults::Faults;
use crate::setting::{Known, Setting, judge_wanting};
use kat_syntax::{Expr, Op, TypeRule};
use kat_tables::{Around, Params};
use kat_value::{
    OpNumbers, Signature, Ty, fixed_behind, is_width, numbers_of_op, signature_of, takes,
    type_given, widths_fit,
};
use sqlite_items::Items;

/// The types of an operation's arguments: how many there are, the first three of them, and the
/// type that all of them fix.
#[derive(Clone, Copy, Drop)]
struct ArgTypes {
    count: usize,
    first: [Option<Ty>; 3],
    fixed: Option<Ty>,
}

/// An operation with its arguments.
#[cycle(expr)]
pub fn judge_apply(
    setting: &Setting<'_, '_, '_>,
    at: u32,
    op: Op,
    args: &Items<Expr>,
    faults: &mut Faults,
) -> Known
    requires { at + 2 + length (numbers_of_op op) + trees_of_exprs args.now < 2 ^ 32 }
    ensures { Tells (known_here setting.now (expr.Apply op args.now)) at
        result faults.old faults.new }
{
    let signature = signature_of(op);
    judge_stated_width(signature, at + 2, faults);
    let items = args.as_slice();
    let mut next = at + 2 + count_numbers(op);
    let mut types = ArgTypes::none();
    for arg in items {
        let known = judge_expr(setting, next, arg, faults);
        let is_taken = takes(signature, types.count, types.fixed, known.ty);
        faults.unless(is_taken, next, TypeRule::TypeOther);
        types = types.with(signature, known.ty);
        next += known.trees;
    }
    let first = types.first();
    faults.unless(widths_fit(signature, first), at, width_rule(signature));
    Known::new(next - at, types.given(setting.around, signature))
}

/// Notes the fault of an extension to no width, the number standing at this tree.
fn judge_stated_width(signature: Signature, at: u32, faults: &mut Faults)
    ensures { faults.new ≡ least_with faults.old (stated_width at signature) }
{
    if let Signature::Extension { width } = signature {
        faults.unless(is_width(width), at, TypeRule::NoWidth);
    }
}

impl ArgTypes {
    /// No arguments.
    fn none() -> ArgTypes
        ensures { (signature : SignatureSeen) → Keeps signature [] result }
    {
        ArgTypes {
            count: 0,
            first: [None, None, None],
            fixed: None,
        }
    }

    /// These with one more behind.
    fn with(self, signature: Signature, ty: Option<Ty>) -> ArgTypes
        requires { self.count + 1 < 2 ^ 64 }
        ensures { (types : List (Option Ty)) → Keeps signature types self →
            Keeps signature (types ++ ty ∷ []) result }
    {
        let mut types = self;
        types.fixed = fixed_behind(signature, types.count, types.fixed, ty);
        if types.count < 3 {
            types.first[types.count] = ty;
        }
        types.count += 1;
        types
    }

    /// The first of them, at most three.
    fn first(&self) -> &[Option<Ty>]
        ensures { (signature : SignatureSeen) (types : List (Option Ty)) →
            Keeps signature types self.now → result.now ≡ take 3 types }
    {
        &self.first[..self.count.min(3)]
    }

    /// The type that the operation gives.
    fn given(&self, around: &Around<'_, '_>, signature: Signature) -> Option<Ty>
        ensures { (types : List (Option Ty)) → Keeps signature types self.now →
            result ≡ type_given [] signature types }
    {
        if gives_fixed(signature) {
            self.fixed
        } else {
            type_given(around.no_types(), signature, self.first())
        }
    }
}

/// Whether an operation gives the type that all of its arguments fix.
fn gives_fixed(signature: Signature) -> bool
    ensures { result ≡ gives_fixed signature }
{
    matches!(signature, Signature::Arithmetic | Signature::Choice)
}

/// The numbers that an operation is written with, beside its arguments.
fn count_numbers(op: Op) -> u32
    ensures { result ≡ length (numbers_of_op op) }
{
    match numbers_of_op(op) {
        OpNumbers::Zero => 0,
        OpNumbers::One(_) => 1,
        OpNumbers::Two(_, _) => 2,
    }
}

/// The condition on widths that an operation has.
fn width_rule(signature: Signature) -> TypeRule
    ensures { result ≡ width_rule signature }
{
    match signature {
        Signature::Slice { .. } => TypeRule::SliceOutside,
        _ => TypeRule::WidthOther,
    }
}

/// Notes the faults of a list with a name and arguments, the list standing at this tree: their
/// count, and those of the arguments; where it is not known what is wanted, those of the arguments
/// alone. The answer is the trees of the whole.
#[cycle(expr)]
pub fn judge_given(
    setting: &Setting<'_, '_, '_>,
    at: u32,
    wanted: Option<&Params<'_, '_>>,
    args: &Items<Expr>,
    faults: &mut Faults,
) -> u32
    requires { at + 3 + trees_of_exprs args.now < 2 ^ 32 }
    ensures trees { result ≡ 3 + trees_of_exprs args.now }
    ensures faults { faults.new ≡ least_with faults.old
        (given_faults (option_copied wanted.entry) at (map (known_here setting.now) args.now)) }
{
    judge_count(args.len(), wanted, at, faults);
    let items = args.as_slice();
    let mut next = at + 3;
    for (index, arg) in items.iter().enumerate() {
        let known = judge_expr(setting, next, arg, faults);
        judge_wanting(wanted_at(wanted, index), next, known.ty, faults);
        next += known.trees;
    }
    next - at
}

/// Notes the fault of another count of arguments than is wanted, the list standing at this tree.
fn judge_count(count: usize, wanted: Option<&Params<'_, '_>>, at: u32, faults: &mut Faults)
    ensures { faults.new ≡ least_with faults.old
        (count_fault (option_copied wanted.entry) count at) }
{
    if let Some(params) = wanted {
        faults.unless(count == params.len(), at, TypeRule::CountOther);
    }
}

/// The type that is wanted at a position, where it is known.
fn wanted_at(wanted: Option<&Params<'_, '_>>, index: usize) -> Option<Ty>
    ensures { result ≡ option_flatten
        (slice_get (wanted_types (option_copied wanted.entry)) index) }
{
    wanted?.type_at(index)
}
