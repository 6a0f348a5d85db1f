//! Typing of expressions.

ghost use Rattle.std.specs.Prelude.{◌≡◌, ◌+◌, ◌<◌, ◌^◌, Some};
ghost use Rattle.std.specs.Option.{option_map};
ghost use Rattle.kat_value.specs.declared.types.Ty.TheVariants as ty;
ghost use Rattle.kat_ast.specs.declared.expr.Expr.TheVariants as expr;
ghost use Rattle.kat_ast.specs.Expressions.{trees_of_expr, trees_of_exprs};
ghost use Rattle.kat_syntax.specs.TypeRules.{least_with};
ghost use Rattle.kat_syntax.specs.Around.{type_called};
ghost use Rattle.kat_syntax.specs.Memories.{kept_cell_type};
ghost use Rattle.kat_syntax.specs.TypesWritten.{Scope};
ghost use Rattle.kat_syntax.specs.TypingExpressions as typing;
ghost use Rattle.kat_syntax.specs.TypingExpressions.{known_of_expr, member_fault, register_faults, cell_faults, type_of_register};
ghost use Rattle.kat_expr_types.specs.Judging.{Tells, known_here};
ghost use Rattle.kat_expr_types.specs.Uses.{unknown_named, is_wanted};

use crate::args::{judge_apply, judge_given};
use crate::faults::Faults;
use crate::scope::local_type;
use crate::setting::{Known, Setting, Standing, judge_known, judge_wanting};
use kat_syntax::{Expr, RegisterKind, TypeRule};
use kat_tables::{Around, is_below};
use kat_text::Text;
use kat_value::{Ty, bits_of, is_width};
use sqlite_items::Items;

/// Notes the faults of an expression that stands at this tree.
#[cycle(expr)]
pub fn judge_expr(setting: &Setting<'_, '_, '_>, at: u32, expr: &Expr, faults: &mut Faults) -> Known
    requires { at + trees_of_expr expr.now < 2 ^ 32 }
    ensures { Tells (known_here setting.now expr.now) at result faults.old faults.new }
{
    let around = setting.around;
    match expr {
        Expr::Name(name) => judge_name(setting, at, name, faults),
        Expr::Unit => Known::new(1, Some(Ty::Unit)),
        Expr::Truth(_) => Known::new(1, Some(Ty::Bool)),
        Expr::Bits { width, number } => judge_bits(at, *width, *number, faults),
        Expr::Of { of, member } => judge_of(around, at, of, member, faults),
        Expr::Make { ctor, payload } => judge_make(setting, at, ctor, payload.get(), faults),
        Expr::Rec { of, fields } => judge_rec(setting, at, of, fields, faults),
        Expr::Register(name) => {
            let may_read = setting.standing == Standing::InDispatch;
            judge_register(around, may_read, Wanted::NotOutside, at, name, faults)
        }
        Expr::Kept(name) => {
            let may_keep = setting.standing == Standing::WithKept;
            judge_register(around, may_keep, Wanted::Protected, at, name, faults)
        }
        Expr::Before(name) | Expr::After(name) => {
            let may_change = setting.standing == Standing::InChange;
            judge_register(around, may_change, Wanted::Protected, at, name, faults)
        }
        Expr::KeptCell(cell) => {
            let may_keep = setting.standing == Standing::WithKept;
            judge_cell(around, may_keep, at, *cell, faults)
        }
        Expr::BeforeCell(cell) | Expr::AfterCell(cell) => {
            let may_change = setting.standing == Standing::InChange;
            judge_cell(around, may_change, at, *cell, faults)
        }
        Expr::Apply { op, args } => judge_apply(setting, at, *op, args, faults),
        Expr::Get { of, field, value } => judge_get(setting, at, of, field, value.get(), faults),
    }
}

fn judge_name(setting: &Setting<'_, '_, '_>, at: u32, name: &Text, faults: &mut Faults) -> Known
    requires { at + 1 < 2 ^ 32 }
    ensures { Tells (known_here setting.now (expr.Name name.now)) at result faults.old faults.new }
{
    let found = local_type(setting.scope, name);
    judge_known(found.is_some(), at, faults);
    Known::new(1, found.flatten())
}

fn judge_bits(at: u32, width: u64, number: u64, faults: &mut Faults) -> Known
    requires { at + 4 < 2 ^ 32 }
    ensures { (setting : Setting) →
        Tells (known_here setting (expr.Bits width number)) at result faults.old faults.new }
{
    faults.unless(is_width(width), at + 2, TypeRule::NoWidth);
    faults.unless(is_below(width, number), at + 3, TypeRule::LiteralLarge);
    Known::new(4, bits_of(width))
}

fn judge_of(
    around: &Around<'_, '_>,
    at: u32,
    of: &Text,
    member: &Text,
    faults: &mut Faults,
) -> Known
    requires { at + 4 < 2 ^ 32 }
    ensures { (standing : typing.Standing) (scope : Scope) →
        Tells (known_of_expr around.now standing scope (expr.Of of.now member.now)) at
        result faults.old faults.new }
{
    let found = around.enum_called(of);
    judge_type_name(around, at + 2, of, found.is_some(), faults);
    judge_member(found, around.member(member), at + 3, faults);
    Known::new(4, type_of_enum(found))
}

/// Notes the fault of a name at this tree that is to be a member of an enum, where there is one,
/// and is one of another enum, or of none.
fn judge_member(of: Option<u32>, found: Option<u32>, at: u32, faults: &mut Faults)
    ensures { faults.new ≡ least_with faults.old (member_fault of at found) }
{
    match (of, found) {
        (Some(wanted), Some(position)) => judge_known(wanted == position, at, faults),
        (Some(_), None) => judge_known(false, at, faults),
        (None, _) => {}
    }
}

/// The type of the enum at a position.
fn type_of_enum(found: Option<u32>) -> Option<Ty>
    ensures { result ≡ option_map ty.Enum found }
{
    match found {
        Some(position) => Some(Ty::Enum(position)),
        None => None,
    }
}

#[cycle(expr)]
fn judge_make(
    setting: &Setting<'_, '_, '_>,
    at: u32,
    ctor: &Text,
    payload: &Expr,
    faults: &mut Faults,
) -> Known
    requires { at + 3 + trees_of_expr payload.now < 2 ^ 32 }
    ensures { Tells (known_here setting.now (expr.Make ctor.now payload.now)) at
        result faults.old faults.new }
{
    let found = setting.around.ctor(ctor);
    judge_known(found.is_some(), at + 2, faults);
    let known = judge_expr(setting, at + 3, payload, faults);
    match found {
        Some(seen) => {
            judge_wanting(seen.payload, at + 3, known.ty, faults);
            Known::new(3 + known.trees, Some(Ty::Union(seen.of)))
        }
        None => Known::new(3 + known.trees, None),
    }
}

#[cycle(expr)]
fn judge_rec(
    setting: &Setting<'_, '_, '_>,
    at: u32,
    of: &Text,
    fields: &Items<Expr>,
    faults: &mut Faults,
) -> Known
    requires { at + 3 + trees_of_exprs fields.now < 2 ^ 32 }
    ensures { Tells (known_here setting.now (expr.Rec of.now fields.now)) at
        result faults.old faults.new }
{
    let found = setting.around.record_called(of);
    judge_type_name(setting.around, at + 2, of, found.is_some(), faults);
    match found {
        Some(seen) => {
            let trees = judge_given(setting, at, Some(seen.fields()), fields, faults);
            Known::new(trees, Some(Ty::Rec(seen.of())))
        }
        None => Known::new(judge_given(setting, at, None, fields, faults), None),
    }
}

#[cycle(expr)]
fn judge_get(
    setting: &Setting<'_, '_, '_>,
    at: u32,
    of: &Text,
    field: &Text,
    value: &Expr,
    faults: &mut Faults,
) -> Known
    requires { at + 4 + trees_of_expr value.now < 2 ^ 32 }
    ensures { Tells (known_here setting.now (expr.Get of.now field.now value.now)) at
        result faults.old faults.new }
{
    let found = setting.around.record_called(of);
    judge_type_name(setting.around, at + 2, of, found.is_some(), faults);
    match found {
        Some(seen) => {
            let ty = seen.fields().type_of(field);
            judge_known(ty.is_some(), at + 3, faults);
            let known = judge_expr(setting, at + 4, value, faults);
            judge_wanting(Some(Ty::Rec(seen.of())), at + 4, known.ty, faults);
            Known::new(4 + known.trees, ty.flatten())
        }
        None => {
            let known = judge_expr(setting, at + 4, value, faults);
            Known::new(4 + known.trees, None)
        }
    }
}

/// Notes the fault of a name at this tree that is to be a type declared earlier, and of the kind
/// wanted.
fn judge_type_name(
    around: &Around<'_, '_>,
    at: u32,
    name: &Text,
    is_wanted: bool,
    faults: &mut Faults,
)
    ensures { faults.new ≡ least_with faults.old
        (unknown_named at (type_called around.now name.now) is_wanted) }
{
    if around.type_called(name).is_none() {
        faults.unless(false, at, TypeRule::TypeUnknown);
    } else {
        judge_known(is_wanted, at, faults);
    }
}

/// Which registers an expression may name.
#[derive(Clone, Copy, Drop)]
enum Wanted {
    NotOutside,
    Protected,
}

fn is_of_kind(wanted: Wanted, kind: RegisterKind) -> bool
    ensures { result ≡ is_wanted wanted kind }
{
    match wanted {
        Wanted::NotOutside => kind != RegisterKind::Outside,
        Wanted::Protected => kind == RegisterKind::Protected,
    }
}

/// An expression at this tree that names a register: it may stand here, and the register is of the
/// kind wanted and known.
fn judge_register(
    around: &Around<'_, '_>,
    is_allowed: bool,
    wanted: Wanted,
    at: u32,
    name: &Text,
    faults: &mut Faults,
) -> Known
    requires { at + 3 < 2 ^ 32 }
    ensures trees { result.trees ≡ 3 }
    ensures ty { result.ty ≡ type_of_register around.now name.now }
    ensures faults { faults.new ≡ least_with faults.old
        (register_faults around.now is_allowed (is_wanted wanted) at name.now) }
{
    match around.register(name) {
        Some(seen) => {
            let may_stand = is_allowed && is_of_kind(wanted, seen.kind);
            faults.unless(may_stand, at, TypeRule::NotHere);
            Known::new(3, seen.ty)
        }
        None => {
            faults.unless(is_allowed, at, TypeRule::NotHere);
            judge_known(false, at + 2, faults);
            Known::new(3, None)
        }
    }
}

/// An expression at this tree that names a cell: it may stand here, and the cell is protected.
fn judge_cell(
    around: &Around<'_, '_>,
    is_allowed: bool,
    at: u32,
    cell: u64,
    faults: &mut Faults,
) -> Known
    ensures trees { result.trees ≡ 3 }
    ensures ty { result.ty ≡ kept_cell_type around.now }
    ensures faults { faults.new ≡ least_with faults.old
        (cell_faults around.now is_allowed at cell) }
{
    let may_stand = is_allowed && around.is_protected_cell(cell);
    faults.unless(may_stand, at, TypeRule::NotHere);
    Known::new(3, around.kept_cell_type())
}
