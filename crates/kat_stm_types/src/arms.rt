//! The arms of `case` and `match`.

ghost use Rattle.std.specs.Prelude.{◌≡◌, ◌+◌, ◌<◌, ◌^◌, map};
ghost use Rattle.kat_ast.specs.declared.stm.Stm.TheVariants as stm;
ghost use Rattle.kat_ast.specs.Expressions.{trees_of_expr};
ghost use Rattle.kat_ast.specs.Statements.{trees_of_stm, trees_of_case_arms, trees_of_match_arms};
ghost use Rattle.kat_syntax.specs.TypeRules.{least_with};
ghost use Rattle.kat_syntax.specs.TypingExpressions.{known_types};
ghost use Rattle.kat_syntax.specs.TypingStatements.{are_listed, members_wanted, ctors_wanted, case_arm_faults, case_bodies, match_arm_faults, match_bodies, may_be_enum, may_be_union, same_names, known_of_stm};
ghost use Rattle.kat_expr_types.specs.Scopes.{scope_of};
ghost use Rattle.kat_expr_types.specs.Judging.{Tells};
ghost use Rattle.kat_stm_types.specs.Branches.{IsBranches};
ghost use Rattle.kat_stm_types.specs.Judging.{body_known, case_arms_of, match_arm_fault, match_arms_of};

use crate::branches::Branches;
use crate::stm::judge_stm;
use kat_expr_types::{Faults, Known, Scope, Setting, judge_expr, judge_hiding, judge_known};
use kat_syntax::{CaseArm, Expr, MatchArm, Param, Stm, TypeRule};
use kat_tables::Around;
use kat_text::Text;
use kat_value::Ty;
use sqlite_items::Items;

/// A `case` at this tree.
#[cycle(stm)]
pub fn judge_case<'s, 't, 'd>(
    around: &'s Around<'t, 'd>,
    scope: &'s Scope<'s, 't, 'd>,
    at: u32,
    value: &Expr,
    arms: &Items<CaseArm<Stm>>,
    faults: &mut Faults,
) -> Known
    requires { at + 2 + trees_of_expr value.now + trees_of_case_arms arms.now < 2 ^ 32 }
    ensures { Tells (known_of_stm around.now (stm.Case value.now arms.now)
        (scope_of scope.now)) at result faults.old faults.new }
{
    let known = judge_expr(&Setting::plain(around, scope), at + 2, value, faults);
    faults.unless(may_be_enum(known.ty), at + 2, TypeRule::TypeOther);
    let branches = judge_case_arms(around, scope, at + 2 + known.trees, arms, faults);
    let are_listed = lists_enum(around, known.ty, arms.as_slice());
    faults.unless(are_listed, at, TypeRule::NotListed);
    faults.unless(branches.agrees, at, TypeRule::BranchesDiffer);
    Known::new(2 + known.trees + branches.trees, branches.ty())
}

#[cycle(stm)]
fn judge_case_arms<'s, 't, 'd>(
    around: &'s Around<'t, 'd>,
    scope: &'s Scope<'s, 't, 'd>,
    at: u32,
    arms: &Items<CaseArm<Stm>>,
    faults: &mut Faults,
) -> Branches
    requires { at + trees_of_case_arms arms.now < 2 ^ 32 }
    ensures branches { IsBranches
        (known_types (case_bodies (scope_of scope.now) (case_arms_of around.now arms.now)))
        (trees_of_case_arms arms.now) result }
    ensures faults { faults.new ≡ least_with faults.old
        (case_arm_faults around.now (scope_of scope.now) at (case_arms_of around.now arms.now)) }
{
    let mut branches = Branches::none();
    for arm in arms.as_slice() {
        let next = at + branches.trees;
        judge_known(around.member(&arm.member).is_some(), next + 1, faults);
        let known = judge_stm(around, scope, next + 2, &arm.body, faults);
        branches = branches.with(2, known);
    }
    branches
}

/// A `match` at this tree.
#[cycle(stm)]
pub fn judge_match<'s, 't, 'd>(
    around: &'s Around<'t, 'd>,
    scope: &'s Scope<'s, 't, 'd>,
    at: u32,
    value: &Expr,
    arms: &Items<MatchArm<Stm>>,
    faults: &mut Faults,
) -> Known
    requires { at + 2 + trees_of_expr value.now + trees_of_match_arms arms.now < 2 ^ 32 }
    ensures { Tells (known_of_stm around.now (stm.Match value.now arms.now)
        (scope_of scope.now)) at result faults.old faults.new }
{
    let known = judge_expr(&Setting::plain(around, scope), at + 2, value, faults);
    faults.unless(may_be_union(known.ty), at + 2, TypeRule::TypeOther);
    let branches = judge_match_arms(around, scope, at + 2 + known.trees, arms, faults);
    let are_listed = lists_union(around, known.ty, arms.as_slice());
    faults.unless(are_listed, at, TypeRule::NotListed);
    faults.unless(branches.agrees, at, TypeRule::BranchesDiffer);
    Known::new(2 + known.trees + branches.trees, branches.ty())
}

#[cycle(stm)]
fn judge_match_arms<'s, 't, 'd>(
    around: &'s Around<'t, 'd>,
    scope: &'s Scope<'s, 't, 'd>,
    at: u32,
    arms: &Items<MatchArm<Stm>>,
    faults: &mut Faults,
) -> Branches
    requires { at + trees_of_match_arms arms.now < 2 ^ 32 }
    ensures branches { IsBranches (known_types
        (match_bodies around.now (scope_of scope.now) (match_arms_of around.now arms.now)))
        (trees_of_match_arms arms.now) result }
    ensures faults { faults.new ≡ least_with faults.old
        (match_arm_faults around.now (scope_of scope.now) at (match_arms_of around.now arms.now)) }
{
    let mut branches = Branches::none();
    for arm in arms.as_slice() {
        let known = judge_match_arm(around, scope, at + branches.trees, arm, faults);
        branches = branches.with(3, known);
    }
    branches
}

/// An arm of a `match` at this tree, and what is known of its body.
#[cycle(stm)]
fn judge_match_arm<'s, 't, 'd>(
    around: &'s Around<'t, 'd>,
    scope: &'s Scope<'s, 't, 'd>,
    at: u32,
    arm: &MatchArm<Stm>,
    faults: &mut Faults,
) -> Known
    requires { at + 3 + trees_of_stm arm.now.body < 2 ^ 32 }
    ensures trees { result.trees ≡ (body_known around.now (scope_of scope.now) arm.now).trees }
    ensures of_type { result.ty ≡ (body_known around.now (scope_of scope.now) arm.now).type }
    ensures faults { faults.new ≡ least_with faults.old
        (match_arm_fault around.now (scope_of scope.now) at arm.now) }
{
    let found = around.ctor(&arm.ctor);
    judge_known(found.is_some(), at + 1, faults);
    judge_hiding(around, scope, at + 2, &arm.payload, faults);
    let payload = match found {
        Some(seen) => seen.payload,
        None => None,
    };
    let inner = (&*scope).with(&arm.payload, payload);
    judge_stm(&*around, &inner, at + 3, &arm.body, faults)
}

/// Whether a type that is known is an enum.
fn may_be_enum(ty: Option<Ty>) -> bool
    ensures { result ≡ may_be_enum ty }
{
    matches!(ty, None | Some(Ty::Enum(_)))
}

/// Whether a type that is known is a union.
fn may_be_union(ty: Option<Ty>) -> bool
    ensures { result ≡ may_be_union ty }
{
    matches!(ty, None | Some(Ty::Union(_)))
}

/// Whether arms list the members of a type that is an enum, where it is known to be one.
fn lists_enum(around: &Around<'_, '_>, ty: Option<Ty>, arms: &[CaseArm<Stm>]) -> bool
    ensures { result ≡ are_listed (members_wanted around.now ty)
        (map (λ (arm : CaseArm Stm). arm.member) arms.now) }
{
    match ty {
        Some(Ty::Enum(of)) => lists_members(around.members_at(of), arms),
        _ => true,
    }
}

/// Whether arms list the constructors of a type that is a union, where it is known to be one.
fn lists_union(around: &Around<'_, '_>, ty: Option<Ty>, arms: &[MatchArm<Stm>]) -> bool
    ensures { result ≡ are_listed (ctors_wanted around.now ty)
        (map (λ (arm : MatchArm Stm). arm.ctor) arms.now) }
{
    match ty {
        Some(Ty::Union(of)) => lists_ctors(around.ctors_at(of), arms),
        _ => true,
    }
}

/// Whether arms list these members, each once and in order.
fn lists_members(members: &[Text], arms: &[CaseArm<Stm>]) -> bool
    ensures { result ≡ same_names members.now
        (map (λ (arm : CaseArm Stm). arm.member) arms.now) }
{
    if members.len() != arms.len() {
        return false;
    }
    for (member, arm) in members.iter().zip(arms) {
        if !member.same(&arm.member) {
            return false;
        }
    }
    true
}

/// Whether arms list these constructors, each once and in order.
fn lists_ctors(ctors: &[Param], arms: &[MatchArm<Stm>]) -> bool
    ensures { result ≡ same_names (map (λ (ctor : Param). ctor.name) ctors.now)
        (map (λ (arm : MatchArm Stm). arm.ctor) arms.now) }
{
    if ctors.len() != arms.len() {
        return false;
    }
    for (ctor, arm) in ctors.iter().zip(arms) {
        if !ctor.name.same(&arm.ctor) {
            return false;
        }
    }
    true
}
