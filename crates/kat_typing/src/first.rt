//! The first fault of a specification.

ghost use Rattle.std.specs.Prelude.{◌≡◌, ◌+◌, ◌<◌, ◌^◌, ◌∷◌, [], length, slice_get, None, Some, IfOk, OnOk};
ghost use Rattle.kat_ast.specs.Declarations.{trees_of_decl};
ghost use Rattle.kat_syntax.specs.TypeRules.{least_of};
ghost use Rattle.kat_syntax.specs.TypingDeclarations.{decl_faults};
ghost use Rattle.kat_syntax.specs.FirstTypeFault.{first_type_fault, faults_from, first_from, missing_faults, or_first};
ghost use Rattle.kat_typing.specs.Faults.{fault_at};
ghost use Rattle.kat_typing.specs.Totals.{IsTotals};

use crate::decl::judge_decl;
use crate::limits::Totals;
use crate::once::Once;
use kat_ast::places_are_of_the_tree;
use kat_expr_types::{Fault, Faults};
use kat_syntax::{Decl, DeclForm, Spec, TypeRule};
use kat_tables::{Around, Tables};
use std::alloc::{AllocError, Global};
use std::marker::Model;

/// A fault of a specification: its declaration, its tree in the declaration, and the condition.
#[derive(Clone, Copy, Drop)]
pub struct TypeFault {
    pub decl: u32,
    pub tree: u32,
    pub rule: TypeRule,
}

impl Model for TypeFault {
    ghost use Rattle.kat_syntax.specs.FirstTypeFault.{TypeFault as FaultSeen};

    ghost Value = { FaultSeen };

    ghost view = { λ f. record { decl = f.decl; tree = f.tree; rule = f.rule } };

    ghost inverse = { λ f. record { decl = f.decl; tree = f.tree; rule = f.rule } };
}

/// The first fault of a specification, if it has one: the least in the order of declaration, tree
/// and condition. What has to stand once and does not stand at all is a fault behind the last
/// declaration.
pub fn first_type_fault(alloc: Global, spec: &Spec) -> Result<Option<TypeFault>, AllocError>
    ensures { IfOk result (λ found. found ≡ first_type_fault spec.now) }
{
    let decls = spec.decls();
    let tables = Tables::of(alloc, decls)?;
    first_of(alloc, &tables, decls)
}

/// The first fault of declarations with their tables, or of what is missing among them.
fn first_of<'d>(
    alloc: Global,
    tables: &Tables<'d>,
    decls: &'d [Decl],
) -> Result<Option<TypeFault>, AllocError>
    requires few { length decls.now < 2 ^ 32 }
    requires tables { tables.now ≡ decls.now }
    ensures { IfOk result (λ found. found ≡ first_from 0 (faults_from decls.now 0 decls.now)) }
{
    places_are_of_the_tree();
    let mut totals = Totals::new(alloc);
    for (number, decl) in decls.iter().enumerate() {
        let found = judge_next(alloc, tables, number as u32, decl.form(), &mut totals)?;
        if let Some(fault) = found {
            return Ok(Some(fault));
        }
    }
    Ok(missing(decls))
}

/// The least fault of the declaration of this number, if it has one. It is counted in the totals of
/// those before.
fn judge_next<'d>(
    alloc: Global,
    tables: &Tables<'d>,
    number: u32,
    decl: &'d DeclForm,
    totals: &mut Totals,
) -> Result<Option<TypeFault>, AllocError>
    requires small { trees_of_decl decl.now < 2 ^ 32 }
    requires here { slice_get tables.now number ≡ Some decl.now }
    requires totals { IsTotals (record { decls = tables.now; number = number }) totals.old }
    ensures found { IfOk result (λ found. found ≡ fault_at tables.now number decl.now) }
    ensures totals { OnOk result
        (IsTotals (record { decls = tables.now; number = number + 1 }) totals.new) }
{
    let around = Around::new(tables, number);
    let fault = least_fault(alloc, &around, totals, decl)?;
    totals.push(&around, decl)?;
    Ok(placed(number, fault))
}

/// A fault in the declaration of this number.
fn placed(number: u32, fault: Option<Fault>) -> Option<TypeFault>
    ensures { result ≡ or_first number fault None }
{
    match fault {
        Some(fault) => Some(TypeFault {
            decl: number,
            tree: fault.tree(),
            rule: fault.rule(),
        }),
        None => None,
    }
}

/// The least fault of a declaration, if it has one. The totals are those of what stands before it.
fn least_fault<'d>(
    alloc: Global,
    around: &Around<'_, 'd>,
    totals: &Totals,
    decl: &'d DeclForm,
) -> Result<Option<Fault>, AllocError>
    requires totals { IsTotals around.now totals.now }
    requires small { trees_of_decl decl.now < 2 ^ 32 }
    requires here { slice_get around.now.decls around.now.number ≡ Some decl.now }
    ensures { IfOk result (λ found. found ≡ least_of (decl_faults around.now decl.now)) }
{
    let mut faults = Faults::new();
    judge_decl(alloc, around, totals, decl, &mut faults)?;
    Ok(faults.least())
}

/// The fault of what has to stand once and does not stand at all.
fn missing(decls: &[Decl]) -> Option<TypeFault>
    requires { length decls.now < 2 ^ 32 }
    ensures { result ≡ first_from (length decls.now) (missing_faults decls.now ∷ []) }
{
    let is_whole = Once::Step.is_among(decls)
        && Once::Dispatch.is_among(decls)
        && Once::Untrusted.is_among(decls)
        && Once::Boot.is_among(decls);
    if is_whole {
        None
    } else {
        Some(TypeFault {
            decl: decls.len() as u32,
            tree: 0,
            rule: TypeRule::NotOnce,
        })
    }
}
