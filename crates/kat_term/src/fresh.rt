//! Fresh values of types, and how they add variables.

ghost use Rattle.std.specs.Prelude.{◌≡◌, ◌+◌, ◌<◌, ◌≤◌, length, take, OnErr};
ghost use Rattle.kat_term.specs.Fresh.{fresh_variable, fresh_within, fresh_fields, fresh_record};
ghost use Rattle.kat_term.specs.Growth.{AnswersFresh};
ghost use Rattle.kat_term.specs.Limits.{max_vars};

use crate::build::unit;
use crate::limits::MAX_VARS;
use crate::shared::Shared;
use crate::term::Term;
use kat_value::{Field, Ty, TypeDecl, Types};
use sqlite_items::Items;
use std::alloc::{AllocError, Global};
use thiserror::Error;

/// Why a world did not grow.
#[derive(Clone, Copy, Debug, PartialEq, Eq, Error)]
pub enum GrowError {
    /// The world would have more than 100,000 variables.
    #[error("a path has too many variables")]
    Vars,
    /// Memory ran out.
    #[error("out of memory")]
    Memory,
}

impl From<AllocError> for GrowError {
    ghost use Rattle.std.specs.Prelude.{◌≡◌};
    ghost use Rattle.kat_term.specs.declared.fresh.GrowError.TheVariants.{Memory};

    ghost from_gives = { λ _ e. e ≡ Memory };

    fn from(_error: AllocError) -> GrowError {
        GrowError::Memory
    }
}

/// A fresh value of a type, records standing in one another as deep as `levels`; its variables are
/// added to those that are there. Behind an error they may have grown.
#[cycle(fresh)]
pub fn fresh_value(
    alloc: Global,
    vars: &mut Items<Ty>,
    types: &Types,
    levels: usize,
    ty: Ty,
) -> Result<Term, GrowError>
    requires { length vars.old ≤ max_vars }
    ensures fresh { AnswersFresh result vars.old vars.new
        (fresh_within types.now levels ty (length vars.old)) }
    ensures kept { take (length vars.old) vars.new ≡ vars.old }
{
    match ty {
        Ty::Rec(of) if levels > 0 => match types.get(of as usize) {
            Some(TypeDecl::Rec { fields, .. }) => {
                fresh_record(alloc, vars, types, levels - 1, of, fields)
            }
            _ => fresh_variable(vars, ty),
        },
        _ => fresh_variable(vars, ty),
    }
}

/// The record of fresh values of these fields, the records in it standing in one another as deep as
/// `levels`.
#[cycle(fresh)]
fn fresh_record(
    alloc: Global,
    vars: &mut Items<Ty>,
    types: &Types,
    levels: usize,
    of: u32,
    fields: &Items<Field>,
) -> Result<Term, GrowError>
    requires { length vars.old ≤ max_vars }
    ensures fresh { AnswersFresh result vars.old vars.new
        (fresh_record of
        (fresh_fields (fresh_within types.now levels) fields.now (length vars.old))) }
    ensures kept { take (length vars.old) vars.new ≡ vars.old }
{
    let mut terms = Items::new(alloc);
    for field in fields.as_slice() {
        let term = fresh_value(alloc, vars, types, levels, field.ty)?;
        terms.push(term)?;
    }
    Ok(Term::Rec {
        of,
        fields: Shared::new(alloc, terms)?,
    })
}

/// Unit, or a new variable of this type.
#[tactic(auto, unfolding(crate::specs::Limits::max_vars))]
fn fresh_variable(vars: &mut Items<Ty>, ty: Ty) -> Result<Term, GrowError>
    requires { length vars.old ≤ max_vars }
    ensures fresh { AnswersFresh result vars.old vars.new (fresh_variable ty (length vars.old)) }
    ensures kept { take (length vars.old) vars.new ≡ vars.old }
{
    if let Ty::Unit = ty {
        return Ok(unit());
    }
    if vars.len() >= MAX_VARS {
        return Err(GrowError::Vars);
    }
    let number = vars.len() as u32;
    vars.push(ty)?;
    Ok(Term::Var(number))
}
