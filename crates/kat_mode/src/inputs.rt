//! How many inputs each predicate has.

ghost use Rattle.std.specs.Prelude.{◌≡◌, IfOk};
ghost use Rattle.std.specs.Option.{option_map};
ghost use Rattle.kat_syntax.specs.Modes.{inputs_among};
ghost use Rattle.kat_mode.specs.Inputs.{predicate_in};

use kat_syntax::{Decl, DeclForm, Named};
use kat_text::Text;
use std::alloc::{AllocError, Global};
use std::marker::Model;

/// Declarations, with a table of how many inputs each predicate has that they declare. Contracts
/// see it as the declarations.
#[derive(Drop)]
pub struct Inputs<'a> {
    decls: &'a [Decl],
    counts: Named<usize>,
}

impl<'a> Model for Inputs<'a> {
    ghost use Rattle.std.specs.Prelude.{List};
    ghost use Rattle.std.specs.Coded.{codes};
    ghost use Rattle.kat_ast.specs.declared.decl.DeclForm.{DeclForm};
    ghost use Rattle.kat_ast.specs.contracts.expr.Expr.{the_row as expr};
    ghost use Rattle.kat_ast.specs.contracts.stm.Stm.{the_row as stm};
    ghost use Rattle.kat_ast.specs.contracts.assertion.Assertion.{the_row as assertion};
    ghost use Rattle.kat_mode.specs.Inputs.{CountsInputs};

    ghost Value = { List DeclForm };

    ghost coded = { Prim.hlevel (codes, expr.coded, stm.coded, assertion.coded) };

    ghost view = { λ i. i.decls.now };

    ghost invariant = { λ i. CountsInputs i.decls.now i.counts };
}

impl<'a> Inputs<'a> {
    /// How many inputs each predicate has that these declare.
    pub fn of(alloc: Global, decls: &'a [Decl]) -> Result<Inputs<'a>, AllocError>
        ensures { IfOk result (λ inputs. inputs ≡ decls.now) }
    {
        let mut counts = Named::empty(alloc);
        for decl in decls {
            if let Some((name, inputs)) = predicate_in(decl.form()) {
                counts.add(name, inputs)?;
            }
        }
        Ok(Inputs { decls, counts })
    }

    /// How many inputs the first predicate of this name has.
    pub fn of_predicate(&self, name: &Text) -> usize
        ensures { result ≡ inputs_among self.now name.now }
    {
        self.counts.find(name).unwrap_or(0)
    }
}

/// The name of the predicate that a declaration declares, and how many inputs it has.
fn predicate_in(decl: &DeclForm) -> Option<(&Text, usize)>
    ensures { option_map (λ found. (found.0.now, found.1)) result ≡ predicate_in decl.now }
{
    match decl {
        DeclForm::Predicate { name, inputs, .. } => Some((name, inputs.len())),
        _ => None,
    }
}
