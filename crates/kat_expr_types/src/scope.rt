//! The names in scope beside the declared ones, with their types.

ghost use Rattle.std.specs.Prelude.{◌≡◌, ◌+◌, ◌<◌, ◌^◌, ◌∷◌, ◌++◌, [], length, take, IfOk, OnOk};
ghost use Rattle.kat_ast.specs.Types.{trees_of_param, trees_of_params};
ghost use Rattle.kat_syntax.specs.TypeRules.{least_with};
ghost use Rattle.kat_syntax.specs.TypesWritten.{Scope as ScopeSeen, local_type, hiding, is_in_scope, type_faults_at, param_faults, with_params};
ghost use Rattle.kat_expr_types.specs.Bases.{IsBase};
ghost use Rattle.kat_expr_types.specs.Scopes.{scope_of};

use crate::faults::Faults;
use crate::written::judge_type;
use kat_ast::count_type;
use kat_syntax::{Named, Param, TypeRule};
use kat_tables::{Around, Params};
use kat_text::Text;
use kat_value::Ty;
use sqlite_items::Items;
use std::alloc::{AllocError, Global};
use std::marker::Model;

/// Parameters, of one list behind another, with a table of their types.
#[derive(Drop)]
pub struct Base<'t, 'd> {
    lists: Items<Params<'t, 'd>>,
    table: Named<Option<Ty>>,
}

impl<'t, 'd> Model for Base<'t, 'd> {
    ghost use Rattle.kat_syntax.specs.TypesWritten.{Scope as ScopeSeen};
    ghost use Rattle.kat_expr_types.specs.Bases.{names_in, IsBase};

    ghost Value = { ScopeSeen };

    ghost view = { λ b. names_in b.lists };

    ghost invariant = { λ b. IsBase (names_in b.lists) b.table };
}

/// Names with their types, the newest first, and the parameters behind all others. A `let` puts one
/// in front and borrows the others.
#[derive(Clone, Copy, Drop)]
pub enum Scope<'s, 't, 'd> {
    Base(&'s Base<'t, 'd>),
    More {
        name: &'s Text,
        ty: Option<Ty>,
        rest: &'s Scope<'s, 't, 'd>,
    },
}

impl<'t, 'd> Base<'t, 'd> {
    /// No parameters.
    pub fn empty(alloc: Global) -> Result<Base<'t, 'd>, AllocError>
        ensures { IfOk result (λ base. base ≡ []) }
    {
        Ok(Base {
            lists: Items::new(alloc),
            table: Named::new(alloc)?,
        })
    }

    /// Parameters that are known.
    pub fn of_seen(alloc: Global, params: &Params<'t, 'd>) -> Result<Base<'t, 'd>, AllocError>
        ensures { IfOk result (λ base. base ≡ params.now) }
    {
        let mut table = Named::new(alloc)?;
        for at in 0..params.len() {
            add_param(&mut table, params, at)?;
        }
        let mut lists = Items::new(alloc);
        lists.push(params.copy())?;
        Ok(Base { lists, table })
    }

    /// The parameters behind these, whose list of the first stands at this tree. Their faults are
    /// noted.
    pub fn judge_params(
        self,
        around: &Around<'t, 'd>,
        at: u32,
        params: &'d [Param],
        faults: &mut Faults,
    ) -> Result<Base<'t, 'd>, AllocError>
        requires { at + trees_of_params params.now < 2 ^ 32 + 1 }
        ensures base { IfOk result (λ base. base ≡ with_params around.now self.entry params.now) }
        ensures faults { OnOk result (faults.new ≡ least_with faults.old
            (param_faults around.now self.entry at params.now)) }
    {
        let mut table = self.table;
        let mut next = at;
        for param in params {
            judge_param(around, &table, next, param, faults);
            table.add(&param.name, around.type_here(&param.ty))?;
            next += 2 + count_type(&param.ty);
        }
        let mut lists = self.lists;
        lists.push(around.params(params))?;
        Ok(Base { lists, table })
    }
}

/// Adds the parameter at this position to a table of those before it.
fn add_param(
    table: &mut Named<Option<Ty>>,
    params: &Params<'_, '_>,
    at: usize,
) -> Result<(), AllocError>
    requires { at < length params.now }
    ensures { IsBase (take at params.now) table.old →
        OnOk result (IsBase (take (at + 1) params.now) table.new) }
{
    match params.name_at(at) {
        Some(name) => table.add(name, params.type_at(at)),
        None => Ok(()),
    }
}

/// Notes the faults of a parameter at this tree, behind those of a table.
fn judge_param(
    around: &Around<'_, '_>,
    table: &Named<Option<Ty>>,
    at: u32,
    param: &Param,
    faults: &mut Faults,
)
    requires { at + trees_of_param param.now < 2 ^ 32 }
    ensures { (scope : ScopeSeen) → IsBase scope table.now → faults.new ≡ least_with faults.old
        (hiding around.now scope (at + 1) param.now.name
        ++ type_faults_at around.now (at + 2) param.now.ty) }
{
    let is_taken = is_taken(around, table, &param.name);
    faults.unless(!is_taken, at + 1, TypeRule::NameTaken);
    judge_type(around, at + 2, &param.ty, faults);
}

/// Whether a name is declared, or one of a table.
fn is_taken(around: &Around<'_, '_>, table: &Named<Option<Ty>>, name: &Text) -> bool
    ensures { (scope : ScopeSeen) → IsBase scope table.now →
        result ≡ is_in_scope around.now scope name.now }
{
    around.is_declared(name) || table.find(name).is_some()
}

impl<'s, 't, 'd> Scope<'s, 't, 'd> {
    /// These names with one more in front.
    pub fn with(&'s self, name: &'s Text, ty: Option<Ty>) -> Scope<'s, 't, 'd>
        ensures { scope_of result ≡ record { name = name.now; type = ty } ∷ scope_of self.now }
    {
        Scope::More {
            name,
            ty,
            rest: self,
        }
    }
}

/// The type of the first local of this name, if there is one.
pub fn local_type(scope: &Scope<'_, '_, '_>, name: &Text) -> Option<Option<Ty>>
    ensures { result ≡ local_type (scope_of scope.now) name.now }
{
    match scope {
        Scope::Base(base) => base.table.find(name),
        Scope::More {
            name: newest,
            ty,
            rest,
        } => {
            if newest.same(name) {
                Some(*ty)
            } else {
                local_type(rest, name)
            }
        }
    }
}

/// Notes the fault of a local at this tree that hides a name in scope.
pub fn judge_hiding(
    around: &Around<'_, '_>,
    scope: &Scope<'_, '_, '_>,
    at: u32,
    name: &Text,
    faults: &mut Faults,
)
    ensures { faults.new ≡ least_with faults.old
        (hiding around.now (scope_of scope.now) at name.now) }
{
    let is_in_scope = around.is_declared(name) || local_type(scope, name).is_some();
    faults.unless(!is_in_scope, at, TypeRule::NameTaken);
}
