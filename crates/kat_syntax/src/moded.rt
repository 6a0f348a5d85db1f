//! A typed specification that is moded.

ghost use Rattle.std.specs.Prelude.{◌≡◌};
ghost use Rattle.kat_syntax.specs.Modes.{IsModed};

use crate::checked::Checked;
use std::marker::Model;

/// A typed specification that is moded: each use of a name in an assertion follows its binding, and
/// each name is bound at the end of its scope. Contracts see it as the specification.
#[derive(Drop)]
pub struct Moded {
    checked: Checked,
}

impl Model for Moded {
    ghost use Rattle.kat_ast.specs.Spec.{Spec};
    ghost use Rattle.kat_ast.specs.contracts.expr.Expr.{the_row as expr};
    ghost use Rattle.kat_ast.specs.contracts.stm.Stm.{the_row as stm};
    ghost use Rattle.kat_ast.specs.contracts.assertion.Assertion.{the_row as assertion};
    ghost use Rattle.std.specs.Coded.{codes};

    ghost Value = { Spec };

    ghost coded = { Prim.hlevel (codes, expr.coded, stm.coded, assertion.coded) };

    ghost use Rattle.kat_syntax.specs.Modes.{IsModed};

    ghost view = { λ m. m.checked };

    ghost invariant = { λ m. IsModed m.checked };
}

impl Moded {
    /// A typed specification that is moded; no memory is taken.
    pub fn new(checked: Checked) -> Moded
        requires { IsModed checked }
        ensures { result ≡ checked }
    {
        Moded { checked }
    }

    /// The typed specification.
    pub fn checked(&self) -> &Checked
        ensures checked { result.now ≡ self.now }
        ensures moded { IsModed self.now }
    {
        &self.checked
    }
}
