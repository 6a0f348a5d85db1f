//! What the tables keep of declared names.

use kat_syntax::RegisterKind;
use kat_value::Ty;
use std::marker::Model;

/// Where a declared name stands, by declaration and tree.
#[derive(Clone, Copy, Drop)]
pub struct Stand {
    pub decl: u32,
    pub tree: u32,
}

/// A constructor: its union's position among the types, and its payload's type.
#[derive(Clone, Copy, Drop)]
pub struct CtorSeen {
    pub of: u32,
    pub payload: Option<Ty>,
}

impl Model for CtorSeen {
    ghost use Rattle.kat_syntax.specs.Around.{CtorSeen as CtorMeant};

    ghost Value = { CtorMeant };

    ghost view = { λ c. record { of = c.of; payload = c.payload } };

    ghost inverse = { λ c. record { of = c.of; payload = c.payload } };
}

/// A declared register.
#[derive(Clone, Copy, Drop)]
pub struct RegisterSeen {
    pub kind: RegisterKind,
    pub ty: Option<Ty>,
}

impl Model for RegisterSeen {
    ghost use Rattle.kat_syntax.specs.Around.{RegisterSeen as RegisterMeant};

    ghost Value = { RegisterMeant };

    ghost view = { λ r. record { kind = r.kind; type = r.ty } };

    ghost inverse = { λ r. record { kind = r.kind; ty = r.type } };
}
