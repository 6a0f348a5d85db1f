//! Declarations, and the specification that they make.

ghost use Rattle.std.specs.Prelude.{◌≡◌};

use crate::assertion::Assertion;
use crate::expr::Expr;
use crate::stm::Stm;
use crate::type_name::{Param, TypeName};
use kat_text::Text;
use sqlite_items::Items;
use std::marker::Model;

/// Who may change a register.
#[derive(Clone, Copy, Debug, PartialEq, Eq, Drop)]
pub enum RegisterKind {
    /// The machine alone.
    Plain,
    /// The machine alone, and no untrusted cycle.
    Protected,
    /// The machine and, between cycles, the outside.
    Outside,
}

/// Who may change a range of cells.
#[derive(Clone, Copy, Debug, PartialEq, Eq, Drop)]
pub enum CellsKind {
    /// The machine alone, and no untrusted cycle.
    Protected,
    /// The machine and, between cycles, the outside.
    Outside,
}

/// What a cycle from a state is.
#[derive(Drop)]
pub enum Phase {
    /// `untrusted`: a cycle of code that nobody has read.
    Untrusted,
    /// `inside`: within the run of a block.
    Inside,
    /// `(block x)`: the first cycle of a block.
    Block(Text),
}

/// A case `(when E phase)` of the dispatch.
#[derive(Drop)]
pub struct When {
    pub test: Expr,
    pub phase: Phase,
}

/// A trusted block `(block x (entry A) (within n) (change E))`.
#[derive(Drop)]
pub struct Block {
    pub name: Text,
    /// What holds where it is entered.
    pub entry: Assertion,
    /// The most cycles that it takes.
    pub within: u64,
    /// How the protected places change from entry to exit.
    pub change: Expr,
}

/// The form of a declaration, one variant for each.
#[derive(Drop)]
pub enum DeclForm {
    /// `(enum x (A ..))`: at least one member.
    Enum {
        name: Text,
        members: Items<Text>,
    },
    /// `(union x ((K T) ..))`: at least one constructor.
    Union {
        name: Text,
        ctors: Items<Param>,
    },
    /// `(record x ((f T) ..))`: at least one field.
    Record {
        name: Text,
        fields: Items<Param>,
    },
    /// `(register x T place)`
    Register {
        name: Text,
        ty: TypeName,
        kind: RegisterKind,
    },
    /// `(memory a c lo hi)`: indices of a bits, cells of c bits, the indices from `lo` to `hi` - 1.
    Memory {
        index_width: u64,
        cell_width: u64,
        lo: u64,
        hi: u64,
    },
    /// `(cells kind lo hi)`: the cells from `lo` to `hi` - 1.
    Cells {
        kind: CellsKind,
        lo: u64,
        hi: u64,
    },
    /// `(code lo n ..)`: the stated values of the cells from `lo` on, at least one.
    Code {
        lo: u64,
        values: Items<u64>,
    },
    /// `(region x params i E)`: the cells i of the memory where E is true.
    Region {
        name: Text,
        params: Items<Param>,
        index: Text,
        guard: Expr,
    },
    /// `(pred x params params A)`: a predicate with its inputs, its outputs and its definition.
    Predicate {
        name: Text,
        inputs: Items<Param>,
        outputs: Items<Param>,
        definition: Assertion,
    },
    /// `(fun x params T S)`: a function with the type of its result and its body.
    Fun {
        name: Text,
        params: Items<Param>,
        result: TypeName,
        body: Stm,
    },
    /// `(contract f params (pre A) (res x) (post A))`: the names of a function's contract, its
    /// precondition, the result's name and the postcondition.
    Contract {
        function: Text,
        names: Items<Param>,
        pre: Assertion,
        result: Text,
        post: Assertion,
    },
    /// `(lemma x params params (pre A) (post A) (steps S ..))`: a lemma with its parameters and its
    /// names.
    Lemma {
        name: Text,
        params: Items<Param>,
        names: Items<Param>,
        pre: Assertion,
        post: Assertion,
        steps: Items<Stm>,
    },
    /// `(step f)`: the function that a cycle calls.
    Step(Text),
    /// `(dispatch (when E phase) .. (else phase))`: the phase of a state, by the first true
    /// condition.
    Dispatch {
        cases: Items<When>,
        otherwise: Phase,
    },
    /// `(untrusted A)`: what holds where an untrusted cycle begins and ends.
    Untrusted(Assertion),
    /// A trusted block.
    Block(Block),
    /// `(boot x)`: the block that boots the machine.
    Boot(Text),
}

/// A declaration of the language's text: each name in it is a name token other than `true`, `false`
/// and `unit`, no type that it names is `bool`, each form has its count of parts, its text nests at
/// most 63 brackets, and it has fewer than 2^32 trees. Contracts see it as its form.
#[derive(Drop)]
pub struct Decl {
    form: DeclForm,
}

impl Model for Decl {
    ghost use Rattle.kat_ast.specs.declared.decl.DeclForm.{DeclForm};
    ghost use Rattle.kat_ast.specs.contracts.expr.Expr.{the_row as expr};
    ghost use Rattle.kat_ast.specs.contracts.stm.Stm.{the_row as stm};
    ghost use Rattle.kat_ast.specs.contracts.assertion.Assertion.{the_row as assertion};
    ghost use Rattle.std.specs.Coded.{codes};

    ghost Value = { DeclForm };

    ghost coded = { Prim.hlevel (codes, expr.coded, stm.coded, assertion.coded) };

    ghost use Rattle.kat_ast.specs.Declarations.{IsDecl};

    ghost view = { λ d. d.form };

    ghost invariant = { λ d. IsDecl d.form };
}

impl Decl {
    ghost use Rattle.kat_ast.specs.Declarations.{IsDecl};

    /// The declaration of a form.
    pub fn new(form: DeclForm) -> Decl
        requires { IsDecl form }
        ensures { result ≡ form }
    {
        Decl { form }
    }

    /// The form of the declaration.
    pub fn form(&self) -> &DeclForm
        ensures form { result.now ≡ self.now }
        ensures kept { IsDecl self.now }
    {
        &self.form
    }
}

/// A specification of the language's text: the version that it is written in, and its declarations
/// in the order of the text. Contracts see it as these two.
#[derive(Drop)]
pub struct Spec {
    version: u64,
    decls: Items<Decl>,
}

impl Model for Spec {
    ghost use Rattle.kat_ast.specs.Spec.{Spec as SpecForm};
    ghost use Rattle.kat_ast.specs.contracts.expr.Expr.{the_row as expr};
    ghost use Rattle.kat_ast.specs.contracts.stm.Stm.{the_row as stm};
    ghost use Rattle.kat_ast.specs.contracts.assertion.Assertion.{the_row as assertion};
    ghost use Rattle.std.specs.Coded.{codes};

    ghost Value = { SpecForm };

    ghost coded = { Prim.hlevel (codes, expr.coded, stm.coded, assertion.coded) };

    ghost use Rattle.kat_ast.specs.Specifications.{IsSpec};

    ghost view = { λ s. record { version = s.version; decls = s.decls } };

    ghost invariant = { λ s. IsSpec (record { version = s.version; decls = s.decls }) };
}

impl Spec {
    ghost use Rattle.kat_ast.specs.Specifications.{IsSpec};

    /// The specification of these declarations, of a version that there is.
    pub fn new(version: u64, decls: Items<Decl>) -> Spec
        requires { IsSpec (record { version = version; decls = decls }) }
        ensures { result ≡ record { version = version; decls = decls } }
    {
        Spec { version, decls }
    }

    /// The version of the language.
    pub fn version(&self) -> u64
        ensures version { result ≡ self.now.version }
        ensures kept { IsSpec self.now }
    {
        self.version
    }

    /// The declarations.
    pub fn decls(&self) -> &[Decl]
        ensures decls { result.now ≡ self.now.decls }
        ensures kept { IsSpec self.now }
    {
        self.decls.as_slice()
    }

    /// Gives the declarations up; no memory is taken.
    pub fn into_decls(self) -> Items<Decl>
        ensures { result ≡ self.decls }
    {
        self.decls
    }
}
