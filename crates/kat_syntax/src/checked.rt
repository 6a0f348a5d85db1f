//! A specification that is typed, with the table of its declared types and those that a cycle asks.

ghost use Rattle.std.specs.Prelude.{◌≡◌, ◌+◌, ◌<◌, IfOk, IfSome, slice_get};
ghost use Rattle.kat_names.specs.Names.{position_of};
ghost use Rattle.kat_ast.specs.Limits.{decl_trees_bound};
ghost use Rattle.kat_ast.specs.Types.{trees_of_type, trees_of_params};
ghost use Rattle.kat_syntax.specs.FirstTypeFault.{IsTyped};
ghost use Rattle.kat_syntax.specs.Functions.{IsCallable, IsFunctionSeen};
ghost use Rattle.kat_syntax.specs.Memories.{IsMemory};
ghost use Rattle.kat_syntax.specs.NamedValues.{ctor_from, members_of, ctors_of, field_names_of, names_at, type_position};
ghost use Rattle.kat_syntax.specs.OutsideWrites.{outside_places};
ghost use Rattle.kat_syntax.specs.States.{register_position, register_types, memory_of, cell_width};
ghost use Rattle.kat_syntax.specs.RunTables.{declared_at, parts_declared};
ghost use Rattle.kat_syntax.specs.Tables.{register_names, function_from, step_function_of};
ghost use Rattle.kat_syntax.specs.TypeTable.{types_of_decls};

use crate::named::Named;
use crate::places::{Memory, OutsidePlace};
use crate::run_tables::{CtorPlace, RunTables, run_tables};
use crate::type_table::types_of_decls;
use kat_ast::{
    DeclForm, Param, Spec, Stm, TypeName, count_params, count_type, places_are_of_the_tree,
};
use kat_text::Text;
use kat_value::{Ty, TypeDecl, Types};
use std::alloc::{AllocError, Global};
use std::marker::Model;

/// A typed specification: no condition of a fault of typing holds at any tree of it. The table of
/// its declared types stands beside it, and the tables in which a cycle looks names up. Contracts
/// see it as the specification.
#[derive(Drop)]
pub struct Checked {
    spec: Spec,
    types: Types,
    tables: RunTables,
}

impl Model for Checked {
    ghost use Rattle.kat_ast.specs.Spec.{Spec};
    ghost use Rattle.kat_ast.specs.contracts.expr.Expr.{the_row as expr};
    ghost use Rattle.kat_ast.specs.contracts.stm.Stm.{the_row as stm};
    ghost use Rattle.kat_ast.specs.contracts.assertion.Assertion.{the_row as assertion};
    ghost use Rattle.std.specs.Coded.{codes};

    ghost Value = { Spec };

    ghost coded = { Prim.hlevel (codes, expr.coded, stm.coded, assertion.coded) };

    ghost use Rattle.kat_syntax.specs.Functions.{IsChecked};

    ghost view = { λ c. c.spec };

    ghost invariant = { λ c. IsChecked c.spec c.types c.tables };
}

/// A function: its parameters and their positions by name, its body, and where it is declared.
#[derive(Clone, Copy, Drop)]
pub struct FunctionSeen<'a> {
    /// The number of its declaration.
    pub decl: u32,
    /// Its parameters.
    pub params: &'a [Param],
    /// The position of each parameter.
    pub positions: &'a Named<u32>,
    /// The type of its result.
    pub result: &'a TypeName,
    /// Its body.
    pub body: &'a Stm,
}

impl FunctionSeen<'_> {
    /// The number of the body's tree in the declaration. It is counted only where a failure stands.
    pub fn body_at(self) -> u32
        requires { 3 + trees_of_params self.params.now + trees_of_type self.result.now
            < decl_trees_bound }
        ensures { result ≡ 3 + trees_of_params self.entry.params.now
            + trees_of_type self.entry.result.now }
    {
        3 + count_params(self.params) + count_type(self.result)
    }
}

impl Checked {
    /// A specification that is typed, with its tables.
    pub fn new(alloc: Global, spec: Spec) -> Result<Checked, AllocError>
        requires { IsTyped spec }
        ensures { IfOk result (λ checked. checked ≡ spec) }
    {
        let types = types_of_decls(alloc, spec.decls())?;
        let tables = run_tables(alloc, spec.decls(), &types)?;
        Ok(Checked {
            spec,
            types,
            tables,
        })
    }

    /// The specification itself.
    pub fn spec(&self) -> &Spec
        ensures spec { result.now ≡ self.now }
        ensures typed { IsTyped self.now }
    {
        &self.spec
    }

    /// The table of its declared types, in order of declaration.
    pub fn types(&self) -> &Types
        ensures { result.now ≡ types_of_decls self.now.decls }
    {
        &self.types
    }

    /// The names of the registers, in order of declaration.
    pub fn register_names(&self) -> &[Text]
        ensures { result.now ≡ register_names self.now.decls }
    {
        self.tables.registers.names.as_slice()
    }

    /// The types of the registers, in order of declaration.
    pub fn register_types(&self) -> &[Ty]
        ensures { result.now ≡ register_types self.now.decls }
    {
        self.tables.registers.types.as_slice()
    }

    /// The position of the register of this name, if there is one.
    pub fn register(&self, name: &Text) -> Option<u32>
        ensures { result ≡ register_position self.now.decls name.now }
    {
        self.tables.registers.positions.find(name)
    }

    /// The position of the register whose name is this word, if there is one.
    pub fn register_of_word(&self, word: &str) -> Option<u32>
        ensures { result ≡ register_position self.now.decls word.now }
    {
        self.tables.registers.positions.find_word(word)
    }

    /// The memory, if there is one. Its indices and cells have widths from 1 to 64.
    pub fn memory(&self) -> Option<Memory>
        ensures found { result ≡ memory_of self.now.decls }
        ensures kept { IfSome result IsMemory }
    {
        self.tables.memory
    }

    /// The width of cells; 0 where there is no memory.
    pub fn cell_width(&self) -> u64
        ensures { result ≡ cell_width self.now.decls }
    {
        match self.tables.memory {
            Some(memory) => memory.cell_width,
            None => 0,
        }
    }

    /// The outside place of this ordinal, in order of declaration.
    pub fn outside_place(&self, ordinal: u32) -> Option<OutsidePlace>
        ensures { result ≡ slice_get (outside_places self.now.decls) ordinal }
    {
        self.tables.outside.get(ordinal as usize).copied()
    }

    /// The position of the declared type of this name, if there is one.
    pub fn type_position(&self, name: &Text) -> Option<u32>
        ensures { result ≡ type_position (types_of_decls self.now.decls) name.now }
    {
        self.tables.types.positions.find(name)
    }

    /// The position of a member in the enum at this position.
    pub fn member(&self, of: u32, name: &Text) -> Option<u32>
        ensures { result
            ≡ position_of (names_at members_of (types_of_decls self.now.decls) of) name.now }
    {
        match self.types.get(of as usize) {
            Some(TypeDecl::Enum { .. }) => self.part(of, name),
            _ => None,
        }
    }

    /// The position of a field in the record at this position.
    pub fn field(&self, of: u32, name: &Text) -> Option<u32>
        ensures { result
            ≡ position_of (names_at field_names_of (types_of_decls self.now.decls) of) name.now }
    {
        match self.types.get(of as usize) {
            Some(TypeDecl::Rec { .. }) => self.part(of, name),
            _ => None,
        }
    }

    /// The position of a member, constructor or field in the declared type at this position.
    fn part(&self, of: u32, name: &Text) -> Option<u32>
        ensures { result
            ≡ position_of (names_at parts_declared (types_of_decls self.now.decls) of) name.now }
    {
        match self.tables.types.parts.get(of as usize) {
            Some(table) => table.find(name),
            None => None,
        }
    }

    /// The first constructor of this name.
    pub fn ctor(&self, name: &Text) -> Option<CtorPlace>
        ensures { result ≡ ctor_from 0 (types_of_decls self.now.decls) name.now }
    {
        self.tables.types.ctors.find(name)
    }

    /// The function that a cycle calls.
    pub fn step_function(&self) -> Option<FunctionSeen<'_>>
        ensures found { IsFunctionSeen result (step_function_of self.now.decls) }
        ensures callable { IfSome result IsCallable }
    {
        let decl = self.tables.functions.step?;
        self.function_at(decl)
    }

    /// The first function of this name.
    pub fn function(&self, name: &Text) -> Option<FunctionSeen<'_>>
        ensures found { IsFunctionSeen result (function_from 0 self.now.decls name.now) }
        ensures callable { IfSome result IsCallable }
    {
        let decl = self.tables.functions.numbers.find(name)?;
        self.function_at(decl)
    }

    /// The function that the declaration of this number declares.
    fn function_at(&self, decl: u32) -> Option<FunctionSeen<'_>>
        ensures found { IsFunctionSeen result (declared_at self.now.decls decl) }
        ensures callable { IfSome result IsCallable }
    {
        places_are_of_the_tree();
        let positions = self.tables.functions.params.get(decl as usize)?;
        match self.spec.decls()[decl as usize].form() {
            DeclForm::Fun {
                params,
                result,
                body,
                ..
            } => Some(FunctionSeen {
                decl,
                params: params.as_slice(),
                positions,
                result,
                body,
            }),
            _ => None,
        }
    }
}
