//! What stands around a declaration, and what it may name.

ghost use Rattle.std.specs.Prelude.{◌≡◌, ◌≤◌, [], true, Some, length, map, take, slice_get, is_some, option_and_then};
ghost use Rattle.std.specs.Option.{option_copied};
ghost use Rattle.kat_ast.specs.declared.type_name.Param.{Param};
ghost use Rattle.kat_ast.specs.declared.decl.DeclForm.{DeclForm};
ghost use Rattle.kat_syntax.specs.Declares.{declared_by, type_heads, typed_params};
ghost use Rattle.kat_syntax.specs.Around.{a_member, a_ctor, a_register, a_region, a_predicate, a_function, a_lemma, a_block, meant, is_declared, is_before, first_named, type_called, enum_called, record_called, fields_at, names_that, is_member_of, is_ctor_of};
ghost use Rattle.kat_syntax.specs.Memories.{memory_before, index_type, cell_type, kept_cell_type, is_protected_cell, is_taken};
ghost use Rattle.kat_syntax.specs.TypesWritten.{type_here};
ghost use Rattle.kat_syntax.specs.TypingExpressions.{type_of_register};
ghost use Rattle.kat_syntax.specs.TypingDeclarations.{own_names, stands_at, taken_names};
ghost use Rattle.kat_syntax.specs.DeclaredTypes.{head_numbers};

use crate::forms::{
    ctors_of, fields_of, function_types, lemma_params, members_of, predicate_params, region_params,
};
use crate::params::{FunctionSeen, Params, ProofSeen, RecordSeen};
use crate::range::{Memory, Range};
use crate::seen::{CtorSeen, RegisterSeen};
use crate::tables::Tables;
use kat_syntax::{Decl, DeclForm, Param, TypeName};
use kat_text::Text;
use kat_value::{Ty, Types, bits_of};
use std::marker::Model;

/// All declarations, with their tables, and the number of the one that is looked at.
#[derive(Drop)]
pub struct Around<'t, 'd> {
    tables: &'t Tables<'d>,
    number: u32,
}

impl<'t, 'd> Model for Around<'t, 'd> {
    ghost use Rattle.std.specs.Prelude.{◌≤◌, length};
    ghost use Rattle.std.specs.Coded.{codes};
    ghost use Rattle.kat_ast.specs.contracts.expr.Expr.{the_row as expr};
    ghost use Rattle.kat_ast.specs.contracts.stm.Stm.{the_row as stm};
    ghost use Rattle.kat_ast.specs.contracts.assertion.Assertion.{the_row as assertion};
    ghost use Rattle.kat_syntax.specs.Around.{Around as AroundSeen};

    ghost Value = { AroundSeen };

    ghost coded = { Prim.hlevel (codes, expr.coded, stm.coded, assertion.coded) };

    ghost view = { λ a. record { decls = a.tables.now; number = a.number } };

    ghost invariant = { λ a. a.number ≤ length a.tables.now };
}

impl<'t, 'd> Around<'t, 'd> {
    /// What stands around the declaration of this number.
    pub fn new(tables: &'t Tables<'d>, number: u32) -> Around<'t, 'd>
        requires { number ≤ length tables.now }
        ensures { result ≡ record { decls = tables.now; number = number } }
    {
        Around { tables, number }
    }

    /// The number of the declaration.
    pub fn number(&self) -> u32
        ensures { result ≡ self.now.number }
    {
        self.number
    }

    /// The declarations before it.
    pub fn before(&self) -> &'d [Decl]
        ensures { result.now ≡ take self.now.number self.now.decls }
    {
        let tables = self.tables;
        &tables.decls[..self.number as usize]
    }

    /// Names with their types, as they are written in this declaration.
    pub fn params(&self, params: &'d [Param]) -> Params<'t, 'd>
        ensures { result ≡ typed_params self.now.decls self.now.number params.now }
    {
        Params::one(self.tables, self.number, params)
    }

    /// No types.
    pub fn no_types(&self) -> &'t Types
        ensures { result.now ≡ [] }
    {
        let tables = self.tables;
        &tables.no_types
    }

    /// Whether any declaration declares this name.
    pub fn is_declared(&self, name: &Text) -> bool
        ensures { result ≡ is_declared self.now name.now }
    {
        let tables = self.tables;
        tables.kinds.place(name).is_some()
    }

    /// Whether the first declared of this name stands in this declaration, at this tree. The names of
    /// a declaration are asked in their order, each with the `near` of the one before.
    pub fn declares_first(&self, near: &mut usize, tree: u32, name: &Text) -> bool
        ensures { let first = first_named (declared_by self.now.decls) name.now in
            result ≡ stands_at self.now.number tree first }
    {
        let tables = self.tables;
        match tables.kinds.place_near(near, name) {
            Some(stand) => stand.decl == self.number && stand.tree == tree,
            None => false,
        }
    }

    /// Whether no name is declared twice. Then no name of the declaration is taken.
    pub fn names_differ(&self) -> bool
        ensures { result ≡ true → (form : DeclForm) →
            slice_get self.now.decls self.now.number ≡ Some form →
            taken_names self.now (own_names self.now form) ≡ [] }
    {
        let tables = self.tables;
        tables.kinds.are_once()
    }

    /// Whether a declaration stands before this one.
    pub fn is_before(&self, decl: u32) -> bool
        ensures { result ≡ is_before self.now decl }
    {
        decl < self.number
    }

    /// The type that a written type is here.
    pub fn type_here(&self, name: &TypeName) -> Option<Ty>
        ensures { result ≡ type_here self.now name.now }
    {
        let tables = self.tables;
        tables.heads.type_of_name(self.number, name)
    }

    /// The type of this name that is declared earlier.
    pub fn type_called(&self, name: &Text) -> Option<Ty>
        ensures { result ≡ type_called self.now name.now }
    {
        let tables = self.tables;
        tables.heads.type_before(self.number, name)
    }

    /// The enum of this name that is declared earlier, by its position among the types.
    pub fn enum_called(&self, name: &Text) -> Option<u32>
        ensures { result ≡ enum_called self.now name.now }
    {
        match self.type_called(name) {
            Some(Ty::Enum(of)) => Some(of),
            _ => None,
        }
    }

    /// The record type of this name that is declared earlier.
    pub fn record_called(&self, name: &Text) -> Option<RecordSeen<'t, 'd>>
        ensures { result ≡ record_called self.now name.now }
    {
        match self.type_called(name) {
            Some(Ty::Rec(of)) => Some(RecordSeen::new(of, self.fields_at(of))),
            _ => None,
        }
    }

    /// The enum of a member, by its position among the types.
    pub fn member(&self, name: &Text) -> Option<u32>
        ensures { result ≡ meant a_member self.now name.now }
    {
        let tables = self.tables;
        tables.kinds.member(name)
    }

    /// A constructor of a union.
    pub fn ctor(&self, name: &Text) -> Option<CtorSeen>
        ensures { result ≡ meant a_ctor self.now name.now }
    {
        let tables = self.tables;
        tables.kinds.ctor(name)
    }

    /// A register.
    pub fn register(&self, name: &Text) -> Option<RegisterSeen>
        ensures { result ≡ meant a_register self.now name.now }
    {
        let tables = self.tables;
        tables.kinds.register(name)
    }

    /// The type of a register, where it is known.
    pub fn type_of_register(&self, name: &Text) -> Option<Ty>
        ensures { result ≡ type_of_register self.now name.now }
    {
        self.register(name)?.ty
    }

    /// The parameters of a region.
    pub fn region(&self, name: &Text) -> Option<Params<'t, 'd>>
        ensures { result ≡ meant a_region self.now name.now }
    {
        let tables = self.tables;
        let decl = tables.kinds.region(name)?;
        let params = region_params(tables.form(decl)?)?;
        Some(Params::one(tables, decl, params))
    }

    /// A predicate.
    pub fn predicate(&self, name: &Text) -> Option<ProofSeen<'t, 'd>>
        ensures { result ≡ meant a_predicate self.now name.now }
    {
        let tables = self.tables;
        let decl = tables.kinds.predicate(name)?;
        let (inputs, outputs) = predicate_params(tables.form(decl)?)?;
        Some(ProofSeen::new(tables, decl, inputs, outputs))
    }

    /// A function.
    pub fn function(&self, name: &Text) -> Option<FunctionSeen<'t, 'd>>
        ensures { result ≡ meant a_function self.now name.now }
    {
        let tables = self.tables;
        let decl = tables.kinds.function(name)?;
        let (params, written) = function_types(tables.form(decl)?)?;
        let ty = tables.heads.type_of_name(decl, written);
        Some(FunctionSeen::new(Params::one(tables, decl, params), ty))
    }

    /// A lemma.
    pub fn lemma(&self, name: &Text) -> Option<ProofSeen<'t, 'd>>
        ensures { result ≡ meant a_lemma self.now name.now }
    {
        let tables = self.tables;
        let decl = tables.kinds.lemma(name)?;
        let params = lemma_params(tables.form(decl)?)?;
        Some(ProofSeen::new(tables, decl, params, &[]))
    }

    /// Whether there is a block of this name.
    pub fn has_block(&self, name: &Text) -> bool
        ensures { result ≡ is_some (meant a_block self.now name.now) }
    {
        let tables = self.tables;
        tables.kinds.block(name).is_some()
    }

    /// The members of the enum at this position among the types.
    pub fn members_at(&self, of: u32) -> &'d [Text]
        ensures { result.now ≡ names_that (is_member_of of) self.now }
    {
        match self.type_form(of) {
            Some(form) => members_of(form),
            None => &[],
        }
    }

    /// The constructors of the union at this position.
    pub fn ctors_at(&self, of: u32) -> &'d [Param]
        ensures { map (λ (ctor : Param). ctor.name) result.now
            ≡ names_that (is_ctor_of of) self.now }
    {
        match self.type_form(of) {
            Some(form) => ctors_of(form),
            None => &[],
        }
    }

    /// The fields of the record type at this position.
    fn fields_at(&self, of: u32) -> Params<'t, 'd>
        ensures { result ≡ fields_at self.now of }
    {
        let tables = self.tables;
        let decl = tables.heads.number_at(of).unwrap_or(0);
        match self.type_form(of) {
            Some(form) => Params::one(tables, decl, fields_of(form)),
            None => Params::one(tables, decl, &[]),
        }
    }

    /// The declaration of the type at this position.
    fn type_form(&self, of: u32) -> Option<&'d DeclForm>
        ensures { option_copied result ≡ option_and_then (slice_get self.now.decls)
            (slice_get (head_numbers (type_heads self.now.decls)) of) }
    {
        let tables = self.tables;
        let decl = tables.heads.number_at(of)?;
        tables.form(decl)
    }

    /// The memory, where it is declared earlier.
    pub fn memory_before(&self) -> Option<Memory>
        ensures { result ≡ memory_before self.now }
    {
        let tables = self.tables;
        let memory = tables.memory?;
        if self.is_before(memory.decl) {
            Some(memory)
        } else {
            None
        }
    }

    /// The type of the indices of the memory before.
    pub fn index_type(&self) -> Option<Ty>
        ensures { result ≡ index_type self.now }
    {
        bits_of(self.memory_before()?.index_width)
    }

    /// The type of the cells of the memory before.
    pub fn cell_type(&self) -> Option<Ty>
        ensures { result ≡ cell_type self.now }
    {
        bits_of(self.memory_before()?.cell_width)
    }

    /// The type of the cells of the memory, wherever it stands.
    pub fn kept_cell_type(&self) -> Option<Ty>
        ensures { result ≡ kept_cell_type self.now }
    {
        let tables = self.tables;
        bits_of(tables.memory?.cell_width)
    }

    /// Whether some declaration protects this cell.
    pub fn is_protected_cell(&self, cell: u64) -> bool
        ensures { result ≡ is_protected_cell self.now cell }
    {
        let tables = self.tables;
        tables.protected.has(cell)
    }

    /// Whether an earlier declaration has a cell of this range.
    pub fn is_taken(&self, range: &Range) -> bool
        ensures { result ≡ is_taken self.now range.now }
    {
        for decl in self.before() {
            if let Some(earlier) = Range::of(decl.form()) {
                if range.overlaps(&earlier) {
                    return true;
                }
            }
        }
        false
    }
}
