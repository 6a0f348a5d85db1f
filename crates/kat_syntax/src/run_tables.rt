//! What a cycle looks up by name: each name once for each use, in a hash table.

ghost use Rattle.std.specs.Prelude.{◌≡◌, ◌<◌, ◌^◌, ℕ, List, length, map, IfOk, OnOk};
ghost use Rattle.std.specs.Option.{option_map, option_or};
ghost use Rattle.kat_names.specs.Names.{position_of};
ghost use Rattle.kat_syntax.specs.NamedItems.{found};
ghost use Rattle.kat_syntax.specs.NamedValues.{name_of_type, names_of_fields};
ghost use Rattle.kat_syntax.specs.RunTables.{IsRunTables, AreRegisterTables, AreFunctionTables, AreTypeTables, FindsPositions, FindsFunctions, FindsCtors, ArePartTables, AreParamTables, param_names, params_declared, parts_declared, step_number};
ghost use Rattle.kat_syntax.specs.Tables.{register_names};
ghost use Rattle.kat_syntax.specs.TypeTable.{types_of_decls};

use crate::declared_types::DeclaredTypes;
use crate::named::Named;
use crate::places::{Memory, OutsidePlace, memory_of, outside_places, register_types};
use kat_ast::{Decl, DeclForm, Param};
use kat_text::Text;
use kat_value::{Field, Ty, TypeDecl, Types};
use sqlite_items::Items;
use std::alloc::{AllocError, Global};

/// The tables of a specification, beside its declared types.
#[derive(Drop)]
pub struct RunTables {
    /// The tables of the registers.
    pub registers: RegisterTables,
    /// The memory.
    pub memory: Option<Memory>,
    /// The places that are written from outside, in order of declaration.
    pub outside: Items<OutsidePlace>,
    /// The tables of the functions.
    pub functions: FunctionTables,
    /// The tables of the declared types.
    pub types: TypeTables,
}

/// The registers: their names and types, in order of declaration, and their positions by name.
#[derive(Drop)]
pub struct RegisterTables {
    pub names: Items<Text>,
    pub positions: Named<u32>,
    pub types: Items<Ty>,
}

/// The functions: the numbers of their declarations by name, that of the function that a cycle
/// calls, and for each declaration the positions of the parameters of what it declares.
#[derive(Drop)]
pub struct FunctionTables {
    pub numbers: Named<u32>,
    pub step: Option<u32>,
    pub params: Items<Named<u32>>,
}

/// The declared types: their positions by name, for each the positions of its members, constructors
/// or fields, and the constructors of all unions.
#[derive(Drop)]
pub struct TypeTables {
    pub positions: Named<u32>,
    pub parts: Items<Named<u32>>,
    pub ctors: Named<CtorPlace>,
}

/// A constructor: the position of its union among the types, and its own in the union.
#[derive(Clone, Copy, Debug, PartialEq, Eq, Drop)]
pub struct CtorPlace {
    pub of: u32,
    pub ctor: u32,
}

/// The tables of these declarations, whose declared types these are.
pub fn run_tables(alloc: Global, decls: &[Decl], types: &Types) -> Result<RunTables, AllocError>
    requires few { length decls.now < 2 ^ 32 }
    requires table { types.now ≡ types_of_decls decls.now }
    ensures { IfOk result (IsRunTables decls.now) }
{
    Ok(RunTables {
        registers: register_tables(alloc, decls)?,
        memory: memory_of(decls),
        outside: outside_places(alloc, decls)?,
        functions: function_tables(alloc, decls)?,
        types: type_tables(alloc, types)?,
    })
}

/// The tables of the registers.
fn register_tables(alloc: Global, decls: &[Decl]) -> Result<RegisterTables, AllocError>
    requires { length decls.now < 2 ^ 32 }
    ensures { IfOk result (AreRegisterTables decls.now) }
{
    let declared = DeclaredTypes::of(alloc, decls)?;
    let types = register_types(alloc, &declared, decls)?;
    Ok(RegisterTables {
        names: register_names(alloc, decls)?,
        positions: register_positions(alloc, decls)?,
        types,
    })
}

/// The tables of the functions.
fn function_tables(alloc: Global, decls: &[Decl]) -> Result<FunctionTables, AllocError>
    requires { length decls.now < 2 ^ 32 }
    ensures { IfOk result (AreFunctionTables decls.now) }
{
    let params = param_tables(alloc, decls)?;
    let numbers = functions(alloc, decls)?;
    let step = step_number(decls, &numbers);
    Ok(FunctionTables {
        numbers,
        step,
        params,
    })
}

/// The tables of the declared types.
fn type_tables(alloc: Global, types: &Types) -> Result<TypeTables, AllocError>
    ensures { IfOk result (AreTypeTables types.now) }
{
    Ok(TypeTables {
        positions: type_positions(alloc, types)?,
        parts: part_tables(alloc, types)?,
        ctors: ctors(alloc, types)?,
    })
}

/// The names of the registers.
fn register_names(alloc: Global, decls: &[Decl]) -> Result<Items<Text>, AllocError>
    ensures { IfOk result (λ names. names ≡ register_names decls.now) }
{
    let mut names = Items::new(alloc);
    for decl in decls {
        if let DeclForm::Register { name, .. } = decl.form() {
            names.push(name.copy()?)?;
        }
    }
    Ok(names)
}

/// The positions of the registers, by their names.
fn register_positions(alloc: Global, decls: &[Decl]) -> Result<Named<u32>, AllocError>
    requires { length decls.now < 2 ^ 32 }
    ensures { IfOk result (λ named. FindsPositions (register_names decls.now) named) }
{
    let mut named = Named::empty(alloc);
    let mut position: u32 = 0;
    for decl in decls {
        if let DeclForm::Register { name, .. } = decl.form() {
            named.add(name, position)?;
            position += 1;
        }
    }
    Ok(named)
}

/// The numbers of the declarations of functions, by the names of these.
fn functions(alloc: Global, decls: &[Decl]) -> Result<Named<u32>, AllocError>
    requires { length decls.now < 2 ^ 32 }
    ensures { IfOk result (FindsFunctions decls.now) }
{
    let mut named = Named::empty(alloc);
    for (number, decl) in decls.iter().enumerate() {
        if let DeclForm::Fun { name, .. } = decl.form() {
            named.add(name, number as u32)?;
        }
    }
    Ok(named)
}

/// The number of the declaration of the function that a cycle calls.
fn step_number(decls: &[Decl], functions: &Named<u32>) -> Option<u32>
    requires { FindsFunctions decls.now functions.now }
    ensures { result ≡ step_number decls.now }
{
    for decl in decls {
        if let DeclForm::Step(name) = decl.form() {
            return functions.find(name);
        }
    }
    None
}

/// For each declaration the positions of the parameters of the function that it declares.
fn param_tables(alloc: Global, decls: &[Decl]) -> Result<Items<Named<u32>>, AllocError>
    ensures { IfOk result (AreParamTables decls.now) }
{
    let mut tables = Items::new(alloc);
    for decl in decls {
        let table = params_of(alloc, decl.form())?;
        tables.push(table)?;
    }
    Ok(tables)
}

/// The positions of the parameters of the function that a declaration declares, if any.
fn params_of(alloc: Global, decl: &DeclForm) -> Result<Named<u32>, AllocError>
    ensures { IfOk result (λ named. FindsPositions (params_declared decl.now) named) }
{
    match decl {
        DeclForm::Fun { params, .. } => param_positions(alloc, params.as_slice()),
        _ => Ok(Named::empty(alloc)),
    }
}

/// The positions of parameters, by their names. 2^32 are taken for more than memory holds.
fn param_positions(alloc: Global, params: &[Param]) -> Result<Named<u32>, AllocError>
    ensures { IfOk result (λ named. FindsPositions (param_names params.now) named) }
{
    if params.len() > u32::MAX as usize {
        return Err(AllocError);
    }
    let mut named = Named::empty(alloc);
    named.reserve(params.len())?;
    for (position, param) in params.iter().enumerate() {
        named.add(&param.name, position as u32)?;
    }
    Ok(named)
}

/// The positions of the declared types, by their names.
fn type_positions(alloc: Global, types: &Types) -> Result<Named<u32>, AllocError>
    ensures { IfOk result (λ named. FindsPositions (map name_of_type types.now) named) }
{
    if types.len() > u32::MAX as usize {
        return Err(AllocError);
    }
    let mut named = Named::empty(alloc);
    for (position, decl) in types.as_slice().iter().enumerate() {
        named.add(name_of_type(decl), position as u32)?;
    }
    Ok(named)
}

/// The name of a declared type.
fn name_of_type(decl: &TypeDecl) -> &Text
    ensures { result.now ≡ name_of_type decl.now }
{
    match decl {
        TypeDecl::Enum { name, .. } | TypeDecl::Union { name, .. } | TypeDecl::Rec { name, .. } => {
            name
        }
    }
}

/// For each declared type the positions of its members, constructors or fields.
fn part_tables(alloc: Global, types: &Types) -> Result<Items<Named<u32>>, AllocError>
    ensures { IfOk result (ArePartTables types.now) }
{
    let mut tables = Items::new(alloc);
    for decl in types.as_slice() {
        let table = parts_of(alloc, decl)?;
        tables.push(table)?;
    }
    Ok(tables)
}

/// The positions of the members, constructors or fields of a declared type.
fn parts_of(alloc: Global, decl: &TypeDecl) -> Result<Named<u32>, AllocError>
    ensures { IfOk result (λ named. FindsPositions (parts_declared decl.now) named) }
{
    match decl {
        TypeDecl::Enum { members, .. } => text_positions(alloc, members.as_slice()),
        TypeDecl::Union { ctors, .. } => field_positions(alloc, ctors.as_slice()),
        TypeDecl::Rec { fields, .. } => field_positions(alloc, fields.as_slice()),
    }
}

/// The positions of these names. 2^32 are taken for more than memory holds.
fn text_positions(alloc: Global, names: &[Text]) -> Result<Named<u32>, AllocError>
    ensures { IfOk result (λ named. FindsPositions names.now named) }
{
    if names.len() > u32::MAX as usize {
        return Err(AllocError);
    }
    let mut named = Named::empty(alloc);
    named.reserve(names.len())?;
    for (position, name) in names.iter().enumerate() {
        named.add(name, position as u32)?;
    }
    Ok(named)
}

/// The positions of fields, by their names. 2^32 are taken for more than memory holds.
fn field_positions(alloc: Global, fields: &[Field]) -> Result<Named<u32>, AllocError>
    ensures { IfOk result (λ named. FindsPositions (names_of_fields fields.now) named) }
{
    if fields.len() > u32::MAX as usize {
        return Err(AllocError);
    }
    let mut named = Named::empty(alloc);
    named.reserve(fields.len())?;
    for (position, field) in fields.iter().enumerate() {
        named.add(&field.name, position as u32)?;
    }
    Ok(named)
}

/// The constructors of all unions.
fn ctors(alloc: Global, types: &Types) -> Result<Named<CtorPlace>, AllocError>
    ensures { IfOk result (FindsCtors types.now) }
{
    if types.len() > u32::MAX as usize {
        return Err(AllocError);
    }
    let mut named = Named::empty(alloc);
    for (of, decl) in types.as_slice().iter().enumerate() {
        if let TypeDecl::Union { ctors, .. } = decl {
            add_ctors(&mut named, of as u32, ctors.as_slice())?;
        }
    }
    Ok(named)
}

/// Adds the constructors of the union at this position.
fn add_ctors(named: &mut Named<CtorPlace>, of: u32, ctors: &[Field]) -> Result<(), AllocError>
    ensures { OnOk result ((k : List ℕ) → found named.new k
        ≡ option_or (found named.old k)
        (option_map (λ at. record { of = of; ctor = at }) (position_of (names_of_fields ctors.now) k))) }
{
    if ctors.len() > u32::MAX as usize {
        return Err(AllocError);
    }
    for (at, field) in ctors.iter().enumerate() {
        let ctor = at as u32;
        named.add(&field.name, CtorPlace { of, ctor })?;
    }
    Ok(())
}
