//! Names with their types, as a declaration writes them, and what takes or has such names.

ghost use Rattle.std.specs.Prelude.{◌≡◌, ◌++◌, length, slice_get};
ghost use Rattle.std.specs.Option.{option_copied, option_map, option_flatten};
ghost use Rattle.kat_syntax.specs.Declares.{TypedName, typed_params, types_of};
ghost use Rattle.kat_syntax.specs.TypesWritten.{local_type};
ghost use Rattle.kat_syntax.specs.TypingAssertions.{inputs_and_outputs};

use crate::tables::Tables;
use kat_syntax::Param;
use kat_text::Text;
use kat_value::Ty;
use std::marker::Model;

/// Names with their types, of one list behind another, as the declaration of a number writes them.
#[derive(Drop)]
pub struct Params<'t, 'd> {
    tables: &'t Tables<'d>,
    decl: u32,
    first: &'d [Param],
    second: &'d [Param],
}

impl<'t, 'd> Model for Params<'t, 'd> {
    ghost use Rattle.std.specs.Prelude.{◌++◌, List};
    ghost use Rattle.kat_syntax.specs.Declares.{TypedName, typed_params};

    ghost Value = { List TypedName };

    ghost view = { λ p. typed_params p.tables.now p.decl (p.first.now ++ p.second.now) };
}

impl<'t, 'd> Params<'t, 'd> {
    /// One list of names.
    pub(crate) fn one(tables: &'t Tables<'d>, decl: u32, params: &'d [Param]) -> Params<'t, 'd>
        ensures { result ≡ typed_params tables.now decl params.now }
    {
        Params {
            tables,
            decl,
            first: params,
            second: &[],
        }
    }

    /// How many names there are.
    pub fn len(&self) -> usize
        ensures { result ≡ length self.now }
    {
        self.first.len() + self.second.len()
    }

    /// The name at this position.
    pub fn name_at(&self, at: usize) -> Option<&'d Text>
        ensures { option_map (λ name. name.now) result
            ≡ option_map (λ (one : TypedName). one.name) (slice_get self.now at) }
    {
        Some(&param_at(self.first, self.second, at)?.name)
    }

    /// The type of the name at this position, where it is known.
    pub fn type_at(&self, at: usize) -> Option<Ty>
        ensures { result ≡ option_flatten (slice_get (types_of self.now) at) }
    {
        let tables = self.tables;
        let param = param_at(self.first, self.second, at)?;
        tables.heads.type_of_name(self.decl, &param.ty)
    }

    /// The type of the first of this name, if there is one.
    pub fn type_of(&self, name: &Text) -> Option<Option<Ty>>
        ensures { result ≡ local_type self.now name.now }
    {
        match type_in(self.tables, self.decl, self.first, name) {
            Some(ty) => Some(ty),
            None => type_in(self.tables, self.decl, self.second, name),
        }
    }

    /// The same names once more.
    pub fn copy(&self) -> Params<'t, 'd>
        ensures { result ≡ self.now }
    {
        Params {
            tables: self.tables,
            decl: self.decl,
            first: self.first,
            second: self.second,
        }
    }
}

/// The parameter at this position of one list behind another.
fn param_at<'a>(first: &'a [Param], second: &'a [Param], at: usize) -> Option<&'a Param>
    ensures { option_copied result ≡ slice_get (first.now ++ second.now) at }
{
    if at < first.len() {
        first.get(at)
    } else {
        second.get(at - first.len())
    }
}

/// The type of the first of this name in one list, if there is one.
fn type_in(tables: &Tables<'_>, decl: u32, params: &[Param], name: &Text) -> Option<Option<Ty>>
    ensures { result ≡ local_type (typed_params tables.now decl params.now) name.now }
{
    for param in params {
        if param.name.same(name) {
            return Some(tables.heads.type_of_name(decl, &param.ty));
        }
    }
    None
}

/// A predicate or a lemma: the number of its declaration, and what it takes.
#[derive(Drop)]
pub struct ProofSeen<'t, 'd> {
    tables: &'t Tables<'d>,
    decl: u32,
    inputs: &'d [Param],
    outputs: &'d [Param],
}

impl<'t, 'd> Model for ProofSeen<'t, 'd> {
    ghost use Rattle.kat_syntax.specs.Declares.{typed_params};
    ghost use Rattle.kat_syntax.specs.Around.{ProofSeen as ProofMeant};

    ghost Value = { ProofMeant };

    ghost view = { λ p. record {
      decl = p.decl;
      inputs = typed_params p.tables.now p.decl p.inputs.now;
      outputs = typed_params p.tables.now p.decl p.outputs.now;
    } };
}

impl<'t, 'd> ProofSeen<'t, 'd> {
    /// A predicate or a lemma that is declared at this number and takes these.
    pub(crate) fn new(
        tables: &'t Tables<'d>,
        decl: u32,
        inputs: &'d [Param],
        outputs: &'d [Param],
    ) -> ProofSeen<'t, 'd>
        ensures { result ≡ record {
          decl = decl;
          inputs = typed_params tables.now decl inputs.now;
          outputs = typed_params tables.now decl outputs.now;
        } }
    {
        ProofSeen {
            tables,
            decl,
            inputs,
            outputs,
        }
    }

    /// The number of its declaration.
    pub fn decl(&self) -> u32
        ensures { result ≡ self.now.decl }
    {
        self.decl
    }

    /// Its inputs.
    pub fn inputs(&self) -> Params<'t, 'd>
        ensures { result ≡ self.now.inputs }
    {
        Params::one(self.tables, self.decl, self.inputs)
    }

    /// Its inputs, and its outputs behind them.
    pub fn inputs_and_outputs(&self) -> Params<'t, 'd>
        ensures { result ≡ inputs_and_outputs self.now }
    {
        Params {
            tables: self.tables,
            decl: self.decl,
            first: self.inputs,
            second: self.outputs,
        }
    }
}

/// A function, with its parameters and the type of its result.
#[derive(Drop)]
pub struct FunctionSeen<'t, 'd> {
    params: Params<'t, 'd>,
    ty: Option<Ty>,
}

impl<'t, 'd> Model for FunctionSeen<'t, 'd> {
    ghost use Rattle.kat_syntax.specs.Around.{FunctionSeen as FunctionMeant};

    ghost Value = { FunctionMeant };

    ghost view = { λ f. record { params = f.params; result = f.ty } };
}

impl<'t, 'd> FunctionSeen<'t, 'd> {
    /// A function with these parameters, whose result is of this type.
    pub(crate) fn new(params: Params<'t, 'd>, ty: Option<Ty>) -> FunctionSeen<'t, 'd>
        ensures { result ≡ record { params = params.entry; result = ty } }
    {
        FunctionSeen { params, ty }
    }

    /// Its parameters.
    pub fn params(&self) -> &Params<'t, 'd>
        ensures { result.now ≡ self.now.params }
    {
        &self.params
    }

    /// The type of its result.
    pub fn ty(&self) -> Option<Ty>
        ensures { result ≡ self.now.result }
    {
        self.ty
    }
}

/// A record type: its position among the types, and its fields.
#[derive(Drop)]
pub struct RecordSeen<'t, 'd> {
    of: u32,
    fields: Params<'t, 'd>,
}

impl<'t, 'd> Model for RecordSeen<'t, 'd> {
    ghost use Rattle.kat_syntax.specs.Around.{RecordSeen as RecordMeant};

    ghost Value = { RecordMeant };

    ghost view = { λ r. record { of = r.of; fields = r.fields } };
}

impl<'t, 'd> RecordSeen<'t, 'd> {
    /// The record type at this position, with these fields.
    pub(crate) fn new(of: u32, fields: Params<'t, 'd>) -> RecordSeen<'t, 'd>
        ensures { result ≡ record { of = of; fields = fields.entry } }
    {
        RecordSeen { of, fields }
    }

    /// Its position among the types.
    pub fn of(&self) -> u32
        ensures { result ≡ self.now.of }
    {
        self.of
    }

    /// Its fields.
    pub fn fields(&self) -> &Params<'t, 'd>
        ensures { result.now ≡ self.now.fields }
    {
        &self.fields
    }
}
