//! The names that a statement can use, with their values.

ghost use Rattle.std.specs.Prelude.{◌≡◌, [], ◌∷◌};
ghost use Rattle.std.specs.Option.{option_copied};
ghost use Rattle.kat_syntax.specs.Cycle.{bound};
ghost use Rattle.kat_syntax.specs.Evaluation.{value_of_name};
ghost use Rattle.kat_syntax.specs.RunTables.{FindsPositions, param_names};
ghost use Rattle.kat_eval.specs.Locals.{locals_of};

use kat_syntax::{FunctionSeen, Named, Param};
use kat_text::Text;
use kat_value::{Value, Values};
use std::marker::Model;

/// The parameters of a function that was called, with their values. A look-up is one in a hash
/// table, however many there are.
#[derive(Drop)]
pub struct Frame<'f> {
    params: &'f [Param],
    positions: &'f Named<u32>,
    values: Values,
}

impl<'f> Model for Frame<'f> {
    ghost use Rattle.std.specs.Prelude.{List};
    ghost use Rattle.kat_value.specs.contracts.value.Value as value;
    ghost use Rattle.std.specs.Coded.{codes};
    ghost use Rattle.kat_syntax.specs.Evaluation.{Locals};
    ghost use Rattle.kat_eval.specs.Frames.{paired, IsFrame};

    ghost Value = { Locals };

    ghost coded = { Prim.hlevel (codes, value.the_row.coded) };

    ghost view = { λ f. paired f.params.now f.values };

    ghost invariant = { λ f. IsFrame f.params.now f.positions.now f.values };
}

impl<'f> Frame<'f> {
    /// The parameters of a function with these values, where there are as many.
    pub fn new(function: FunctionSeen<'f>, values: Values) -> Option<Frame<'f>>
        requires { FindsPositions (param_names function.params.now) function.positions.now }
        ensures { result ≡ bound function.entry.params.now values }
    {
        if values.len() == function.params.len() {
            Some(Frame {
                params: function.params,
                positions: function.positions,
                values,
            })
        } else {
            None
        }
    }

    /// The value of the first parameter of this name.
    pub fn value(&self, name: &Text) -> Option<&Value>
        ensures { option_copied result ≡ value_of_name self.now name.now }
    {
        match self.positions.find(name) {
            Some(at) => self.values.get(at as usize),
            None => None,
        }
    }
}

/// Names with their values, the newest first. A `let` or an arm puts one in front and borrows the
/// others, so that nothing is copied and nothing has to be taken away; they nest as the text does.
#[derive(Clone, Copy, Drop)]
pub enum Locals<'a, 'f> {
    Empty,
    Params(&'a Frame<'f>),
    More {
        name: &'a Text,
        value: &'a Value,
        rest: &'a Locals<'a, 'f>,
    },
}

impl<'a, 'f> Locals<'a, 'f> {
    /// The parameters of a function.
    pub fn of(frame: &'a Frame<'f>) -> Locals<'a, 'f>
        ensures { locals_of result ≡ frame.now }
    {
        Locals::Params(frame)
    }

    /// These locals with one more in front.
    pub fn with(&'a self, name: &'a Text, value: &'a Value) -> Locals<'a, 'f>
        ensures { locals_of result ≡ (name.now, value.now) ∷ locals_of self.now }
    {
        Locals::More {
            name,
            value,
            rest: self,
        }
    }

    /// The value of the newest of this name.
    pub fn value(&self, name: &Text) -> Option<&Value>
        ensures { option_copied result ≡ value_of_name (locals_of self.now) name.now }
    {
        match self {
            Locals::Empty => None,
            Locals::Params(frame) => frame.value(name),
            Locals::More {
                name: newest,
                value,
                rest,
            } => {
                if newest.same(name) {
                    Some(value)
                } else {
                    rest.value(name)
                }
            }
        }
    }
}
