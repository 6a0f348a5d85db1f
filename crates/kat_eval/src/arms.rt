//! The arm that is for a member or a constructor: the first of its name.

ghost use Rattle.std.specs.Prelude.{◌≡◌, IfSome, Some, slice_get};
ghost use Rattle.std.specs.Option.{option_copied, option_map};
ghost use Rattle.kat_value.specs.declared.value.Value.{out-Value};
ghost use Rattle.kat_syntax.specs.Meaning.{member_of_layer, made_of_layer};
ghost use Rattle.kat_syntax.specs.NamedValues.{member_name, ctor_name};
ghost use Rattle.kat_eval.specs.Arms.{case_from, match_from, made_seen};

use kat_syntax::{CaseArm, MatchArm, Stm};
use kat_text::Text;
use kat_value::{TypeDecl, Types, Value};

/// The name of the member that a value is.
pub fn member_in<'t>(types: &'t Types, value: &Value) -> Option<&'t Text>
    ensures { option_copied result ≡ member_of_layer types.now (out-Value value.now) }
{
    match value {
        Value::Member { of, index } => member_name(types, *of, *index),
        _ => None,
    }
}

/// What a value is made of: a constructor by its name, and the payload.
#[derive(Clone, Copy, Drop)]
pub struct MadeSeen<'t, 'v> {
    pub ctor: &'t Text,
    pub payload: &'v Value,
}

/// The constructor and the payload that a value is made of.
pub fn made_in<'t, 'v>(types: &'t Types, value: &'v Value) -> Option<MadeSeen<'t, 'v>>
    ensures { option_map made_seen result ≡ made_of_layer types.now (out-Value value.now) }
{
    match value {
        Value::Made { of, ctor, inner } => match ctor_name(types, *of, *ctor) {
            Some(ctor) => Some(MadeSeen {
                ctor,
                payload: inner.get(),
            }),
            None => None,
        },
        _ => None,
    }
}

/// An arm of a `case`, with its position.
#[derive(Clone, Copy, Drop)]
pub struct CaseFound<'a> {
    pub at: usize,
    pub arm: &'a CaseArm<Stm>,
}

/// The first arm of this member.
#[tactic(auto, using(std::proofs::lemmas::Option::slice_get_read))]
pub fn case_arm<'a>(arms: &'a [CaseArm<Stm>], member: &Text) -> Option<CaseFound<'a>>
    ensures found { option_map (λ r. r.at) result ≡ case_from 0 arms.now member.now }
    ensures there { IfSome result (λ r. slice_get arms.now r.at ≡ Some r.arm.now) }
{
    for (at, arm) in arms.iter().enumerate() {
        if arm.member.same(member) {
            return Some(CaseFound { at, arm });
        }
    }
    None
}

/// An arm of a `match`, with its position.
#[derive(Clone, Copy, Drop)]
pub struct MatchFound<'a> {
    pub at: usize,
    pub arm: &'a MatchArm<Stm>,
}

/// The first arm of this constructor.
#[tactic(auto, using(std::proofs::lemmas::Option::slice_get_read))]
pub fn match_arm<'a>(arms: &'a [MatchArm<Stm>], ctor: &Text) -> Option<MatchFound<'a>>
    ensures found { option_map (λ r. r.at) result ≡ match_from 0 arms.now ctor.now }
    ensures there { IfSome result (λ r. slice_get arms.now r.at ≡ Some r.arm.now) }
{
    for (at, arm) in arms.iter().enumerate() {
        if arm.ctor.same(ctor) {
            return Some(MatchFound { at, arm });
        }
    }
    None
}

/// The name of a member of the enum at a position.
fn member_name(types: &Types, of: u32, index: u32) -> Option<&Text>
    ensures { option_copied result ≡ member_name types.now of index }
{
    match types.get(of as usize)? {
        TypeDecl::Enum { members, .. } => members.get(index as usize),
        _ => None,
    }
}

/// The name of a constructor of the union at a position.
fn ctor_name(types: &Types, of: u32, ctor: u32) -> Option<&Text>
    ensures { option_copied result ≡ ctor_name types.now of ctor }
{
    match types.get(of as usize)? {
        TypeDecl::Union { ctors, .. } => match ctors.get(ctor as usize) {
            Some(field) => Some(&field.name),
            None => None,
        },
        _ => None,
    }
}
