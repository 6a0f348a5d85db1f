//! What a declaration's form tells of what it declares.

ghost use Rattle.std.specs.Prelude.{◌≡◌};
ghost use Rattle.std.specs.Option.{option_copied, option_map};
ghost use Rattle.kat_tables.specs.Forms.{members_of, ctors_of, fields_of, region_params, predicate_params, function_types, lemma_params};

use kat_syntax::{DeclForm, Param, TypeName};
use kat_text::Text;

/// The members of an enum.
pub fn members_of(form: &DeclForm) -> &[Text]
    ensures { result.now ≡ members_of form.now }
{
    match form {
        DeclForm::Enum { members, .. } => members.as_slice(),
        _ => &[],
    }
}

/// The constructors of a union.
pub fn ctors_of(form: &DeclForm) -> &[Param]
    ensures { result.now ≡ ctors_of form.now }
{
    match form {
        DeclForm::Union { ctors, .. } => ctors.as_slice(),
        _ => &[],
    }
}

/// The fields of a record type.
pub fn fields_of(form: &DeclForm) -> &[Param]
    ensures { result.now ≡ fields_of form.now }
{
    match form {
        DeclForm::Record { fields, .. } => fields.as_slice(),
        _ => &[],
    }
}

/// The parameters of a region.
pub fn region_params(form: &DeclForm) -> Option<&[Param]>
    ensures { option_copied result ≡ region_params form.now }
{
    match form {
        DeclForm::Region { params, .. } => Some(params.as_slice()),
        _ => None,
    }
}

/// The inputs and outputs of a predicate.
pub fn predicate_params(form: &DeclForm) -> Option<(&[Param], &[Param])>
    ensures { option_map (λ parts. (parts.0.now, parts.1.now)) result
        ≡ predicate_params form.now }
{
    match form {
        DeclForm::Predicate {
            inputs,
            outputs,
            ..
        } => Some((inputs.as_slice(), outputs.as_slice())),
        _ => None,
    }
}

/// The parameters of a function, and the type of its result.
pub fn function_types(form: &DeclForm) -> Option<(&[Param], &TypeName)>
    ensures { option_map (λ parts. (parts.0.now, parts.1.now)) result ≡ function_types form.now }
{
    match form {
        DeclForm::Fun { params, result, .. } => Some((params.as_slice(), result)),
        _ => None,
    }
}

/// The parameters of a lemma.
pub fn lemma_params(form: &DeclForm) -> Option<&[Param]>
    ensures { option_copied result ≡ lemma_params form.now }
{
    match form {
        DeclForm::Lemma { params, .. } => Some(params.as_slice()),
        _ => None,
    }
}
