//! Types as they are written.

ghost use Rattle.std.specs.Prelude.{◌≡◌, ◌+◌, ◌<◌, ◌^◌};
ghost use Rattle.kat_ast.specs.Types.{trees_of_type};
ghost use Rattle.kat_syntax.specs.TypeRules.{least_with};
ghost use Rattle.kat_syntax.specs.TypesWritten.{type_faults_at};

use crate::faults::Faults;
use kat_syntax::{TypeName, TypeRule};
use kat_tables::Around;
use kat_value::is_width;

/// Notes the faults of a written type that stands at this tree.
pub fn judge_type(around: &Around<'_, '_>, at: u32, ty: &TypeName, faults: &mut Faults)
    requires { at + trees_of_type ty.now < 2 ^ 32 }
    ensures { faults.new ≡ least_with faults.old (type_faults_at around.now at ty.now) }
{
    match ty {
        TypeName::Bits(width) => faults.unless(is_width(*width), at + 2, TypeRule::NoWidth),
        TypeName::Named(name) => {
            faults.unless(
                around.type_called(name).is_some(),
                at,
                TypeRule::TypeUnknown,
            )
        }
        _ => {}
    }
}
