//! Types as they are written, names with their types, and how many trees each has.

ghost use Rattle.std.specs.Prelude.{◌≡◌};
ghost use Rattle.kat_ast.specs.Parts.{capped_count};
ghost use Rattle.kat_ast.specs.Types.{trees_of_type, trees_of_params};

use kat_text::Text;

/// A type as it is written.
#[derive(Drop)]
pub enum TypeName {
    Unit,
    Bool,
    /// `(bits n)`
    Bits(u64),
    /// A declared type.
    Named(Text),
}

/// A name with its type, `(x T)`: a parameter, a constructor with its payload, a field.
#[derive(Drop)]
pub struct Param {
    pub name: Text,
    pub ty: TypeName,
}

/// The trees of a type.
pub fn count_type(ty: &TypeName) -> u32
    ensures { result ≡ trees_of_type ty.now }
{
    match ty {
        TypeName::Bits(_) => 3,
        _ => 1,
    }
}

/// The trees of a list of parameters, the list itself among them.
pub fn count_params(params: &[Param]) -> u32
    ensures { result ≡ capped_count (trees_of_params params.now) }
{
    let mut total: u32 = 1;
    for param in params {
        total = total.saturating_add(count_type(&param.ty) + 2);
    }
    total
}
