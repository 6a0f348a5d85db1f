//! The types, and the table of those that a specification declares.

use kat_text::Text;
use sqlite_items::Items;

/// A type. A declared type is its position, from 0, in the table of types.
#[derive(Clone, Copy, Debug, PartialEq, Eq, Drop)]
pub enum Ty {
    Unit,
    Bool,
    /// Whole numbers below 2 to the power of this width, which is 1 to 64.
    Bits(u32),
    Enum(u32),
    Union(u32),
    Rec(u32),
}

/// A constructor of a union with the type of its payload, or a field of a record with its type.
#[derive(Debug, Drop)]
pub struct Field {
    pub name: Text,
    pub ty: Ty,
}

/// A declared type with the names of its members, constructors or fields, in order of declaration.
#[derive(Debug, Drop)]
pub enum TypeDecl {
    Enum { name: Text, members: Items<Text> },
    Union { name: Text, ctors: Items<Field> },
    Rec { name: Text, fields: Items<Field> },
}

/// The declared types, in order of declaration. A type names earlier types alone.
pub type Types = Items<TypeDecl>;
