//! The types and values of a machine, and the operations on them as arithmetic on whole numbers. A
//! declared type is known by its position in the table of types; a value is plain data, and none
//! holds a reference. What is said of an operation stands here once: its word, its numbers, how
//! many arguments it takes, their types, and the type that it gives.
#![tactic(auto)]

mod arithmetic;
mod copy;
#[cfg(test)]
mod edges;
mod equality;
mod laws;
mod op;
mod op_types;
mod operations;
mod shown;
mod signature;
#[cfg(test)]
mod tests;
mod types;
mod typing;
mod value;
mod version;
mod width;
mod words;

pub use arithmetic::apply;
pub use copy::{copy_value, copy_values};
pub use equality::same_value;
pub use laws::{
    equality_is_tested, operations_are_exact, types_of_values, values_show_types,
    words_of_operations,
};
pub use op::Op;
pub use op_types::{
    accepts, agree, bits_of, fixed_behind, same_type, takes, type_given, type_of_op, widths_fit,
};
pub use operations::{field_of, operate, operate_on_one, operate_on_three, operate_on_two};
pub use shown::type_of_value;
pub use signature::{Signature, signature_of};
pub use types::{Field, Ty, TypeDecl, Types};
pub use typing::fits;
pub use value::{Value, Values};
pub use version::{NEWEST, is_version};
pub use width::{WIDEST, is_literal, is_number, is_width};
pub use words::{
    OpNumbers, arity_of, is_written, numbers_of_op, op_of_word, with_numbers, word_of_op,
};
