//! Expressions, and how many trees each has: itself and all that stands in it, lists and atoms
//! alike. The place of a form in its declaration is told by the counts of what stands before it, so
//! no form stores its place. Counts stand still at the greatest u32, which no declaration comes
//! near.

ghost use Rattle.std.specs.Prelude.{◌≡◌, length};
ghost use Rattle.kat_value.specs.Words.{numbers_of_op};
ghost use Rattle.kat_ast.specs.Parts.{capped_count};
ghost use Rattle.kat_ast.specs.Expressions.{trees_of_expr, trees_of_exprs};

use kat_text::Text;
use kat_value::{Op, OpNumbers, numbers_of_op};
use sqlite_items::{Boxed, Items};

/// An expression, one variant for each form.
#[derive(Drop)]
pub enum Expr {
    /// `x`: the value of a parameter or a local.
    Name(Text),
    /// `unit`
    Unit,
    /// `true` or `false`
    Truth(bool),
    /// `(bits w n)`: the number n of width w.
    Bits {
        width: u64,
        number: u64,
    },
    /// `(of E A)`: the member A of the enum E.
    Of {
        of: Text,
        member: Text,
    },
    /// `(make K E)`: the constructor K of a union, with its payload.
    Make {
        ctor: Text,
        payload: Boxed<Expr>,
    },
    /// `(rec R E ..)`: a value of the record R, with all its fields in order.
    Rec {
        of: Text,
        fields: Items<Expr>,
    },
    /// `(reg r)`: the value of a register, in `dispatch`.
    Register(Text),
    /// `(kept r)`: the kept value of a protected register, in `untrusted` and `entry`.
    Kept(Text),
    /// `(kept_cell n)`: the kept value of a protected cell, in `untrusted` and `entry`.
    KeptCell(u64),
    /// `(before r)`: the value of a protected register before a block, in `change`.
    Before(Text),
    /// `(after r)`: the value of a protected register behind a block, in `change`.
    After(Text),
    /// `(before_cell n)`: the value of a protected cell before a block, in `change`.
    BeforeCell(u64),
    /// `(after_cell n)`: the value of a protected cell behind a block, in `change`.
    AfterCell(u64),
    /// An operation with its arguments in order. It is any operation but `get`.
    Apply {
        op: Op,
        args: Items<Expr>,
    },
    /// `(get R f E)`: the field f of a value of the record R.
    Get {
        of: Text,
        field: Text,
        value: Boxed<Expr>,
    },
}

/// The trees of an expression.
#[cycle(expressions)]
pub fn count_expr(expr: &Expr) -> u32
    ensures { result ≡ capped_count (trees_of_expr expr.now) }
{
    match expr {
        Expr::Name(_) | Expr::Unit | Expr::Truth(_) => 1,
        Expr::Bits { .. } | Expr::Of { .. } => 4,
        Expr::Make { payload, .. } => count_expr(payload.get()).saturating_add(3),
        Expr::Rec { fields, .. } => count_exprs(fields.as_slice()).saturating_add(3),
        Expr::Apply { op, args } => {
            count_exprs(args.as_slice()).saturating_add(2 + count_numbers(*op))
        }
        Expr::Get { value, .. } => count_expr(value.get()).saturating_add(4),
        _ => 3,
    }
}

/// The trees of expressions side by side.
#[cycle(expressions)]
pub fn count_exprs(exprs: &[Expr]) -> u32
    ensures { result ≡ capped_count (trees_of_exprs exprs.now) }
{
    let mut total: u32 = 0;
    for expr in exprs {
        total = total.saturating_add(count_expr(expr));
    }
    total
}

/// The numbers that an operation is written with, beside its arguments.
fn count_numbers(op: Op) -> u32
    ensures { result ≡ length (numbers_of_op op) }
{
    match numbers_of_op(op) {
        OpNumbers::Zero => 0,
        OpNumbers::One(_) => 1,
        OpNumbers::Two(_, _) => 2,
    }
}
