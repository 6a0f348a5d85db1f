//! Expressions.

ghost use Rattle.std.specs.Prelude.{◌≡◌, true, None, [], ◌∷◌, IfOk, codes};
ghost use Rattle.std.specs.List.{AllByRecursion};
ghost use Rattle.kat_tree.specs.declared.tree.Tree.TheVariants as variant;
ghost use Rattle.kat_value.specs.Words.{word_of_op};
ghost use Rattle.kat_ast.specs.Parts.{word, form};
ghost use Rattle.kat_ast.specs.Expressions.{is_formed_expr, tree_of_expr};
ghost use Rattle.kat_shapes.specs.Forms.{row_of};
ghost use Rattle.kat_grammar.specs.Parts.{FitsSort, HasParts, HasOneThen, IsPlain, told_expressions};
ghost use Rattle.kat_grammar.specs.Forms.{IsExpr, AreExprs, AreTwoExprs, IsNameAndExpr, IsNameAndExprs};

use crate::atoms::{name_in, number_in, only_name, only_number, split};
use kat_ast::{Expr, Op};
use kat_grammar::form_laws;
use kat_shapes::Sort;
use kat_text::Text;
use kat_tree::{Token, Tree};
use kat_value::op_of_word;
use sqlite_items::{Boxed, Items};
use std::alloc::{AllocError, Global};

/// The expression that a tree is.
#[cycle(expressions)]
pub fn expr_in(alloc: Global, tree: &Tree) -> Result<Expr, AllocError>
    requires { FitsSort Sort.Expression tree.now }
    ensures { IfOk result (λ e. IsExpr tree.now e) }
{
    form_laws();
    match tree {
        Tree::Atom(Token::Name(name)) => named_expr(name),
        Tree::List(parts) => list_in(alloc, parts.as_slice()),
        _ => unreachable!(),
    }
}

/// The expressions that trees are.
#[cycle(expressions)]
fn exprs_in(alloc: Global, trees: &[Tree]) -> Result<Items<Expr>, AllocError>
    requires { AllByRecursion (FitsSort Sort.Expression) trees.now }
    ensures { IfOk result (λ es. AreExprs trees.now es) }
{
    form_laws();
    let mut exprs = Items::new(alloc);
    for tree in trees {
        exprs.push(expr_in(alloc, tree)?)?;
    }
    Ok(exprs)
}

/// The expression that a name is.
fn named_expr(name: &Text) -> Result<Expr, AllocError>
    ensures { IfOk result (λ e. IsExpr (word name.now) e) }
{
    match name.as_str() {
        "unit" => Ok(Expr::Unit),
        "true" => Ok(Expr::Truth(true)),
        "false" => Ok(Expr::Truth(false)),
        _ => Ok(Expr::Name(name.copy()?)),
    }
}

/// The expression that a list of these parts is.
#[cycle(expressions)]
fn list_in(alloc: Global, parts: &[Tree]) -> Result<Expr, AllocError>
    requires { FitsSort Sort.Expression (variant.List parts.now) }
    ensures { IfOk result (λ e. IsExpr (variant.List parts.now) e) }
{
    form_laws();
    let (word, parts) = split(parts);
    match word {
        "bits" => Ok(bits_in(parts)),
        "of" => of_in(parts),
        "make" => make_in(alloc, parts),
        "rec" => rec_in(alloc, parts),
        "reg" => register_in(parts),
        "kept" => kept_in(parts),
        "kept_cell" => Ok(kept_cell_in(parts)),
        "before" => before_in(parts),
        "after" => after_in(parts),
        "before_cell" => Ok(before_cell_in(parts)),
        "after_cell" => Ok(after_cell_in(parts)),
        "get" => get_in(alloc, parts),
        "slice" => slice_in(alloc, parts),
        "zext" => zext_in(alloc, parts),
        "sext" => sext_in(alloc, parts),
        _ => operation_in(alloc, plain_op(word, parts), parts),
    }
}

/// `(bits w n)`
fn bits_in(parts: &[Tree]) -> Expr
    requires { HasParts (Sort.Number ∷ Sort.Number ∷ []) parts.now }
    ensures { IsExpr (form (codes "bits") parts.now) result }
{
    let [width, number] = parts else {
        unreachable!();
    };
    Expr::Bits {
        width: number_in(width),
        number: number_in(number),
    }
}

/// `(of E A)`
fn of_in(parts: &[Tree]) -> Result<Expr, AllocError>
    requires { HasParts (Sort.Name ∷ Sort.Name ∷ []) parts.now }
    ensures { IfOk result (λ e. IsExpr (form (codes "of") parts.now) e) }
{
    let [of, member] = parts else {
        unreachable!();
    };
    Ok(Expr::Of {
        of: name_in(of)?,
        member: name_in(member)?,
    })
}

/// `(make K E)`
#[cycle(expressions)]
fn make_in(alloc: Global, parts: &[Tree]) -> Result<Expr, AllocError>
    requires { HasParts (Sort.Name ∷ Sort.Expression ∷ []) parts.now }
    ensures { IfOk result (λ e. IsExpr (form (codes "make") parts.now) e) }
{
    let [ctor, payload] = parts else {
        unreachable!();
    };
    let ctor = name_in(ctor)?;
    let payload = Boxed::new(alloc, expr_in(alloc, payload)?)?;
    Ok(Expr::Make { ctor, payload })
}

/// `(rec R E ..)`
#[cycle(expressions)]
fn rec_in(alloc: Global, parts: &[Tree]) -> Result<Expr, AllocError>
    requires { HasOneThen Sort.Name Sort.Expression parts.now }
    ensures { IfOk result (λ e. IsExpr (form (codes "rec") parts.now) e) }
{
    form_laws();
    let [of, fields @ ..] = parts else {
        unreachable!();
    };
    let of = name_in(of)?;
    let fields = exprs_in(alloc, fields)?;
    Ok(Expr::Rec { of, fields })
}

/// `(reg r)`
fn register_in(parts: &[Tree]) -> Result<Expr, AllocError>
    requires { HasParts (Sort.Name ∷ []) parts.now }
    ensures { IfOk result (λ e. IsExpr (form (codes "reg") parts.now) e) }
{
    Ok(Expr::Register(only_name(parts)?))
}

/// `(kept r)`
fn kept_in(parts: &[Tree]) -> Result<Expr, AllocError>
    requires { HasParts (Sort.Name ∷ []) parts.now }
    ensures { IfOk result (λ e. IsExpr (form (codes "kept") parts.now) e) }
{
    Ok(Expr::Kept(only_name(parts)?))
}

/// `(before r)`
fn before_in(parts: &[Tree]) -> Result<Expr, AllocError>
    requires { HasParts (Sort.Name ∷ []) parts.now }
    ensures { IfOk result (λ e. IsExpr (form (codes "before") parts.now) e) }
{
    Ok(Expr::Before(only_name(parts)?))
}

/// `(after r)`
fn after_in(parts: &[Tree]) -> Result<Expr, AllocError>
    requires { HasParts (Sort.Name ∷ []) parts.now }
    ensures { IfOk result (λ e. IsExpr (form (codes "after") parts.now) e) }
{
    Ok(Expr::After(only_name(parts)?))
}

/// `(kept_cell n)`
fn kept_cell_in(parts: &[Tree]) -> Expr
    requires { HasParts (Sort.Number ∷ []) parts.now }
    ensures { IsExpr (form (codes "kept_cell") parts.now) result }
{
    Expr::KeptCell(only_number(parts))
}

/// `(before_cell n)`
fn before_cell_in(parts: &[Tree]) -> Expr
    requires { HasParts (Sort.Number ∷ []) parts.now }
    ensures { IsExpr (form (codes "before_cell") parts.now) result }
{
    Expr::BeforeCell(only_number(parts))
}

/// `(after_cell n)`
fn after_cell_in(parts: &[Tree]) -> Expr
    requires { HasParts (Sort.Number ∷ []) parts.now }
    ensures { IsExpr (form (codes "after_cell") parts.now) result }
{
    Expr::AfterCell(only_number(parts))
}

/// `(get R f E)`
#[cycle(expressions)]
fn get_in(alloc: Global, parts: &[Tree]) -> Result<Expr, AllocError>
    requires { HasParts (Sort.Name ∷ Sort.Name ∷ Sort.Expression ∷ []) parts.now }
    ensures { IfOk result (λ e. IsExpr (form (codes "get") parts.now) e) }
{
    let [of, field, value] = parts else {
        unreachable!();
    };
    let of = name_in(of)?;
    let field = name_in(field)?;
    let value = Boxed::new(alloc, expr_in(alloc, value)?)?;
    Ok(Expr::Get { of, field, value })
}

/// `(slice hi lo E)`
#[cycle(expressions)]
fn slice_in(alloc: Global, parts: &[Tree]) -> Result<Expr, AllocError>
    requires { HasParts (Sort.Number ∷ Sort.Number ∷ Sort.Expression ∷ []) parts.now }
    ensures { IfOk result (λ e. IsExpr (form (codes "slice") parts.now) e) }
{
    let [hi, lo, args @ ..] = parts else {
        unreachable!();
    };
    let op = Op::Slice {
        hi: number_in(hi),
        lo: number_in(lo),
    };
    let args = exprs_in(alloc, args)?;
    Ok(Expr::Apply { op, args })
}

/// `(zext w E)`
#[cycle(expressions)]
fn zext_in(alloc: Global, parts: &[Tree]) -> Result<Expr, AllocError>
    requires { HasParts (Sort.Number ∷ Sort.Expression ∷ []) parts.now }
    ensures { IfOk result (λ e. IsExpr (form (codes "zext") parts.now) e) }
{
    let [width, args @ ..] = parts else {
        unreachable!();
    };
    let op = Op::Zext {
        width: number_in(width),
    };
    let args = exprs_in(alloc, args)?;
    Ok(Expr::Apply { op, args })
}

/// `(sext w E)`
#[cycle(expressions)]
fn sext_in(alloc: Global, parts: &[Tree]) -> Result<Expr, AllocError>
    requires { HasParts (Sort.Number ∷ Sort.Expression ∷ []) parts.now }
    ensures { IfOk result (λ e. IsExpr (form (codes "sext") parts.now) e) }
{
    let [width, args @ ..] = parts else {
        unreachable!();
    };
    let op = Op::Sext {
        width: number_in(width),
    };
    let args = exprs_in(alloc, args)?;
    Ok(Expr::Apply { op, args })
}

/// The operation that a word begins, written with its arguments alone.
fn plain_op(word: &str, parts: &[Tree]) -> Op
    requires fits { FitsSort Sort.Expression (form word.now parts.now) }
    requires untold { row_of told_expressions word.now ≡ None }
    ensures named { word_of_op result ≡ word.now }
    ensures plain { IsPlain parts.now result }
{
    form_laws();
    let Some(op) = op_of_word(word) else {
        unreachable!();
    };
    op
}

/// `(o E ..)`, an operation with its arguments alone.
#[cycle(expressions)]
fn operation_in(alloc: Global, op: Op, parts: &[Tree]) -> Result<Expr, AllocError>
    requires { IsPlain parts.now op }
    ensures { IfOk result (λ e. IsExpr (form (word_of_op op) parts.now) e) }
{
    form_laws();
    let args = exprs_in(alloc, parts)?;
    Ok(Expr::Apply { op, args })
}

/// One expression alone.
pub fn only_expr(alloc: Global, parts: &[Tree]) -> Result<Expr, AllocError>
    requires { HasParts (Sort.Expression ∷ []) parts.now }
    ensures { IfOk result (λ e. (tree_of_expr e ∷ [] ≡ parts.now) × (is_formed_expr e ≡ true)) }
{
    let [value] = parts else {
        unreachable!();
    };
    expr_in(alloc, value)
}

/// Two expressions.
pub fn two_exprs(alloc: Global, parts: &[Tree]) -> Result<(Expr, Expr), AllocError>
    requires { HasParts (Sort.Expression ∷ Sort.Expression ∷ []) parts.now }
    ensures { IfOk result (λ r. AreTwoExprs parts.now r.0 r.1) }
{
    let [first, second] = parts else {
        unreachable!();
    };
    Ok((expr_in(alloc, first)?, expr_in(alloc, second)?))
}

/// A name, and an expression.
pub fn name_and_expr(alloc: Global, parts: &[Tree]) -> Result<(Text, Expr), AllocError>
    requires { HasParts (Sort.Name ∷ Sort.Expression ∷ []) parts.now }
    ensures { IfOk result (λ r. IsNameAndExpr parts.now r.0 r.1) }
{
    let [name, value] = parts else {
        unreachable!();
    };
    Ok((name_in(name)?, expr_in(alloc, value)?))
}

/// A name, and any number of expressions.
pub fn name_and_exprs(alloc: Global, parts: &[Tree]) -> Result<(Text, Items<Expr>), AllocError>
    requires { HasOneThen Sort.Name Sort.Expression parts.now }
    ensures { IfOk result (λ r. IsNameAndExprs parts.now r.0 r.1) }
{
    form_laws();
    let [name, args @ ..] = parts else {
        unreachable!();
    };
    Ok((name_in(name)?, exprs_in(alloc, args)?))
}
