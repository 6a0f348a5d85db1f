//! Statements, and how many trees each has.

ghost use Rattle.std.specs.Prelude.{◌≡◌};
ghost use Rattle.kat_ast.specs.Parts.{capped_count};
ghost use Rattle.kat_ast.specs.Statements.{trees_of_stm, trees_of_stms, trees_of_case_arms, trees_of_match_arms};

use crate::expr::{Expr, count_expr, count_exprs};
use kat_text::Text;
use sqlite_items::{Boxed, Items};

/// A statement, one variant for each form.
#[derive(Drop)]
pub enum Stm {
    /// `(ret E)`: the value of E.
    Ret(Expr),
    /// `(let x S S)`: the second with x naming the value of the first.
    Let {
        name: Text,
        first: Boxed<Stm>,
        then: Boxed<Stm>,
    },
    /// `(seq S S ..)`: at least one, one after another; the value of the last.
    Seq(Items<Stm>),
    /// `(if E S S)`: the first where E is true, else the second.
    If {
        test: Expr,
        then: Boxed<Stm>,
        otherwise: Boxed<Stm>,
    },
    /// `(case E (A S) ..)`: the arm of the member that E is.
    Case {
        value: Expr,
        arms: Items<CaseArm<Stm>>,
    },
    /// `(match E (K x S) ..)`: the arm of the constructor that E is made with.
    Match {
        value: Expr,
        arms: Items<MatchArm<Stm>>,
    },
    /// `(read r)`: the value of a register.
    Read(Text),
    /// `(write r E)`: sets a register, and gives unit.
    Write {
        register: Text,
        value: Expr,
    },
    /// `(load E)`: the value of a cell; fails outside the memory.
    Load(Expr),
    /// `(store E E)`: sets a cell, and gives unit; fails outside the memory.
    Store {
        index: Expr,
        value: Expr,
    },
    /// `(call f E ..)`: spends one call.
    Call {
        function: Text,
        args: Items<Expr>,
    },
    /// `(check E)`: fails where E is false, and gives unit.
    Check(Expr),
    /// `(fail)`
    Fail,
    /// `(open P E ..)`: a proof statement, which does nothing and gives unit. It has the
    /// predicate's inputs alone.
    Open {
        predicate: Text,
        inputs: Items<Expr>,
    },
    /// `(close P E ..)`: a proof statement, which does nothing and gives unit. It has the
    /// predicate's inputs alone.
    Close {
        predicate: Text,
        inputs: Items<Expr>,
    },
    /// `(lemma l E ..)`: a proof statement, which does nothing and gives unit.
    Lemma {
        lemma: Text,
        args: Items<Expr>,
    },
}

/// An arm `(A S)` of a `case`: a member of the enum, and what is done for it.
#[derive(Drop)]
pub struct CaseArm<B> {
    pub member: Text,
    pub body: B,
}

/// An arm `(K x S)` of a `match`: a constructor of the union, the name of its payload, and what is
/// done for it.
#[derive(Drop)]
pub struct MatchArm<B> {
    pub ctor: Text,
    pub payload: Text,
    pub body: B,
}

/// The trees of a statement.
#[cycle(statements)]
pub fn count_stm(stm: &Stm) -> u32
    ensures { result ≡ capped_count (trees_of_stm stm.now) }
{
    match stm {
        Stm::Ret(value) | Stm::Load(value) | Stm::Check(value) => {
            count_expr(value).saturating_add(2)
        }
        Stm::Let { first, then, .. } => count_stm(first.get())
            .saturating_add(count_stm(then.get()))
            .saturating_add(3),
        Stm::Seq(parts) => count_stms(parts.as_slice()).saturating_add(2),
        Stm::If {
            test,
            then,
            otherwise,
        } => count_expr(test)
            .saturating_add(count_stm(then.get()))
            .saturating_add(count_stm(otherwise.get()))
            .saturating_add(2),
        Stm::Case { value, arms } => count_expr(value)
            .saturating_add(count_case_arms(arms.as_slice()))
            .saturating_add(2),
        Stm::Match { value, arms } => count_expr(value)
            .saturating_add(count_match_arms(arms.as_slice()))
            .saturating_add(2),
        Stm::Read(_) => 3,
        Stm::Write { value, .. } => count_expr(value).saturating_add(3),
        Stm::Store { index, value } => count_expr(index)
            .saturating_add(count_expr(value))
            .saturating_add(2),
        Stm::Call { args, .. }
        | Stm::Open { inputs: args, .. }
        | Stm::Close { inputs: args, .. }
        | Stm::Lemma { args, .. } => count_exprs(args.as_slice()).saturating_add(3),
        Stm::Fail => 2,
    }
}

/// The trees of statements side by side.
#[cycle(statements)]
pub fn count_stms(stms: &[Stm]) -> u32
    ensures { result ≡ capped_count (trees_of_stms stms.now) }
{
    let mut total: u32 = 0;
    for stm in stms {
        total = total.saturating_add(count_stm(stm));
    }
    total
}

/// The trees of the arms of a `case`.
#[cycle(statements)]
pub fn count_case_arms(arms: &[CaseArm<Stm>]) -> u32
    ensures { result ≡ capped_count (trees_of_case_arms arms.now) }
{
    let mut total: u32 = 0;
    for arm in arms {
        total = total.saturating_add(count_stm(&arm.body)).saturating_add(2);
    }
    total
}

/// The trees of the arms of a `match`.
#[cycle(statements)]
pub fn count_match_arms(arms: &[MatchArm<Stm>]) -> u32
    ensures { result ≡ capped_count (trees_of_match_arms arms.now) }
{
    let mut total: u32 = 0;
    for arm in arms {
        total = total.saturating_add(count_stm(&arm.body)).saturating_add(3);
    }
    total
}
