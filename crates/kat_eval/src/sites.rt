//! Where the end of a part stands in its statement. What stands before the part is counted only
//! where the part failed.

ghost use Rattle.std.specs.Prelude.{◌≡◌, ◌+◌, ◌<◌, ◌^◌, ℕ};
ghost use Rattle.kat_ast.specs.Expressions.{trees_of_expr};
ghost use Rattle.kat_ast.specs.Statements.{trees_of_stm, trees_of_stms, trees_of_case_arms, trees_of_match_arms};
ghost use Rattle.kat_eval.specs.Running.{IsBelow, IsInside};

use crate::running::{Site, StmEnd};
use kat_syntax::{
    CaseArm, Expr, MatchArm, Stm, count_case_arms, count_expr, count_match_arms, count_stm,
    count_stms,
};

/// The end of the second part of a `let`.
pub fn behind_first(end: StmEnd, first: &Stm) -> StmEnd
    requires { IsBelow (2 ^ 32) (3 + trees_of_stm first.now) end }
    ensures { IsInside (3 + trees_of_stm first.now) end result }
{
    match end {
        StmEnd::Fail(Site::Here(tree)) => StmEnd::Fail(Site::Here(3 + count_stm(first) + tree)),
        end => end,
    }
}

/// The end of the first branch of an `if`.
pub fn behind_test(end: StmEnd, test: &Expr) -> StmEnd
    requires { IsBelow (2 ^ 32) (2 + trees_of_expr test.now) end }
    ensures { IsInside (2 + trees_of_expr test.now) end result }
{
    match end {
        StmEnd::Fail(Site::Here(tree)) => StmEnd::Fail(Site::Here(2 + count_expr(test) + tree)),
        end => end,
    }
}

/// The end of the second branch of an `if`.
pub fn behind_branch(end: StmEnd, test: &Expr, first: &Stm) -> StmEnd
    requires { IsBelow (2 ^ 32) (2 + trees_of_expr test.now + trees_of_stm first.now) end }
    ensures { IsInside (2 + trees_of_expr test.now + trees_of_stm first.now) end result }
{
    match end {
        StmEnd::Fail(Site::Here(tree)) => {
            StmEnd::Fail(Site::Here(2 + count_expr(test) + count_stm(first) + tree))
        }
        end => end,
    }
}

/// The end of a part of a `seq` behind these.
pub fn in_sequence(end: StmEnd, before: &[Stm]) -> StmEnd
    requires { IsBelow (2 ^ 32) (2 + trees_of_stms before.now) end }
    ensures { IsInside (2 + trees_of_stms before.now) end result }
{
    match end {
        StmEnd::Fail(Site::Here(tree)) => StmEnd::Fail(Site::Here(2 + count_stms(before) + tree)),
        end => end,
    }
}

/// The end of the body of an arm of a `case` behind these.
pub fn in_case_arm(end: StmEnd, value: &Expr, before: &[CaseArm<Stm>]) -> StmEnd
    requires { IsBelow (2 ^ 32) (4 + trees_of_expr value.now + trees_of_case_arms before.now) end }
    ensures { IsInside (4 + trees_of_expr value.now + trees_of_case_arms before.now) end result }
{
    match end {
        StmEnd::Fail(Site::Here(tree)) => {
            let at = 4 + count_expr(value) + count_case_arms(before);
            StmEnd::Fail(Site::Here(at + tree))
        }
        end => end,
    }
}

/// The end of the body of an arm of a `match` behind these.
pub fn in_match_arm(end: StmEnd, value: &Expr, before: &[MatchArm<Stm>]) -> StmEnd
    requires { IsBelow (2 ^ 32) (5 + trees_of_expr value.now + trees_of_match_arms before.now) end }
    ensures { IsInside (5 + trees_of_expr value.now + trees_of_match_arms before.now) end result }
{
    match end {
        StmEnd::Fail(Site::Here(tree)) => {
            let at = 5 + count_expr(value) + count_match_arms(before);
            StmEnd::Fail(Site::Here(at + tree))
        }
        end => end,
    }
}
