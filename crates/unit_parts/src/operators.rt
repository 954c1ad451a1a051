//! How many operators expressions and statements have. A number that 32 bits don't hold is the greatest that they do.

ghost use Rattle.std.specs.Prelude.{◌≡◌, ◌+◌, map};
ghost use Rattle.elastic_ast.specs.Seen.{seen_expr, seen_exprs, seen_stmt, seen_stmts};
ghost use Rattle.elastic_ast.specs.OperatorSorts.{operators_in};
ghost use Rattle.elastic_ast.specs.Units.Costs.{exprs_ops, plain_ops, body_ops};
ghost use Rattle.unit_parts.specs.Capped.{capped};

use elastic_ast::{Expr, Stmt};

/// The sum of two numbers.
pub fn capped_sum(one: u32, other: u32) -> u32
    ensures { result ≡ capped (one + other) }
{
    match one.checked_add(other) {
        Some(sum) => sum,
        None => u32::MAX,
    }
}

/// How many operators an expression has.
#[tactic(auto, using(elastic_ast::proofs::SeenLaws::seen, crate::proofs::CappedLaws::caps), unfolding(elastic_ast::specs::OperatorSorts::operators_in))]
pub fn operators(expr: &Expr) -> u32
    ensures { result ≡ capped (operators_in (seen_expr expr.now)) }
{
    match expr {
        Expr::Num { .. } | Expr::Bool(_) | Expr::Named(_) | Expr::Field(_) => 0,
        Expr::IsValid(_) => 1,
        Expr::Unary { of, .. }
        | Expr::Cast { of, .. }
        | Expr::Slice { of, .. }
        | Expr::Hash { of, .. } => capped_sum(operators(of), 1),
        Expr::Binary { left, right, .. } => {
            capped_sum(capped_sum(operators(left), operators(right)), 1)
        }
    }
}

/// How many operators expressions have together.
pub fn operators_of_all(exprs: &[Expr]) -> u32
    ensures { result ≡ capped (exprs_ops (seen_exprs exprs.now)) }
{
    let mut sum = 0;
    for expr in exprs {
        sum = capped_sum(sum, operators(expr));
    }
    sum
}

/// How many operators a statement has that stands in the body of an action.
#[tactic(auto, using(elastic_ast::proofs::SeenLaws::seen, crate::proofs::CappedLaws::caps))]
pub fn plain_operators(stmt: &Stmt) -> u32
    ensures { result ≡ capped (plain_ops (seen_stmt stmt.now)) }
{
    match stmt {
        Stmt::Assign { value, .. } => operators(value),
        Stmt::Read { cell, .. } => operators(cell),
        Stmt::Write { cell, value, .. } => capped_sum(operators(cell), operators(value)),
        Stmt::Block { .. }
        | Stmt::If { no: None, .. }
        | Stmt::If { no: Some(_), .. }
        | Stmt::For { .. }
        | Stmt::Valid { .. }
        | Stmt::Call { .. }
        | Stmt::Apply(_) => 0,
    }
}

/// How many operators the body of an action has.
pub fn body_operators(body: &[Stmt]) -> u32
    ensures { result ≡ capped (body_ops (seen_stmts body.now)) }
{
    let mut sum = 0;
    for stmt in body {
        sum = capped_sum(sum, plain_operators(stmt));
    }
    sum
}
