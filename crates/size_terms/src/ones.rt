//! The symbols that count cells or are a modulus, which are at least 1.

ghost use Rattle.std.specs.Prelude.{◌≡◌, ◌≤◌, ◌∷◌, [], false, length, replicate, IfOk};
ghost use Rattle.elastic_ast.specs.Seen.{seen_expr, seen_stmt, seen_stmts, seen_local, seen_next, seen_state, seen_decl, seen_decls};
ghost use Rattle.elastic_ast.specs.Sizes.Counted.{counted_in_amount, counted_in_expr, counted_in_stmt, counted_in_stmts, counted_in_local, counted_in_next, counted_in_state, counted_in_decl, counted_symbols};
ghost use Rattle.elastic_ast.specs.Sizes.SizeSums.{symbols_of};
ghost use Rattle.width_check.specs.Sound.{most_declarations};
ghost use Rattle.size_terms.specs.Ones.{marked, ones_of, set_marks, counted_in_exprs, counted_in_locals, counted_in_states};

use crate::places::Places;
use elastic_ast::{Amount, Decl, Expr, Local, Next, State, Stmt};
use elx_bits::{Items, Name};
use std::alloc::{AllocError, Global};

/// Marks the symbol of a name.
fn mark(places: &Places<'_>, marks: &mut [bool], name: &Name)
    requires { length marks.old ≡ length places.now }
    ensures { marks.new ≡ marked places.now marks.old (name.now ∷ []) }
{
    if let Some(place) = places.place_of(name) {
        marks[place] = true;
    }
}

/// Marks the symbol of a number of cells or a modulus, if it is one.
fn mark_amount(places: &Places<'_>, marks: &mut [bool], amount: &Amount)
    requires { length marks.old ≡ length places.now }
    ensures { marks.new ≡ marked places.now marks.old (counted_in_amount amount.now) }
{
    match amount {
        Amount::Num(_) => {}
        Amount::Named(name) => mark(places, marks, name),
    }
}

/// Marks the moduli of an expression.
#[tactic(auto, using(elastic_ast::proofs::SeenLaws::seen, crate::proofs::OneLaws::marks))]
fn mark_expr(places: &Places<'_>, marks: &mut [bool], expr: &Expr)
    requires { length marks.old ≡ length places.now }
    ensures { marks.new ≡ marked places.now marks.old (counted_in_expr (seen_expr expr.now)) }
{
    match expr {
        Expr::Num { .. } | Expr::Bool(_) | Expr::Named(_) | Expr::Field(_) | Expr::IsValid(_) => {}
        Expr::Unary { of, .. } | Expr::Cast { of, .. } | Expr::Slice { of, .. } => {
            mark_expr(places, marks, of);
        }
        Expr::Binary { left, right, .. } => {
            mark_expr(places, marks, left);
            mark_expr(places, marks, right);
        }
        Expr::Hash { of, modulus, .. } => {
            mark_expr(places, marks, of);
            mark_amount(places, marks, modulus);
        }
    }
}

/// Marks the moduli of expressions.
#[tactic(auto, using(crate::proofs::OneLaws::marks))]
fn mark_exprs(places: &Places<'_>, marks: &mut [bool], exprs: &[Expr])
    requires { length marks.old ≡ length places.now }
    ensures { marks.new ≡ marked places.now marks.old (counted_in_exprs exprs.now) }
{
    for expr in exprs {
        mark_expr(places, marks, expr);
    }
}

/// Marks the moduli of a statement.
#[cycle(walk)]
#[tactic(auto, using(elastic_ast::proofs::SeenLaws::seen, crate::proofs::OneLaws::marks))]
fn mark_stmt(places: &Places<'_>, marks: &mut [bool], stmt: &Stmt)
    requires { length marks.old ≡ length places.now }
    ensures { marks.new ≡ marked places.now marks.old (counted_in_stmt (seen_stmt stmt.now)) }
{
    match stmt {
        Stmt::Block { body, .. } | Stmt::For { body, .. } => {
            mark_stmts(places, marks, body.as_slice());
        }
        Stmt::If { cond, yes, no } => {
            mark_expr(places, marks, cond);
            mark_stmts(places, marks, yes.as_slice());
            if let Some(no) = no {
                mark_stmts(places, marks, no.as_slice());
            }
        }
        Stmt::Assign { value, .. } => mark_expr(places, marks, value),
        Stmt::Read { cell, .. } => mark_expr(places, marks, cell),
        Stmt::Write { cell, value, .. } => {
            mark_expr(places, marks, cell);
            mark_expr(places, marks, value);
        }
        Stmt::Call { args, .. } => mark_exprs(places, marks, args.as_slice()),
        Stmt::Valid { .. } | Stmt::Apply(_) => {}
    }
}

#[cycle(walk)]
#[tactic(auto, using(elastic_ast::proofs::SeenLaws::seen, crate::proofs::OneLaws::marks))]
fn mark_stmts(places: &Places<'_>, marks: &mut [bool], stmts: &[Stmt])
    requires { length marks.old ≡ length places.now }
    ensures { marks.new ≡ marked places.now marks.old (counted_in_stmts (seen_stmts stmts.now)) }
{
    for stmt in stmts {
        mark_stmt(places, marks, stmt);
    }
}

/// Marks the moduli of an action.
fn mark_local(places: &Places<'_>, marks: &mut [bool], local: &Local)
    requires { length marks.old ≡ length places.now }
    ensures { marks.new ≡ marked places.now marks.old (counted_in_local (seen_local local.now)) }
{
    match local {
        Local::Action(action) => mark_stmts(places, marks, action.body.as_slice()),
        Local::Table(_) => {}
    }
}

#[tactic(auto, using(crate::proofs::OneLaws::marks))]
fn mark_locals(places: &Places<'_>, marks: &mut [bool], locals: &[Local])
    requires { length marks.old ≡ length places.now }
    ensures { marks.new ≡ marked places.now marks.old (counted_in_locals locals.now) }
{
    for local in locals {
        mark_local(places, marks, local);
    }
}

/// Marks the moduli of a state.
fn mark_next(places: &Places<'_>, marks: &mut [bool], next: &Next)
    requires { length marks.old ≡ length places.now }
    ensures { marks.new ≡ marked places.now marks.old (counted_in_next (seen_next next.now)) }
{
    match next {
        Next::To(_) => {}
        Next::Select { of, .. } => mark_expr(places, marks, of),
    }
}

#[tactic(auto, using(crate::proofs::OneLaws::marks))]
fn mark_states(places: &Places<'_>, marks: &mut [bool], states: &[State])
    requires { length marks.old ≡ length places.now }
    ensures { marks.new ≡ marked places.now marks.old (counted_in_states states.now) }
{
    for state in states {
        mark_next(places, marks, &state.next);
    }
}

/// Marks what counts something in a declaration.
#[tactic(auto, using(crate::proofs::OneLaws::marks))]
fn mark_decl(places: &Places<'_>, marks: &mut [bool], decl: &Decl)
    requires { length marks.old ≡ length places.now }
    ensures { marks.new ≡ marked places.now marks.old (counted_in_decl (seen_decl decl.now)) }
{
    match decl {
        Decl::Register { cells, .. } => mark_amount(places, marks, cells),
        Decl::Parser { states, .. } => mark_states(places, marks, states.as_slice()),
        Decl::Control { locals, body, .. } => {
            mark_locals(places, marks, locals.as_slice());
            mark_stmts(places, marks, body.as_slice());
        }
        Decl::Include(_)
        | Decl::Symbol(_)
        | Decl::Assume(_)
        | Decl::Maximize(_)
        | Decl::Const { .. }
        | Decl::Header { .. }
        | Decl::Headers(_)
        | Decl::Meta(_)
        | Decl::Deparser { .. }
        | Decl::Main { .. } => {}
    }
}

#[tactic(auto, using(crate::proofs::OneLaws::marks))]
fn mark_decls(places: &Places<'_>, marks: &mut [bool], decls: &[Decl])
    requires { length marks.old ≡ length places.now }
    ensures { marks.new ≡ marked places.now marks.old (counted_symbols (seen_decls decls.now)) }
{
    for decl in decls {
        mark_decl(places, marks, decl);
    }
}

/// The numbers of the marks that are set, from the least on.
fn numbers_of(alloc: Global, marks: &[bool]) -> Result<Items<u32>, AllocError>
    requires { length marks.now ≤ most_declarations }
    ensures { IfOk result (λ numbers. numbers ≡ set_marks marks.now) }
{
    let mut numbers = Items::new(alloc);
    for (place, mark) in marks.iter().enumerate() {
        if *mark {
            numbers.push(place as u32)?;
        }
    }
    Ok(numbers)
}

/// The numbers of the symbols that count something in declarations, where no mark is set.
fn numbers_counted(
    alloc: Global,
    places: &Places<'_>,
    marks: &mut [bool],
    decls: &[Decl],
) -> Result<Items<u32>, AllocError>
    requires unset { marks.old ≡ replicate (length places.now) false }
    requires few { length places.now ≤ most_declarations }
    requires given { places.now ≡ symbols_of (seen_decls decls.now) }
    ensures { IfOk result (λ ones. ones ≡ ones_of (seen_decls decls.now)) }
{
    mark_decls(places, marks, decls);
    numbers_of(alloc, marks)
}

/// The numbers of the symbols that count cells or are a modulus, from the least on.
pub fn ones(
    alloc: Global,
    places: &Places<'_>,
    symbols: usize,
    decls: &[Decl],
) -> Result<Items<u32>, AllocError>
    requires dense { symbols ≡ length places.now }
    requires few { length places.now ≤ most_declarations }
    requires given { places.now ≡ symbols_of (seen_decls decls.now) }
    ensures { IfOk result (λ ones. ones ≡ ones_of (seen_decls decls.now)) }
{
    let mut marks = vec![in alloc; false; symbols]?;
    numbers_counted(alloc, places, &mut marks, decls)
}
