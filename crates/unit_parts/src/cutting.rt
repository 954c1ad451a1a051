//! The walk over the body of a control, which is cut into pieces of work in the order of the text.

ghost use Rattle.std.specs.Prelude.{◌≡◌, ◌+◌, ◌∷◌, [], ◌++◌, IfOk, OnOk, option_map, is_some};
ghost use Rattle.elastic_ast.specs.Typing.Scope.{or_else};
ghost use Rattle.elastic_ast.specs.Seen.{seen_expr, seen_stmt, seen_stmts};
ghost use Rattle.elastic_ast.specs.Units.PlainUnits.{Pred as kept};
ghost use Rattle.elastic_ast.specs.Units.Cuts.{literal as literal_of, tests_in};
ghost use Rattle.elastic_laws.specs.Units.PieceCounts.{count_all, is_single as one_counted};
ghost use Rattle.unit_parts.specs.Cutting.{AddsPiece, EntersLoop};
ghost use Rattle.unit_parts.specs.SeenPieces.{HasCutWork, HasCutStmt, HasCutStmts, seen_loop, seen_task, seen_pieces, pieces_in};
ghost use Rattle.unit_parts.specs.Spread.{lits_for};

use crate::pieces::{InLoop, Piece, Task};
use crate::shape::{Shape, stmts_shape};
use elastic_ast::{Expr, Lit, Stmt};
use elx_bits::Name;
use std::alloc::{AllocError, Global};

/// The pieces so far, and how many conditions and loops there were.
#[derive(Drop)]
pub struct Walk<'a> {
    pub pieces: Vec<Piece<'a>>,
    pub number: u32,
    pub loops: u32,
}

/// Where a statement stands: under which tests, in which loop, and in which stage.
#[derive(Clone, Copy)]
pub struct Place<'a, 'p> {
    pub lits: &'p [Lit],
    pub conds: &'p [&'a Expr],
    pub around: Option<InLoop<'a>>,
    pub stage: Option<u8>,
}

/// A list with one thing more.
fn with_one<T: Copy>(alloc: Global, list: &[T], last: T) -> Result<Vec<T>, AllocError>
    ensures { IfOk result (λ longer. longer.items ≡ list.now ++ last ∷ []) }
{
    let mut longer = Vec::from_slice(alloc, list)?;
    longer.push(last)?;
    Ok(longer)
}

/// The number after a number. More than 32 bits hold count as want of memory.
fn next_number(number: u32) -> Result<u32, AllocError>
    ensures { IfOk result (λ next. next ≡ number + 1) }
{
    number.checked_add(1).ok_or(AllocError)
}

/// The literals of a piece: none, where it keeps a condition.
fn lits_of<'p>(task: Task<'_>, lits: &'p [Lit]) -> &'p [Lit]
    ensures { result.now ≡ lits_for (seen_task task.entry) lits.now }
{
    match task {
        Task::Plain(_) | Task::Call(_) | Task::Apply(_) => lits,
        Task::Pred { .. } => &[],
    }
}

/// Adds a piece.
fn push<'a>(
    alloc: Global,
    pieces: &mut Vec<Piece<'a>>,
    place: Place<'a, '_>,
    task: Task<'a>,
) -> Result<(), AllocError>
    ensures { OnOk result (AddsPiece pieces.old.items pieces.new.items place.entry
        (seen_task task.entry)) }
{
    let lits = Vec::from_slice(alloc, lits_of(task, place.lits))?;
    let conds = Vec::from_slice(alloc, place.conds)?;
    pieces.push(Piece {
        lits,
        conds,
        task,
        stage: place.stage,
        around: place.around,
    })?;
    Ok(())
}

/// Adds a piece that keeps no condition.
fn cut_one<'a>(
    alloc: Global,
    walk: &mut Walk<'a>,
    place: Place<'a, '_>,
    task: Task<'a>,
) -> Result<(), AllocError>
    requires { tests_in (seen_task task) ≡ 0 }
    ensures { OnOk result (HasCutWork walk.old walk.new place.entry (seen_task task.entry)) }
{
    push(alloc, &mut walk.pieces, place, task)
}

/// Adds the piece that keeps a condition. The answer is the number of its predicate.
fn keep<'a>(
    alloc: Global,
    walk: &mut Walk<'a>,
    place: Place<'a, '_>,
    cond: &'a Expr,
) -> Result<u32, AllocError>
    ensures number { IfOk result (λ number. number ≡ walk.old.number) }
    ensures cut { OnOk result (HasCutWork walk.old walk.new place.entry
        (kept walk.old.number (seen_expr cond.now))) }
{
    let number = walk.number;
    let next = next_number(number)?;
    push(alloc, &mut walk.pieces, place, Task::Pred { number, cond })?;
    walk.number = next;
    Ok(number)
}

/// The loop around the body of a loop. A loop in a loop is no loop of its own.
fn enter_loop<'a>(
    walk: &mut Walk<'a>,
    around: Option<InLoop<'a>>,
    index: &'a Name,
    size: &'a Name,
) -> Result<InLoop<'a>, AllocError>
    ensures { IfOk result (λ entered. EntersLoop walk.old walk.new
        (option_map seen_loop around.entry) index.now size.now (seen_loop entered)) }
{
    match around {
        Some(around) => Ok(around),
        None => {
            let number = walk.loops;
            walk.loops = next_number(number)?;
            Ok(InLoop {
                number,
                index,
                size,
            })
        }
    }
}

/// A place in a stage of its own, where it has one.
fn at_stage<'a, 'p>(place: Place<'a, 'p>, own: Option<u8>) -> Place<'a, 'p>
    ensures { result ≡ record place.entry { stage = or_else own place.entry.stage } }
{
    Place {
        stage: own.or(place.stage),
        ..place
    }
}

/// Whether a body is cut into one piece, and has no loop.
fn is_single(body: &[Stmt]) -> bool
    ensures { result ≡ one_counted (count_all (seen_stmts body.now)) }
{
    match stmts_shape(body) {
        Shape::Single => true,
        Shape::Empty | Shape::Several => false,
    }
}

/// The literal of a branch.
fn literal(number: u32, place: Place<'_, '_>, on: bool) -> Lit
    ensures { result ≡ literal_of number (is_some place.entry.around) on }
{
    Lit {
        number,
        own: place.around.is_some(),
        on,
    }
}

/// Cuts a statement.
#[cycle(cutting)]
#[tactic(auto, using(elastic_ast::proofs::SeenLaws::seen))]
fn cut_stmt<'a>(
    alloc: Global,
    walk: &mut Walk<'a>,
    place: Place<'a, '_>,
    stmt: &'a Stmt,
) -> Result<(), AllocError>
    ensures { OnOk result (HasCutStmt walk.old walk.new place.entry (seen_stmt stmt.now)) }
{
    match stmt {
        Stmt::Block { stage, body } => {
            cut_stmts(alloc, walk, at_stage(place, *stage), body.as_slice())
        }
        Stmt::If { cond, yes, no } => match no {
            None => {
                if is_single(yes.as_slice()) {
                    let conds = with_one(alloc, place.conds, cond)?;
                    let inner = Place {
                        conds: conds.as_slice(),
                        ..place
                    };
                    return cut_stmts(alloc, walk, inner, yes.as_slice());
                }
                let number = keep(alloc, walk, place, cond)?;
                let on = with_one(alloc, place.lits, literal(number, place, true))?;
                let inner = Place {
                    lits: on.as_slice(),
                    ..place
                };
                cut_stmts(alloc, walk, inner, yes.as_slice())
            }
            Some(no) => {
                let number = keep(alloc, walk, place, cond)?;
                let on = with_one(alloc, place.lits, literal(number, place, true))?;
                let first = Place {
                    lits: on.as_slice(),
                    ..place
                };
                cut_stmts(alloc, walk, first, yes.as_slice())?;
                let off = with_one(alloc, place.lits, literal(number, place, false))?;
                let other = Place {
                    lits: off.as_slice(),
                    ..place
                };
                cut_stmts(alloc, walk, other, no.as_slice())
            }
        },
        Stmt::For { index, size, body } => {
            let around = enter_loop(walk, place.around, index, size)?;
            let inner = Place {
                around: Some(around),
                ..place
            };
            cut_stmts(alloc, walk, inner, body.as_slice())
        }
        Stmt::Assign { .. } | Stmt::Read { .. } | Stmt::Write { .. } | Stmt::Valid { .. } => {
            cut_one(alloc, walk, place, Task::Plain(stmt))
        }
        Stmt::Call { .. } => cut_one(alloc, walk, place, Task::Call(stmt)),
        Stmt::Apply(table) => cut_one(alloc, walk, place, Task::Apply(table)),
    }
}

/// Cuts statements.
#[cycle(cutting)]
fn cut_stmts<'a>(
    alloc: Global,
    walk: &mut Walk<'a>,
    place: Place<'a, '_>,
    stmts: &'a [Stmt],
) -> Result<(), AllocError>
    ensures { OnOk result (HasCutStmts walk.old walk.new place.entry (seen_stmts stmts.now)) }
{
    for stmt in stmts {
        cut_stmt(alloc, walk, place, stmt)?;
    }
    Ok(())
}

/// The pieces that the body of a control is cut into, in the order of the text, each with the loop around it.
pub fn cut_body<'a>(alloc: Global, body: &'a [Stmt]) -> Result<Vec<Piece<'a>>, AllocError>
    ensures { IfOk result (λ pieces. seen_pieces pieces.items ≡ pieces_in (seen_stmts body.now)) }
{
    let mut walk = Walk {
        pieces: Vec::new(alloc),
        number: 0,
        loops: 0,
    };
    let place = Place {
        lits: &[],
        conds: &[],
        around: None,
        stage: None,
    };
    cut_stmts(alloc, &mut walk, place, body)?;
    let Walk { pieces, .. } = walk;
    Ok(pieces)
}
