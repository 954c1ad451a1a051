//! How many pieces a body is cut into, as far as an `if` around it asks.

ghost use Rattle.std.specs.Prelude.{◌≡◌};
ghost use Rattle.elastic_ast.specs.Seen.{seen_stmt, seen_stmts};
ghost use Rattle.elastic_laws.specs.Units.PieceCounts.{together, conditioned, count, count_all};
ghost use Rattle.unit_parts.specs.Shapes.{seen_shape};

use elastic_ast::Stmt;

/// No piece, one piece and no loop, or anything else.
#[derive(Clone, Copy, Debug, PartialEq, Eq)]
pub enum Shape {
    Empty,
    Single,
    Several,
}

impl Shape {
    /// That of two bodies, one after the other.
    fn then(self, other: Shape) -> Shape
        ensures { seen_shape result ≡ together (seen_shape self) (seen_shape other) }
    {
        match (self, other) {
            (Shape::Empty, _) => other,
            (Shape::Single, Shape::Empty) => Shape::Single,
            (Shape::Single, Shape::Single) => Shape::Several,
            (Shape::Single, Shape::Several) => Shape::Several,
            (Shape::Several, _) => Shape::Several,
        }
    }

    /// That of an `if` without `else` over such a body.
    fn guarded(self) -> Shape
        ensures { seen_shape result ≡ conditioned (seen_shape self) }
    {
        match self {
            Shape::Empty => Shape::Single,
            Shape::Single => Shape::Single,
            Shape::Several => Shape::Several,
        }
    }
}

/// That of a statement.
#[cycle(shapes)]
#[tactic(auto, using(elastic_ast::proofs::SeenLaws::seen))]
fn stmt_shape(stmt: &Stmt) -> Shape
    ensures { seen_shape result ≡ count (seen_stmt stmt.now) }
{
    match stmt {
        Stmt::Block { body, .. } => stmts_shape(body.as_slice()),
        Stmt::If { yes, no, .. } => match no {
            None => stmts_shape(yes.as_slice()).guarded(),
            Some(no) => {
                let branches = stmts_shape(yes.as_slice()).then(stmts_shape(no.as_slice()));
                Shape::Single.then(branches)
            }
        },
        Stmt::For { .. } => Shape::Several,
        Stmt::Assign { .. }
        | Stmt::Read { .. }
        | Stmt::Write { .. }
        | Stmt::Valid { .. }
        | Stmt::Call { .. }
        | Stmt::Apply(_) => Shape::Single,
    }
}

/// That of statements.
#[cycle(shapes)]
pub fn stmts_shape(stmts: &[Stmt]) -> Shape
    ensures { seen_shape result ≡ count_all (seen_stmts stmts.now) }
{
    let mut shape = Shape::Empty;
    for stmt in stmts {
        shape = shape.then(stmt_shape(stmt));
        if let Shape::Several = shape {
            return Shape::Several;
        }
    }
    shape
}
