//! What a search answers.

use int_program::{Point, Tree};

/// What a search answers, each answer with the tree that shows it.
#[derive(Debug, Drop)]
pub enum Found {
    /// No point is better than this one.
    Best { point: Point, tree: Tree },
    /// There is no point.
    NoPoint { tree: Tree },
    /// The splits were used up. No point outside the open boxes is better than the best one that was found.
    Unfinished { best: Option<Point>, tree: Tree },
}
