//! What a search of an integer program answers, in one line.

ghost use Rattle.int_program.specs.Limits.{IsInLimits};

use branch_bound::{Found, search};
use elx_io::Lines;
use int_program::{Ip, Node, Point, Tree};
use std::alloc::{AllocError, Global};

/// As many splits as the compiler allows a search.
const SPLITS: u64 = 100_000;

/// The value of a point.
fn value_of(ip: &Ip, point: &Point) -> i128 {
    let values = point.values.as_slice();
    let mut sum = ip.base;
    for part in ip.goal.as_slice() {
        let value = values.get(part.var as usize).copied().unwrap_or(0);
        sum = sum.wrapping_add(part.by.wrapping_mul(value));
    }
    sum
}

/// Adds the value of the best point, or that there is none.
fn put_best(lines: &mut Lines, ip: &Ip, best: &Option<Point>) -> Result<(), AllocError> {
    match best {
        Some(point) => lines.number(value_of(ip, point)),
        None => lines.word(b"none"),
    }
}

/// Adds how many splits and nodes a tree has.
fn put_tree(lines: &mut Lines, tree: &Tree) -> Result<(), AllocError> {
    let nodes = tree.nodes.as_slice();
    let splits = nodes
        .iter()
        .filter(|node| matches!(node, Node::Split { .. }))
        .count();
    lines.word(b"splits")?;
    lines.number(splits as i128)?;
    lines.word(b"nodes")?;
    lines.number(nodes.len() as i128)?;
    lines.end()
}

/// Adds the line of a search: how it ended, the value of its best point, and the size of its tree.
pub fn put_found(alloc: Global, lines: &mut Lines, ip: &Ip) -> Result<(), AllocError>
    requires { IsInLimits ip.now }
{
    match search(alloc, ip, SPLITS)? {
        Found::Best { point, tree } => {
            lines.word(b"best")?;
            lines.number(value_of(ip, &point))?;
            put_tree(lines, &tree)
        }
        Found::NoPoint { tree } => {
            lines.word(b"none")?;
            put_tree(lines, &tree)
        }
        Found::Unfinished { best, tree } => {
            lines.word(b"unfinished")?;
            put_best(lines, ip, &best)?;
            put_tree(lines, &tree)
        }
    }
}
