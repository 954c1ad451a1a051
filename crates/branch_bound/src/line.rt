//! The lines that a search writes, and the nodes that they become.

ghost use Rattle.std.specs.Prelude.{◌≡◌, ◌↔◌, ◌<◌, map, IfOk, IsTrue};
ghost use Rattle.int_program.specs.Counting.{is_open as is_open_node, open_count};
ghost use Rattle.branch_bound.specs.Lines.{is_split_line, settled_node};

use elx_bits::Items;
use int_program::{Node, Tree};
use std::alloc::{AllocError, Global};

/// A node that is written, or a box that is left, with the objective's greatest value on it.
#[derive(Debug, Drop)]
pub(crate) enum Line {
    Done(Node),
    Left { most: i128 },
}

impl Line {
    /// Whether the line is a split.
    pub(crate) fn is_split(&self) -> bool
        ensures { result ≡ is_split_line self.now }
    {
        match self {
            Line::Done(node) => matches!(node, Node::Split { var: _, at: _ }),
            Line::Left { most: _ } => false,
        }
    }

    /// The node of the line for the value that is known at the end.
    fn settled(self, known: Option<i128>) -> Node
        ensures { result ≡ settled_node known self }
    {
        match self {
            Line::Done(node) => node,
            Line::Left { most } => match known {
                None => Node::Unsolved,
                Some(value) => {
                    if most <= value {
                        Node::GoalLeaf
                    } else {
                        Node::Unsolved
                    }
                }
            },
        }
    }
}

/// The tree of the lines for the value that is known at the end.
pub(crate) fn settled_tree(
    alloc: Global,
    lines: Items<Line>,
    known: Option<i128>,
) -> Result<Tree, AllocError>
    ensures { IfOk result (λ tree. tree.nodes ≡ map (settled_node known) lines) }
{
    let nodes = lines
        .into_vec()
        .into_iter()
        .map(|line| line.settled(known))
        .collect(alloc)?;
    Ok(Tree {
        nodes: Items::from_vec(nodes),
    })
}

/// Whether the node is an open leaf.
fn is_open(node: &Node) -> bool
    ensures { result ≡ is_open_node node.now }
{
    matches!(node, Node::Unsolved)
}

/// Whether an open leaf is among the nodes.
pub(crate) fn has_open(nodes: &[Node]) -> bool
    ensures { IsTrue result ↔ 0 < open_count nodes.now }
{
    nodes.iter().filter(|node| is_open(node)).count() > 0
}
