//! The lines of trees.

ghost use Rattle.std.specs.Prelude.{◌≡◌, [], ◌∷◌, map, OnOk};
ghost use Rattle.cert_text.specs.Pieces.{Piece};
ghost use Rattle.cert_text.specs.Certificate.{weighted, node_line, tree_lines};
ghost use Rattle.cert_text.specs.WrittenLines.{with_pieces, with_line, with_lines, FitPieces, FitLines};

use elx_io::Lines;
use int_program::{Node, Weight};
use std::alloc::{AllocError, Global};

/// Adds the words of weighted rows.
fn put_weights(alloc: Global, lines: &mut Lines, weights: &[Weight]) -> Result<(), AllocError>
    ensures text { OnOk result (lines.new ≡ with_pieces lines.old (map weighted weights.now)) }
    ensures fit { OnOk result (FitPieces (map weighted weights.now)) }
{
    for weight in weights {
        let Weight { row, by } = *weight;
        lines.word(format!(in alloc; "{row}:{by}")?.as_bytes())?;
    }
    Ok(())
}

/// Adds the line of a node.
fn put_node(alloc: Global, lines: &mut Lines, node: &Node) -> Result<(), AllocError>
    ensures text { OnOk result (lines.new ≡ with_line lines.old (node_line node.now)) }
    ensures fit { OnOk result (FitPieces (node_line node.now)) }
{
    match node {
        Node::Split { var, at } => {
            lines.word(b"s")?;
            lines.number(i128::from(*var))?;
            lines.number(*at)?;
        }
        Node::Tight { var, row } => {
            lines.word(b"t")?;
            lines.number(i128::from(*var))?;
            lines.number(i128::from(*row))?;
        }
        Node::RowLeaf { row } => {
            lines.word(b"r")?;
            lines.number(i128::from(*row))?;
        }
        Node::GoalLeaf => lines.word(b"o")?,
        Node::Dual { over, weights } => {
            lines.word(b"d")?;
            lines.number(*over)?;
            put_weights(alloc, lines, weights.as_slice())?;
        }
        Node::Far { weights } => {
            lines.word(b"f")?;
            put_weights(alloc, lines, weights.as_slice())?;
        }
        Node::Unsolved => lines.word(b"?")?,
    }
    lines.end()
}

/// Adds the lines of nodes.
fn put_nodes(alloc: Global, lines: &mut Lines, nodes: &[Node]) -> Result<(), AllocError>
    ensures text { OnOk result (lines.new ≡ with_lines lines.old (map node_line nodes.now)) }
    ensures fit { OnOk result (FitLines (map node_line nodes.now)) }
{
    for node in nodes {
        put_node(alloc, lines, node)?;
    }
    Ok(())
}

/// Adds a line of one word.
pub(crate) fn put_word(lines: &mut Lines, word: &[u8]) -> Result<(), AllocError>
    ensures { OnOk result (lines.new ≡ with_line lines.old (Piece.Fixed word.now ∷ [])) }
{
    lines.word(word)?;
    lines.end()
}

/// Adds the lines from the tree on.
#[tactic(auto, using(crate::proofs::JoinedLines::lines_joined, crate::proofs::JoinedLines::fit_joined))]
pub(crate) fn put_tree(alloc: Global, lines: &mut Lines, nodes: &[Node]) -> Result<(), AllocError>
    ensures text { OnOk result (lines.new ≡ with_lines lines.old (tree_lines nodes.now)) }
    ensures fit { OnOk result (FitLines (tree_lines nodes.now)) }
{
    put_word(lines, b"tree")?;
    put_nodes(alloc, lines, nodes)?;
    put_word(lines, b"end")
}
