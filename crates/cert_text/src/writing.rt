//! The text of a certificate.

ghost use Rattle.std.specs.Prelude.{◌≡◌, [], ◌∷◌, map, IfOk, OnOk};
ghost use Rattle.cert_text.specs.Pieces.{Piece};
ghost use Rattle.cert_text.specs.Certificate.{kind_line, size_line, at_line, pair_lines, certificate_lines, IsWritable, IsCertificate};
ghost use Rattle.cert_text.specs.WrittenLines.{with_line, with_lines, FitPieces, FitLines};

use crate::claim::{Claim, ClaimKind};
use crate::nodes::{put_tree, put_word};
use elastic_ast::At;
#[cfg(test)]
use elastic_ast::Placement;
use elx_bits::{Items, Name};
use elx_io::Lines;
use int_program::Tree;
use std::alloc::{AllocError, Global};

/// Adds the line of a word and a value.
fn put_value(lines: &mut Lines, word: &[u8], value: i128) -> Result<(), AllocError>
    ensures text { OnOk result (lines.new ≡ with_line lines.old (Piece.Fixed word.now ∷ Piece.Number value ∷ [])) }
    ensures fit { OnOk result (FitPieces (Piece.Fixed word.now ∷ Piece.Number value ∷ [])) }
{
    lines.word(word)?;
    lines.number(value)?;
    lines.end()
}

/// Adds the line of what is claimed.
fn put_kind(lines: &mut Lines, kind: ClaimKind) -> Result<(), AllocError>
    ensures text { OnOk result (lines.new ≡ with_line lines.old (kind_line kind)) }
    ensures fit { OnOk result (FitPieces (kind_line kind)) }
{
    match kind {
        ClaimKind::Best(value) => put_value(lines, b"best", value),
        ClaimKind::Infeasible => put_word(lines, b"infeasible"),
        ClaimKind::Unfinished(Some(value)) => put_value(lines, b"unfinished", value),
        ClaimKind::Unfinished(None) => {
            lines.word(b"unfinished")?;
            put_word(lines, b"none")
        }
    }
}

/// Adds the line of a symbol with its size.
fn put_size(lines: &mut Lines, size: &(Name, u64)) -> Result<(), AllocError>
    ensures text { OnOk result (lines.new ≡ with_line lines.old (size_line size.now)) }
    ensures fit { OnOk result (FitPieces (size_line size.now)) }
{
    lines.word(b"size")?;
    lines.word(size.0.as_slice())?;
    lines.number(i128::from(size.1))?;
    lines.end()
}

/// Adds the lines of symbols with their sizes.
fn put_sizes(lines: &mut Lines, sizes: &[(Name, u64)]) -> Result<(), AllocError>
    ensures text { OnOk result (lines.new ≡ with_lines lines.old (map size_line sizes.now)) }
    ensures fit { OnOk result (FitLines (map size_line sizes.now)) }
{
    for size in sizes {
        put_size(lines, size)?;
    }
    Ok(())
}

/// Adds the line of an instance with its stage.
fn put_at(lines: &mut Lines, at: At) -> Result<(), AllocError>
    ensures text { OnOk result (lines.new ≡ with_line lines.old (at_line at)) }
    ensures fit { OnOk result (FitPieces (at_line at)) }
{
    lines.word(b"at")?;
    lines.number(i128::from(at.unit))?;
    lines.number(i128::from(at.index))?;
    lines.number(i128::from(at.stage))?;
    lines.end()
}

/// Adds the lines of instances with their stages.
fn put_placement(lines: &mut Lines, places: &[At]) -> Result<(), AllocError>
    ensures text { OnOk result (lines.new ≡ with_lines lines.old (map at_line places.now)) }
    ensures fit { OnOk result (FitLines (map at_line places.now)) }
{
    for at in places {
        put_at(lines, *at)?;
    }
    Ok(())
}

/// Adds the lines of the sizes and the placement of a claim.
#[tactic(auto, using(crate::proofs::JoinedLines::lines_joined, crate::proofs::JoinedLines::fit_joined))]
fn put_pair(lines: &mut Lines, claim: &Claim) -> Result<(), AllocError>
    ensures text { OnOk result (lines.new ≡ with_lines lines.old (pair_lines claim.now)) }
    ensures fit { OnOk result (FitLines (pair_lines claim.now)) }
{
    put_sizes(lines, claim.sizes.as_slice())?;
    put_placement(lines, claim.placement.at.as_slice())
}

/// Adds the lines of a certificate.
///
/// They are `p4all-cert 1`, what is claimed, `size NAME VALUE` for each symbol, `at UNIT INDEX STAGE` for each instance, `tree`, a line
/// for each node in preorder, and `end`. The one error is want of memory.
#[tactic(auto, using(crate::proofs::JoinedLines::two_and_joined, crate::proofs::JoinedLines::fit_two_and_joined))]
pub fn put_certificate(
    alloc: Global,
    lines: &mut Lines,
    claim: &Claim,
    tree: &Tree,
) -> Result<(), AllocError>
    ensures text { OnOk result (lines.new ≡ with_lines lines.old (certificate_lines claim.now tree.now.nodes)) }
    ensures fit { OnOk result (FitLines (certificate_lines claim.now tree.now.nodes)) }
{
    put_word(lines, b"p4all-cert 1")?;
    put_kind(lines, claim.kind)?;
    put_pair(lines, claim)?;
    put_tree(alloc, lines, tree.nodes.as_slice())?;
    Ok(())
}

/// A copy of the bytes.
fn copied(alloc: Global, bytes: &[u8]) -> Result<Items<u8>, AllocError>
    ensures { IfOk result (λ copy. copy ≡ bytes.now) }
{
    Ok(Items::from_vec(bytes.to_vec(alloc)?))
}

/// The text of a certificate of a claim with a tree. It takes time and memory in proportion to the text; the one error is want of
/// memory.
pub fn write(alloc: Global, claim: &Claim, tree: &Tree) -> Result<Items<u8>, AllocError>
    requires { IsWritable claim.now tree.now }
    ensures { IfOk result (λ text. IsCertificate text claim.now tree.now) }
{
    let mut lines = Lines::new(alloc);
    put_certificate(alloc, &mut lines, claim, tree)?;
    let text = copied(alloc, lines.bytes())?;
    Ok(text)
}

#[cfg(test)]
mod tests {
    use super::*;
    use int_program::{Node, Weight};
    use std::test::Fail;

    #[test]
    fn an_open_box_of_which_nothing_is_known(rt: HostRuntime) -> Result<(), Fail> {
        let claim = Claim {
            kind: ClaimKind::Unfinished(None),
            sizes: Items::new(rt.alloc()),
            placement: Placement {
                at: Items::new(rt.alloc()),
            },
        };
        let mut tree = Tree {
            nodes: Items::new(rt.alloc()),
        };
        tree.nodes.push(Node::Unsolved)?;
        let mut lines = Lines::new(rt.alloc());
        put_certificate(rt.alloc(), &mut lines, &claim, &tree)?;
        let want = "p4all-cert 1\nunfinished none\ntree\n?\nend\n";
        assert_eq!(rt; lines.bytes(), want.as_bytes());
        Ok(())
    }

    #[test]
    fn nodes_of_each_kind_below_sizes_and_a_placement(rt: HostRuntime) -> Result<(), Fail> {
        let mut claim = Claim {
            kind: ClaimKind::Best(-19),
            sizes: Items::new(rt.alloc()),
            placement: Placement {
                at: Items::new(rt.alloc()),
            },
        };
        for (name, size) in [("rows", 2u64), ("cols", 4294967296)] {
            let name = Name::of(rt.alloc(), name.as_bytes())?;
            claim.sizes.push((name, size))?;
        }
        claim.placement.at.push(At {
            unit: 3,
            index: 1,
            stage: 0,
        })?;
        let mut nodes = Items::new(rt.alloc());
        nodes.push(Node::Split { var: 0, at: -1 })?;
        nodes.push(Node::Tight { var: 4, row: 12 })?;
        nodes.push(Node::RowLeaf { row: 7 })?;
        let mut weights = Items::new(rt.alloc());
        weights.push(Weight { row: 5, by: 12 })?;
        weights.push(Weight { row: 0, by: 1 })?;
        nodes.push(Node::Dual { over: 2, weights })?;
        nodes.push(Node::Far {
            weights: Items::new(rt.alloc()),
        })?;
        nodes.push(Node::GoalLeaf)?;
        let tree = Tree { nodes };
        let mut lines = Lines::new(rt.alloc());
        put_certificate(rt.alloc(), &mut lines, &claim, &tree)?;
        let want =
            "p4all-cert 1\nbest -19\nsize rows 2\nsize cols 4294967296\nat 3 1 0\ntree\ns 0 -1\nt 4 12\nr 7\nd 2 5:12 0:1\nf\no\nend\n";
        assert_eq!(rt; lines.bytes(), want.as_bytes());
        Ok(())
    }
}
