//! The lines of a search that was cut off.

ghost use Rattle.std.specs.Prelude.{◌≡◌, length, IfOk, OnOk};
ghost use Rattle.std.specs.Option.{ForSome};
ghost use Rattle.cert_text.specs.declared.claim.Claim.{Claim};
ghost use Rattle.size_search.specs.Choice.{known_of};
ghost use Rattle.p4all_top.specs.Unfinished.{named_sizes, IsUnfinishedClaim, with_limit, with_best, unfinished_text};

use cert_text::{Claim, ClaimKind, put_certificate};
use elastic_ast::Placement;
use elx_bits::{Items, Name};
use elx_io::Lines;
use int_program::Tree;
use size_search::Placed;
use std::alloc::{AllocError, Global};

/// Each symbol with its size.
fn sizes_named(
    alloc: Global,
    symbols: &[Name],
    sizes: &[u64],
) -> Result<Items<(Name, u64)>, AllocError>
    requires { length sizes.now ≡ length symbols.now }
    ensures { IfOk result (λ named. named ≡ named_sizes symbols.now sizes.now) }
{
    let mut named = Items::new(alloc);
    for i in 0..symbols.len() {
        let name = Name::of(alloc, symbols[i].as_slice())?;
        named.push((name, sizes[i]))?;
    }
    Ok(named)
}

/// What is claimed of what was found.
fn claim_of(alloc: Global, symbols: &[Name], best: Option<Placed>) -> Result<Claim, AllocError>
    requires { ForSome best (λ placed. length placed.sizes.values ≡ length symbols.now) }
    ensures { IfOk result (IsUnfinishedClaim symbols.now best) }
{
    match best {
        Some(placed) => {
            let Placed {
                sizes,
                placement,
                utility,
            } = placed;
            Ok(Claim {
                kind: ClaimKind::Unfinished(Some(utility)),
                sizes: sizes_named(alloc, symbols, sizes.values.as_slice())?,
                placement,
            })
        }
        None => Ok(Claim {
            kind: ClaimKind::Unfinished(None),
            sizes: Items::new(alloc),
            placement: Placement {
                at: Items::new(alloc),
            },
        }),
    }
}

/// Adds the line of how many splits were made.
fn put_limit(lines: &mut Lines, limit: u64) -> Result<(), AllocError>
    ensures { OnOk result (lines.new ≡ with_limit lines.old limit) }
{
    lines.word(b"unfinished")?;
    lines.number(i128::from(limit))?;
    lines.end()
}

/// Adds the line of the greatest utility that was found.
fn put_best(lines: &mut Lines, best: Option<i128>) -> Result<(), AllocError>
    ensures { OnOk result (lines.new ≡ with_best lines.old best) }
{
    lines.word(b"best")?;
    match best {
        Some(value) => lines.number(value)?,
        None => lines.word(b"none")?,
    }
    lines.end()
}

/// The utility of what was found.
fn value_of(best: &Option<Placed>) -> Option<i128>
    ensures { result ≡ known_of best.now }
{
    match best {
        Some(placed) => Some(placed.utility),
        None => None,
    }
}

/// How many splits were made, the greatest utility that was found, and the certificate of this.
pub fn unfinished_lines(
    alloc: Global,
    limit: u64,
    symbols: &[Name],
    best: Option<Placed>,
    tree: &Tree,
) -> Result<Lines, AllocError>
    requires { ForSome best (λ placed. length placed.sizes.values ≡ length symbols.now) }
    ensures { IfOk result (λ lines. (claim : Claim) × IsUnfinishedClaim symbols.now best claim
        × (lines ≡ unfinished_text limit (known_of best) claim tree.now)) }
{
    let value = value_of(&best);
    let claim = claim_of(alloc, symbols, best)?;
    let mut lines = Lines::new(alloc);
    put_limit(&mut lines, limit)?;
    put_best(&mut lines, value)?;
    put_certificate(alloc, &mut lines, &claim, tree)?;
    Ok(lines)
}
