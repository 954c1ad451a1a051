//! The bounds of all symbols.

ghost use Rattle.std.specs.Prelude.{◌≡◌, ◌≤◌, IfErr, IfOk, MatchOption};
ghost use Rattle.elastic_ast.specs.Units.SeenUnits.{seen_units};
ghost use Rattle.unit_flow.specs.SoundUnits.{SoundUnits};
ghost use Rattle.unroll_bound.specs.BoundAnswers.{most_bound, AreSmallBounds, HaveBounds, IsFirstGreat, IsWhyUnbounded, NamesSmallCount};
ghost use Rattle.unroll_bound.specs.GatheredBounds.{IsGathered};

use crate::gathering::{Gathered, gathered_bound};
use crate::unit_bounds::BoundError;
use elastic_ast::Units;
use elx_bits::Items;
use std::alloc::{AllocError, Global};
use target_desc::Target;

const MOST_BOUND: u128 = 1000000000;

/// The bound of each symbol, also where it is too great, or the first symbol that has none.
pub fn bounds_of_all(
    alloc: Global,
    units: &Units,
    target: &Target,
    gathered: &Gathered,
) -> Result<Vec<u128>, BoundError>
    requires sound { SoundUnits (seen_units units.now) }
    requires gathered { IsGathered (seen_units units.now) target.now gathered.now }
    ensures found { IfOk result (λ list. HaveBounds (seen_units units.now) target.now list.items) }
    ensures refused { IfErr result (IsWhyUnbounded (seen_units units.now) target.now) }
    ensures printable { IfErr result NamesSmallCount }
{
    let mut most = Vec::new(alloc);
    for symbol in 0..units.terms.symbols.as_slice().len() {
        let Some(bound) = gathered_bound(units, target, gathered, symbol) else {
            return Err(BoundError::Unbounded {
                symbol: symbol as u32,
            });
        };
        if most.push(bound).is_err() {
            return Err(BoundError::Memory);
        }
    }
    Ok(most)
}

/// The first bound that is too great.
pub fn first_great(bounds: &[u128]) -> Option<u128>
    ensures { MatchOption result (AreSmallBounds bounds.now) (IsFirstGreat bounds.now) }
{
    for symbol in 0..bounds.len() {
        if bounds[symbol] > MOST_BOUND {
            return Some(bounds[symbol]);
        }
    }
    None
}

/// The same bounds, none of which is too great, in 64 bits.
pub fn narrowed(alloc: Global, bounds: &[u128]) -> Result<Items<u64>, AllocError>
    requires { AreSmallBounds bounds.now }
    ensures { IfOk result (λ list. list ≡ bounds.now) }
{
    let mut list = Items::new(alloc);
    for symbol in 0..bounds.len() {
        list.push(bounds[symbol] as u64)?;
    }
    Ok(list)
}
