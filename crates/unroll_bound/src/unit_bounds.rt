//! The bounds of the sizes of units on a target.

ghost use Rattle.std.specs.Prelude.{◌≡◌, IfErr, IfOk};
ghost use Rattle.elastic_ast.specs.Units.SeenUnits.{seen_units};
ghost use Rattle.target_desc.specs.InRange.{IsInRange};
ghost use Rattle.unit_flow.specs.SoundUnits.{SoundUnits};
ghost use Rattle.unroll_bound.specs.BoundAnswers.{AreBoundsWithin, IsWhyUnbounded, NamesSmallCount};
ghost use Rattle.unroll_bound.specs.declared.unit_bounds.BoundError.TheVariants.{Memory};

use crate::excess::first_excess;
use crate::finding::{bounds_of_all, first_great, narrowed};
use crate::gathering::gather;
use elastic_ast::Units;
use elx_bits::Items;
use std::alloc::{AllocError, Global};
use target_desc::Target;
use thiserror::Error;

/// The greatest size of each symbol, in the order of declaration.
#[derive(Drop)]
pub struct BoundList {
    pub most: Items<u64>,
}

/// What may be too large at the bounds.
#[derive(Clone, Copy, Debug, PartialEq, Eq)]
pub enum What {
    /// A bound.
    Bound,
    /// The instances.
    Instances,
    /// The variables of the integer program.
    Variables,
    /// Its rows.
    Rows,
}

/// Why there are no bounds that are taken.
#[derive(Clone, Copy, Debug, PartialEq, Eq, Error)]
pub enum BoundError {
    /// No rule bounds this symbol, the first such.
    #[error("symbol {symbol} has no bound")]
    Unbounded { symbol: u32 },
    /// At the bounds this is more than is taken.
    #[error("too large: {count}")]
    TooLarge { what: What, count: u128 },
    /// There is no memory for the bounds.
    #[error("out of memory")]
    Memory,
}

impl From<AllocError> for BoundError {
    ghost from_gives = { λ _ error. error ≡ Memory };

    fn from(_: AllocError) -> BoundError {
        BoundError::Memory
    }
}

/// The greatest size that each symbol can have, by the units of a program on a target: one bound a symbol, in the order of declaration,
/// as the least number that one of five rules gives. The rules are the rows of the assume clauses, the header bits, what all stages
/// have, a location that all instances of a unit write, and the cells of a register that surely exists.
///
/// `units` are those that `unit_flow::units` gives. No bound is above 1000000000, and at the bounds there are at most 1024 instances,
/// 100000 variables and 200000 rows of the integer program.
///
/// Errors: `Unbounded` names the first symbol that no rule bounds. Where all have a bound, `TooLarge` names the first of these that is
/// above its number: a bound (the first such), the instances, the variables, the rows. `Memory` is want of memory.
pub fn bounds(alloc: Global, units: &Units, target: &Target) -> Result<BoundList, BoundError>
    requires sound { SoundUnits (seen_units units.now) }
    requires target { IsInRange target.now }
    ensures found { IfOk result (λ list. AreBoundsWithin (seen_units units.now) target.now list.most) }
    ensures refused { IfErr result (IsWhyUnbounded (seen_units units.now) target.now) }
    ensures printable { IfErr result NamesSmallCount }
{
    let gathered = gather(alloc, units, target)?;
    let all = bounds_of_all(alloc, units, target, &gathered)?;
    if let Some(count) = first_great(all.as_slice()) {
        return Err(BoundError::TooLarge {
            what: What::Bound,
            count,
        });
    }
    let most = narrowed(alloc, all.as_slice())?;
    let uses = gathered.uses.as_slice();
    match first_excess(alloc, units, target, uses, most.as_slice())? {
        Some((what, count)) => Err(BoundError::TooLarge { what, count }),
        None => Ok(BoundList { most }),
    }
}
