//! The choice of sizes and a placement.

ghost use Rattle.std.specs.Prelude.{◌≡◌, ◌≤◌, List, IfOk};
ghost use Rattle.elastic_ast.specs.Tree.{PlainDecl};
ghost use Rattle.elastic_ast.specs.Units.Instances.{nth_size};
ghost use Rattle.elastic_ast.specs.Units.SeenUnits.{seen_units};
ghost use Rattle.target_desc.specs.InRange.{IsInRange};
ghost use Rattle.unit_flow.specs.SoundUnits.{SoundUnits};
ghost use Rattle.unroll_bound.specs.BoundAnswers.{AreBoundsWithin};
ghost use Rattle.unroll_bound.specs.ProgramUnits.{AreKnownUnits};
ghost use Rattle.int_program.specs.Points.{IsPoint};
ghost use Rattle.branch_bound.specs.Found.{most_splits};
ghost use Rattle.ilp_model.specs.IpOf.{ip_of};
ghost use Rattle.size_search.specs.Choice.{IsChoice, IsPrintable};
ghost use Rattle.size_search.specs.Chosen.{IsPlacedBy, ArePlacedBy, IsChosen};

use branch_bound::{Found, search};
use elastic_ast::{Placement, Sizes, Units};
use ilp_model::model;
use int_program::{Point, Tree};
use size_terms::utility;
use stage_layout::{Layout, place};
use std::alloc::{AllocError, Global};
use target_desc::Target;
use unroll_bound::{BoundError, BoundList, What, bounds};

/// Sizes and a placement, and the utility of the sizes.
#[derive(Drop)]
pub struct Placed {
    pub sizes: Sizes,
    pub placement: Placement,
    pub utility: i128,
}

/// What becomes of a program on a target.
#[derive(Drop)]
pub enum Choice {
    /// Feasible sizes and a placement of the greatest utility, and a tree that is accepted for it.
    Best { best: Placed, tree: Tree },
    /// No sizes and placement are feasible, as the tree shows.
    Infeasible { tree: Tree },
    /// The splits were used up. The best that was found, and a tree with open leaves, outside of which nothing is better.
    Unfinished { best: Option<Placed>, tree: Tree },
    /// No rule bounds the size of this symbol, which is the first such. Symbols are counted from 0.
    Unbounded { symbol: u32 },
    /// A bound, or how many instances, variables or rows the bounds lead to, is more than is taken.
    Large { what: What, count: u128 },
}

/// The sizes and the placement of a point, with their utility.
fn pair_of(
    alloc: Global,
    units: &Units,
    target: &Target,
    bounds: &[u64],
    point: &Point,
) -> Result<Placed, AllocError>
    requires sound { SoundUnits (seen_units units.now) }
    requires in_range { IsInRange target.now }
    requires within { AreBoundsWithin (seen_units units.now) target.now bounds.now }
    requires point { IsPoint (ip_of (seen_units units.now) target.now (nth_size bounds.now))
        point.now.values }
    ensures { IfOk result (IsPlacedBy (seen_units units.now) target.now bounds.now point.now.values) }
{
    let Layout { sizes, placement } = place(alloc, units, target, bounds, point)?;
    let utility = utility(&units.terms, &sizes);
    Ok(Placed {
        sizes,
        placement,
        utility,
    })
}

/// The best sizes and placement within the bounds.
fn chosen(
    alloc: Global,
    units: &Units,
    target: &Target,
    bounds: &[u64],
    limit: u64,
) -> Result<Choice, AllocError>
    requires sound { SoundUnits (seen_units units.now) }
    requires in_range { IsInRange target.now }
    requires within { AreBoundsWithin (seen_units units.now) target.now bounds.now }
    requires few { limit ≤ most_splits }
    ensures { IfOk result (IsChosen (seen_units units.now) target.now bounds.now limit) }
{
    let ip = model(alloc, units, target, bounds)?;
    match search(alloc, &ip, limit)? {
        Found::Best { point, tree } => {
            let best = pair_of(alloc, units, target, bounds, &point)?;
            Ok(Choice::Best { best, tree })
        }
        Found::NoPoint { tree } => Ok(Choice::Infeasible { tree }),
        Found::Unfinished { best, tree } => match best {
            Some(point) => {
                let best = pair_of(alloc, units, target, bounds, &point)?;
                Ok(Choice::Unfinished {
                    best: Some(best),
                    tree,
                })
            }
            None => Ok(Choice::Unfinished { best: None, tree }),
        },
    }
}

/// The best sizes and placement of a program on a target: feasible ones of the greatest utility, by at most `limit` splits of the
/// boxes of its integer program.
///
/// `units` are those that `unit_flow::units` gives of the program. The one error is want of memory.
pub fn choose(
    alloc: Global,
    units: &Units,
    target: &Target,
    limit: u64,
) -> Result<Choice, AllocError>
    requires sound { SoundUnits (seen_units units.now) }
    requires in_range { IsInRange target.now }
    requires few { limit ≤ most_splits }
    ensures choice { (decls : List PlainDecl) → AreKnownUnits decls (seen_units units.now)
        → IfOk result (IsChoice decls target.now limit) }
    ensures printable { IfOk result IsPrintable }
{
    let BoundList { most } = match bounds(alloc, units, target) {
        Ok(list) => list,
        Err(BoundError::Unbounded { symbol }) => return Ok(Choice::Unbounded { symbol }),
        Err(BoundError::TooLarge { what, count }) => return Ok(Choice::Large { what, count }),
        Err(BoundError::Memory) => return Err(AllocError),
    };
    chosen(alloc, units, target, most.as_slice(), limit)
}
