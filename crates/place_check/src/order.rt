//! Whether instances stand in stages that their order allows.

ghost use Rattle.std.specs.Prelude.{◌≡◌, ◌<◌, ◌≤◌, ◌+◌, length, map, drop, All, option_map, option_copied, Some, None};
ghost use Rattle.std.specs.List.{find};
ghost use Rattle.elastic_ast.specs.Units.SeenUnits.{seen_unit};
ghost use Rattle.dep_graph.specs.PlacementRules.{named_pair};
ghost use Rattle.dep_graph.specs.SeenRelation.{seen_relation};
ghost use Rattle.elastic_ast.specs.Units.Order.{order as order_of};
ghost use Rattle.place_check.specs.KnownOrders.{relation_at, order_at, IsKnown, AreKnown};
ghost use Rattle.place_check.specs.Standing.{placed_at, NamesUnits};
ghost use Rattle.place_check.specs.Misplaced.{stands_so as stands, against as is_against, first_against};

use dep_graph::{Relation, order};
use elastic_ast::{At, Unit};

/// Whether the stages of an earlier instance and a later one are as their order asks.
fn stands_so(relation: Relation, stage: u8, later: u8) -> bool
    ensures { result ≡ stands (seen_relation relation) stage later }
{
    match relation {
        Relation::Free => true,
        Relation::NotAfter => stage <= later,
        Relation::Before => stage < later,
    }
}

/// Two units by their numbers, and their order at one index and at indices that differ.
#[derive(Clone, Copy)]
pub struct Known {
    first: usize,
    second: usize,
    equal: Relation,
    different: Relation,
}

impl Known {
    /// The orders of two units.
    fn of(units: &[Unit], first: usize, second: usize) -> Known
        requires first { first < length units.now }
        requires second { second < length units.now }
        ensures known { IsKnown (map seen_unit units.now) result }
        ensures first { result.first ≡ first }
        ensures second { result.second ≡ second }
    {
        let one = &units[first];
        let other = &units[second];
        Known {
            first,
            second,
            equal: order(one, other, 0, 0),
            different: order(one, other, 0, 1),
        }
    }

    /// The order where the indices are equal, or where they differ.
    fn at(&self, equal: bool) -> Relation
        ensures { result ≡ relation_at self.now equal }
    {
        if equal { self.equal } else { self.different }
    }
}

/// The orders of two units, which are kept at a place of their own, where those of other two give way to them.
fn recalled(kept: &mut [Option<Known>], units: &[Unit], first: usize, second: usize) -> Known
    requires first { first < length units.now }
    requires second { second < length units.now }
    requires kept { AreKnown (map seen_unit units.now) kept.old }
    ensures known { IsKnown (map seen_unit units.now) result }
    ensures first { result.first ≡ first }
    ensures second { result.second ≡ second }
    ensures kept { AreKnown (map seen_unit units.now) kept.new }
{
    if kept.is_empty() {
        return Known::of(units, first, second);
    }
    let place = (first % 64 * 64 + second % 64) % kept.len();
    if let Some(known) = kept[place] {
        if known.first == first && known.second == second {
            return known;
        }
    }
    let known = Known::of(units, first, second);
    kept[place] = Some(known);
    known
}

/// The order of an instance and a later one, each as the number of its unit and its index: what it asks of their stages.
///
/// The order of two units is decided once where their indices are equal and once where they differ, and kept, so that it need not be
/// decided again as long as the place isn't wanted for other units. `kept` has any length; `[None; 4096]` has a place for each two of 64
/// units that stand side by side. What is kept is of these units only. There is no error.
pub fn known_order(
    kept: &mut [Option<Known>],
    units: &[Unit],
    first: (usize, u64),
    later: (usize, u64),
) -> Relation
    requires first { first.0 < length units.now }
    requires later { later.0 < length units.now }
    requires kept { AreKnown (map seen_unit units.now) kept.old }
    ensures order { seen_relation result ≡ order_at (map seen_unit units.now) first later }
    ensures kept { AreKnown (map seen_unit units.now) kept.new }
{
    let known = recalled(kept, units, first.0, later.0);
    known.at(first.1 == later.1)
}

/// The number of a unit and the index, where an instance stands.
fn pair_of(at: At) -> (usize, u64)
    ensures { result ≡ named_pair at }
{
    (at.unit as usize, u64::from(at.index))
}

/// Whether an instance and a later one stand against their order. Where the earlier one's stage is the smaller one, no order is
/// asked for.
fn against(kept: &mut [Option<Known>], units: &[Unit], first: At, later: At) -> bool
    requires first { first.unit < length units.now }
    requires later { later.unit < length units.now }
    requires kept { AreKnown (map seen_unit units.now) kept.old }
    ensures against { result ≡ is_against (map seen_unit units.now) first later }
    ensures kept { AreKnown (map seen_unit units.now) kept.new }
{
    if first.stage < later.stage {
        return false;
    }
    let relation = known_order(kept, units, pair_of(first), pair_of(later));
    !stands_so(relation, first.stage, later.stage)
}

/// The first of some later instances that stands against the order of it and an earlier one.
fn against_one(kept: &mut [Option<Known>], units: &[Unit], first: At, later: &[At]) -> Option<At>
    requires first { first.unit < length units.now }
    requires later { NamesUnits (map seen_unit units.now) later.now }
    requires kept { AreKnown (map seen_unit units.now) kept.old }
    ensures found { result ≡ find (is_against (map seen_unit units.now) first) later.now }
    ensures kept { AreKnown (map seen_unit units.now) kept.new }
{
    for other in later {
        if against(kept, units, first, *other) {
            return Some(*other);
        }
    }
    None
}

/// The first two instances, by the earlier and then by the later, that stand against their order.
pub fn first_misplaced(units: &[Unit], placement: &[At]) -> Option<(At, At)>
    requires { NamesUnits (map seen_unit units.now) placement.now }
    ensures { result ≡ first_against (map seen_unit units.now) placement.now }
{
    // Each two of 64 units that stand side by side have a place of their own.
    let mut kept = [None; 4096];
    for i in 0..placement.len() {
        let first = placement[i];
        if let Some(other) = against_one(&mut kept, units, first, &placement[i + 1..]) {
            return Some((first, other));
        }
    }
    None
}
