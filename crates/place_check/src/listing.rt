//! Whether a placement lists the instances of units, without a list of these.

ghost use Rattle.std.specs.Prelude.{◌≡◌, ◌≤◌, ◌<◌, ◌+◌, ◌^◌, ◌&&◌, [], ◌∷◌, length, map, drop, IfSome};
ghost use Rattle.elastic_ast.specs.Units.Instances.{nth_size, same_number as same_number_of, each_turn, pair_of, instances};
ghost use Rattle.elastic_ast.specs.Units.SeenUnits.{seen_unit};
ghost use Rattle.dep_graph.specs.PlacementRules.{named_pair};
ghost use Rattle.place_check.specs.Conditions.{AreSmall};
ghost use Rattle.place_check.specs.FirstFault.{same_pair, first_difference as first_difference_of};
ghost use Rattle.place_check.specs.Standing.{ListedStands};
ghost use Rattle.place_check.specs.Walking.{one_turn, turns_of as turns_by, joined, Walks};

use crate::uses::size_at;
use elastic_ast::{At, Unit};

/// A placement that lists the instances gives each of them the stage at its place.
pub fn listed_instances_stand()
    ensures { ListedStands }
{}

/// Whether a place names an instance.
fn names(at: At, unit: usize, index: u64) -> bool
    ensures { result ≡ same_pair (named_pair at) (unit, index) }
{
    at.unit as usize == unit && u64::from(at.index) == index
}

/// The next place, where an instance stands at this one, or else this place.
fn met(placement: &[At], place: usize, unit: usize, index: u64) -> Result<usize, usize>
    requires { place ≤ length placement.now }
    ensures { Walks placement.now place ((unit, index) ∷ []) result }
{
    if place < placement.len() && names(placement[place], unit, index) {
        Ok(place + 1)
    } else {
        Err(place)
    }
}

/// Walks along some units at one index.
fn turn_met(
    placement: &[At],
    place: usize,
    first: usize,
    count: usize,
    index: u64,
) -> Result<usize, usize>
    requires within { place ≤ length placement.now }
    requires numbers { first + count < 2 ^ 64 }
    ensures { Walks placement.now place (one_turn first count index) result }
{
    let mut next = place;
    for step in 0..count {
        match met(placement, next, first + step, index) {
            Ok(further) => next = further,
            Err(place) => return Err(place),
        }
    }
    Ok(next)
}

/// Walks along some units at one index after the other.
fn turns_met(
    placement: &[At],
    place: usize,
    first: usize,
    count: usize,
    turns: u64,
) -> Result<usize, usize>
    requires within { place ≤ length placement.now }
    requires numbers { first + count < 2 ^ 64 }
    ensures { Walks placement.now place (each_turn turns (one_turn first count)) result }
{
    let mut next = place;
    for index in 0..turns {
        match turn_met(placement, next, first, count, index) {
            Ok(further) => next = further,
            Err(place) => return Err(place),
        }
    }
    Ok(next)
}

/// How often a unit runs.
pub fn turns_of(unit: &Unit, sizes: &[u64]) -> u64
    requires { AreSmall sizes.now }
    ensures { result ≡ turns_by (nth_size sizes.now) unit.now.size }
{
    match unit.size {
        None => 1,
        Some(symbol) => size_at(sizes, symbol),
    }
}

fn same_number(one: Option<u32>, other: Option<u32>) -> bool
    ensures { result ≡ same_number_of one other }
{
    match (one, other) {
        (Some(one), Some(other)) => one == other,
        _ => false,
    }
}

/// Whether a unit stands in the loop.
fn joins(unit: &Unit, loop_no: Option<u32>, size: Option<u32>) -> bool
    ensures { result
        ≡ (same_number_of unit.now.loop_no loop_no && same_number_of unit.now.size size) }
{
    same_number(unit.loop_no, loop_no) && same_number(unit.size, size)
}

/// How many units from a number on stand in the loop.
pub fn joined_from(units: &[Unit], from: usize, loop_no: Option<u32>, size: Option<u32>) -> usize
    requires { from ≤ length units.now }
    ensures joined { result ≡ joined loop_no size (drop from (map seen_unit units.now)) }
    ensures within { from + result ≤ length units.now }
{
    for i in from..units.len() {
        if !joins(&units[i], loop_no, size) {
            return i - from;
        }
    }
    units.len() - from
}

/// The first place at which a placement differs from the list of the instances.
pub fn first_difference(units: &[Unit], sizes: &[u64], placement: &[At]) -> Option<usize>
    requires { AreSmall sizes.now }
    ensures within { IfSome result (λ place. place ≤ length placement.now) }
    ensures place { result
        ≡ first_difference_of 0 (map named_pair placement.now) (map pair_of (instances (map seen_unit units.now) (nth_size sizes.now))) }
{
    let mut place = 0;
    let mut first = 0;
    while first < units.len() {
        let unit = &units[first];
        let count = 1 + joined_from(units, first + 1, unit.loop_no, unit.size);
        match turns_met(placement, place, first, count, turns_of(unit, sizes)) {
            Ok(next) => place = next,
            Err(place) => return Some(place),
        }
        first += count;
    }
    if place < placement.len() {
        Some(place)
    } else {
        None
    }
}
