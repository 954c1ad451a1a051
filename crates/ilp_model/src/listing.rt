//! The instances of units at the bounds of sizes.

ghost use Rattle.std.specs.Prelude.{◌≡◌, ◌≤◌, ◌<◌, ◌+◌, ◌&&◌, [], ◌∷◌, length, map, All, OnOk, IfOk};
ghost use Rattle.elastic_ast.specs.Units.Instances.{Instance, nth_size, same_number as same_number_of, at_index, each_turn, group_instances};
ghost use Rattle.elastic_ast.specs.Units.SeenUnits.{seen_unit, seen_units};
ghost use Rattle.unit_flow.specs.SoundUnits.{IsLoopSize, SoundUnits};
ghost use Rattle.unroll_bound.specs.BoundAnswers.{AreSmallBounds};
ghost use Rattle.unroll_bound.specs.Counts.{is_symbolic as is_symbolic_of};
ghost use Rattle.ilp_model.specs.Candidates.{candidates as candidates_of};
ghost use Rattle.ilp_model.specs.ListedCandidates.{listed, numbered, most_numbers, Adds, IsRanked, AreNumbered};

use elastic_ast::{Cells, Unit, Units};
use elx_bits::Items;
use std::alloc::{AllocError, Global};
use unroll_bound::turns_at;

/// How many units have numbers of 32 bits.
const MOST_UNITS: usize = 4_294_967_296;

/// An instance at the bounds, with its rank among those whose cells a symbol counts. Its place is that in the list.
#[derive(Clone, Copy, Debug, PartialEq, Eq)]
pub struct Candidate {
    pub unit: u32,
    pub index: u32,
    pub rank: usize,
}

/// The instances up to one, and how many of them have cells that a symbol counts.
#[derive(Drop)]
struct Listing {
    list: Items<Candidate>,
    rank: usize,
}

/// Whether a symbol counts the cells of a unit.
pub(crate) fn is_symbolic(unit: &Unit) -> bool
    ensures { result ≡ is_symbolic_of unit.now.cells }
{
    matches!(unit.cells, Some(Cells::Symbol(_)))
}

impl Listing {
    /// Lists a unit at an index.
    fn add(&mut self, unit: &Unit, number: usize, index: u64) -> Result<(), AllocError>
        requires ranked { IsRanked self.old }
        requires number { number < most_numbers }
        requires index { index < most_numbers }
        ensures adds { OnOk result (Adds self.old
            (record { number = number; index = index; unit = seen_unit unit.now } ∷ []) self.new) }
        ensures ranked { OnOk result (IsRanked self.new) }
    {
        self.list.push(Candidate {
            unit: number as u32,
            index: index as u32,
            rank: self.rank,
        })?;
        let _count = self.list.as_slice().len();
        if is_symbolic(unit) {
            self.rank += 1;
        }
        Ok(())
    }

    /// Lists the units of a group at an index, whose numbers count from one on.
    fn add_turn(&mut self, group: &[Unit], first: usize, index: u64) -> Result<(), AllocError>
        requires ranked { IsRanked self.old }
        requires numbers { first + length group.now ≤ most_numbers }
        requires index { index < most_numbers }
        ensures adds { OnOk result (Adds self.old
            (at_index (numbered first (map seen_unit group.now)) index) self.new) }
        ensures ranked { OnOk result (IsRanked self.new) }
    {
        for place in 0..group.len() {
            self.add(&group[place], first + place, index)?;
        }
        Ok(())
    }

    /// Lists the units of a group at one index after the other.
    fn add_turns(&mut self, group: &[Unit], first: usize, turns: u64) -> Result<(), AllocError>
        requires ranked { IsRanked self.old }
        requires numbers { first + length group.now ≤ most_numbers }
        requires turns { turns ≤ most_numbers }
        ensures adds { OnOk result (Adds self.old
            (each_turn turns (at_index (numbered first (map seen_unit group.now)))) self.new) }
        ensures ranked { OnOk result (IsRanked self.new) }
    {
        for index in 0..turns {
            self.add_turn(group, first, index)?;
        }
        Ok(())
    }

    /// Lists the instances of a group, whose loop has this size.
    fn add_group(
        &mut self,
        group: &[Unit],
        first: usize,
        size: Option<u32>,
        bounds: &[u64],
    ) -> Result<(), AllocError>
        requires ranked { IsRanked self.old }
        requires numbers { first + length group.now ≤ most_numbers }
        requires size { IsLoopSize (length bounds.now) size }
        requires bounds { All (λ bound. bound ≤ most_numbers) bounds.now }
        ensures adds { OnOk result (Adds self.old
            (group_instances (nth_size bounds.now) size (numbered first (map seen_unit group.now))) self.new) }
        ensures ranked { OnOk result (IsRanked self.new) }
    {
        self.add_turns(group, first, turns_at(size, bounds))
    }
}

fn same_number(one: Option<u32>, other: Option<u32>) -> bool
    ensures { result ≡ same_number_of one other }
{
    match (one, other) {
        (Some(one), Some(other)) => one == other,
        _ => false,
    }
}

/// Whether a unit stands in the loop of another one.
fn joins(unit: &Unit, other: &Unit) -> bool
    ensures { result
        ≡ (same_number_of unit.now.loop_no other.now.loop_no && same_number_of unit.now.size other.now.size) }
{
    same_number(unit.loop_no, other.loop_no) && same_number(unit.size, other.size)
}

/// The instances of units whose numbers have 32 bits.
fn listed_candidates(
    alloc: Global,
    units: &Units,
    bounds: &[u64],
) -> Result<Items<Candidate>, AllocError>
    requires sizes { All (λ unit. IsLoopSize (length bounds.now) unit.size) units.now.list }
    requires numbers { AreNumbered units.now.list bounds.now }
    ensures { IfOk result (λ list. list ≡ map listed (candidates_of (seen_units units.now) (nth_size bounds.now))) }
{
    let units = units.list.as_slice();
    let mut listing = Listing {
        list: Items::new(alloc),
        rank: 0,
    };
    if units.is_empty() {
        return Ok(listing.list);
    }
    let mut first = 0;
    for next in 1..units.len() {
        if !joins(&units[next], &units[first]) {
            listing.add_group(&units[first..next], first, units[first].size, bounds)?;
            first = next;
        }
    }
    listing.add_group(&units[first..], first, units[first].size, bounds)?;
    Ok(listing.list)
}

/// The instances at the bounds, in order. More than 2^32 units are too many for the memory that a list of them takes.
pub fn candidates(
    alloc: Global,
    units: &Units,
    bounds: &[u64],
) -> Result<Items<Candidate>, AllocError>
    requires sound { SoundUnits (seen_units units.now) }
    requires dense { length bounds.now ≡ length units.now.terms.symbols }
    requires small { AreSmallBounds bounds.now }
    ensures { IfOk result (λ list. list ≡ map listed (candidates_of (seen_units units.now) (nth_size bounds.now))) }
{
    if units.list.as_slice().len() > MOST_UNITS {
        return Err(AllocError);
    }
    listed_candidates(alloc, units, bounds)
}
