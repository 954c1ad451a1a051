//! The values of a vector, a slot each.

ghost use Rattle.std.specs.Prelude.{◌≡◌, ◌<◌, ◌≢◌, ◌↔◌, ℕ, [], IsTrue, MatchOption, length, slice_index_or, slice_set};
ghost use Rattle.elastic_ast.specs.Containers.LocationPlaces.{place};
ghost use Rattle.elastic_ast.specs.Containers.Slots.{slot_place, entries, places, hashes_of, IsSlotAt};
ghost use Rattle.elastic_ast.specs.Containers.LocationRefs.{seen_ref};
ghost use Rattle.elastic_ast.specs.Containers.BitWords.{word};

use crate::chains::Chains;
use crate::flat::Location;
use crate::location_ref::{LocationRef, parts};
use elx_bits::Bits;

/// The value of a location at an index.
#[derive(Drop)]
pub struct Slot {
    pub at: Location,
    pub index: Option<u32>,
    pub value: Bits,
}

impl Slot {
    /// Whether the slot is that of a location and an index.
    pub fn is_at(&self, spot: &LocationRef, index: Option<u32>) -> bool
        ensures { IsTrue result ↔ (slot_place self.now ≡ place (seen_ref spot.now) index) }
    {
        self.index == index && parts(&self.at).same(spot)
    }
}

/// The number of the slot of a location and an index, by the hashes of the slots.
pub fn find(
    slots: &[Slot],
    chains: &Chains,
    spot: &LocationRef,
    index: Option<u32>,
) -> Option<usize>
    requires { chains.now ≡ hashes_of slots.now }
    ensures { IsSlotAt (places (entries slots.now)) (place (seen_ref spot.now) index) result }
{
    chains.find(spot.hash(index), |k| slots[k].is_at(spot, index))
}

/// Gives a slot another value.
pub fn overwrite(slots: &mut [Slot], k: usize, value: Bits)
    requires { k < length slots.old }
    ensures { let known = entries slots.old in
        entries slots.new ≡ slice_set known k (slice_index_or (places known) k [], word value) }
{
    slots[k].value = value;
}

/// Whether the slots of both lists are those of the same locations, in one order.
pub fn in_one_order(slots: &[Slot], others: &[Slot]) -> bool
    ensures { IsTrue result ↔ (places (entries slots.now) ≡ places (entries others.now)) }
{
    if slots.len() != others.len() {
        return false;
    }
    for (k, slot) in slots.iter().enumerate() {
        if !others[k].is_at(&parts(&slot.at), slot.index) {
            return false;
        }
    }
    true
}

/// Gives each slot the value of that with its number.
pub fn copy_in_order(slots: &mut [Slot], from: &[Slot])
    requires { places (entries slots.old) ≡ places (entries from.now) }
    ensures { entries slots.new ≡ entries from.now }
{
    for (k, slot) in from.iter().enumerate() {
        overwrite(slots, k, slot.value);
    }
}
