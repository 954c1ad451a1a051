//! The values of a program's locations while it runs on a packet.

ghost use Rattle.std.specs.Prelude.{IfOk, ◌≡◌, ◌<◌, ◌↔◌, ℕ, false, [], length, map as list_map, slice_index_or, IsTrue, IfSome, OnOk, OnErr, option_map, slice_index, if◌then◌else◌};
ghost use Rattle.std.specs.FinMap as map;
ghost use Rattle.elastic_ast.specs.Containers.LocationPlaces.{place, place_of_lval, valid_place};
ghost use Rattle.elastic_ast.specs.Containers.Slots.{entry, entries, places, word_from};
ghost use Rattle.elastic_ast.specs.Containers.LocationRefs.{seen_ref, ref_place};
ghost use Rattle.elastic_ast.specs.Containers.Vectors.{BitsOfValidity, MayStand, SamePlaces, put_if};
ghost use Rattle.elastic_ast.specs.Containers.BitWords.{word};

use crate::chains::Chains;
use crate::flat::Location;
use crate::location_ref::{LocationRef, parts, parts_of_lval};
use crate::slot::{Slot, copy_in_order, find, in_one_order, overwrite};
use crate::statements::Lval;
use elx_bits::{Bits, Name};
use std::alloc::{AllocError, Global};
use std::marker::Model;

/// A value for each of some locations, at an index where it is an element of an array. A contract sees it as the finite
/// map from their places to words.
#[derive(Drop)]
pub struct Vector {
    slots: Vec<Slot>,
    chains: Chains,
}

impl Model for Vector {
    ghost use Rattle.std.specs.Coded.{coded_list, coded×, coded_ℕ};
    ghost use Rattle.std.specs.FinMap as map;
    ghost use Rattle.elastic_ast.specs.Containers.Vectors.{Vectored};

    ghost Value = { Vectored };

    ghost coded = { map.code (coded_list coded_ℕ) (coded× coded_ℕ coded_ℕ) };

    ghost use Rattle.elastic_ast.specs.Containers.Slots.{seen_slots, Indexed};

    ghost view = { λ vector. seen_slots vector.slots.items };

    ghost invariant = { λ vector. Indexed vector.chains vector.slots.items };
}

impl Vector {
    /// The vector without a location. It takes no memory.
    pub fn new(alloc: Global) -> Vector
        ensures { result ≡ map.empty }
    {
        Vector {
            slots: Vec::new(alloc),
            chains: Chains::new(alloc),
        }
    }

    /// Adds a location with its value, or gives a location that is there another value. A validity bit has the width 1.
    /// For want of memory nothing changes.
    pub fn put(&mut self, at: Location, index: Option<u32>, value: Bits) -> Result<(), AllocError>
        requires { MayStand at value.width }
        ensures ok { OnOk result (self.new ≡ map.insert self.old (place at index) (word value)) }
        ensures err { OnErr result (self.new ≡ self.old) }
    {
        if self.change(&parts(&at), index, value) {
            return Ok(());
        }
        self.add(at, index, value)
    }

    /// The value of a location, and None exactly where it isn't there.
    pub fn get(&self, at: &Location, index: Option<u32>) -> Option<Bits>
        ensures { option_map word result ≡ map.get self.now (place at.now index) }
    {
        self.value_at(&parts(at), index)
    }

    /// Gives a location that is there another value. Where it isn't there the answer is false, and nothing changes.
    pub fn set(&mut self, at: &Location, index: Option<u32>, value: Bits) -> bool
        requires { MayStand at.now value.width }
        ensures there { result ≡ map.contains_key self.old (place at.now index) }
        ensures now { self.new ≡ put_if result self.old (place at.now index) (word value) }
    {
        self.change(&parts(at), index, value)
    }

    /// The value of what a statement names. Only an element of an array has the index.
    pub fn load(&self, at: &Lval, index: Option<u32>) -> Option<Bits>
        ensures { option_map word result ≡ map.get self.now (place_of_lval at.now index) }
    {
        let (spot, index) = parts_of_lval(at, index);
        self.value_at(&spot, index)
    }

    /// Gives what a statement names another value. Only an element of an array has the index.
    pub fn store(&mut self, at: &Lval, index: Option<u32>, value: Bits) -> bool
        ensures there { result ≡ map.contains_key self.old (place_of_lval at.now index) }
        ensures now { self.new ≡ put_if result self.old (place_of_lval at.now index) (word value) }
    {
        let (spot, index) = parts_of_lval(at, index);
        self.change(&spot, index, value)
    }

    /// The validity bit of a header.
    pub fn valid(&self, header: &Name) -> Option<Bits>
        ensures value { option_map word result ≡ map.get self.now (valid_place header.now) }
        ensures width { IfSome result (λ bit. bit.width ≡ 1) }
        ensures every { BitsOfValidity self.now }
    {
        let _slots = &self.slots;
        self.value_at(&LocationRef::Valid { header }, None)
    }

    /// Gives a header's validity bit another value.
    pub fn mark(&mut self, header: &Name, value: Bits) -> bool
        requires { value.width ≡ 1 }
        ensures there { result ≡ map.contains_key self.old (valid_place header.now) }
        ensures now { self.new ≡ put_if result self.old (valid_place header.now) (word value) }
    {
        self.change(&LocationRef::Valid { header }, None, value)
    }

    /// Takes over all values of a vector with the same locations. Where the locations differ the answer is false, and
    /// nothing changes.
    pub fn copy_from(&mut self, from: &Vector) -> bool
        ensures same { IsTrue result ↔ SamePlaces self.old from.now }
        ensures now { self.new ≡ (if result then from.now else self.old) }
    {
        if in_one_order(&self.slots, &from.slots) {
            copy_in_order(&mut self.slots, &from.slots);
            return true;
        }
        if !self.has_places_of(from) {
            return false;
        }
        from.give_to(&mut self.slots);
        true
    }

    /// Adds a location that isn't there. For want of memory nothing changes.
    fn add(&mut self, at: Location, index: Option<u32>, value: Bits) -> Result<(), AllocError>
        requires stands { MayStand at value.width }
        requires new { map.contains_key self.old (place at index) ≡ false }
        ensures ok { OnOk result (self.new ≡ map.insert self.old (place at index) (word value)) }
        ensures err { OnErr result (self.new ≡ self.old) }
    {
        self.slots.reserve(1)?;
        self.chains.push(parts(&at).hash(index))?;
        self.slots.push_reserved(Slot { at, index, value });
        Ok(())
    }

    /// The value of a location.
    fn value_at(&self, spot: &LocationRef, index: Option<u32>) -> Option<Bits>
        ensures { option_map word result ≡ map.get self.now (place (seen_ref spot.now) index) }
    {
        match find(&self.slots, &self.chains, spot, index) {
            Some(k) => Some(self.slots[k].value),
            None => None,
        }
    }

    /// Gives a location that is there another value.
    fn change(&mut self, spot: &LocationRef, index: Option<u32>, value: Bits) -> bool
        requires { MayStand (seen_ref spot.now) value.width }
        ensures there { result ≡ map.contains_key self.old (place (seen_ref spot.now) index) }
        ensures now { self.new ≡ put_if result self.old (ref_place spot.now index) (word value) }
    {
        match find(&self.slots, &self.chains, spot, index) {
            Some(k) => {
                overwrite(&mut self.slots, k, value);
                true
            }
            None => false,
        }
    }

    /// Whether both vectors have the same locations.
    fn has_places_of(&self, other: &Vector) -> bool
        ensures { IsTrue result ↔ SamePlaces self.now other.now }
    {
        other.has_all(&self.slots) && self.has_all(&other.slots)
    }

    /// Whether the location of each slot is there.
    fn has_all(&self, slots: &[Slot]) -> bool
        ensures { let known = places (entries slots.now) in
            IsTrue result ↔ ((k : ℕ) → k < length known → IsTrue (map.contains_key self.now (slice_index_or known k []))) }
    {
        for slot in slots {
            if self.value_at(&parts(&slot.at), slot.index).is_none() {
                return false;
            }
        }
        true
    }

    /// The value at a slot's location, and that of the slot where the location isn't there.
    fn value_for(&self, slot: &Slot) -> Bits
        ensures { word result ≡ (word_from self.now (entry slot.now)).1 }
    {
        match self.value_at(&parts(&slot.at), slot.index) {
            Some(value) => value,
            None => slot.value,
        }
    }

    /// Gives each slot the value at its location.
    fn give_to(&self, slots: &mut [Slot])
        ensures { entries slots.new ≡ list_map (word_from self.now) (entries slots.old) }
    {
        for k in 0..slots.len() {
            let value = self.value_for(&slots[k]);
            overwrite(slots, k, value);
        }
    }
}
