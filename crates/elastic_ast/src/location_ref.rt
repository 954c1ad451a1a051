//! Locations by their parts, which are borrowed: a look-up from a statement needs no location of its own.

ghost use Rattle.std.specs.Prelude.{◌≡◌, ◌↔◌, ℕ, [], ◌∷◌, IsTrue};
ghost use Rattle.elastic_ast.specs.Containers.LocationPlaces.{place, place_of_lval, index_code, flag_code};
ghost use Rattle.elastic_ast.specs.Containers.Vectors.{MayStand};
ghost use Rattle.elastic_ast.specs.Containers.Fnv.{fnv, fnv_start};
ghost use Rattle.elastic_ast.specs.Containers.Slots.{place_hash};
ghost use Rattle.elastic_ast.specs.Containers.LocationRefs.{seen_ref};

use crate::flat::Location;
use crate::key_hash::{HASH_START, hash_bytes, hash_word};
use crate::statements::Lval;
use elx_bits::Name;

/// A location, by its parts.
#[derive(Clone, Copy)]
pub enum LocationRef<'a> {
    Header { header: &'a Name, field: &'a Name },
    Valid { header: &'a Name },
    Meta { name: &'a Name, own: bool },
    Std { name: &'a Name },
    Pred { number: u32, own: bool },
    Reg { name: &'a Name, own: bool },
}

/// The parts of a location.
pub fn parts(at: &Location) -> LocationRef<'_>
    ensures { seen_ref result ≡ at.now }
{
    match at {
        Location::Header { header, field } => LocationRef::Header { header, field },
        Location::Valid { header } => LocationRef::Valid { header },
        Location::Meta { name, own } => LocationRef::Meta { name, own: *own },
        Location::Std { name } => LocationRef::Std { name },
        Location::Pred { number, own } => LocationRef::Pred {
            number: *number,
            own: *own,
        },
        Location::Reg { name, own } => LocationRef::Reg { name, own: *own },
    }
}

/// The parts of the location that a statement names, and its index: only an element of an array has the given one.
pub fn parts_of_lval(at: &Lval, index: Option<u32>) -> (LocationRef<'_>, Option<u32>)
    ensures place { place (seen_ref result.0) result.1 ≡ place_of_lval at.now index }
    ensures stands { (width : ℕ) → MayStand (seen_ref result.0) width }
{
    match at {
        Lval::Header { header, field } => (LocationRef::Header { header, field }, None),
        Lval::Meta { name, index: None } => (LocationRef::Meta { name, own: false }, None),
        Lval::Meta {
            name,
            index: Some(_),
        } => (LocationRef::Meta { name, own: true }, index),
        Lval::Std(name) => (LocationRef::Std { name }, None),
    }
}

impl LocationRef<'_> {
    /// The hash of the location at an index.
    pub fn hash(&self, index: Option<u32>) -> u64
        ensures { result ≡ place_hash (place (seen_ref self.now) index) }
    {
        let code = index_number(index);
        match self {
            LocationRef::Header { header, field } => {
                let length = header.as_slice().len() as u64;
                let first = hash_bytes(three(0, code, length), header.as_slice());
                hash_bytes(first, field.as_slice())
            }
            LocationRef::Valid { header } => hash_bytes(two(1, code), header.as_slice()),
            LocationRef::Meta { name, own } => hash_bytes(
                three(2, code, flag_number(*own)),
                name.as_slice(),
            ),
            LocationRef::Std { name } => hash_bytes(two(3, code), name.as_slice()),
            LocationRef::Pred { number, own } => {
                hash_word(three(4, code, flag_number(*own)), u64::from(*number))
            }
            LocationRef::Reg { name, own } => hash_bytes(
                three(5, code, flag_number(*own)),
                name.as_slice(),
            ),
        }
    }

    /// Whether both are one location.
    pub fn same(&self, other: &LocationRef) -> bool
        ensures { IsTrue result ↔ (seen_ref self.now ≡ seen_ref other.now) }
    {
        match (self, other) {
            (
                LocationRef::Header { header, field },
                LocationRef::Header {
                    header: other_header,
                    field: other_field,
                },
            ) => header.same(other_header) && field.same(other_field),
            (LocationRef::Valid { header }, LocationRef::Valid { header: other }) => header.same(
                other,
            ),
            (
                LocationRef::Meta { name, own },
                LocationRef::Meta {
                    name: other,
                    own: owned,
                },
            ) => { own == owned && name.same(other) }
            (LocationRef::Std { name }, LocationRef::Std { name: other }) => name.same(other),
            (
                LocationRef::Pred { number, own },
                LocationRef::Pred {
                    number: other,
                    own: owned,
                },
            ) => { own == owned && number == other }
            (
                LocationRef::Reg { name, own },
                LocationRef::Reg {
                    name: other,
                    own: owned,
                },
            ) => { own == owned && name.same(other) }
            _ => false,
        }
    }
}

/// The hash of two numbers.
fn two(first: u64, second: u64) -> u64
    ensures { result ≡ fnv fnv_start (first ∷ second ∷ []) }
{
    hash_word(hash_word(HASH_START, first), second)
}

/// The hash of three numbers.
fn three(first: u64, second: u64, third: u64) -> u64
    ensures { result ≡ fnv fnv_start (first ∷ second ∷ third ∷ []) }
{
    hash_word(two(first, second), third)
}

/// The number that stands for an index in a place.
fn index_number(index: Option<u32>) -> u64
    ensures { result ≡ index_code index }
{
    match index {
        None => 0,
        Some(index) => u64::from(index) + 1,
    }
}

/// The number that stands for a flag in a place.
fn flag_number(own: bool) -> u64
    ensures { result ≡ flag_code own }
{
    if own { 1 } else { 0 }
}
