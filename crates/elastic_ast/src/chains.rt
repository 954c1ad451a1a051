//! An index over a list of hashes, by which things with a key are found in expected constant time and without memory.

ghost use Rattle.std.specs.Prelude.{◌≡◌, ◌<◌, ℕ, [], ◌∷◌, ◌++◌, length, take, slice_index, OnOk, OnErr};
ghost use Rattle.elastic_ast.specs.Containers.LastWith.{IsPassing, last_with};

use std::alloc::{AllocError, Global};
use std::collections::HashMap;
use std::marker::Model;

/// How many places there can be: their numbers are kept in 32 bits.
const MOST_PLACES: usize = 0x1_0000_0000;

/// The hash at a place, and the place before it with the same hash.
#[derive(Clone, Copy, Debug)]
struct Link {
    hash: u64,
    before: Option<u32>,
}

/// A list of hashes that tells the places of each hash, from the last one down. A contract sees it as the list.
#[derive(Drop)]
pub struct Chains {
    heads: HashMap<u64, u32>,
    links: Vec<Link>,
}

impl Model for Chains {
    ghost use Rattle.std.specs.Prelude.{List, ℕ, nat_eq};
    ghost use Rattle.std.specs.HashMap.{get};

    ghost Value = { List ℕ };

    ghost use Rattle.elastic_ast.specs.Containers.Linked.{hashes, Linked};

    ghost view = { λ chains. hashes chains.links.items };

    ghost invariant = { λ chain. Linked (λ hash. get nat_eq chain.heads hash) chain.links.items };
}

impl Chains {
    /// The empty list. It takes no memory.
    pub fn new(alloc: Global) -> Chains
        ensures { result ≡ [] }
    {
        Chains {
            heads: HashMap::new(alloc),
            links: Vec::new(alloc),
        }
    }

    /// Appends a hash. For want of memory the list stays; more than 2 to the 32 places count as want of memory.
    pub fn push(&mut self, hash: u64) -> Result<(), AllocError>
        ensures ok { OnOk result (self.new ≡ self.old ++ hash ∷ []) }
        ensures err { OnErr result (self.new ≡ self.old) }
    {
        let place = self.links.len();
        if place >= MOST_PLACES {
            return Err(AllocError);
        }
        self.links.reserve(1)?;
        let before = self.heads.get(&hash).copied();
        self.heads.insert(hash, place as u32)?;
        self.links.push_reserved(Link { hash, before });
        Ok(())
    }

    /// How many hashes there are.
    pub fn len(&self) -> usize
        ensures { result ≡ length self.now }
    {
        self.links.len()
    }

    /// A place with this hash that passes a test. Only places with this hash are tested.
    pub fn find<F: Fn(usize) -> bool>(&self, hash: u64, test: F) -> Option<usize>
        requires { (place : ℕ) → place < length self.now → F.pre test place }
        ensures { IsPassing (F.post test) self.now hash result }
    {
        let mut next = self.last(hash);
        'places: while let Some(place) = next {
            if test(place) {
                return Some(place);
            }
            next = self.before(place);
        }
        None
    }

    /// The greatest place with this hash.
    fn last(&self, hash: u64) -> Option<usize>
        ensures { result ≡ last_with hash self.now }
    {
        match self.heads.get(&hash) {
            Some(place) => Some(*place as usize),
            None => None,
        }
    }

    /// The greatest place below this one with the same hash.
    fn before(&self, place: usize) -> Option<usize>
        requires { place < length self.now }
        ensures { result ≡ last_with (slice_index self.now place) (take place self.now) }
    {
        match self.links[place].before {
            Some(before) => Some(before as usize),
            None => None,
        }
    }
}
