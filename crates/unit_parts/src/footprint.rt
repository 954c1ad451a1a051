//! The locations that a unit reads, or those that it may assign, each once.

ghost use Rattle.std.specs.Prelude.{◌≡◌, [], ◌++◌, OnOk, map};
ghost use Rattle.elastic_ast.specs.Containers.LocationRefs.{seen_ref};
ghost use Rattle.elastic_ast.specs.Units.Reach.{is_among};
ghost use Rattle.unit_parts.specs.Gathered.{with_location};

use elastic_ast::{Chains, LocationRef};
use std::alloc::{AllocError, Global};
use std::marker::Model;

/// Locations, each once, in the order in which they came first. They are found by their hashes. A contract sees the list
/// of them.
#[derive(Drop)]
pub struct Footprint<'a> {
    locations: Vec<LocationRef<'a>>,
    chains: Chains,
}

impl<'a> Model for Footprint<'a> {
    ghost use Rattle.std.specs.Prelude.{List, map};
    ghost use Rattle.std.specs.Coded.{coded_list};
    ghost use Rattle.elastic_ast.specs.declared.flat.Location.{Location};
    ghost use Rattle.elastic_ast.specs.contracts.flat.Location as location;
    ghost use Rattle.elastic_ast.specs.Containers.LocationRefs.{seen_ref};
    ghost use Rattle.unit_parts.specs.Gathered.{HasHashes};

    ghost Value = { List Location };

    ghost coded = { coded_list location.the_row.coded };

    ghost view = { λ footprint. map seen_ref footprint.locations.items };

    ghost invariant = { λ footprint. HasHashes footprint.chains (map seen_ref footprint.locations.items) };
}

impl<'a> Footprint<'a> {
    /// No locations. It takes no memory.
    pub fn new(alloc: Global) -> Footprint<'a>
        ensures { result ≡ [] }
    {
        Footprint {
            locations: Vec::new(alloc),
            chains: Chains::new(alloc),
        }
    }

    /// Whether a location is among them.
    fn has(&self, at: &LocationRef<'_>) -> bool
        ensures { result ≡ is_among self.now (seen_ref at.now) }
    {
        let locations = self.locations.as_slice();
        self.chains
            .find(at.hash(None), |place| locations[place].same(at))
            .is_some()
    }

    /// Adds a location, if it isn't among them.
    pub fn add(&mut self, at: LocationRef<'a>) -> Result<(), AllocError>
        ensures { OnOk result (self.new ≡ with_location self.old (seen_ref at.entry)) }
    {
        if self.has(&at) {
            return Ok(());
        }
        self.locations.reserve(1)?;
        self.chains.push(at.hash(None))?;
        self.locations.push_reserved(at);
        Ok(())
    }

    /// The locations, in order.
    pub fn locations(&self) -> &[LocationRef<'a>]
        ensures { map seen_ref result.now ≡ self.now }
    {
        self.locations.as_slice()
    }
}
