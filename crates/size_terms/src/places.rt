//! The places of symbols, by their names.

ghost use Rattle.std.specs.Prelude.{◌≡◌, IfOk};
ghost use Rattle.size_terms.specs.Places.{place_of as place_of_all};

use elx_bits::Name;
use indexmap::IndexMap;
use program_names::enter;
use std::alloc::{AllocError, Global};
use std::marker::Model;

/// The symbols of a program, with a table of their places. A contract sees the list of their names.
#[derive(Drop)]
pub struct Places<'a> {
    symbols: &'a [Name],
    table: IndexMap<&'a [u8], usize>,
}

impl<'a> Model for Places<'a> {
    ghost use Rattle.std.specs.Prelude.{List, ℕ};
    ghost use Rattle.std.specs.Coded.{coded_list, coded_ℕ};
    ghost use Rattle.size_terms.specs.Places.{HasPlaces};

    ghost Value = { List (List ℕ) };

    ghost coded = { coded_list (coded_list coded_ℕ) };

    ghost view = { λ places. places.symbols.now };

    ghost invariant = { λ places. HasPlaces places.symbols.now places.table.entries };
}

impl<'a> Places<'a> {
    /// The table of the places of some symbols.
    pub fn of(alloc: Global, symbols: &'a [Name]) -> Result<Places<'a>, AllocError>
        ensures { IfOk result (λ places. places ≡ symbols.now) }
    {
        let mut table: IndexMap<&'a [u8], usize> = IndexMap::new(alloc);
        for (place, symbol) in symbols.iter().enumerate() {
            enter(&mut table, symbol.as_slice(), place)?;
        }
        Ok(Places { symbols, table })
    }

    /// The place of the first symbol of this name.
    pub fn place_of(&self, name: &Name) -> Option<usize>
        ensures { result ≡ place_of_all self.now name.now }
    {
        // A field is named, so that what holds of the fields is known.
        let _ = &self.symbols;
        self.table.get(name.as_slice()).copied()
    }
}
