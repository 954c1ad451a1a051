//! The names of one scope, each with its place.

ghost use Rattle.std.specs.Prelude.{◌≡◌, false, true, [], ◌∷◌, ◌++◌, IfOk, OnOk, OnErr};
ghost use Rattle.std.specs.Option.{option_copied};
ghost use Rattle.elastic_ast.specs.Typing.Scope.{among};
ghost use Rattle.program_names.specs.Distinct.{are_distinct};
ghost use Rattle.program_names.specs.Named.{FindsNamed, HasSameNames, place_of};

use elx_bits::Name;
use indexmap::IndexMap;
use std::alloc::{AllocError, Global};
use std::marker::Model;

/// Names of one scope, no two of them the same, which are found by their hashes. A contract sees the list of them.
#[derive(Drop)]
pub struct NamePlaces {
    alloc: Global,
    places: IndexMap<Vec<u8>, ()>,
}

impl Model for NamePlaces {
    ghost use Rattle.std.specs.Prelude.{◌≡◌, List, true};
    ghost use Rattle.std.specs.Coded.{coded_list, coded_ℕ};
    ghost use Rattle.elastic_ast.specs.Tree.{Name};
    ghost use Rattle.program_names.specs.Distinct.{are_distinct};
    ghost use Rattle.program_names.specs.Named.{texts};

    ghost Value = { List Name };

    ghost coded = { coded_list (coded_list coded_ℕ) };

    ghost view = { λ names. texts names.places.entries };

    ghost invariant = { λ names. are_distinct (texts names.places.entries) ≡ true };
}

impl NamePlaces {
    /// No names. It takes no memory.
    pub fn new(alloc: Global) -> NamePlaces
        ensures { result ≡ [] }
    {
        NamePlaces {
            alloc,
            places: IndexMap::new(alloc),
        }
    }

    /// Adds a name that isn't among them. For want of memory they stay.
    pub fn add(&mut self, name: &Name) -> Result<(), AllocError>
        requires { among self.old name.now ≡ false }
        ensures ok { OnOk result (self.new ≡ self.old ++ name.now ∷ []) }
        ensures err { OnErr result (self.new ≡ self.old) }
    {
        let key = Vec::from_slice(self.alloc, name.as_slice())?;
        if self.places.insert(key, ()).is_err() {
            return Err(AllocError);
        }
        Ok(())
    }

    /// Adds a name, if it isn't among them.
    fn add_once(&mut self, name: &Name) -> Result<(), AllocError>
        ensures { OnOk result (HasSameNames (self.old ++ name.now ∷ []) self.new) }
    {
        if self.has(name) {
            return Ok(());
        }
        self.add(name)
    }

    /// The names of a list, each once.
    pub fn of_all(alloc: Global, names: &[Name]) -> Result<NamePlaces, AllocError>
        ensures { IfOk result (HasSameNames names.now) }
    {
        let mut set = NamePlaces::new(alloc);
        for name in names {
            set.add_once(name)?;
        }
        Ok(set)
    }

    /// Whether a name is among them.
    pub fn has(&self, name: &Name) -> bool
        ensures { result ≡ among self.now name.now }
    {
        self.places.contains_key(name.as_slice())
    }

    /// The place of a name.
    pub fn find(&self, name: &Name) -> Option<usize>
        ensures place { result ≡ place_of self.now name.now }
        ensures distinct { are_distinct self.now ≡ true }
    {
        self.places.get_index_of(name.as_slice())
    }
}

/// The first of some things that has a name, where the names are those of the things, or of more.
pub fn thing_named<'a, T>(things: &'a [T], names: &NamePlaces, name: &Name) -> Option<&'a T>
    ensures here { FindsNamed names.now things.now name.now (option_copied result) }
    ensures distinct { are_distinct names.now ≡ true }
{
    match names.find(name) {
        Some(place) => things.get(place),
        None => None,
    }
}
