ghost use Rattle.std.specs.Prelude.{◌≡◌, ◌≢◌, ◌+◌, ◌≤◌, ◌^◌, [], Err, IfOk, OnOk, OnErr, option_map, length, take};
ghost use Rattle.std.specs.FinMap as map;
ghost use Rattle.elx_io.specs.Places.{place_in};

use crate::shelf::ShelfErr;
use elx_bits::{Items, Name};
use std::alloc::{AllocError, Global};
use std::marker::Model;

/// Files in memory. A contract sees them as the map from names to bytes.
#[derive(Debug, Drop)]
pub struct FileList {
    alloc: Global,
    kept: Vec<(Name, Items<u8>)>,
}

impl Model for FileList {
    ghost use Rattle.std.specs.Coded.{coded_list, coded_ℕ};
    ghost use Rattle.std.specs.FinMap as map;
    ghost use Rattle.elx_io.specs.Files.{Files, files_of};

    ghost Value = { Files };

    ghost coded = { map.code (coded_list coded_ℕ) (coded_list coded_ℕ) };

    ghost view = { λ list. files_of list.kept.items };
}

impl FileList {
    /// No files. It takes no memory.
    pub fn new(alloc: Global) -> FileList
        ensures { result ≡ map.empty }
    {
        FileList {
            alloc,
            kept: Vec::new(alloc),
        }
    }

    /// The bytes of one file, or None where there is no file of that name.
    pub fn find(&self, name: &str) -> Option<&[u8]>
        ensures { option_map (λ bytes. bytes.now) result ≡ map.get self.now name.now }
    {
        let place = place_of(self.kept.as_slice(), name)?;
        Some(self.kept[place].1.as_slice())
    }

    /// Sets one file. For want of memory all files stay.
    pub fn set(&mut self, name: &str, bytes: &[u8]) -> Result<(), AllocError>
        ensures ok { OnOk result (self.new ≡ map.insert self.old name.now bytes.now) }
        ensures err { OnErr result (self.new ≡ self.old) }
    {
        let bytes = Items::from_vec(Vec::from_slice(self.alloc, bytes)?);
        match place_of(self.kept.as_slice(), name) {
            Some(place) => self.kept[place].1 = bytes,
            None => {
                let name = Name::of(self.alloc, name.as_bytes())?;
                self.kept.push((name, bytes))?;
            }
        }
        Ok(())
    }
}

fn place_of(kept: &[(Name, Items<u8>)], name: &str) -> Option<usize>
    ensures { result ≡ place_in kept.now name.now }
{
    kept.iter()
        .position(|entry| name.as_bytes() == entry.0.as_slice())
}

/// The first `most + 1` bytes, or all where there are fewer. The one refusal is `Memory`.
pub fn first_bytes(alloc: Global, bytes: &[u8], most: u64) -> Result<Items<u8>, ShelfErr>
    requires { most ≤ 2 ^ 62 }
    ensures bytes { IfOk result (λ front. front ≡ take (most + 1) bytes.now) }
    ensures length { IfOk result (λ front. length front ≤ most + 1) }
    ensures refused { result ≢ Err ShelfErr.Failed }
{
    let count = bytes.len().min(most as usize + 1);
    Ok(Items::from_vec(Vec::from_slice(alloc, &bytes[..count])?))
}
