ghost use Rattle.std.specs.Prelude.{◌≡◌, ◌≢◌, ◌+◌, ◌≤◌, ◌^◌, Some, Err, option_map, IfOk, OnOk, OnErr, length};
ghost use Rattle.std.specs.FinMap as map;
ghost use Rattle.elx_io.specs.Files.{IsReadOf};

use crate::file_list::{FileList, first_bytes};
use crate::shelf::{Shelf, ShelfErr};
use elx_bits::Items;
use std::alloc::{AllocError, Global};
use std::marker::Model;

/// A shelf in memory that never fails, and reads a name that it lacks as no bytes. A contract sees it as the map from
/// names to bytes.
#[derive(Debug, Drop)]
pub struct SafeShelf {
    files: FileList,
}

impl Model for SafeShelf {
    ghost use Rattle.std.specs.Coded.{coded_list, coded_ℕ};
    ghost use Rattle.std.specs.FinMap as map;
    ghost use Rattle.elx_io.specs.Files.{Files};

    ghost Value = { Files };

    ghost coded = { map.code (coded_list coded_ℕ) (coded_list coded_ℕ) };

    ghost view = { λ shelf. shelf.files };
}

impl SafeShelf {
    /// A shelf with no files. It takes no memory.
    pub fn new(alloc: Global) -> SafeShelf
        ensures { result ≡ map.empty }
    {
        SafeShelf {
            files: FileList::new(alloc),
        }
    }

    /// Sets one file. For want of memory the shelf stays.
    pub fn put_file(&mut self, name: &str, bytes: &[u8]) -> Result<(), AllocError>
        ensures ok { OnOk result (self.new ≡ map.insert self.old name.now bytes.now) }
        ensures err { OnErr result (self.new ≡ self.old) }
    {
        self.files.set(name, bytes)
    }

    /// The bytes of one file, or None where the shelf has no file of that name.
    pub fn file(&self, name: &str) -> Option<&[u8]>
        ensures { option_map (λ bytes. bytes.now) result ≡ map.get self.now name.now }
    {
        self.files.find(name)
    }
}

impl Shelf for SafeShelf {
    ghost holds = { λ files. Some files };

    ghost faults = { λ _. 0 };

    /// The one refusal is `Memory`.
    fn read(&mut self, alloc: Global, name: &str, most: u64) -> Result<Items<u8>, ShelfErr>
        requires { most ≤ 2 ^ 62 }
        ensures bytes { IfOk result (IsReadOf (Some self.old) name.now most) }
        ensures length { IfOk result (λ bytes. length bytes ≤ most + 1) }
        ensures kept { self.new ≡ self.old }
        ensures safe { result ≢ Err ShelfErr.Failed }
    {
        first_bytes(alloc, self.files.find(name).unwrap_or(&[]), most)
    }

    /// The one refusal is `Memory`, and then the files are as before.
    fn write(&mut self, name: &str, bytes: &[u8]) -> Result<(), ShelfErr>
        ensures ok { OnOk result (self.new ≡ map.insert self.old name.now bytes.now) }
        ensures err { OnErr result (self.new ≡ self.old) }
        ensures safe { result ≢ Err ShelfErr.Failed }
    {
        Ok(self.files.set(name, bytes)?)
    }
}

#[cfg(test)]
mod tests {
    use super::*;
    use std::test::Fail;

    #[test]
    fn an_absent_file_reads_as_no_bytes(rt: HostRuntime) -> Result<(), Fail> {
        let mut shelf = SafeShelf::new(rt.alloc());
        shelf.put_file("a", b"old")?;
        shelf.write("a", b"abc")?;
        assert_eq!(rt;
            shelf.read(rt.alloc(), "a", 1)?.as_slice(),
            b"ab".as_slice()
        );
        assert_eq!(rt; shelf.read(rt.alloc(), "b", 1)?.as_slice(), b"".as_slice());
        assert_eq!(rt; shelf.file("a").ok_or("a")?, b"abc".as_slice());
        assert!(rt; shelf.file("b").is_none());
        Ok(())
    }
}
