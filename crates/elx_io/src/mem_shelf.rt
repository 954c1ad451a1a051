ghost use Rattle.std.specs.Prelude.{◌≡◌, ◌↔◌, ◌+◌, ◌≤◌, ◌^◌, [], ◌∷◌, ◌++◌, Some, option_map, IfOk, OnOk, OnErr, IsErrOf, length};
ghost use Rattle.std.specs.FinMap as map;
ghost use Rattle.std.specs.FinMap.{insert};
ghost use Rattle.elx_io.specs.Call.{Read, Write};
ghost use Rattle.elx_io.specs.Counts.{ShelfCountsEach, counted};
ghost use Rattle.elx_io.specs.Faulty.{ReadFails, WriteFails, with_file};
ghost use Rattle.elx_io.specs.Files.{IsReadOf};

use crate::call_log::{CallLog, Made};
use crate::failing::FailingCalls;
use crate::file_list::{FileList, first_bytes};
use crate::shelf::{Shelf, ShelfErr};
use elx_bits::Items;
use std::alloc::{AllocError, Global};
use std::marker::Model;

/// A shelf in memory whose calls fail at given numbers, and whose reads of a name that it lacks fail too. A contract
/// sees its files, those numbers, how many calls were made, how many faults there were, and the calls.
#[derive(Debug, Drop)]
pub struct MemShelf {
    files: FileList,
    calls: FailingCalls,
    log: CallLog,
}

impl Model for MemShelf {
    ghost use Rattle.elx_io.specs.Faulty.{FaultyShelf, shelf_code};

    ghost Value = { FaultyShelf };

    ghost coded = { shelf_code };

    ghost view = { λ shelf. record {
      content = shelf.files;
      failing = shelf.calls.listed;
      calls = shelf.calls.made;
      faults = shelf.calls.faults;
      told = shelf.log.calls;
    } };
}

impl MemShelf {
    /// A shelf with no files. `fails` has the numbers of the calls that are to fail, from 1. It takes no memory.
    pub fn new(alloc: Global, fails: Items<u64>) -> MemShelf
        ensures content { result.content ≡ map.empty }
        ensures failing { result.failing ≡ fails }
        ensures calls { result.calls ≡ 0 }
        ensures faults { result.faults ≡ 0 }
        ensures told { result.told ≡ [] }
    {
        MemShelf {
            files: FileList::new(alloc),
            calls: FailingCalls::new(fails),
            log: CallLog::new(),
        }
    }

    /// Sets one file. It isn't counted as a call. For want of memory the shelf stays.
    pub fn put_file(&mut self, name: &str, bytes: &[u8]) -> Result<(), AllocError>
        ensures ok { OnOk result (self.new ≡ with_file name.now bytes.now self.old) }
        ensures err { OnErr result (self.new ≡ self.old) }
    {
        self.files.set(name, bytes)
    }

    /// The bytes of one file, or None where the shelf has no file of that name. It isn't counted as a call.
    pub fn file(&self, name: &str) -> Option<&[u8]>
        ensures { option_map (λ bytes. bytes.now) result ≡ map.get self.now.content name.now }
    {
        self.files.find(name)
    }
}

impl Shelf for MemShelf {
    ghost holds = { λ shelf. Some shelf.content };

    ghost faults = { λ shelf. shelf.faults };

    ghost told = { λ shelf. Some shelf.told };

    /// `Failed` comes at the listed calls and where the shelf lacks the name.
    fn read(&mut self, alloc: Global, name: &str, most: u64) -> Result<Items<u8>, ShelfErr>
        requires { most ≤ 2 ^ 62 }
        ensures bytes { IfOk result (IsReadOf (Some self.old.content) name.now most) }
        ensures length { IfOk result (λ bytes. length bytes ≤ most + 1) }
        ensures content { self.new.content ≡ self.old.content }
        ensures counts { ShelfCountsEach self.old.faults self.new.faults result }
        ensures failed { IsErrOf result ShelfErr.Failed ↔ ReadFails name.now self.old }
        ensures calls { self.new.calls ≡ counted self.old.calls }
        ensures failing { self.new.failing ≡ self.old.failing }
        ensures told { self.new.told ≡ self.old.told ++ Read name.now ∷ [] }
    {
        self.log = self.log.then(&Made::Read(name));
        if self.calls.fails_now() {
            return Err(ShelfErr::Failed);
        }
        match self.files.find(name) {
            Some(bytes) => first_bytes(alloc, bytes, most),
            None => {
                self.calls.count_fault();
                Err(ShelfErr::Failed)
            }
        }
    }

    /// `Failed` comes at the listed calls. After a refusal the files are as before.
    fn write(&mut self, name: &str, bytes: &[u8]) -> Result<(), ShelfErr>
        ensures ok { OnOk result (self.new.content ≡ insert self.old.content name.now bytes.now) }
        ensures err { OnErr result (self.new.content ≡ self.old.content) }
        ensures counts { ShelfCountsEach self.old.faults self.new.faults result }
        ensures failed { IsErrOf result ShelfErr.Failed ↔ WriteFails self.old }
        ensures calls { self.new.calls ≡ counted self.old.calls }
        ensures failing { self.new.failing ≡ self.old.failing }
        ensures told { self.new.told ≡ self.old.told ++ Write name.now bytes.now ∷ [] }
    {
        self.log = self.log.then(&Made::Write(name, bytes));
        if self.calls.fails_now() {
            return Err(ShelfErr::Failed);
        }
        Ok(self.files.set(name, bytes)?)
    }
}

#[cfg(test)]
mod tests {
    use super::*;
    use std::test::Fail;

    #[test]
    fn a_shelf_keeps_its_files_and_reads_their_first_bytes(rt: HostRuntime) -> Result<(), Fail> {
        let mut shelf = MemShelf::new(rt.alloc(), Items::new(rt.alloc()));
        shelf.put_file("a", b"old")?;
        shelf.write("b", b"other")?;
        shelf.write("a", b"abc")?;
        for (most, want) in [(0, b"a".as_slice()), (1, b"ab"), (2, b"abc"), (3, b"abc")] {
            let bytes = shelf.read(rt.alloc(), "a", most)?;
            assert_eq!(rt; bytes.as_slice(), want, "at {most}");
        }
        assert_eq!(rt; shelf.file("b").ok_or("b")?, b"other".as_slice());
        assert!(rt; shelf.file("c").is_none());
        Ok(())
    }

    #[test]
    fn only_the_listed_calls_and_the_reads_of_absent_files_fail(
        rt: HostRuntime,
    ) -> Result<(), Fail> {
        let fails = Items::from_vec([2, 3].to_vec(rt.alloc())?);
        let mut shelf = MemShelf::new(rt.alloc(), fails);
        shelf.write("a", b"first")?;
        assert_eq!(rt; shelf.write("a", b"second"), Err(ShelfErr::Failed));
        assert!(rt; matches!(shelf.read(rt.alloc(), "a", 9), Err(ShelfErr::Failed)));
        assert_eq!(rt;
            shelf.read(rt.alloc(), "a", 9)?.as_slice(),
            b"first".as_slice()
        );
        assert!(rt; matches!(shelf.read(rt.alloc(), "b", 9), Err(ShelfErr::Failed)));
        shelf.write("b", b"")?;
        assert_eq!(rt; shelf.read(rt.alloc(), "b", 9)?.as_slice(), b"".as_slice());
        Ok(())
    }
}
