ghost use Rattle.std.specs.Prelude.{None};

use crate::edge::Edge;
use crate::shelf::{Shelf, ShelfErr};
use crate::whole::{read_front, write_whole};
use elx_bits::Items;
use std::alloc::Global;
use std::fs;
use std::rt::Files;

/// The files of the folder that the program runs in. It tells no content and no calls. A file that can't be opened, read or
/// written whole is a fault, and so is a read or a write that a signal interrupts a million times over.
pub type FolderShelf<'a, R> = Edge<'a, R>;

impl<R: Files> Shelf for Edge<'_, R> {
    ghost holds = { λ _. None };

    ghost faults = { λ count. count };

    fn read(&mut self, alloc: Global, name: &str, most: u64) -> Result<Items<u8>, ShelfErr> {
        let result = match fs::open(self.rt, name) {
            Ok(mut file) => read_front(&mut file, alloc, most as usize + 1),
            Err(_) => Err(ShelfErr::Failed),
        };
        if let Err(ShelfErr::Failed) = result {
            self.count_fault();
        }
        result
    }

    fn write(&mut self, name: &str, bytes: &[u8]) -> Result<(), ShelfErr> {
        if let Ok(mut file) = fs::create(self.rt, name)
            && write_whole(&mut file, bytes)
        {
            return Ok(());
        }
        self.count_fault();
        Err(ShelfErr::Failed)
    }
}

#[cfg(test)]
mod tests {
    use super::*;
    use std::test::Fail;

    #[test]
    fn a_written_file_is_read_back_and_an_absent_one_fails(rt: HostRuntime) -> Result<(), Fail> {
        let mut shelf = FolderShelf::new(&rt);
        let long = [7u8; 10_000];
        shelf.write("elx_io_test_file", &long)?;
        shelf.write("elx_io_test_file", b"abc")?;
        for (most, want) in [(0, b"a".as_slice()), (2, b"abc"), (9, b"abc")] {
            let bytes = shelf.read(rt.alloc(), "elx_io_test_file", most)?;
            assert_eq!(rt; bytes.as_slice(), want, "at {most}");
        }
        shelf.write("elx_io_test_file", &long)?;
        let bytes = shelf.read(rt.alloc(), "elx_io_test_file", 65_535)?;
        assert_eq!(rt; bytes.as_slice(), long.as_slice());
        fs::remove_file(&rt, "elx_io_test_file")?;
        let absent = shelf.read(rt.alloc(), "elx_io_test_file", 9);
        assert!(rt; matches!(absent, Err(ShelfErr::Failed)));
        assert_eq!(rt; shelf.faults, 1);
        Ok(())
    }
}
