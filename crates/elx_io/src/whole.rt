//! Reads and writes that go on until all is done.
ghost use Rattle.std.specs.Prelude.{◌≤◌, IfOk, IfSome, length};

use crate::shelf::ShelfErr;
use elx_bits::Items;
use std::alloc::Global;
use std::io::{ErrorKind, Read, Write};

/// How often a read or a write is tried while a signal interrupts it, before it counts as failed.
const TRIES: u32 = 1_000_000;

/// The bytes that one read asks for.
const PIECE: usize = 4096;

/// The first `limit` bytes of a file, or all where there are fewer. A read that gives no byte is the end.
pub fn read_front<F: Read>(file: &mut F, alloc: Global, limit: usize) -> Result<Items<u8>, ShelfErr>
    ensures { IfOk result (λ bytes. length bytes ≤ limit) }
{
    let mut bytes = Vec::new(alloc);
    let mut piece = [0u8; PIECE];
    while bytes.len() < limit {
        let want = PIECE.min(limit - bytes.len());
        let count = read_some(file, &mut piece[..want]).ok_or(ShelfErr::Failed)?;
        if count == 0 {
            break;
        }
        bytes.extend_from_slice(&piece[..count])?;
    }
    Ok(Items::from_vec(bytes))
}

fn read_some<F: Read>(file: &mut F, piece: &mut [u8]) -> Option<usize>
    ensures { IfSome result (λ count. count ≤ length piece.new) }
{
    for _ in 0..TRIES {
        match file.read(piece) {
            Ok(count) => return Some(count),
            Err(error) if error.kind() == ErrorKind::Interrupted => {}
            Err(_) => return None,
        }
    }
    None
}

/// Whether all bytes were written. A write that takes no byte has failed.
pub fn write_whole<W: Write>(to: &mut W, bytes: &[u8]) -> bool {
    let mut rest = bytes;
    while !rest.is_empty() {
        match write_some(to, rest) {
            Some(count) if count > 0 => rest = &rest[count..],
            _ => return false,
        }
    }
    true
}

fn write_some<W: Write>(to: &mut W, bytes: &[u8]) -> Option<usize>
    ensures { IfSome result (λ count. count ≤ length bytes.now) }
{
    for _ in 0..TRIES {
        match to.write(bytes) {
            Ok(count) => return Some(count),
            Err(error) if error.kind() == ErrorKind::Interrupted => {}
            Err(_) => return None,
        }
    }
    None
}

#[cfg(test)]
mod tests {
    use super::*;
    use std::io;

    /// Reads and writes one byte at a time, is interrupted at every second call, and stops at a given call, where a
    /// read is at the end and a write takes nothing.
    #[derive(Drop)]
    struct Slow {
        calls: u32,
        stops: u32,
    }

    impl Slow {
        fn step(&mut self, length: usize) -> io::Result<usize>
            ensures { IfOk result (λ count. count ≤ length) }
        {
            self.calls = self.calls.saturating_add(1);
            if self.calls == self.stops {
                Ok(0)
            } else if self.calls % 2 == 1 {
                Err(io::Error::from(ErrorKind::Interrupted))
            } else {
                Ok(length.min(1))
            }
        }
    }

    impl Read for Slow {
        fn read(&mut self, piece: &mut [u8]) -> io::Result<usize> {
            let count = self.step(piece.len())?;
            for byte in piece.iter_mut() {
                *byte = b'x';
            }
            Ok(count)
        }
    }

    impl Write for Slow {
        fn write(&mut self, bytes: &[u8]) -> io::Result<usize> {
            self.step(bytes.len())
        }

        fn flush(&mut self) -> io::Result<()> {
            Ok(())
        }
    }

    #[test]
    fn short_and_interrupted_steps_go_on_to_the_end(rt: HostRuntime) {
        for (stops, limit, want) in [
            (0, 3, b"xxx".as_slice()),
            (5, 3, b"xx"),
            (1, 3, b""),
            (0, 0, b""),
        ] {
            let bytes = read_front(&mut Slow { calls: 0, stops }, rt.alloc(), limit);
            let bytes = bytes.expect(&rt, "a read failed");
            assert_eq!(rt; bytes.as_slice(), want, "at {stops} {limit}");
        }
        for (stops, bytes, want) in [
            (0, b"abc".as_slice(), true),
            (5, b"abc", false),
            (7, b"abc", true),
            (1, b"", true),
        ] {
            let whole = write_whole(&mut Slow { calls: 0, stops }, bytes);
            assert_eq!(rt; whole, want, "at {stops}");
        }
    }
}
