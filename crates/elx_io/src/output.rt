ghost use Rattle.std.specs.Prelude.{None};

use crate::edge::Edge;
use crate::sink::{Sink, SinkErr};
use crate::whole::write_whole;
use std::io;

/// Standard output. It tells no content. A piece that can't be written whole is a fault, and so is a write that a
/// signal interrupts a million times over.
pub type OutSink<'a, R> = Edge<'a, R>;

impl<R: Print> Sink for Edge<'_, R> {
    ghost written = { λ _. None };

    ghost faults = { λ count. count };

    fn put(&mut self, bytes: &[u8]) -> Result<(), SinkErr> {
        if write_whole(&mut io::writer(self.rt), bytes) {
            return Ok(());
        }
        self.count_fault();
        Err(SinkErr::Failed)
    }
}

#[cfg(test)]
mod tests {
    use super::*;
    use std::test::Fail;

    #[test]
    fn a_piece_goes_to_standard_output(rt: HostRuntime) -> Result<(), Fail> {
        let mut sink = OutSink::new(&rt);
        sink.put(b"a piece\n")?;
        sink.put(b"")?;
        assert_eq!(rt; sink.faults, 0);
        Ok(())
    }
}
