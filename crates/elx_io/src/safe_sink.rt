ghost use Rattle.std.specs.Prelude.{◌≡◌, ◌≢◌, ◌++◌, Some, Err, OnOk, OnErr};

use crate::lines::Lines;
use crate::sink::{Sink, SinkErr};

/// A sink in memory that never fails: a text that pieces are put to.
pub type SafeSink = Lines;

impl Sink for Lines {
    ghost written = { λ bytes. Some bytes };

    ghost faults = { λ _. 0 };

    /// The one refusal is `Memory`, and then nothing is appended.
    fn put(&mut self, bytes: &[u8]) -> Result<(), SinkErr>
        ensures ok { OnOk result (self.new ≡ self.old ++ bytes.now) }
        ensures err { OnErr result (self.new ≡ self.old) }
        ensures safe { result ≢ Err SinkErr.Failed }
    {
        Ok(self.append(bytes)?)
    }
}

#[cfg(test)]
mod tests {
    use super::*;
    use std::test::Fail;

    #[test]
    fn a_sink_keeps_its_pieces_in_order(rt: HostRuntime) -> Result<(), Fail> {
        let mut sink = SafeSink::new(rt.alloc());
        sink.put(b"ab")?;
        sink.put(b"")?;
        sink.put(b"c")?;
        assert_eq!(rt; sink.bytes(), b"abc".as_slice());
        Ok(())
    }
}
