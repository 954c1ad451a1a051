ghost use Rattle.std.specs.Prelude.{◌≡◌, ◌↔◌, ◌++◌, [], Some, OnOk, OnErr, IsErrOf};
ghost use Rattle.elx_io.specs.Counts.{SinkCountsEach, counted};
ghost use Rattle.elx_io.specs.Faulty.{PutFails};

use crate::failing::FailingCalls;
use crate::lines::Lines;
use crate::sink::{Sink, SinkErr};
use elx_bits::Items;
use std::alloc::Global;
use std::marker::Model;

/// A sink in memory whose calls fail at given numbers. A contract sees its bytes, those numbers, how many calls were
/// made and how many faults there were.
#[derive(Debug, Drop)]
pub struct MemSink {
    text: Lines,
    calls: FailingCalls,
}

impl Model for MemSink {
    ghost use Rattle.elx_io.specs.Faulty.{FaultySink, sink_code};

    ghost Value = { FaultySink };

    ghost coded = { sink_code };

    ghost view = { λ sink. record {
      content = sink.text;
      failing = sink.calls.listed;
      calls = sink.calls.made;
      faults = sink.calls.faults;
    } };
}

impl MemSink {
    /// An empty sink. `fails` has the numbers of the calls that are to fail, from 1. It takes no memory.
    pub fn new(alloc: Global, fails: Items<u64>) -> MemSink
        ensures content { result.content ≡ [] }
        ensures failing { result.failing ≡ fails }
        ensures calls { result.calls ≡ 0 }
        ensures faults { result.faults ≡ 0 }
    {
        MemSink {
            text: Lines::new(alloc),
            calls: FailingCalls::new(fails),
        }
    }

    /// All that was put.
    pub fn bytes(&self) -> &[u8]
        ensures { result.now ≡ self.now.content }
    {
        self.text.bytes()
    }
}

impl Sink for MemSink {
    ghost written = { λ sink. Some sink.content };

    ghost faults = { λ sink. sink.faults };

    /// `Failed` comes at the listed calls, and then nothing is appended. `Memory` appends nothing either.
    fn put(&mut self, bytes: &[u8]) -> Result<(), SinkErr>
        ensures ok { OnOk result (self.new.content ≡ self.old.content ++ bytes.now) }
        ensures err { OnErr result (self.new.content ≡ self.old.content) }
        ensures counts { SinkCountsEach self.old.faults self.new.faults result }
        ensures failed { IsErrOf result SinkErr.Failed ↔ PutFails self.old }
        ensures calls { self.new.calls ≡ counted self.old.calls }
        ensures failing { self.new.failing ≡ self.old.failing }
    {
        if self.calls.fails_now() {
            return Err(SinkErr::Failed);
        }
        self.text.put(bytes)
    }
}

#[cfg(test)]
mod tests {
    use super::*;
    use std::test::Fail;

    #[test]
    fn only_the_listed_put_fails_and_appends_nothing(rt: HostRuntime) -> Result<(), Fail> {
        let fails = Items::from_vec([2].to_vec(rt.alloc())?);
        let mut sink = MemSink::new(rt.alloc(), fails);
        sink.put(b"ab")?;
        assert_eq!(rt; sink.put(b"lost"), Err(SinkErr::Failed));
        sink.put(b"c")?;
        assert_eq!(rt; sink.bytes(), b"abc".as_slice());
        Ok(())
    }
}
