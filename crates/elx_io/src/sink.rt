ghost use Rattle.std.specs.Prelude.{◌≡◌, ℕ, List, Option, OnOk, OnErr};
ghost use Rattle.elx_io.specs.declared.sink.SinkErr.TheVariants.{Memory};
ghost use Rattle.elx_io.specs.Appends.{Appends, AppendsFront};
ghost use Rattle.elx_io.specs.Counts.{SinkCounts};

use std::alloc::AllocError;
use thiserror::Error;

/// Why a call of a sink was refused.
#[derive(Clone, Copy, Debug, PartialEq, Eq, Error)]
pub enum SinkErr {
    /// The outside failed, and the sink counted a fault.
    #[error("the output could not be written")]
    Failed,
    /// There was no memory left.
    #[error("out of memory")]
    Memory,
}

impl From<AllocError> for SinkErr {
    ghost from_gives = { λ _ error. error ≡ Memory };

    fn from(_: AllocError) -> SinkErr {
        SinkErr::Memory
    }
}

/// A place that bytes are written to, one after the other. `written` is all that was written, where it can be told,
/// and `faults` counts the failed calls.
pub trait Sink {
    ghost written: { Self → Option (List ℕ) };

    ghost faults: { Self → ℕ };

    /// Appends some bytes. After a refusal some front of them was appended.
    fn put(&mut self, bytes: &[u8]) -> Result<(), SinkErr>
        ensures ok { OnOk result (Appends bytes.now (written self.old) (written self.new)) }
        ensures err { OnErr result (AppendsFront bytes.now (written self.old) (written self.new)) }
        ensures counts { SinkCounts (faults self.old) (faults self.new) result };
}
