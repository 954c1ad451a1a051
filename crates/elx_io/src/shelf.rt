ghost use Rattle.std.specs.Prelude.{◌≡◌, ℕ, List, [], ◌∷◌, ◌+◌, ◌≤◌, ◌^◌, Option, None, IfOk, OnOk, OnErr, length};
ghost use Rattle.elx_io.specs.Appends.{Appends};
ghost use Rattle.elx_io.specs.Call.{Call, Read, Write};
ghost use Rattle.elx_io.specs.Counts.{ShelfCounts};
ghost use Rattle.elx_io.specs.declared.shelf.ShelfErr.TheVariants.{Memory};
ghost use Rattle.elx_io.specs.Files.{Files, IsReadOf, IsWritten, SameOthers};

use elx_bits::Items;
use std::alloc::{AllocError, Global};
use thiserror::Error;

/// Why a call of a shelf was refused.
#[derive(Clone, Copy, Debug, PartialEq, Eq, Error)]
pub enum ShelfErr {
    /// The outside failed, and the shelf counted a fault.
    #[error("the file could not be read or written")]
    Failed,
    /// There was no memory left.
    #[error("out of memory")]
    Memory,
}

impl From<AllocError> for ShelfErr {
    ghost from_gives = { λ _ error. error ≡ Memory };

    fn from(_: AllocError) -> ShelfErr {
        ShelfErr::Memory
    }
}

/// Files by their names. `holds` is the content, where it can be told, `told` is the list of the calls so far, where the
/// shelf tells it, and `faults` counts the failed calls.
pub trait Shelf {
    ghost holds: { Self → Option Files };

    ghost faults: { Self → ℕ };

    ghost told: { Self → Option (List Call) } = { λ _. None };

    /// The first `most + 1` bytes of a file, or the whole file, whichever is shorter. A name that the shelf lacks is
    /// `Failed`, or gives no bytes. `Memory` may come at any call.
    fn read(&mut self, alloc: Global, name: &str, most: u64) -> Result<Items<u8>, ShelfErr>
        requires { most ≤ 2 ^ 62 }
        ensures length { IfOk result (λ bytes. length bytes ≤ most + 1) }
        ensures bytes { IfOk result (IsReadOf (holds self.old) name.now most) }
        ensures kept { holds self.new ≡ holds self.old }
        ensures counts { ShelfCounts (faults self.old) (faults self.new) result }
        ensures call { Appends (Read name.now ∷ []) (told self.old) (told self.new) };

    /// Sets one file to some bytes, and leaves the others. After a refusal that one file may hold anything.
    fn write(&mut self, name: &str, bytes: &[u8]) -> Result<(), ShelfErr>
        ensures ok { OnOk result (IsWritten name.now bytes.now (holds self.old) (holds self.new)) }
        ensures err { OnErr result (SameOthers name.now (holds self.old) (holds self.new)) }
        ensures counts { ShelfCounts (faults self.old) (faults self.new) result }
        ensures call { Appends (Write name.now bytes.now ∷ []) (told self.old) (told self.new) };
}
