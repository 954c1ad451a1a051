//! Reading a file, a source and a target's description.

ghost use Rattle.std.specs.Prelude.{◌≡◌, ◌∷◌, [], ◌≤◌, ◌^◌, length, IfOk, IfSome};
ghost use Rattle.elx_io.specs.Appends.{Appends};
ghost use Rattle.elx_io.specs.Call.{Read};
ghost use Rattle.target_desc.specs.InRange.{IsInRange};
ghost use Rattle.p4all_top.specs.Description.{IsDescriptionFound};
ghost use Rattle.p4all_top.specs.Reading.{IsFileRead, IsOfFile};
ghost use Rattle.p4all_top.specs.Source.{IsSourceFound};
ghost use Rattle.p4all_top.specs.Stopping.{StopCounts};

use crate::parsing::{Refusal, program_of, target_of};
use crate::stopping::Stop;
use elx_bits::Items;
use elx_io::Shelf;
use std::alloc::Global;
use target_desc::Target;
use width_check::Checked;

/// The most bytes of a source.
const MOST_SOURCE: u64 = 16_777_216;

/// The most bytes of a target's description.
const MOST_TARGET: u64 = 65_536;

/// The bytes of a file, or None where it has more than `most`.
fn read_file<S: Shelf>(
    alloc: Global,
    shelf: &mut S,
    name: &str,
    most: u64,
) -> Result<Option<Items<u8>>, Stop>
    requires { most ≤ 2 ^ 62 }
    ensures found { IfOk result (λ found.
        IsOfFile (S.holds shelf.old) name.now (λ bytes. IsFileRead most bytes found)) }
    ensures kept { S.holds shelf.new ≡ S.holds shelf.old }
    ensures call { Appends (Read name.now ∷ []) (S.told shelf.old) (S.told shelf.new) }
    ensures counts { StopCounts (S.faults shelf.old) (S.faults shelf.new) result }
{
    let bytes = shelf.read(alloc, name, most)?;
    if bytes.as_slice().len() as u64 > most {
        return Ok(None);
    }
    Ok(Some(bytes))
}

/// The program of a source, or why the source isn't taken.
pub fn read_source<S: Shelf>(
    alloc: Global,
    shelf: &mut S,
    name: &str,
) -> Result<Result<Checked, Refusal>, Stop>
    ensures found { IfOk result (λ found.
        IsOfFile (S.holds shelf.old) name.now (λ text. IsSourceFound text found)) }
    ensures kept { S.holds shelf.new ≡ S.holds shelf.old }
    ensures call { Appends (Read name.now ∷ []) (S.told shelf.old) (S.told shelf.new) }
    ensures counts { StopCounts (S.faults shelf.old) (S.faults shelf.new) result }
{
    let Some(bytes) = read_file(alloc, shelf, name, MOST_SOURCE)? else {
        return Ok(Err(Refusal::LongSource));
    };
    Ok(program_of(alloc, bytes.as_slice())?)
}

/// The target of a description, or why the description isn't taken.
pub fn read_target<S: Shelf>(
    alloc: Global,
    shelf: &mut S,
    name: &str,
) -> Result<Result<Target, Refusal>, Stop>
    ensures found { IfOk result (λ found.
        IsOfFile (S.holds shelf.old) name.now (λ text. IsDescriptionFound text found)) }
    ensures in_range { IfOk result (λ found. IfOk found IsInRange) }
    ensures kept { S.holds shelf.new ≡ S.holds shelf.old }
    ensures call { Appends (Read name.now ∷ []) (S.told shelf.old) (S.told shelf.new) }
    ensures counts { StopCounts (S.faults shelf.old) (S.faults shelf.new) result }
{
    let Some(bytes) = read_file(alloc, shelf, name, MOST_TARGET)? else {
        return Ok(Err(Refusal::LongTarget));
    };
    Ok(target_of(alloc, bytes.as_slice())?)
}
