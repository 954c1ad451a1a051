//! The command `size`.

ghost use Rattle.std.specs.Prelude.{◌≡◌, ◌↔◌, IfOk, IfSome, IsNone};
ghost use Rattle.p4all_top.specs.Command.{Size, size_in};
ghost use Rattle.p4all_top.specs.Found.{IsSizeFound, status_of};
ghost use Rattle.p4all_top.specs.Run.{FaultsAre, HasCalled, IsRun, told_outside};
ghost use Rattle.p4all_top.specs.Stopping.{StopCounts};

use crate::output::show;
use crate::reading::{read_source, read_target};
use crate::sizing::{Outcome, refused, size_outcome};
use crate::status::Status;
use crate::stopping::Stop;
use elx_io::{Shelf, Sink};
use std::alloc::Global;

/// The outcome for a source and a target. The source is read and refused before the target is read.
fn find<S: Shelf>(alloc: Global, shelf: &mut S, source: &str, target: &str) -> Result<Outcome, Stop>
    ensures answer { IfOk result (IsSizeFound source.now target.now (S.holds shelf.old)) }
    ensures calls { HasCalled (Size source.now target.now) (status_of result) (S.holds shelf.old)
        (S.told shelf.old) (S.told shelf.new) }
    ensures kept { S.holds shelf.new ≡ S.holds shelf.old }
    ensures counts { StopCounts (S.faults shelf.old) (S.faults shelf.new) result }
{
    let checked = match read_source(alloc, shelf, source)? {
        Ok(checked) => checked,
        Err(refusal) => return Ok(refused(alloc, refusal)?),
    };
    let target = match read_target(alloc, shelf, target)? {
        Ok(target) => target,
        Err(refusal) => return Ok(refused(alloc, refusal)?),
    };
    Ok(size_outcome(alloc, &checked, &target)?)
}

/// Finds the sizes of a program that are best on a target, and prints them with their utility.
///
/// The words after the command are the names of two files: the program's source and the target's description.
pub fn do_size<S: Shelf, O: Sink>(
    alloc: Global,
    words: &[&str],
    shelf: &mut S,
    out: &mut O,
) -> Status
    ensures words { (result ≡ Status.Words) ↔ IsNone (size_in words.now) }
    ensures quiet { result ≡ Status.Words → (shelf.new ≡ shelf.old) × (out.new ≡ out.old) }
    ensures run { IfSome (size_in words.now) (λ command. IsRun command result
        (told_outside S.holds S.told O.written shelf.old out.old)
        (told_outside S.holds S.told O.written shelf.new out.new)) }
    ensures faults { FaultsAre result (S.faults shelf.old) (S.faults shelf.new)
        (O.faults out.old) (O.faults out.new) }
{
    if words.len() != 2 {
        return Status::Words;
    }
    match find(alloc, shelf, words[0], words[1]) {
        Ok(outcome) => show(out, &outcome),
        Err(stop) => stop.status(),
    }
}
