//! The top call.

ghost use Rattle.std.specs.Prelude.{◌≡◌, ◌↔◌, IfSome, IsNone};
ghost use Rattle.p4all_top.specs.Command.{command_in};
ghost use Rattle.p4all_top.specs.Run.{FaultsAre, HasCalled, IsAnswered, IsCaused, IsStopped, MayChange};
ghost use Rattle.p4all_top.specs.Stopping.{IsEnd, IsStop};

use crate::size_command::do_size;
use crate::status::Status;
use elx_io::{Shelf, Sink};
use std::alloc::Global;

/// Runs the command that the words name on the files of a shelf, and prints to a sink. `size SRC TARGET` is the one command
/// so far; all other words are no command, and then nothing is printed and no call made.
///
/// Every printed line goes to the sink.
pub fn p4all<S: Shelf, O: Sink>(alloc: Global, words: &[&str], shelf: &mut S, out: &mut O) -> Status
    ensures words { (result ≡ Status.Words) ↔ IsNone (command_in words.now) }
    ensures quiet { result ≡ Status.Words → (shelf.new ≡ shelf.old) × (out.new ≡ out.old) }
    ensures answer { IfSome (command_in words.now) (λ command. IsEnd result →
        IsAnswered command result (S.holds shelf.old) (S.holds shelf.new)
        (O.written out.old) (O.written out.new)) }
    ensures stopped { IfSome (command_in words.now) (λ command. IsStop result →
        IsStopped command (S.holds shelf.old) (O.written out.old) (O.written out.new)) }
    ensures causes { IfSome (command_in words.now) (λ command.
        IsCaused command (S.holds shelf.old) result) }
    ensures calls { IfSome (command_in words.now) (λ command.
        HasCalled command result (S.holds shelf.old) (S.told shelf.old) (S.told shelf.new)) }
    ensures files { IfSome (command_in words.now) (λ command.
        MayChange command (S.holds shelf.old) (S.holds shelf.new)) }
    ensures faults { FaultsAre result (S.faults shelf.old) (S.faults shelf.new)
        (O.faults out.old) (O.faults out.new) }
{
    if words.is_empty() || words[0] != "size" {
        return Status::Words;
    }
    do_size(alloc, &words[1..], shelf, out)
}
