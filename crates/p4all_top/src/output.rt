//! Showing what a command found.

ghost use Rattle.p4all_top.specs.Output.{IsShown, StatusCounts};
ghost use Rattle.p4all_top.specs.Stopping.{IsEnd};

use crate::sizing::Outcome;
use crate::status::Status;
use elx_io::{Sink, SinkErr};

/// Prints the lines of an outcome, and gives its status.
pub fn show<O: Sink>(out: &mut O, outcome: &Outcome) -> Status
    requires { IsEnd outcome.now.status }
    ensures shown { IsShown outcome.now.lines outcome.now.status result
        (O.written out.old) (O.written out.new) }
    ensures counts { StatusCounts (O.faults out.old) (O.faults out.new) result }
{
    match out.put(outcome.lines.bytes()) {
        Ok(()) => outcome.status,
        Err(SinkErr::Failed) => Status::Fault,
        Err(SinkErr::Memory) => Status::Memory,
    }
}
