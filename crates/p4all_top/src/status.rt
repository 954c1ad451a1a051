ghost use Rattle.std.specs.Prelude.{◌≡◌};
ghost use Rattle.p4all_top.specs.Codes.{status_code};

/// How a run ends: done, refused, with words that are no command, with nothing feasible, unfinished, for want of memory,
/// by a fault of the shelf or the sink, or with the verdict no.
#[derive(Clone, Copy, Debug, PartialEq, Eq)]
pub enum Status {
    Done,
    Refused,
    Words,
    Infeasible,
    Unfinished,
    Memory,
    Fault,
    No,
}

/// The exit code of a status, from 0 to 7 in the listed order.
pub fn code(status: Status) -> u8
    ensures { result ≡ status_code status }
{
    match status {
        Status::Done => 0,
        Status::Refused => 1,
        Status::Words => 2,
        Status::Infeasible => 3,
        Status::Unfinished => 4,
        Status::Memory => 5,
        Status::Fault => 6,
        Status::No => 7,
    }
}
