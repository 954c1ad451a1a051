ghost use Rattle.std.specs.Prelude.{◌≡◌};
ghost use Rattle.p4all_top.specs.Stopping.{stop_of, stopped_status};
ghost use Rattle.p4all_top.specs.declared.stopping.Stop.TheVariants.{Memory};

use crate::status::Status;
use elx_io::ShelfErr;
use std::alloc::AllocError;
use thiserror::Error;

/// What stops a run before its end.
#[derive(Clone, Copy, Debug, PartialEq, Eq, Error)]
pub enum Stop {
    /// The shelf or the sink failed.
    #[error("a file or the output failed")]
    Fault,
    /// There is no memory.
    #[error("out of memory")]
    Memory,
}

impl From<AllocError> for Stop {
    ghost from_gives = { λ _ stop. stop ≡ Memory };

    fn from(_: AllocError) -> Stop {
        Stop::Memory
    }
}

impl From<ShelfErr> for Stop {
    ghost from_gives = { λ error stop. stop ≡ stop_of error };

    fn from(error: ShelfErr) -> Stop {
        match error {
            ShelfErr::Failed => Stop::Fault,
            ShelfErr::Memory => Stop::Memory,
        }
    }
}

impl Stop {
    /// The status of a run that this stopped.
    pub fn status(self) -> Status
        ensures { result ≡ stopped_status self }
    {
        match self {
            Stop::Fault => Status::Fault,
            Stop::Memory => Status::Memory,
        }
    }
}
