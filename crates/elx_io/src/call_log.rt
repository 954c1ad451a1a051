//! The calls that were made of a shelf. They exist only in proofs, and take no memory.
ghost use Rattle.std.specs.Prelude.{◌≡◌, List, [], ◌∷◌, ◌++◌};
ghost use Rattle.std.specs.Borrow.{ftrue};
ghost use Rattle.elx_io.specs.Call.{Call, calls_code};

use std::marker::Model;

/// The calls so far. A clause reads them as `calls`.
#[derive(Debug, Drop)]
pub struct CallLog {
    pub ghost calls: { List Call } by { calls_code },
}

impl Model for CallLog {
    ghost also_owns = { λ _. ftrue };
}

/// A call, as it is noted.
#[derive(Clone, Copy, Drop)]
pub enum Made<'a> {
    Read(&'a str),
    Write(&'a str, &'a [u8]),
}

impl CallLog {
    ghost use Rattle.elx_io.specs.CallOf.{call_of};

    /// No calls.
    pub fn new() -> CallLog
        ensures { result.calls ≡ [] }
    {
        CallLog {}
    }

    /// The calls so far, and one more.
    pub fn then(&self, _made: &Made<'_>) -> CallLog
        ensures { result.calls ≡ self.now.calls ++ call_of _made.now ∷ [] }
    {
        CallLog {}
    }
}
