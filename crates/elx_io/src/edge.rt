ghost use Rattle.std.specs.Prelude.{◌≡◌, true};
ghost use Rattle.elx_io.specs.Counts.{FaultCounts};

use std::marker::Model;

/// The outside through a runtime. A contract sees how many faults there were.
#[derive(Drop)]
pub struct Edge<'a, R> {
    pub(crate) rt: &'a R,
    pub(crate) faults: u64,
}

impl<'a, R> Model for Edge<'a, R> {
    ghost use Rattle.std.specs.Prelude.{ℕ};

    ghost Value = { ℕ };

    ghost view = { λ edge. edge.faults };
}

impl<'a, R> Edge<'a, R> {
    /// The outside with no fault counted. It takes no memory.
    pub fn new(rt: &'a R) -> Edge<'a, R>
        ensures { result ≡ 0 }
    {
        Edge { rt, faults: 0 }
    }

    /// Counts one fault.
    pub(crate) fn count_fault(&mut self)
        ensures { FaultCounts self.old self.new true }
    {
        self.faults = self.faults.saturating_add(1);
    }
}
