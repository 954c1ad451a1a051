ghost use Rattle.std.specs.Prelude.{◌≡◌, ◌↔◌, true, IsTrue};
ghost use Rattle.elx_io.specs.Counts.{FaultCounts, counted};
ghost use Rattle.elx_io.specs.Faulty.{FailsNext};

use elx_bits::Items;

/// Which calls of a store in memory are to fail, how many were made, and how many faults there were.
#[derive(Debug, Drop)]
pub struct FailingCalls {
    pub listed: Items<u64>,
    pub made: u64,
    pub faults: u64,
}

impl FailingCalls {
    /// No call made yet. `listed` has the numbers of the calls that are to fail, from 1.
    pub fn new(listed: Items<u64>) -> FailingCalls
        ensures listed { result.listed ≡ listed }
        ensures made { result.made ≡ 0 }
        ensures faults { result.faults ≡ 0 }
    {
        FailingCalls {
            listed,
            made: 0,
            faults: 0,
        }
    }

    /// Counts one call, and says whether it is to fail; then one fault is counted too.
    pub fn fails_now(&mut self) -> bool
        ensures fails { IsTrue result ↔ FailsNext self.old.listed self.old.made }
        ensures listed { self.new.listed ≡ self.old.listed }
        ensures made { self.new.made ≡ counted self.old.made }
        ensures faults { FaultCounts self.old.faults self.new.faults result }
    {
        self.made = self.made.saturating_add(1);
        let fails = self.listed.as_slice().contains(&self.made);
        if fails {
            self.count_fault();
        }
        fails
    }

    /// Counts one fault.
    pub fn count_fault(&mut self)
        ensures listed { self.new.listed ≡ self.old.listed }
        ensures made { self.new.made ≡ self.old.made }
        ensures faults { FaultCounts self.old.faults self.new.faults true }
    {
        self.faults = self.faults.saturating_add(1);
    }
}
