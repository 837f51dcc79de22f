//! Calls that are to fail.

ghost use Rattle.std.specs.Prelude.{◌≡◌, ◌≤◌};
ghost use Rattle.io_edge.specs.Faults.{Rose, next};

use crate::fault::Failed;

/// Which calls of an object are to fail, by their number from 1, how many calls there were, and how many
/// of them failed. Both counts stand still at the greatest u64.
#[derive(Debug, Drop)]
pub struct Plan {
    listed: Vec<u64>,
    calls: u64,
    faults: u64,
}

impl Plan {
    ghost use Rattle.io_edge.specs.Planned.{fails_next};

    /// A plan under which these calls fail, before the first call.
    pub fn new(listed: Vec<u64>) -> Plan
        ensures { result ≡ record { listed = listed; calls = 0; faults = 0 } }
    {
        Plan {
            listed,
            calls: 0,
            faults: 0,
        }
    }

    /// Counts a call, and tells whether it is to fail.
    pub fn begin(&mut self) -> bool
        ensures counted { self.new ≡ record self.old { calls = next self.old.calls } }
        ensures value { result ≡ fails_next self.old }
    {
        self.calls = self.calls.saturating_add(1);
        self.listed.contains(&self.calls)
    }

    /// Counts a failure.
    pub fn fail(&mut self) -> Failed
        ensures counted { self.new ≡ record self.old { faults = next self.old.faults } }
        ensures later { self.old.faults ≤ self.new.faults }
        ensures rose { Rose self.old.faults self.new.faults }
    {
        Failed::counted(&mut self.faults)
    }
}
