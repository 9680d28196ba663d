//! Calls that fail by plan.

ghost use Rattle.std.specs.Prelude.{◌≡◌, ◌≤◌};
ghost use Rattle.live_doors.specs.InMemory.{next_fails, after_call};

/// The calls that fail, by their numbers from 1, with the calls and the faults so far. Both counts stand still
/// at `2^64 - 1`.
#[derive(Drop)]
pub(crate) struct Plan {
    fails: Vec<u64>,
    calls: u64,
    pub(crate) faults: u64,
}

impl Plan {
    /// The plan before the first call.
    pub(crate) fn new(fails: Vec<u64>) -> Plan
        ensures { result ≡ record { fails = fails; calls = 0; faults = 0 } }
    {
        Plan {
            fails,
            calls: 0,
            faults: 0,
        }
    }

    /// Counts a call, and a fault where that call fails; tells whether it does.
    pub(crate) fn next_fails(&mut self) -> bool
        ensures answer { result ≡ next_fails self.old }
        ensures after { self.new ≡ after_call self.old }
    {
        self.calls = self.calls.saturating_add(1);
        let is_planned = self.fails.contains(&self.calls);
        if is_planned {
            self.faults = self.faults.saturating_add(1);
        }
        is_planned
    }
}
