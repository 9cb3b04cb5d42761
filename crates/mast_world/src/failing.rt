ghost use Rattle.std.specs.Prelude.{◌≡◌, ◌≤◌, ◌↔◌, OnErr, OnOk, IsErr, Contains};
ghost use Rattle.mast_world.specs.Count.{counted, HasRisen};
ghost use Rattle.mast_world.specs.Failing.{planned_failures};

use crate::Failed;
use mast_base::List;

/// A count after n more, which stands still at its end.
pub fn count_on(count: u64, n: u64) -> u64
    ensures { result ≡ counted count n }
{
    count.saturating_add(n)
}

/// Which calls of a device in memory are to fail, counted from 1, and how many failed.
#[derive(Debug, Drop)]
pub(crate) struct Failing {
    planned: List<u64>,
    calls: u64,
    pub(crate) faults: u64,
}

impl Failing {
    pub(crate) fn new(planned: List<u64>) -> Self
        ensures { result ≡ planned_failures planned }
    {
        Failing {
            planned,
            calls: 0,
            faults: 0,
        }
    }

    /// Counts a call, which fails where that was planned.
    pub(crate) fn count_call(&mut self) -> Result<(), Failed>
        ensures planned { IsErr result ↔ Contains self.old.planned (counted self.old.calls 1) }
        ensures counted { self.new ≡ record self.old { calls = counted self.old.calls 1; faults = self.new.faults } }
        ensures ok { OnOk result (self.new.faults ≡ self.old.faults) }
        ensures err { OnErr result (self.new.faults ≡ counted self.old.faults 1) }
        ensures kept { self.old.faults ≤ self.new.faults }
    {
        self.calls = count_on(self.calls, 1);
        if self.planned.as_slice().contains(&self.calls) {
            return Err(self.fail());
        }
        Ok(())
    }

    /// Fails without a plan, as for want of memory.
    pub(crate) fn fail(&mut self) -> Failed
        ensures counted { self.new ≡ record self.old { faults = counted self.old.faults 1 } }
        ensures kept { self.old.faults ≤ self.new.faults }
    {
        self.faults = count_on(self.faults, 1);
        Failed
    }

    /// Fails where that wasn't done, as for want of memory.
    pub(crate) fn or_fail<E: Drop>(&mut self, done: Result<(), E>) -> Result<(), Failed>
        ensures same { IsErr result ↔ IsErr done }
        ensures ok { OnOk result (self.new ≡ self.old) }
        ensures err { OnErr result (self.new ≡ record self.old { faults = counted self.old.faults 1 }) }
        ensures kept { self.old.faults ≤ self.new.faults }
    {
        match done {
            Ok(()) => Ok(()),
            Err(_) => Err(self.fail()),
        }
    }
}
