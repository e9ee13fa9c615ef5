//! Which calls of a source or a sink in memory fail.
ghost use Rattle.std.specs.Prelude.{◌≡◌, ◌↔◌, IsTrue};
ghost use Rattle.std.specs.List.{Contains};
ghost use Rattle.rio_chars.specs.Memory.{counted};

use crate::Failed;

/// Which calls fail, and how many came and failed so far.
#[derive(Drop)]
pub(crate) struct Plan {
    pub(crate) fails: Vec<u32>,
    pub(crate) calls: u64,
    pub(crate) faults: u64,
}

impl Plan {
    /// Counts a call, and answers whether it is to fail.
    pub(crate) fn fails_now(&mut self) -> bool
        ensures listed { IsTrue result ↔ Contains self.old.fails.items self.old.calls }
        ensures calls { self.new.calls ≡ counted self.old.calls }
        ensures fails { self.new.fails ≡ self.old.fails }
        ensures faults { self.new.faults ≡ self.old.faults }
    {
        let call = self.calls;
        self.calls = call.saturating_add(1);
        is_listed(&self.fails, call)
    }

    /// Counts a fault.
    pub(crate) fn fail(&mut self) -> Failed
        ensures calls { self.new.calls ≡ self.old.calls }
        ensures fails { self.new.fails ≡ self.old.fails }
        ensures faults { self.new.faults ≡ counted self.old.faults }
    {
        self.faults = self.faults.saturating_add(1);
        Failed
    }
}

fn is_listed(numbers: &[u32], number: u64) -> bool
    ensures { IsTrue result ↔ Contains numbers.now number }
{
    numbers.iter().any(|listed| u64::from(*listed) == number)
}
