// The calls of a memory form that are to fail.
ghost use Rattle.std.specs.Prelude.{◌≡◌, ◌↔◌, IsErr};
ghost use Rattle.std.specs.List.{Contains};
ghost use Rattle.glacier_base.specs.Outside.{one_more};

use crate::{Failed, List};

/// Which calls of a memory form are to fail, and how many calls there were.
#[derive(Drop)]
pub struct Plan {
    /// The numbers, from 0, of the calls that are to fail.
    pub failing: List<u64>,
    /// How many calls there were, up to the count's end.
    pub calls: u64,
}

impl Plan {
    /// The plan by which the calls with these numbers, from 0, are to fail.
    pub fn new(failing: List<u64>) -> Self
        ensures failing { result.failing ≡ failing }
        ensures calls { result.calls ≡ 0 }
    {
        Plan { failing, calls: 0 }
    }

    /// Counts a call, and fails where that call is to.
    pub fn call(&mut self) -> Result<(), Failed>
        ensures planned { IsErr result ↔ Contains self.old.failing self.old.calls }
        ensures failing { self.new.failing ≡ self.old.failing }
        ensures calls { self.new.calls ≡ one_more self.old.calls }
    {
        let call = self.calls;
        self.calls = call.saturating_add(1);
        if self.failing.as_slice().contains(&call) {
            Err(Failed)
        } else {
            Ok(())
        }
    }
}
