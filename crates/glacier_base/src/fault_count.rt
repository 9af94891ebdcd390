// How many calls have failed.
ghost use Rattle.std.specs.Prelude.{◌≡◌, ◌≤◌};
ghost use Rattle.std.specs.Result.{result_ok};
ghost use Rattle.glacier_base.specs.Outside.{HasCause, one_more};

use crate::Failed;
use std::marker::Model;

/// How many calls of one kind have failed, up to the count's end.
#[derive(Drop)]
pub struct FaultCount {
    count: u64,
}

impl Model for FaultCount {
    ghost use Rattle.std.specs.Prelude.{ℕ};

    ghost Value = { ℕ };

    ghost view = { λ faults. faults.count };
}

impl FaultCount {
    /// No call has failed.
    pub fn new() -> Self
        ensures { result ≡ 0 }
    {
        FaultCount { count: 0 }
    }

    /// Counts a call that failed.
    pub fn failed(&mut self) -> Failed
        ensures counted { self.new ≡ one_more self.old }
        ensures later { self.old ≤ self.new }
    {
        self.count = self.count.saturating_add(1);
        Failed
    }

    /// Counts a call where it failed, and hands on what it answered.
    pub fn counted<T, E: Drop>(&mut self, answer: Result<T, E>) -> Result<T, Failed>
        ensures value { result_ok result ≡ result_ok answer }
        ensures cause { HasCause self.old self.new result }
    {
        match answer {
            Ok(value) => Ok(value),
            Err(_) => Err(self.failed()),
        }
    }
}
