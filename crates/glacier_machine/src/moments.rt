// What time does to an account.
ghost use Rattle.std.specs.Prelude.{◌≡◌, ◌≤◌, IfOk, OnOk, OnErr, true};
ghost use Rattle.glacier_job.specs.Pass.{pass_is_event};
ghost use Rattle.glacier_vault.specs.Lawful.{IsLawful};
ghost use Rattle.glacier_machine.specs.Moments.{after_moment, moment_change};

use glacier_base::{Memory, Moment};
use glacier_job::{is_due, settle};
use glacier_vault::{AccountState, Change};
use std::alloc::Global;

/// Lets time pass until the moment `m`, before a request at `m` is done: ready jobs are settled, and
/// what has ended goes. Where there is nothing of these, the account stays as it is, with its last
/// moment, and no memory is taken. After an `Err` the state is given up.
pub fn pass(alloc: Global, state: &mut AccountState, m: Moment) -> Result<Change, Memory>
    requires time { state.old.last ≤ m }
    requires lawful { IsLawful state.old }

    ensures change { IfOk result (λ change. change ≡ moment_change m state.old) }
    ensures state { OnOk result (state.new ≡ after_moment m state.old) }
    ensures lawful { OnOk result (IsLawful state.new) }
    ensures memory { OnErr result (pass_is_event m state.old ≡ true) }
{
    if !is_due(state, m) {
        return Ok(Change::none(alloc));
    }
    settle(alloc, state, m)
}
