// What the calls of the tests are given, and the accounts that they begin with.
ghost use Rattle.std.specs.Prelude.{◌≤◌, IfOk, OnOk};
ghost use Rattle.glacier_vault.specs.Lawful.{IsLawful};

use glacier_base::{Account, Description, Memory, Moment, Region, VaultName};
use glacier_job::settle;
use glacier_vault::{AccountState, Change, Rules, create};
use std::alloc::Global;

/// What all calls of a test are given.
#[derive(Drop)]
pub(crate) struct Ground {
    pub(crate) m: Moment,
    pub(crate) vault: VaultName,
    pub(crate) description: Description,
    pub(crate) rules: Rules,
}

pub(crate) fn ground_of(quota: u64) -> Option<Ground> {
    Some(Ground {
        m: Moment::new(1_337_905_493)?,
        vault: VaultName::parse(b"examplevault")?,
        description: Description::parse(b"")?,
        rules: Rules {
            region: Region::parse(b"us-east-1")?,
            account: Account::parse(b"111122223333")?,
            quota,
            delays: [300, 14_400, 28_800],
        },
    })
}

/// An account with the vault of the ground.
pub(crate) fn account_on(alloc: Global, ground: &Ground) -> Result<AccountState, Memory>
    ensures { IfOk result (λ state. IsLawful state) }
{
    let mut state = AccountState::new(alloc);
    let m = state.last.later(ground.m);
    let _ = create(alloc, &mut state, m, &ground.vault)?;
    Ok(state)
}

/// The moment so many seconds after the ground's, or the account's last where that is later.
pub(crate) fn moment_after(state: &AccountState, ground: &Ground, seconds: u64) -> Moment
    ensures { state.now.last ≤ result }
{
    match Moment::new(ground.m.seconds().saturating_add(seconds)) {
        Some(reading) => state.last.later(reading),
        None => state.last,
    }
}

/// What the time changes by so many seconds after the ground's moment.
pub(crate) fn passed(
    alloc: Global,
    state: &mut AccountState,
    ground: &Ground,
    seconds: u64,
) -> Result<Change, Memory>
    requires { IsLawful state.old }
    ensures { OnOk result (IsLawful state.new) }
{
    let m = moment_after(state, ground, seconds);
    settle(alloc, state, m)
}
