// What locks answer and deny, one call after another, by hand from docs/rules/locks.md and
// docs/rules/policies.md.
ghost use Rattle.std.specs.Prelude.{OnOk};
ghost use Rattle.glacier_vault.specs.Lawful.{IsLawful};

use crate::ground::{Ground, account_on, ground_of};
use crate::lock_calls::{Said, Step, said_of};
use crate::policy_tests::YEAR;
use glacier_base::Memory;
use glacier_policy::PolicyFault;
use glacier_vault::AccountState;
use std::alloc::Global;

/// A policy with an operator that isn't offered.
const STRING_LIKE: &str = "{\"Statement\":[{\"Principal\":\"*\",\"Effect\":\"Deny\",\
    \"Action\":\"glacier:DeleteArchive\",\"Resource\":\"*\",\
    \"Condition\":{\"StringLike\":{\"glacier:ArchiveAgeInDays\":\"365\"}}}]}";

/// A call, its answer, and after it the counter.
type Row = (Step, Said, u64);

/// Whether the row's call is answered so, and leaves this.
fn is_answered(
    alloc: Global,
    state: &mut AccountState,
    ground: &Ground,
    row: &Row,
) -> Result<bool, Memory>
    requires { IsLawful state.old }
    ensures { OnOk result (IsLawful state.new) }
{
    let (step, said, counter) = *row;
    let answer = said_of(alloc, state, ground, step)?;
    Ok(answer == said && state.counter == counter)
}

/// How many rows are answered so, before the first that isn't.
fn answered(
    alloc: Global,
    state: &mut AccountState,
    ground: &Ground,
    rows: &[Row],
) -> Result<usize, Memory>
    requires { IsLawful state.old }
    ensures { OnOk result (IsLawful state.new) }
{
    for i in 0..rows.len() {
        if !is_answered(alloc, state, ground, &rows[i])? {
            return Ok(i);
        }
    }
    Ok(rows.len())
}

/// A lock that is completed in its last second, and then stays.
const LOCKED: [Row; 17] = [
    (Step::Show, Said::NoLock, 0),
    (Step::Complete(0), Said::NoLock, 0),
    (Step::Abort, Said::Nothing, 0),
    (
        Step::Initiate(STRING_LIKE),
        Said::BadPolicy(PolicyFault::UnknownOperator),
        0,
    ),
    (Step::Initiate(YEAR), Said::Event, 1),
    (Step::Show, Said::Lock(0, false), 1),
    (Step::Initiate(YEAR), Said::Pending, 1),
    (Step::Complete(1), Said::WrongId, 1),
    (Step::Time(86_399), Said::Nothing, 1),
    (Step::Complete(0), Said::Event, 1),
    (Step::Show, Said::Lock(0, true), 1),
    (Step::Abort, Said::Fixed, 1),
    (Step::Initiate(YEAR), Said::Fixed, 1),
    (Step::Complete(1), Said::Fixed, 1),
    (Step::Complete(0), Said::Nothing, 1),
    (Step::Time(86_400), Said::Nothing, 1),
    (Step::DeleteVault, Said::VaultLocked, 1),
];

/// A lock that ends, one that is aborted, and one that its vault takes with it.
const ENDED: [Row; 11] = [
    (Step::Initiate(YEAR), Said::Event, 1),
    (Step::Time(86_400), Said::Event, 1),
    (Step::Complete(0), Said::NoLock, 1),
    (Step::Initiate(YEAR), Said::Event, 2),
    (Step::Complete(0), Said::WrongId, 2),
    (Step::Abort, Said::Event, 2),
    (Step::Abort, Said::Nothing, 2),
    (Step::Show, Said::NoLock, 2),
    (Step::Initiate(YEAR), Said::Event, 3),
    (Step::DeleteVault, Said::Event, 3),
    (Step::Show, Said::NoVault, 3),
];

/// An archive is kept for 365 days, by a lock in progress and by one for good.
const DENIED: [Row; 12] = [
    (Step::Upload, Said::Event, 1),
    (Step::MayDelete(0), Said::Free, 1),
    (Step::Initiate(YEAR), Said::Event, 2),
    (Step::MayDelete(86_399), Said::Denied(0), 2),
    (Step::MayDelete(86_400), Said::Denied(1), 2),
    (Step::MayDelete(31_535_999), Said::Denied(364), 2),
    (Step::MayDelete(31_536_000), Said::Free, 2),
    (Step::Complete(1), Said::Event, 2),
    (Step::Time(31_535_999), Said::Nothing, 2),
    (Step::MayDelete(31_535_999), Said::Denied(364), 2),
    (Step::MayDelete(31_536_000), Said::Free, 2),
    (Step::DeleteVault, Said::NotEmpty, 2),
];

/// In an account without a vault.
const NOWHERE: [Row; 4] = [
    (Step::Initiate(YEAR), Said::NoVault, 0),
    (Step::Complete(0), Said::NoVault, 0),
    (Step::Abort, Said::NoVault, 0),
    (Step::Show, Said::NoVault, 0),
];

#[test]
fn a_lock_is_completed_within_a_day(rt: HostRuntime) -> Result<(), Memory> {
    let alloc = rt.alloc();
    let ground = ground_of(64).expect(&rt, "a ground");
    let mut state = account_on(alloc, &ground)?;
    assert_eq!(rt; answered(alloc, &mut state, &ground, &LOCKED)?, 17);
    let mut state = account_on(alloc, &ground)?;
    assert_eq!(rt; answered(alloc, &mut state, &ground, &ENDED)?, 11);
    Ok(())
}

#[test]
fn a_lock_keeps_archives(rt: HostRuntime) -> Result<(), Memory> {
    let alloc = rt.alloc();
    let ground = ground_of(64).expect(&rt, "a ground");
    let mut state = account_on(alloc, &ground)?;
    assert_eq!(rt; answered(alloc, &mut state, &ground, &DENIED)?, 12);
    Ok(())
}

#[test]
fn a_lock_needs_a_vault(rt: HostRuntime) -> Result<(), Memory> {
    let alloc = rt.alloc();
    let ground = ground_of(64).expect(&rt, "a ground");
    let mut state = AccountState::new(alloc);
    assert_eq!(rt; answered(alloc, &mut state, &ground, &NOWHERE)?, 4);
    Ok(())
}
