// Where an account's numbers are used up, by hand from docs/rules/vault-machine.md: at the counter
// 2^64 - 1 none is left, and one below it the last is drawn.
ghost use Rattle.std.specs.Prelude.{IfOk, OnOk};
ghost use Rattle.glacier_vault.specs.Lawful.{IsLawful};

use crate::ground::{Ground, ground_of};
use crate::policy_tests::YEAR;
use crate::upload_calls::{Step, found_in};
use crate::{job_calls, lock_calls, upload_calls};
use glacier_base::{List, Memory};
use glacier_records::Kept;
use glacier_restore::restore;
use glacier_vault::AccountState;
use std::alloc::Global;

const MIB: u64 = 1_048_576;

/// Puts the vault of the ground in, with the open upload 0.
fn add_upload(alloc: Global, state: &mut AccountState, ground: &Ground) -> Result<(), Memory>
    requires { IsLawful state.old }
    ensures { OnOk result (IsLawful state.new) }
{
    let vault = Kept::Vault { name: ground.vault };
    let _ = restore(alloc, state, ground.m, &vault)?;
    let upload = Kept::OpenUpload {
        name: ground.vault,
        number: 0,
        part_size: MIB,
        description: ground.description,
    };
    let _ = restore(alloc, state, ground.m, &upload)?;
    Ok(())
}

/// An account with this counter, in whose vault the open upload 0 has a part of 3 bytes.
fn account_at(alloc: Global, ground: &Ground, counter: u64) -> Result<AccountState, Memory>
    ensures { IfOk result (λ state. IsLawful state) }
{
    let mut state = AccountState::new(alloc);
    let never = state.last;
    let account = Kept::Account { counter };
    let _ = restore(alloc, &mut state, ground.m, &account)?;
    add_upload(alloc, &mut state, ground)?;
    let part = Kept::OpenPart {
        name: ground.vault,
        upload: 0,
        index: 0,
        size: 3,
        blob: 1,
        leaves: found_in(alloc, 3, 1)?.leaves,
        runs: List::new(alloc),
    };
    let _ = restore(alloc, &mut state, never, &part)?;
    Ok(state)
}

/// A call that draws a number.
#[derive(Clone, Copy)]
enum Draw {
    /// A call on uploads.
    Upload(Step),
    /// An inventory begins.
    Job,
    /// A lock is initiated.
    Lock,
}

/// Whether it is refused since no number is left.
fn is_refused(
    alloc: Global,
    state: &mut AccountState,
    ground: &Ground,
    draw: Draw,
) -> Result<bool, Memory>
    requires { IsLawful state.old }
{
    match draw {
        Draw::Upload(step) => {
            let said = upload_calls::said_of(alloc, state, ground, step)?;
            Ok(said == upload_calls::Said::CounterEnd)
        }
        Draw::Job => {
            let said = job_calls::inventory(alloc, state, ground)?;
            Ok(said == job_calls::Said::CounterEnd)
        }
        Draw::Lock => {
            let step = lock_calls::Step::Initiate(YEAR);
            let said = lock_calls::said_of(alloc, state, ground, step)?;
            Ok(said == lock_calls::Said::CounterEnd)
        }
    }
}

/// Whether it is refused at this counter, and the counter is 2^64 - 1 behind it.
fn ends(alloc: Global, ground: &Ground, counter: u64, draw: Draw) -> Result<(bool, bool), Memory> {
    let mut state = account_at(alloc, ground, counter)?;
    let refused = is_refused(alloc, &mut state, ground, draw)?;
    Ok((refused, state.counter == u64::MAX))
}

/// An upload, the beginning of one in parts, a part, and the completion by its only part, whose tree
/// hash is its leaf; a job and a lock.
static DRAWS: [Draw; 6] = [
    Draw::Upload(Step::Upload(3, 1, 9)),
    Draw::Upload(Step::Begin(MIB)),
    Draw::Upload(Step::Part(MIB, 3, 1)),
    Draw::Upload(Step::Complete(
        3,
        "0101010101010101010101010101010101010101010101010101010101010101",
    )),
    Draw::Job,
    Draw::Lock,
];

#[test]
fn numbers_are_used_up_at_the_last(rt: HostRuntime) -> Result<(), Memory> {
    let alloc = rt.alloc();
    let ground = ground_of(64).expect(&rt, "a ground");
    for draw in DRAWS {
        assert!(rt; ends(alloc, &ground, u64::MAX, draw)? == (true, true));
        assert!(rt; ends(alloc, &ground, u64::MAX - 1, draw)? == (false, true));
    }
    Ok(())
}
