// The limits of an account, by hand from docs/rules/uploads.md and docs/rules/vault-machine.md.
ghost use Rattle.std.specs.Prelude.{OnOk};
ghost use Rattle.glacier_vault.specs.Lawful.{IsLawful};

use crate::ground::{Ground, account_on, ground_of};
use crate::upload_calls::{Said, Step, said_of};
use glacier_base::Memory;
use glacier_job::DAY;
use glacier_upload::{MOST_BYTES, MOST_UPLOADS, allows_part_size};
use glacier_vault::{AccountState, MOST_VAULTS};
use std::alloc::Global;

const MIB: u64 = 1_048_576;

/// Begins so many uploads: how many began before the first that didn't.
fn begun(
    alloc: Global,
    state: &mut AccountState,
    ground: &Ground,
    count: u64,
) -> Result<u64, Memory>
    requires { IsLawful state.old }
    ensures { OnOk result (IsLawful state.new) }
{
    for number in 0..count {
        if said_of(alloc, state, ground, Step::Begin(MIB))? != Said::Event {
            return Ok(number);
        }
    }
    Ok(count)
}

#[test]
fn an_account_has_at_most_1000_open_uploads(rt: HostRuntime) -> Result<(), Memory> {
    let alloc = rt.alloc();
    let ground = ground_of(64).expect(&rt, "a ground");
    let mut state = account_on(alloc, &ground)?;
    assert_eq!(rt; begun(alloc, &mut state, &ground, 1001)?, 1000);
    let said = said_of(alloc, &mut state, &ground, Step::Begin(MIB))?;
    assert!(rt; said == Said::UploadLimit && state.uploads == 1000);
    // One that ends makes room for another.
    let said = said_of(alloc, &mut state, &ground, Step::Abort)?;
    assert!(rt; said == Said::Event && state.uploads == 999);
    let said = said_of(alloc, &mut state, &ground, Step::Begin(MIB))?;
    assert!(rt; said == Said::Event && state.uploads == 1000);
    Ok(())
}

/// A size, and whether parts may have it.
const PART_SIZES: [(u64, bool); 9] = [
    (0, false),
    (524_288, false),
    (1_048_575, false),
    (1_048_576, true),
    (1_048_577, false),
    (3_145_728, false),
    (33_554_432, true),
    (4_294_967_296, true),
    (8_589_934_592, false),
];

#[test]
fn limits_are_those_of_the_rules(rt: HostRuntime) {
    assert!(rt; DAY == 86_400 && MOST_BYTES == 4_294_967_296);
    assert!(rt; MOST_UPLOADS == 1000 && MOST_VAULTS == 1000);
    for (size, allowed) in PART_SIZES {
        assert!(rt; allows_part_size(size) == allowed, "{size}");
    }
}
