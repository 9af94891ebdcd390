// What locks deny.
ghost use Rattle.std.specs.Prelude.{◌≡◌, ◌≤◌, IsSome, IfSome, OnSome, Some};
ghost use Rattle.std.specs.FinMap as map;
ghost use Rattle.glacier_lock.specs.Denied.{age, denied};

use glacier_base::{Moment, VaultName};
use glacier_vault::{Archive, Lock, Refusal, Rules, VaultState};

/// The seconds of a day.
pub const DAY: u64 = 86_400;

/// An archive's age in whole days.
fn days_old(m: Moment, archive: &Archive) -> u64
    requires { archive.now.created ≤ m }
    ensures { result ≡ age m archive.now }
{
    (m.seconds() - archive.created.seconds()) / DAY
}

/// Why a vault's lock keeps the archive.
fn refuse(
    lock: &Option<Lock>,
    rules: &Rules,
    name: &VaultName,
    archive: &Archive,
    m: Moment,
) -> Option<Refusal>
    requires { archive.now.created ≤ m }
    ensures { result ≡ denied rules.now name.now m lock.now archive.now }
{
    let Some(lock) = lock else {
        return None;
    };
    let age = days_old(m, archive);
    if lock.policy.denies(&rules.region, &rules.account, name, age) {
        Some(Refusal::Denied { age })
    } else {
        None
    }
}

/// Why the vault's lock, in progress or locked, keeps a live archive from being deleted: `Denied`
/// with the archive's age in days, rounded down. It takes no memory.
pub fn may_delete(
    vault: &VaultState,
    rules: &Rules,
    name: &VaultName,
    archive: u64,
    m: Moment,
) -> Option<Refusal>
    requires live { IsSome (map.get vault.now.archives archive) }
    requires time { IfSome (map.get vault.now.archives archive) (λ found. found.created ≤ m) }
    ensures { IfSome (map.get vault.now.archives archive)
        (λ found. result ≡ denied rules.now name.now m vault.now.lock found) }
{
    let Some(archive) = vault.archives.get(archive) else {
        unreachable!();
    };
    refuse(&vault.lock, rules, name, archive, m)
}
