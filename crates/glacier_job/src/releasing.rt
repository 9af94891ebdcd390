// What a moment gives back: the room of held archives that no job names any more, and the places of
// jobs that end.
ghost use Rattle.std.specs.Prelude.{◌≡◌, ◌++◌, ◌+◌, ◌<◌, ◌^◌, IfOk, OnOk, sum_by, count_by};
ghost use Rattle.std.specs.FinMap as map;
ghost use Rattle.glacier_vault.specs.Named.{blobs_of};
ghost use Rattle.glacier_vault.specs.Totals.{blocks};
ghost use Rattle.glacier_job.specs.Pass.{is_past, dropped, freed, room_in, ended_in};

use crate::ending::is_day_past;
use crate::naming::named_archives_at;
use glacier_base::{List, Memory, Moment, NumberMap};
use glacier_vault::{AccountState, Job, VaultState, blocks_of};
use std::alloc::Global;

/// Blobs that nothing names any more, how many blocks they take, and how many jobs end.
#[derive(Drop)]
pub(crate) struct Released {
    pub blobs: List<u64>,
    pub room: u64,
    pub jobs: u64,
}

/// Adds the held archives that go from a vault.
fn release_held(
    alloc: Global,
    m: Moment,
    vault: &VaultState,
    released: &mut Released,
) -> Result<(), Memory>
    requires { released.old.room + room_in m vault.now < 2 ^ 64 }
    ensures blobs { OnOk result
        (released.new.blobs ≡ released.old.blobs ++ blobs_of (dropped m vault.now)) }
    ensures room { OnOk result (released.new.room ≡ released.old.room + room_in m vault.now) }
    ensures jobs { released.new.jobs ≡ released.old.jobs }
{
    if vault.held.is_empty() {
        return Ok(());
    }
    let named = named_archives_at(alloc, m, vault)?;
    for (number, archive) in vault.held.iter() {
        if !named.contains(*number) {
            released.blobs.extend_from_slice(archive.blobs.as_slice())?;
            released.room += blocks_of(archive.size);
        }
    }
    Ok(())
}

/// How many jobs end.
fn count_ended(m: Moment, jobs: &NumberMap<Job>) -> u64
    requires { count_by (λ job. is_past m job.ready) (map.values jobs.now) < 2 ^ 64 }
    ensures { result ≡ count_by (λ job. is_past m job.ready) (map.values jobs.now) }
{
    let mut count = 0;
    for job in jobs.values() {
        if is_day_past(m, job.ready) {
            count += 1;
        }
    }
    count
}

/// Adds what the moment gives back of a vault.
fn release(
    alloc: Global,
    m: Moment,
    vault: &VaultState,
    released: &mut Released,
) -> Result<(), Memory>
    requires room { released.old.room + room_in m vault.now < 2 ^ 64 }
    requires jobs { released.old.jobs + ended_in m vault.now < 2 ^ 64 }

    ensures blobs { OnOk result
        (released.new.blobs ≡ released.old.blobs ++ blobs_of (dropped m vault.now)) }
    ensures room { OnOk result (released.new.room ≡ released.old.room + room_in m vault.now) }
    ensures jobs { OnOk result (released.new.jobs ≡ released.old.jobs + ended_in m vault.now) }
{
    release_held(alloc, m, vault, released)?;
    released.jobs += count_ended(m, &vault.jobs);
    Ok(())
}

/// What the moment gives back.
pub(crate) fn release_all(
    alloc: Global,
    m: Moment,
    state: &AccountState,
) -> Result<Released, Memory>
    requires room { sum_by (room_in m) (map.values state.now.vaults) < 2 ^ 64 }
    requires jobs { sum_by (ended_in m) (map.values state.now.vaults) < 2 ^ 64 }

    ensures blobs { IfOk result (λ released. released.blobs ≡ freed m state.now) }
    ensures room { IfOk result (λ released.
        released.room ≡ sum_by (room_in m) (map.values state.now.vaults)) }
    ensures jobs { IfOk result (λ released.
        released.jobs ≡ sum_by (ended_in m) (map.values state.now.vaults)) }
{
    let mut released = Released {
        blobs: List::new(alloc),
        room: 0,
        jobs: 0,
    };
    for vault in state.vaults.values() {
        release(alloc, m, vault, &mut released)?;
    }
    Ok(released)
}
