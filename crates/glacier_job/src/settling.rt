// What a moment does to an account.
ghost use Rattle.std.specs.Prelude.{◌≡◌, ◌≤◌, ◌+◌, IfOk, OnOk, not, sum_by};
ghost use Rattle.std.specs.FinMap as map;
ghost use Rattle.glacier_base.specs.Maps.{changed_at, map_values, where_entries};
ghost use Rattle.glacier_vault.specs.Due.{due_in};
ghost use Rattle.glacier_vault.specs.Lawful.{IsLawful};
ghost use Rattle.glacier_vault.specs.Lengths.{lengths, archive_length, finished_length, job_length, snapshot_length};
ghost use Rattle.glacier_vault.specs.Totals.{vault_total};
ghost use Rattle.glacier_job.specs.Pass.{settled, has_ended, finished_after, lock_after, left_in, passed, pass, pass_change};

use crate::due::{due_of_content, is_due};
use crate::ending::{is_day_past, job_ended, lock_ended};
use crate::lengths::{length_without_ended, length_without_ended_lock, length_without_past};
use crate::naming::named_archives;
use crate::outcomes::settle_job;
use crate::releasing::release_all;
use glacier_base::{Memory, Moment, NumberMap, VaultName};
use glacier_vault::{
    AccountState, Archive, Change, Event, Finished, Job, Lock, VaultState, due_of_vaults,
    length_without_archive, name_length,
};
use std::alloc::Global;

// Each part of a vault's settling is handed how long the account's snapshot is, and answers how
// long it is behind that part. Lines that come are added, and what goes is taken off. `n` is how
// many bytes the vault's name has, and a sum that is no `u64` is want of memory.

/// Settles the job of a number, where there is one.
fn settle_number(
    alloc: Global,
    m: Moment,
    archives: &NumberMap<Archive>,
    jobs: &mut NumberMap<Job>,
    number: u64,
    length: u64,
    n: u64,
) -> Result<u64, Memory>
    ensures jobs { OnOk result (jobs.new ≡ changed_at (settled m archives.now) jobs.old number) }
    ensures length { IfOk result (λ more. more + sum_by (job_length n) (map.values jobs.old)
        ≡ length + sum_by (job_length n)
        (map.values (changed_at (settled m archives.now) jobs.old number))) }
{
    let Some(job) = jobs.get_mut(number) else {
        return Ok(length);
    };
    let more = settle_job(alloc, m, archives, job, length, n)?;
    Ok(more)
}

/// Settles each job.
fn settle_jobs(
    alloc: Global,
    m: Moment,
    archives: &NumberMap<Archive>,
    jobs: &mut NumberMap<Job>,
    length: u64,
    n: u64,
) -> Result<u64, Memory>
    ensures jobs { OnOk result (jobs.new ≡ map_values (settled m archives.now) jobs.old) }
    ensures length { IfOk result (λ more. more + sum_by (job_length n) (map.values jobs.old)
        ≡ length + sum_by (job_length n) (map.values jobs.new)) }
{
    let numbers = jobs.key_list(alloc)?;
    let mut more = length;
    for number in numbers.as_slice() {
        more = settle_number(alloc, m, archives, jobs, *number, more, n)?;
    }
    Ok(more)
}

/// Takes the jobs out that have ended.
fn drop_ended(m: Moment, jobs: &mut NumberMap<Job>, length: u64, n: u64) -> u64
    requires { sum_by (job_length n) (map.values jobs.old) ≤ length }
    ensures jobs { jobs.new ≡ where_entries (λ _ job. not (has_ended m job)) jobs.old }
    ensures length { result + sum_by (job_length n) (map.values jobs.old)
        ≡ length + sum_by (job_length n)
        (map.values (where_entries (λ _ job. not (has_ended m job)) jobs.old)) }
{
    let left = length_without_ended(length, n, m, jobs);
    jobs.retain(|_, job| !job_ended(m, job));
    left
}

/// Takes the held archives out that aren't among those named.
fn drop_unnamed(named: &NumberMap<()>, held: &mut NumberMap<Archive>, length: u64, n: u64) -> u64
    requires { sum_by (archive_length n) (map.values held.old) ≤ length }
    ensures held { held.new
        ≡ where_entries (λ number _. map.contains_key named.now number) held.old }
    ensures length { result + sum_by (archive_length n) (map.values held.old)
        ≡ length + sum_by (archive_length n)
        (map.values (where_entries (λ number _. map.contains_key named.now number) held.old)) }
{
    let mut left = length;
    for (number, archive) in held.iter() {
        if !named.contains(*number) {
            left = length_without_archive(left, n, archive);
        }
    }
    held.retain(|number, _| named.contains(*number));
    left
}

/// Takes the finished uploads out that have ended.
fn drop_past(m: Moment, finished: &mut NumberMap<Finished>, length: u64, n: u64) -> u64
    requires { sum_by (λ _. finished_length n) (map.values finished.old) ≤ length }
    ensures finished { finished.new ≡ finished_after m finished.old }
    ensures length { result + sum_by (λ _. finished_length n) (map.values finished.old)
        ≡ length + sum_by (λ _. finished_length n) (map.values (finished_after m finished.old)) }
{
    let left = length_without_past(length, n, m, finished);
    finished.retain(|_, upload| !is_day_past(m, upload.at));
    left
}

fn kept_lock(m: Moment, lock: Option<Lock>) -> Option<Lock>
    ensures { result ≡ lock_after m lock }
{
    let lock = lock?;
    if lock_ended(m, &lock) {
        None
    } else {
        Some(lock)
    }
}

/// Settles what is in a vault.
fn settle_content(
    alloc: Global,
    m: Moment,
    vault: &mut VaultState,
    length: u64,
    n: u64,
) -> Result<u64, Memory>
    requires { vault_total (lengths n) vault.old ≤ length }
    ensures vault { OnOk result (vault.new ≡ left_in m vault.old) }
    ensures length { IfOk result (λ left. left + vault_total (lengths n) vault.old
        ≡ length + vault_total (lengths n) (left_in m vault.old)) }
{
    let left = settle_jobs(alloc, m, &vault.archives, &mut vault.jobs, length, n)?;
    let left = drop_ended(m, &mut vault.jobs, left, n);
    vault.named = named_archives(alloc, &vault.jobs)?;
    let left = drop_unnamed(&vault.named, &mut vault.held, left, n);
    let left = drop_past(m, &mut vault.finished, left, n);
    let left = length_without_ended_lock(left, n, m, &vault.lock);
    let lock = vault.lock.take();
    vault.lock = kept_lock(m, lock);
    Ok(left)
}

/// Settles what is in a vault, and finds the moment that is due in what is left.
fn settle_vault(
    alloc: Global,
    m: Moment,
    vault: &mut VaultState,
    length: u64,
    n: u64,
) -> Result<u64, Memory>
    requires { vault_total (lengths n) vault.old ≤ length }
    ensures vault { OnOk result (vault.new ≡ passed m vault.old) }
    ensures length { IfOk result (λ left. left + vault_total (lengths n) vault.old
        ≡ length + vault_total (lengths n) (passed m vault.old)) }
{
    let left = settle_content(alloc, m, vault, length, n)?;
    vault.due = due_of_content(vault);
    Ok(left)
}

/// Settles what is in the vault of a name, where there is one.
fn settle_name(
    alloc: Global,
    m: Moment,
    state: &mut AccountState,
    name: &VaultName,
) -> Result<(), Memory>
    requires { state.old.length ≡ snapshot_length state.old.vaults }
    ensures { OnOk result (state.new ≡ record state.old {
      vaults = changed_at (passed m) state.old.vaults name.now;
      length = snapshot_length (changed_at (passed m) state.old.vaults name.now);
    }) }
{
    let length = state.length;
    let Some(vault) = state.vaults.get_mut(name) else {
        return Ok(());
    };
    state.length = settle_vault(alloc, m, vault, length, name_length(name))?;
    Ok(())
}

/// Settles what is in each vault.
fn settle_vaults(alloc: Global, m: Moment, state: &mut AccountState) -> Result<(), Memory>
    requires { state.old.length ≡ snapshot_length state.old.vaults }
    ensures { OnOk result (state.new ≡ record state.old {
      vaults = map_values (passed m) state.old.vaults;
      length = snapshot_length (map_values (passed m) state.old.vaults);
    }) }
{
    let names = state.vaults.key_list(alloc)?;
    for name in names.as_slice() {
        settle_name(alloc, m, state, name)?;
    }
    Ok(())
}

/// Keeps the moment that is due in the vaults as they are.
fn keep_due(state: &mut AccountState)
    ensures { state.new ≡ record state.old { due = due_in state.old.vaults } }
{
    state.due = due_of_vaults(&state.vaults);
}

/// Settles the jobs that are ready at the moment `m`, and drops what has ended: jobs, finished
/// uploads and locks in progress a day old, and the held archives that no finished job names. It is
/// an event exactly where it changes more than the last moment. After an `Err` the state is given
/// up.
pub fn settle(alloc: Global, state: &mut AccountState, m: Moment) -> Result<Change, Memory>
    requires time { state.old.last ≤ m }
    requires lawful { IsLawful state.old }

    ensures change { IfOk result (λ change. change ≡ pass_change m state.old) }
    ensures state { OnOk result (state.new ≡ pass m state.old) }
    ensures lawful { OnOk result (IsLawful state.new) }
{
    if !is_due(state, m) {
        state.last = m;
        return Ok(Change::none(alloc));
    }
    let used = state.used;
    let jobs = state.jobs;
    let released = release_all(alloc, m, state)?;
    settle_vaults(alloc, m, state)?;
    keep_due(state);
    state.used = used - released.room;
    state.jobs = jobs - released.jobs;
    state.last = m;
    Ok(Change {
        event: Some(Event::Pass),
        freed: released.blobs,
    })
}
