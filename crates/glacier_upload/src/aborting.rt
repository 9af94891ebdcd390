// Uploads in parts that end without an archive.
ghost use Rattle.std.specs.Prelude.{◌≡◌, ◌≤◌, ◌<◌, ◌^◌, IfOk, OnOk, IsSome, sum_by};
ghost use Rattle.std.specs.FinMap as map;
ghost use Rattle.glacier_vault.specs.Lawful.{IsLawful};
ghost use Rattle.glacier_vault.specs.Rows.{answer, state_after, in_vault};
ghost use Rattle.glacier_vault.specs.Totals.{blocks};
ghost use Rattle.glacier_upload.specs.Uploads.{open_upload, open_blobs, abort_row, part_blobs, without_upload};

use glacier_base::{List, Memory, Moment, VaultName};
use glacier_vault::{
    AccountState, Change, Event, Refusal, Upload, blocks_of, length_without_upload, name_length,
};
use std::alloc::Global;

/// The blobs of an upload's parts, in the order of the parts.
pub(crate) fn all_blobs(alloc: Global, upload: &Upload) -> Result<List<u64>, Memory>
    ensures { IfOk result (λ blobs. blobs ≡ part_blobs upload.now) }
{
    let blobs: Vec<u64> = upload.parts.values().map(|part| part.blob).collect(alloc)?;
    Ok(List::from_vec(blobs))
}

/// How many blocks an upload's parts take.
fn all_blocks(upload: &Upload) -> u64
    requires { sum_by blocks.part (map.values upload.now.parts) < 2 ^ 64 }
    ensures { result ≡ sum_by blocks.part (map.values upload.now.parts) }
{
    let mut sum = 0;
    for part in upload.parts.values() {
        sum += blocks_of(part.size);
    }
    sum
}

/// Takes an open upload out of its vault, with its parts, and answers their blobs: nothing names
/// them any more.
pub fn take_upload(
    alloc: Global,
    state: &mut AccountState,
    m: Moment,
    name: &VaultName,
    upload: u64,
) -> Result<List<u64>, Memory>
    requires time { state.old.last ≤ m }
    requires lawful { IsLawful state.old }
    requires there { IsSome (open_upload state.old name.now upload) }

    ensures freed { IfOk result (λ freed. freed ≡ open_blobs state.old name.now upload) }
    ensures ok { OnOk result
        (state.new ≡ in_vault state.old m name.now (without_upload upload)) }
    ensures lawful { OnOk result (IsLawful state.new) }
{
    let used = state.used;
    let uploads = state.uploads;
    let Some(vault) = state.vaults.get_mut(name) else {
        unreachable!();
    };
    let Some(open) = vault.uploads.remove(upload) else {
        unreachable!();
    };
    let freed = all_blobs(alloc, &open)?;
    state.used = used - all_blocks(&open);
    state.length = length_without_upload(state.length, name_length(name), &open);
    state.uploads = uploads - 1;
    state.last = m;
    Ok(freed)
}

/// Ends an open upload without an archive, and does nothing where there is none of this number:
/// `NoVault`, and `NoUpload` for one that was completed.
pub fn abort(
    alloc: Global,
    state: &mut AccountState,
    m: Moment,
    vault: &VaultName,
    upload: u64,
) -> Result<Result<Change, Refusal>, Memory>
    requires time { state.old.last ≤ m }
    requires lawful { IsLawful state.old }

    ensures answer { IfOk result (λ done. done
        ≡ answer (abort_row state.old m vault.now upload)) }
    ensures state { OnOk result
        (state.new ≡ state_after state.old (abort_row state.old m vault.now upload)) }
    ensures lawful { OnOk result (IsLawful state.new) }
{
    let Some(found) = state.vaults.get(vault) else {
        return Ok(Err(Refusal::NoVault { name: *vault }));
    };
    if found.finished.contains(upload) {
        return Ok(Err(Refusal::NoUpload { upload }));
    }
    if !found.uploads.contains(upload) {
        return Ok(Ok(Change::none(alloc)));
    }
    let freed = take_upload(alloc, state, m, vault, upload)?;
    Ok(Ok(Change {
        event: Some(Event::Abort {
            name: *vault,
            upload,
        }),
        freed,
    }))
}
