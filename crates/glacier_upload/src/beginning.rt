// Uploads in parts that begin.
ghost use Rattle.std.specs.Prelude.{◌≡◌, ◌≤◌, IfOk, OnOk};
ghost use Rattle.glacier_vault.specs.Lawful.{IsLawful};
ghost use Rattle.glacier_vault.specs.PartSizes.{is_part_size};
ghost use Rattle.glacier_vault.specs.Rows.{answer, state_after, in_vault, drawn};
ghost use Rattle.glacier_upload.specs.Uploads.{begin_refusal, begin_row, with_upload, IsNewUpload};

use glacier_base::{Description, Memory, Moment, PartMap, VaultName};
use glacier_vault::{
    AccountState, Change, Event, Refusal, Upload, length_with_upload, name_length, refuse_draw,
};
use std::alloc::Global;

/// The most uploads that can be open in an account.
pub const MOST_UPLOADS: u64 = 1000;

/// 1 MiB times each power of two up to 4 GiB.
const PART_SIZES: [u64; 13] = [
    1_048_576,
    2_097_152,
    4_194_304,
    8_388_608,
    16_777_216,
    33_554_432,
    67_108_864,
    134_217_728,
    268_435_456,
    536_870_912,
    1_073_741_824,
    2_147_483_648,
    4_294_967_296,
];

/// Whether parts may have this many bytes: 1 MiB times a power of two, at most 4 GiB (Amazon S3
/// Glacier Developer Guide, "Initiate Multipart Upload").
#[tactic(auto, unfolding(glacier_vault::specs::PartSizes::is_part_size))]
pub fn allows_part_size(size: u64) -> bool
    ensures { result ≡ is_part_size size }
{
    PART_SIZES.iter().any(|allowed| *allowed == size)
}

/// Why no upload in parts begins.
fn refuse_begin(state: &AccountState, vault: &VaultName, part_size: u64) -> Option<Refusal>
    requires { IsLawful state.now }
    ensures { result ≡ begin_refusal state.now vault.now part_size }
{
    if !allows_part_size(part_size) {
        return Some(Refusal::BadPartSize);
    }
    if !state.vaults.contains(vault) {
        return Some(Refusal::NoVault { name: *vault });
    }
    if state.uploads >= MOST_UPLOADS {
        return Some(Refusal::UploadLimit);
    }
    refuse_draw(state)
}

/// Puts an upload without parts into a vault at the moment `m`, at the account's next number.
/// Nobody has asked how many are open; a count or a length that is no `u64` is want of memory.
pub fn put_upload(
    state: &mut AccountState,
    m: Moment,
    name: &VaultName,
    upload: Upload,
) -> Result<(), Memory>
    requires time { state.old.last ≤ m }
    requires lawful { IsLawful state.old }
    requires fits { IsNewUpload state.old m name.now upload }

    ensures ok { OnOk result (state.new
        ≡ in_vault (drawn state.old) m name.now (with_upload state.old.counter upload)) }
    ensures lawful { OnOk result (IsLawful state.new) }
{
    let Some(uploads) = state.uploads.checked_add(1) else {
        return Err(Memory);
    };
    let Some(length) = length_with_upload(state.length, name_length(name), &upload) else {
        return Err(Memory);
    };
    let Some(vault) = state.vaults.get_mut(name) else {
        unreachable!();
    };
    vault.uploads.insert(state.counter, upload)?;
    state.uploads = uploads;
    state.length = length;
    state.counter += 1;
    state.last = m;
    Ok(())
}

/// Begins an upload in parts: `BadPartSize`, `NoVault`, `UploadLimit`, `CounterEnd`. The first of
/// them counts.
pub fn begin(
    alloc: Global,
    state: &mut AccountState,
    m: Moment,
    vault: &VaultName,
    part_size: u64,
    description: &Description,
) -> Result<Result<Change, Refusal>, Memory>
    requires time { state.old.last ≤ m }
    requires lawful { IsLawful state.old }

    ensures answer { IfOk result (λ done. done
        ≡ answer (begin_row state.old m vault.now part_size description.now)) }
    ensures state { OnOk result (state.new
        ≡ state_after state.old (begin_row state.old m vault.now part_size description.now)) }
    ensures lawful { OnOk result (IsLawful state.new) }
{
    if let Some(refusal) = refuse_begin(state, vault, part_size) {
        return Ok(Err(refusal));
    }
    let upload = Upload {
        created: m,
        part_size,
        description: *description,
        parts: PartMap::new(alloc),
    };
    put_upload(state, m, vault, upload)?;
    Ok(Ok(Change::of(
        alloc,
        Event::BeginUpload {
            name: *vault,
            part_size,
            description: *description,
        },
    )))
}
