// Parts of open uploads.
ghost use Rattle.std.specs.Prelude.{◌≡◌, ◌≤◌, ◌<◌, ◌+◌, IfOk, OnOk, length};
ghost use Rattle.glacier_vault.specs.Lawful.{IsLawful};
ghost use Rattle.glacier_vault.specs.Rows.{answer, state_after, in_vault, drawn};
ghost use Rattle.glacier_vault.specs.Totals.{need};
ghost use Rattle.glacier_upload.specs.Parts.{is_misplaced, part_refusal, IsPartAdmitted, IsNewPart, with_part, in_upload, replaced, replaced_blob, replaced_room, replaced_length, part_row};

use crate::asks::{Found, PartAsk};
use crate::bodies::{refuse_body, refuse_room};
use glacier_base::{List, Memory, Moment, VaultName};
use glacier_vault::{
    AccountState, Change, Event, Part, Refusal, Rules, Upload, blocks_of, length_with_part,
    length_without_part, name_length,
};
use std::alloc::Global;

/// The greatest index of a part: an upload has at most 10,000 (Amazon S3 Glacier Developer Guide,
/// "Uploading Large Archives in Parts").
pub(crate) const LAST_INDEX: u64 = 9999;

/// Whether a part doesn't begin at a multiple of the part size, or is longer.
fn is_out_of_place(upload: &Upload, ask: &PartAsk) -> bool
    requires { 0 < upload.now.part_size }
    ensures { result ≡ is_misplaced upload.now ask.now }
{
    ask.first % upload.part_size != 0 || ask.size > upload.part_size
}

/// Why a part is refused before its body: `NoVault`, `NoUpload`, `BadRange`, `PartTooMany`,
/// `NoRoom`, `CounterEnd`. The first of them counts.
pub fn admit_part(state: &AccountState, rules: &Rules, ask: &PartAsk) -> Option<Refusal>
    requires lawful { IsLawful state.now }
    requires some { 1 ≤ ask.now.size }
    ensures { result ≡ part_refusal rules.now.quota state.now ask.now }
{
    let Some(vault) = state.vaults.get(&ask.vault) else {
        return Some(Refusal::NoVault { name: ask.vault });
    };
    let Some(upload) = vault.uploads.get(ask.upload) else {
        return Some(Refusal::NoUpload { upload: ask.upload });
    };
    if is_out_of_place(upload, ask) {
        return Some(Refusal::BadRange);
    }
    let index = ask.first / upload.part_size;
    if index > LAST_INDEX {
        return Some(Refusal::PartTooMany { index });
    }
    refuse_room(state, rules.quota, ask.size)
}

/// The blob of a part that was replaced, how many blocks it takes, and how many bytes the account's
/// snapshot takes without it.
#[derive(Drop)]
struct Replaced {
    blobs: List<u64>,
    room: u64,
    length: u64,
}

/// Puts a part at its index, in place of one that is there. The account's snapshot takes `length`
/// bytes with both, and the vault's name has `n` bytes.
fn replace(
    alloc: Global,
    upload: &mut Upload,
    index: u32,
    part: Part,
    length: u64,
    n: u64,
) -> Result<Replaced, Memory>
    requires within { replaced_length n upload.old index ≤ length }

    ensures upload { OnOk result (upload.new ≡ with_part index part upload.old) }
    ensures blobs { IfOk result (λ replaced. replaced.blobs ≡ replaced_blob upload.old index) }
    ensures sizes { IfOk result (λ replaced. (replaced.room ≡ replaced_room upload.old index)
        × (replaced.length + replaced_length n upload.old index ≡ length)) }
{
    let mut blobs = List::new(alloc);
    let mut room = 0;
    let mut length = length;
    if let Some(old) = upload.parts.get(index) {
        blobs.push(old.blob)?;
        room = blocks_of(old.size);
        length = length_without_part(length, n, old);
    }
    upload.parts.insert(index, part)?;
    Ok(Replaced {
        blobs,
        room,
        length,
    })
}

/// Puts a part into an open upload at the moment `m`, in place of one that is at its index, and
/// answers the blob of that one: nothing names it any more. The part's blob has the account's next
/// number, and nobody has asked whether there is room. A sum that is no `u64` is want of memory.
pub fn put_part(
    alloc: Global,
    state: &mut AccountState,
    m: Moment,
    name: &VaultName,
    upload: u64,
    index: u32,
    part: Part,
) -> Result<List<u64>, Memory>
    requires time { state.old.last ≤ m }
    requires lawful { IsLawful state.old }
    requires fits { IsNewPart state.old name.now upload index part }

    ensures freed { IfOk result (λ freed. freed ≡ replaced state.old name.now upload index) }
    ensures ok { OnOk result (state.new
        ≡ in_vault (drawn state.old) m name.now (in_upload upload (with_part index part))) }
    ensures lawful { OnOk result (IsLawful state.new) }
{
    let Some(used) = state.used.checked_add(blocks_of(part.size)) else {
        return Err(Memory);
    };
    let n = name_length(name);
    let Some(length) = length_with_part(state.length, n, &part) else {
        return Err(Memory);
    };
    let Some(vault) = state.vaults.get_mut(name) else {
        unreachable!();
    };
    let Some(open) = vault.uploads.get_mut(upload) else {
        unreachable!();
    };
    let replaced = replace(alloc, open, index, part, length, n)?;
    state.used = used - replaced.room;
    state.length = replaced.length;
    state.counter += 1;
    state.last = m;
    Ok(replaced.blobs)
}

/// Puts an admitted part whose body was taken at its index: `ContentMismatch`, else
/// `TreeMismatch`, where the body isn't the one that was named. A part that was there goes.
pub fn commit_part(
    alloc: Global,
    state: &mut AccountState,
    m: Moment,
    ask: &PartAsk,
    found: Found,
) -> Result<Result<Change, Refusal>, Memory>
    requires time { state.old.last ≤ m }
    requires lawful { IsLawful state.old }
    requires some { 1 ≤ ask.now.size }
    requires admitted { IsPartAdmitted state.old ask.now }
    requires leaves { length found.leaves ≡ need ask.now.size }

    ensures answer { IfOk result (λ done. done ≡ answer (part_row state.old m ask.now found)) }
    ensures state { OnOk result
        (state.new ≡ state_after state.old (part_row state.old m ask.now found)) }
    ensures lawful { OnOk result (IsLawful state.new) }
{
    if let Some(refusal) = refuse_body(&found, &ask.linear, &ask.tree) {
        return Ok(Err(refusal));
    }
    let Some(vault) = state.vaults.get(&ask.vault) else {
        unreachable!();
    };
    let Some(upload) = vault.uploads.get(ask.upload) else {
        unreachable!();
    };
    let index = (ask.first / upload.part_size) as u32;
    let leaves = List::of(alloc, found.leaves.as_slice())?;
    let part = Part {
        size: ask.size,
        leaves: found.leaves,
        tree: ask.tree,
        blob: state.counter,
    };
    let freed = put_part(alloc, state, m, &ask.vault, ask.upload, index, part)?;
    Ok(Ok(Change {
        event: Some(Event::Part {
            name: ask.vault,
            upload: ask.upload,
            index,
            size: ask.size,
            leaves,
        }),
        freed,
    }))
}
