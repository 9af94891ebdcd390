// Single uploads.
ghost use Rattle.std.specs.Prelude.{◌≡◌, ◌≤◌, IfOk, OnOk, length};
ghost use Rattle.glacier_vault.specs.Lawful.{IsLawful};
ghost use Rattle.glacier_vault.specs.Rows.{answer, state_after};
ghost use Rattle.glacier_vault.specs.Totals.{need};
ghost use Rattle.glacier_upload.specs.Single.{upload_refusal, IsAdmitted, upload_row};

use crate::archives::put_archive;
use crate::asks::{Found, UploadAsk};
use crate::bodies::{refuse_body, refuse_room};
use glacier_base::{List, Memory, Moment};
use glacier_vault::{AccountState, Archive, Change, Event, Refusal, Rules};
use std::alloc::Global;

/// The most bytes of a single upload: 4 GiB (Amazon S3 Glacier Developer Guide, "Upload Archive").
pub const MOST_BYTES: u64 = 4_294_967_296;

/// Why an upload is refused before its body: `NoVault`, `Empty`, `TooLarge`, `NoRoom`,
/// `CounterEnd`. The first of them counts.
pub fn admit_upload(state: &AccountState, rules: &Rules, ask: &UploadAsk) -> Option<Refusal>
    requires lawful { IsLawful state.now }
    ensures { result ≡ upload_refusal rules.now.quota state.now ask.now }
{
    if !state.vaults.contains(&ask.vault) {
        return Some(Refusal::NoVault { name: ask.vault });
    }
    if ask.size < 1 {
        return Some(Refusal::Empty);
    }
    if ask.size > MOST_BYTES {
        return Some(Refusal::TooLarge {
            size: ask.size,
            most: MOST_BYTES,
        });
    }
    refuse_room(state, rules.quota, ask.size)
}

/// Makes an archive of an admitted upload whose body was taken: `ContentMismatch`, else
/// `TreeMismatch`, where the body isn't the one that was named.
pub fn commit_upload(
    alloc: Global,
    state: &mut AccountState,
    m: Moment,
    ask: &UploadAsk,
    found: Found,
) -> Result<Result<Change, Refusal>, Memory>
    requires time { state.old.last ≤ m }
    requires lawful { IsLawful state.old }
    requires admitted { IsAdmitted state.old ask.now }
    requires leaves { length found.leaves ≡ need ask.now.size }

    ensures answer { IfOk result (λ done. done ≡ answer (upload_row state.old m ask.now found)) }
    ensures state { OnOk result
        (state.new ≡ state_after state.old (upload_row state.old m ask.now found)) }
    ensures lawful { OnOk result (IsLawful state.new) }
{
    if let Some(refusal) = refuse_body(&found, &ask.linear, &ask.tree) {
        return Ok(Err(refusal));
    }
    let leaves = List::of(alloc, found.leaves.as_slice())?;
    let mut blobs = List::new(alloc);
    blobs.push(state.counter)?;
    let archive = Archive {
        size: ask.size,
        leaves: found.leaves,
        tree: ask.tree,
        description: ask.description,
        created: m,
        blobs,
    };
    put_archive(state, m, &ask.vault, archive)?;
    Ok(Ok(Change::of(
        alloc,
        Event::Upload {
            name: ask.vault,
            size: ask.size,
            description: ask.description,
            leaves,
        },
    )))
}
