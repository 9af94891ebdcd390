// Blobs that an account names.
ghost use Rattle.std.specs.Prelude.{◌≡◌};
ghost use Rattle.std.specs.FinMap as map;
ghost use Rattle.std.specs.List.{list_any};
ghost use Rattle.glacier_restore.specs.Restoring.{archive_names, is_named, names_some, upload_names, vault_names};

use glacier_base::NumberMap;
use glacier_records::{Blob, Kept};
use glacier_vault::{AccountState, Archive, Upload, VaultState};

fn archive_names(archive: &Archive, blob: u64) -> bool
    ensures { result ≡ archive_names blob archive.now }
{
    archive.blobs.as_slice().contains(&blob)
}

fn some_archive_names(archives: &NumberMap<Archive>, blob: u64) -> bool
    ensures { result ≡ list_any (archive_names blob) (map.values archives.now) }
{
    archives
        .values()
        .any(|archive| archive_names(archive, blob))
}

fn upload_names(upload: &Upload, blob: u64) -> bool
    ensures { result ≡ upload_names blob upload.now }
{
    upload.parts.values().any(|part| part.blob == blob)
}

fn some_upload_names(uploads: &NumberMap<Upload>, blob: u64) -> bool
    ensures { result ≡ list_any (upload_names blob) (map.values uploads.now) }
{
    uploads.values().any(|upload| upload_names(upload, blob))
}

fn vault_names(vault: &VaultState, blob: u64) -> bool
    ensures { result ≡ vault_names blob vault.now }
{
    some_archive_names(&vault.archives, blob)
        || some_archive_names(&vault.held, blob)
        || some_upload_names(&vault.uploads, blob)
}

/// Whether a blob is one of the account's: all that it has is walked.
fn is_named(state: &AccountState, blob: u64) -> bool
    ensures { result ≡ is_named state.now blob }
{
    state.vaults.values().any(|vault| vault_names(vault, blob))
}

fn some_is_named(state: &AccountState, blobs: &[Blob]) -> bool
    ensures { result ≡ list_any (λ blob. is_named state.now blob.number) blobs.now }
{
    blobs.iter().any(|blob| is_named(state, blob.number))
}

/// Whether the account names a blob that an item brings already.
pub(crate) fn names_some(state: &AccountState, kept: &Kept) -> bool
    ensures { result ≡ names_some state.now kept.now }
{
    match kept {
        Kept::Archive { blobs, .. } => some_is_named(state, blobs.as_slice()),
        Kept::OpenPart { blob, .. } => is_named(state, *blob),
        _ => false,
    }
}
