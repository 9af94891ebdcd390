// Laws of uploads, which no code calls.
ghost use Rattle.std.specs.Prelude.{◌≡◌, ◌≢◌, ◌↔◌, ℕ, List, IsOk, Some, None, Ok};
ghost use Rattle.std.specs.FinMap as map;
ghost use Rattle.glacier_treehash.specs.Roots.{root_of_digests};
ghost use Rattle.glacier_vault.specs.Account.{counter_end};
ghost use Rattle.glacier_vault.specs.Freed.{RowFreesJust};
ghost use Rattle.glacier_vault.specs.Lawful.{IsLawful, IsLawfulUpload};
ghost use Rattle.glacier_vault.specs.Rows.{no_change};
ghost use Rattle.glacier_vault.specs.declared.archive.Upload.{Upload};
ghost use Rattle.glacier_vault.specs.declared.event.Change.{Change};
ghost use Rattle.glacier_vault.specs.declared.state.AccountState.{AccountState};
ghost use Rattle.glacier_vault.specs.declared.state.VaultState.{VaultState};
ghost use Rattle.glacier_upload.specs.Completion.{cover_refusal, part_leaves, complete_row};
ghost use Rattle.glacier_upload.specs.Covers.{HoldsJust};
ghost use Rattle.glacier_upload.specs.Frees.{FreesNothing, change_of};
ghost use Rattle.glacier_upload.specs.Parts.{part_row};
ghost use Rattle.glacier_upload.specs.Single.{upload_row};
ghost use Rattle.glacier_upload.specs.Uploads.{begin_row, abort_row};
ghost use Rattle.glacier_upload.specs.declared.asks.Found.{Found};
ghost use Rattle.glacier_upload.specs.declared.asks.PartAsk.{PartAsk};
ghost use Rattle.glacier_upload.specs.declared.asks.UploadAsk.{UploadAsk};
ghost use Rattle.glacier_upload.specs.declared.beginning.TheConstants.{MOST_UPLOADS};
ghost use Rattle.glacier_upload.specs.declared.parts.TheConstants.{LAST_INDEX};
ghost use Rattle.glacier_upload.specs.declared.single.TheConstants.{MOST_BYTES};

/// Parts are refused unless they hold just the bytes below the size that is named.
pub fn parts_hold_just()
    ensures { (last : ℕ) (upload : Upload) (size : ℕ) → IsLawfulUpload last upload
        → (cover_refusal upload size ≡ None) ↔ HoldsJust upload size }
{}

/// A completion of an open upload is accepted exactly where its parts hold just the bytes below the
/// size, their leaves have the tree hash as root, and a number is left to draw.
pub fn completion_is_accepted()
    ensures { (account : AccountState) (m : ℕ) (name : List ℕ) (number size : ℕ) (tree : List ℕ)
        (vault : VaultState) (upload : Upload) → IsLawful account
        → map.get account.vaults name ≡ Some vault → map.get vault.uploads number ≡ Some upload
        → IsOk (complete_row account m name number size tree)
        ↔ HoldsJust upload size × (root_of_digests (part_leaves upload) ≡ tree)
        × (account.counter ≢ counter_end) }
{}

/// A completion that was accepted is accepted again, on the account as it left it, with the same
/// archive, and then changes nothing.
pub fn completion_is_repeated()
    ensures { (account after : AccountState) (m later : ℕ) (name : List ℕ) (number size : ℕ)
        (tree : List ℕ) (archive : ℕ) (change : Change)
        → complete_row account m name number size tree ≡ Ok (after, (archive, change))
        → complete_row after later name number size tree ≡ Ok (after, (archive, no_change)) }
{}

/// The abort of an upload frees just the blobs that nothing names any more.
pub fn abort_frees_just()
    ensures { (account : AccountState) (m : ℕ) (name : List ℕ) (number : ℕ) → IsLawful account
        → RowFreesJust account (abort_row account m name number) }
{}

/// And so does a part.
pub fn part_frees_just()
    ensures { (account : AccountState) (m : ℕ) (ask : PartAsk) (found : Found) → IsLawful account
        → RowFreesJust account (part_row account m ask found) }
{}

/// A single upload frees nothing: each blob that was named still is.
pub fn upload_frees_nothing()
    ensures { (account : AccountState) (m : ℕ) (ask : UploadAsk) (found : Found) → IsLawful account
        → FreesNothing account (upload_row account m ask found) }
{}

/// Nor does the beginning of an upload in parts.
pub fn begin_frees_nothing()
    ensures { (account : AccountState) (m : ℕ) (name : List ℕ) (part_size : ℕ)
        (description : List ℕ) → IsLawful account
        → FreesNothing account (begin_row account m name part_size description) }
{}

/// Nor does a completion.
pub fn completion_frees_nothing()
    ensures { (account : AccountState) (m : ℕ) (name : List ℕ) (number size : ℕ) (tree : List ℕ)
        → IsLawful account
        → FreesNothing account (change_of (complete_row account m name number size tree)) }
{}

/// The limits in numbers: open uploads of an account, the last part's index, and the bytes of a
/// single upload (4 GiB).
pub fn limits_of_uploads()
    ensures uploads { MOST_UPLOADS ≡ 1000 }
    ensures index { LAST_INDEX ≡ 9999 }
    ensures bytes { MOST_BYTES ≡ 4294967296 }
{}
