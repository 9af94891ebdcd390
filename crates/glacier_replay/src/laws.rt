// Laws of kept events, which no code calls.
ghost use Rattle.std.specs.Prelude.{◌≡◌, ◌≢◌, ◌≤◌, ℕ, List, Some, Err, true, length};
ghost use Rattle.glacier_vault.specs.Deletions.{delete_row, live_archive};
ghost use Rattle.glacier_vault.specs.Lawful.{IsLawful};
ghost use Rattle.glacier_vault.specs.Rows.{create_row};
ghost use Rattle.glacier_vault.specs.Totals.{need};
ghost use Rattle.glacier_vault.specs.declared.rules.Rules.{Rules};
ghost use Rattle.glacier_vault.specs.declared.state.AccountState.{AccountState};
ghost use Rattle.glacier_upload.specs.Parts.{IsPartAdmitted, part_row};
ghost use Rattle.glacier_upload.specs.Single.{IsAdmitted, upload_row};
ghost use Rattle.glacier_upload.specs.Uploads.{abort_row as abort_upload_row, begin_row as begin_upload_row};
ghost use Rattle.glacier_upload.specs.Frees.{change_of};
ghost use Rattle.glacier_upload.specs.declared.asks.Found.{Found};
ghost use Rattle.glacier_upload.specs.declared.asks.PartAsk.{PartAsk};
ghost use Rattle.glacier_upload.specs.declared.asks.UploadAsk.{UploadAsk};
ghost use Rattle.glacier_lock.specs.Denied.{delete_archive_row};
ghost use Rattle.glacier_lock.specs.Locks.{abort_row, complete_row, initiate_row, lock_of};
ghost use Rattle.glacier_job.specs.Beginning.{begin_row};
ghost use Rattle.glacier_job.specs.Work.{HasOrderedRange};
ghost use Rattle.glacier_job.specs.declared.asks.JobAsk.{JobAsk};
ghost use Rattle.glacier_extents.specs.declared.run.Run.{Run};
ghost use Rattle.glacier_vault.specs.Accounts.{AccountEvent, Accounts, account_in};
ghost use Rattle.glacier_replay.specs.Changes.{State, after_account_event, change_in};
ghost use Rattle.glacier_replay.specs.Freed.{FreesExactly};
ghost use Rattle.glacier_replay.specs.Held.{HeldStays};
ghost use Rattle.glacier_replay.specs.Made.{Holdings, after_event as held_after};
ghost use Rattle.glacier_replay.specs.Replayed.{after_event, replays};
ghost use Rattle.glacier_vault.specs.Freed.{FreesJust};
ghost use Rattle.glacier_vault.specs.declared.archive.Archive.{Archive};
ghost use Rattle.glacier_vault.specs.declared.event.Event.{Event};
ghost use Rattle.glacier_vault.specs.declared.event.Event.TheVariants.{DeleteArchive};
ghost use Rattle.glacier_vault.specs.declared.lock.Lock.{Lock};
ghost use Rattle.glacier_upload.specs.Completion.{complete_row as complete_upload_row};

/// The event of an accepted creation of a vault makes of the account what the row does, and frees the
/// same blobs. So do the eleven below.
pub fn created_vault_replays()
    ensures { (account : AccountState) (m : ℕ) (name : List ℕ) → replays account m (create_row account m name) }
{}

/// The event of a vault's deletion.
pub fn deleted_vault_replays()
    ensures { (account : AccountState) (m : ℕ) (name : List ℕ) → replays account m (delete_row account m name) }
{}

/// The event of an archive's deletion.
pub fn deleted_archive_replays()
    ensures { (rules : Rules) (account : AccountState) (m : ℕ) (name : List ℕ) (archive : ℕ)
        → replays account m (delete_archive_row rules account m name archive) }
{}

/// The event of the beginning of an upload in parts.
pub fn begun_upload_replays()
    ensures { (account : AccountState) (m : ℕ) (name : List ℕ) (part_size : ℕ) (description : List ℕ)
        → replays account m (begin_upload_row account m name part_size description) }
{}

/// The event of its end without an archive.
pub fn aborted_upload_replays()
    ensures { (account : AccountState) (m : ℕ) (name : List ℕ) (upload : ℕ)
        → replays account m (abort_upload_row account m name upload) }
{}

/// The event of a lock that is initiated.
pub fn initiated_lock_replays()
    ensures { (account : AccountState) (m : ℕ) (name text : List ℕ)
        → replays account m (initiate_row account m name text) }
{}

/// The event of a lock that is completed.
pub fn completed_lock_replays()
    ensures { (account : AccountState) (m : ℕ) (name : List ℕ) (lock : ℕ)
        → replays account m (complete_row account m name lock) }
{}

/// The event of a lock that is aborted.
pub fn aborted_lock_replays()
    ensures { (account : AccountState) (m : ℕ) (name : List ℕ)
        → replays account m (abort_row account m name) }
{}

/// The event of an admitted single upload.
pub fn upload_replays()
    ensures { (account : AccountState) (m : ℕ) (ask : UploadAsk) (found : Found) → IsAdmitted account ask
        → length found.leaves ≡ need ask.size → replays account m (upload_row account m ask found) }
{}

/// The event of an admitted part.
pub fn part_replays()
    ensures { (account : AccountState) (m : ℕ) (ask : PartAsk) (found : Found) → 1 ≤ ask.size
        → IsPartAdmitted account ask → length found.leaves ≡ need ask.size
        → replays account m (part_row account m ask found) }
{}

/// The event of the completion of an upload in parts.
pub fn completed_upload_replays()
    ensures { (account : AccountState) (m : ℕ) (name : List ℕ) (upload size : ℕ) (tree : List ℕ) → 1 ≤ size
        → replays account m (change_of (complete_upload_row account m name upload size tree)) }
{}

/// The event of a job's beginning.
pub fn begun_job_replays()
    ensures { (rules : Rules) (account : AccountState) (m : ℕ) (ask : JobAsk) → IsLawful account
        → HasOrderedRange ask.kind → replays account m (begin_row rules account m ask) }
{}

/// A lock that is locked stays as it is, and so its vault, whatever event comes.
pub fn locked_stays()
    ensures { (account after : AccountState) (m : ℕ) (event : Event) (freed : List ℕ) (name : List ℕ) (lock : Lock)
        → after_event account m event ≡ Some (after, freed) → lock_of account name ≡ Some lock
        → lock.locked ≡ true → lock_of after name ≡ Some lock }
{}

/// A live archive of a lawful account stays, whatever event comes but its own deletion.
pub fn archive_stays()
    ensures { (account after : AccountState) (m : ℕ) (event : Event) (freed : List ℕ) (name : List ℕ)
        (number : ℕ) (archive : Archive) → IsLawful account
        → after_event account m event ≡ Some (after, freed)
        → live_archive account name number ≡ Some archive → event ≢ DeleteArchive name number
        → live_archive after name number ≡ Some archive }
{}

/// A held archive stays held, and its blobs keep their bytes and their runs, whatever event comes and of
/// whatever account, as long as a finished job of its vault names it.
pub fn held_stays()
    ensures bytes { (state : State) (h : AccountEvent) → IsLawful (account_in state.accounts h.account)
        → HeldStays state.accounts (after_account_event state h).accounts
        state.bodies (after_account_event state h).bodies }
    ensures runs { (held : Holdings) (account : List ℕ) (m : ℕ) (event : Event) (runs : List Run)
        → IsLawful (account_in held.accounts account)
        → HeldStays held.accounts (held_after held account m event runs).accounts
        held.layouts (held_after held account m event runs).layouts }
{}

/// An event that fits frees just the blobs that its account named before it and doesn't name after it,
/// each once.
pub fn event_frees_just()
    ensures just { (accounts : Accounts) (account : List ℕ) (m : ℕ) (event : Event) (after : AccountState)
        (freed : List ℕ) → IsLawful (account_in accounts account)
        → change_in accounts account m event ≡ Some (after, freed)
        → FreesJust (account_in accounts account) after freed }
    ensures exactly { (accounts : Accounts) (account : List ℕ) (m : ℕ) (event : Event) (after : AccountState)
        (freed : List ℕ) → IsLawful (account_in accounts account)
        → change_in accounts account m event ≡ Some (after, freed)
        → FreesExactly (account_in accounts account) after freed }
{}
