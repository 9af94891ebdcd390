// Laws of snapshots, which no code calls.
ghost use Rattle.std.specs.Prelude.{◌≡◌, ◌↔◌, ℕ, List, Some, false};
ghost use Rattle.glacier_extents.specs.declared.run.Run.{Run};
ghost use Rattle.glacier_vault.specs.Account.{empty_account};
ghost use Rattle.glacier_vault.specs.Lawful.{IsLawful};
ghost use Rattle.glacier_vault.specs.Totals.{times_named};
ghost use Rattle.glacier_vault.specs.declared.state.AccountState.{AccountState};
ghost use Rattle.glacier_restore.specs.Restoring.{is_named};
ghost use Rattle.glacier_restore.specs.Snapshot.{items_length, put_all, snapshot_items};
ghost use Rattle.glacier_restore.specs.Sound.{IsSound};

/// The items of an account's part of a snapshot, put one after another into the account that was
/// never seen, make just that account, wherever its blobs lie.
pub fn snapshot_restores()
    ensures { (account : AccountState) (runs : ℕ → List Run) → IsLawful account → IsSound account
        → put_all empty_account (snapshot_items runs account) ≡ Some account }
{}

/// The records of an account's part of a snapshot take as many bytes in a journal as the account
/// keeps, but for the runs of its blobs.
pub fn snapshot_length_is_kept()
    ensures { (account : AccountState) (runs : ℕ → List Run) → IsLawful account
        → items_length (snapshot_items runs account) ≡ account.length }
{}

/// An account names a blob exactly where the blob counts for something in it.
pub fn named_is_counted()
    ensures { (account : AccountState) (blob : ℕ)
        → (is_named account blob ≡ false) ↔ (times_named blob account.vaults ≡ 0) }
{}
