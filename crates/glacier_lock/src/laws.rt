// Laws of locks, which no code calls.
ghost use Rattle.std.specs.Prelude.{◌≡◌, ℕ, List, Some, Err, true};
ghost use Rattle.std.specs.FinMap as map;
ghost use Rattle.glacier_policy.specs.Meaning.{Denies};
ghost use Rattle.glacier_vault.specs.Rows.{state_after};
ghost use Rattle.glacier_vault.specs.declared.archive.Archive.{Archive};
ghost use Rattle.glacier_vault.specs.declared.lock.Lock.{Lock};
ghost use Rattle.glacier_vault.specs.declared.refusal.Refusal.TheVariants as refusals;
ghost use Rattle.glacier_vault.specs.declared.rules.Rules.{Rules};
ghost use Rattle.glacier_vault.specs.declared.state.AccountState.{AccountState};
ghost use Rattle.glacier_vault.specs.declared.state.VaultState.{VaultState};
ghost use Rattle.glacier_lock.specs.Denied.{age, delete_archive_row};
ghost use Rattle.glacier_lock.specs.Locks.{abort_row, complete_row, initiate_row, lock_of};
ghost use Rattle.glacier_lock.specs.declared.denying.TheConstants.{DAY};

/// The deletion of a live archive is refused where the vault's lock denies it at the archive's age,
/// whether the lock is in progress or locked.
pub fn denied_is_refused()
    ensures { (rules : Rules) (account : AccountState) (m : ℕ) (name : List ℕ) (number : ℕ)
        (vault : VaultState) (archive : Archive) (lock : Lock)
        → map.get account.vaults name ≡ Some vault → map.get vault.archives number ≡ Some archive
        → vault.lock ≡ Some lock
        → Denies lock.policy rules.region rules.account name (age m archive)
        → delete_archive_row rules account m name number ≡ Err (refusals.Denied (age m archive)) }
{}

/// No operation on locks changes an account through a lock that is locked.
pub fn locked_for_good()
    ensures { (account : AccountState) (m : ℕ) (name : List ℕ) (lock : Lock) (text : List ℕ)
        (number : ℕ) → lock_of account name ≡ Some lock → lock.locked ≡ true
        → (state_after account (initiate_row account m name text) ≡ account)
        × (state_after account (complete_row account m name number) ≡ account)
        × (state_after account (abort_row account m name) ≡ account) }
{}

/// Ages count days of so many seconds.
pub fn seconds_of_a_day()
    ensures { DAY ≡ 86400 }
{}
