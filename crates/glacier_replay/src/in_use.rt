// Laws of the blocks that are in use, and of those that a body may take, which no code calls.
ghost use Rattle.std.specs.Prelude.{◌≡◌, ◌+◌, ◌<◌, ◌≤◌, ℕ, List, true};
ghost use Rattle.glacier_bodies.specs.Stands.{AreApart, Layouts};
ghost use Rattle.glacier_extents.specs.declared.run.Run.{Run};
ghost use Rattle.glacier_extents.specs.declared.run.TheConstants.{BLOCKS};
ghost use Rattle.glacier_extents.specs.FreeRuns.{Claims};
ghost use Rattle.glacier_extents.specs.Runs.{has_block, block_count, AreRuns};
ghost use Rattle.glacier_journal.specs.Listed.{Payloads};
ghost use Rattle.glacier_vault.specs.declared.event.Event.{Event};
ghost use Rattle.glacier_vault.specs.Accounts.{Accounts, AllLawful, account_in};
ghost use Rattle.glacier_replay.specs.Changes.{accounts_after, change_in};
ghost use Rattle.glacier_replay.specs.InUse.{AreWithin, IsAreaOf, Quotas, layout_blocks, quota_in, quotas_total, used_by_all};
ghost use Rattle.glacier_replay.specs.Made.{IsRest, Makes};

/// Accounts that payloads make are lawful.
pub fn made_accounts_are_lawful()
    ensures { (payloads : Payloads) (accounts : Accounts) (layouts : Layouts)
        → Makes payloads accounts layouts → AllLawful accounts }
{}

/// Lawful accounts stay so after an event of one of them.
pub fn events_keep_accounts_lawful()
    ensures { (accounts : Accounts) (account : List ℕ) (m : ℕ) (event : Event) → AllLawful accounts
        → AllLawful (accounts_after accounts account (change_in accounts account m event)) }
{}

/// What the accounts that payloads make use is how many blocks the blobs have.
pub fn used_is_in_use()
    ensures { (payloads : Payloads) (accounts : Accounts) (layouts : Layouts)
        → Makes payloads accounts layouts → used_by_all accounts ≡ layout_blocks layouts }
{}

/// The free blocks and those of blobs are all.
pub fn free_and_blobs_are_all()
    ensures { (free : List Run) (layouts : Layouts) → IsRest free layouts → AreRuns 0 BLOCKS free
        → AreApart layouts → block_count free + layout_blocks layouts ≡ BLOCKS }
{}

/// The free blocks and those that accounts use are all.
pub fn free_and_used_are_all()
    ensures { (payloads : Payloads) (accounts : Accounts) (layouts : Layouts) (free : List Run)
        → Makes payloads accounts layouts → AreRuns 0 BLOCKS free → IsRest free layouts
        → block_count free + used_by_all accounts ≡ BLOCKS }
{}

/// Where `count` of the free blocks are taken for a body, each of them lies below the number of those
/// that accounts use, that bodies which are open have, and that are taken.
pub fn bodies_stay_below()
    ensures { (payloads : Payloads) (accounts : Accounts) (layouts : Layouts)
        (own old new claimed : List Run) (count : ℕ)
        → IsAreaOf payloads accounts layouts own old → Claims count old new claimed
        → (b : ℕ) → has_block claimed b ≡ true → b < used_by_all accounts + block_count own + count }
{}

/// Where no account uses more than its quota, nor would that of a body with the body's blocks, and no
/// other body is open, each of these lies below the sum of the quotas.
pub fn admitted_bodies_are_within_quotas()
    ensures { (quotas : Quotas) (accounts : Accounts) → AreWithin quotas accounts
        → (account : List ℕ) (count : ℕ)
        → (account_in accounts account).used + count ≤ quota_in quotas account
        → (payloads : Payloads) (layouts : Layouts) (old new claimed : List Run)
        → Makes payloads accounts layouts → IsRest old layouts → Claims count old new claimed
        → (b : ℕ) → has_block claimed b ≡ true → b < quotas_total quotas }
{}
