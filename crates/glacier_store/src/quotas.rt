// Quotas of accounts.
ghost use Rattle.std.specs.Prelude.{◌≡◌};
ghost use Rattle.glacier_store.specs.Quotas.{over_quota};

use glacier_base::Account;
use glacier_replay::Accounts;
use glacier_sigv4::KeyRing;

/// An account that uses more than its quota. Both are in blocks.
#[derive(Clone, Copy)]
pub struct OverQuota {
    pub account: Account,
    pub used: u64,
    pub quota: u64,
}

/// The first of all accounts, in their order, that uses more than its quota in a ring. It takes no
/// memory.
pub fn first_over(accounts: &Accounts, ring: &KeyRing) -> Option<OverQuota>
    ensures { result ≡ over_quota ring.now accounts.now }
{
    for (account, state) in accounts.iter() {
        let quota = ring.quota(*account);
        if state.used > quota {
            return Some(OverQuota {
                account: *account,
                used: state.used,
                quota,
            });
        }
    }
    None
}
