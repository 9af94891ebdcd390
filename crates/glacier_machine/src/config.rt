// What a service is told when it starts.
ghost use Rattle.std.specs.Prelude.{◌≡◌};
ghost use Rattle.glacier_machine.specs.Outcomes.{rules_of};

use glacier_base::{Account, Region};
use glacier_sigv4::KeyRing;
use glacier_vault::Rules;

/// What a service is told when it starts.
#[derive(Drop)]
pub struct Config {
    /// The region in the names of vaults and in the scopes of signatures.
    pub region: Region,
    /// The accounts that are served, with their keys.
    pub ring: KeyRing,
    /// How many seconds a retrieval job takes, by its tier: Expedited, Standard and Bulk.
    pub delays: [u32; 3],
}

impl Config {
    /// What holds for the requests of an account.
    pub fn rules(&self, account: Account) -> Rules
        ensures { result ≡ rules_of self.now account }
    {
        Rules {
            region: self.region,
            account,
            quota: self.ring.quota(account),
            delays: self.delays,
        }
    }
}
