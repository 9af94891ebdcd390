// Locks of vaults.
use glacier_base::{Moment, Text};
use glacier_policy::Policy;

/// A vault's lock: in progress, or locked for good.
#[derive(Drop)]
pub struct Lock {
    pub number: u64,
    /// The policy as it was given.
    pub text: Text,
    /// What the text says.
    pub policy: Policy,
    pub created: Moment,
    pub locked: bool,
}
