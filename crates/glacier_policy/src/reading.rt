// Reading a policy.
ghost use Rattle.std.specs.Prelude.{◌≡◌, IfOk, option_map};
ghost use Rattle.serde_json.specs.View.{view};
ghost use Rattle.glacier_policy.specs.Policies.{policy_of, policy_in, json_of};
ghost use Rattle.glacier_policy.specs.Reads.{Reads};

use crate::form::is_policy;
use crate::statements::statements_of;
use crate::{Policy, PolicyFault};
use glacier_base::Memory;
use serde_json::Value;
use std::alloc::Global;

/// The most bytes that a policy has.
pub const POLICY_LIMIT: usize = 20_480;

fn json_of(alloc: Global, text: &[u8]) -> Result<Option<Value>, Memory>
    ensures { IfOk result (λ value. option_map view value ≡ json_of text.now) }
{
    let Ok(text) = str::from_utf8(text) else {
        return Ok(None);
    };
    match Value::from_str(alloc, text) {
        Ok(value) => Ok(Some(value)),
        Err(error) => {
            if error.is_memory() {
                Err(Memory)
            } else {
                Ok(None)
            }
        }
    }
}

fn policy_in(alloc: Global, value: &Value) -> Result<Policy, PolicyFault>
    ensures { Reads (policy_in (view value.now)) result }
{
    if !is_policy(value) {
        return Err(PolicyFault::NotAPolicy);
    }
    let statements = statements_of(alloc, value.get("Statement"))?;
    Ok(Policy { statements })
}

impl Policy {
    /// The policy that a text is, or its first fault. Any text may want memory.
    #[tactic(auto, unfolding(crate::specs::Policies::policy_of))]
    pub fn read(alloc: Global, text: &[u8]) -> Result<Policy, PolicyFault>
        ensures { Reads (policy_of text.now) result }
    {
        if text.len() > POLICY_LIMIT {
            return Err(PolicyFault::TooLong {
                length: text.len() as u64,
            });
        }
        match json_of(alloc, text)? {
            Some(value) => policy_in(alloc, &value),
            None => Err(PolicyFault::NotJson),
        }
    }
}
