// What a policy denies.
ghost use Rattle.std.specs.Prelude.{◌≡◌, ◌↔◌, IsTrue, ◌==◌, nat_lt, nat_le, ◌+◌, ◌<◌, ◌≤◌, ◌++◌, ℕ, length, take, codes};
ghost use Rattle.std.specs.List.{list_any, list_all};
ghost use Rattle.glacier_policy.specs.Denials.{is_principal_of, root_of, is_deletion, arn_of, is_resource, holds_for, holds, statement_denies, denial};
ghost use Rattle.glacier_policy.specs.Meaning.{Denies};

use crate::patterns::{LONGEST_TEXT, fits};
use crate::{Condition, Operator, Policy, Statement};
use glacier_base::{Account, Region, Text, VaultName};

/// Puts a part of a name behind what is there.
fn put(bytes: &mut [u8; LONGEST_TEXT], size: usize, part: &[u8]) -> usize
    requires { size + length part.now ≤ LONGEST_TEXT }
    ensures size { result ≡ size + length part.now }
    ensures bytes { take result bytes.new ≡ take size bytes.old ++ part.now }
{
    let end = size + part.len();
    bytes[size..end].copy_from_slice(part);
    end
}

/// Writes the principal that an account is.
fn put_root(bytes: &mut [u8; LONGEST_TEXT], account: &Account) -> usize
    ensures room { result ≤ LONGEST_TEXT }
    ensures bytes { take result bytes.new ≡ root_of account.now }
{
    let size = put(bytes, 0, b"arn:aws:iam::");
    let size = put(bytes, size, account.bytes());
    put(bytes, size, b":root")
}

/// Writes a vault's name for resources.
fn put_arn(
    bytes: &mut [u8; LONGEST_TEXT],
    region: &Region,
    account: &Account,
    vault: &VaultName,
) -> usize
    ensures room { result ≤ LONGEST_TEXT }
    ensures bytes { take result bytes.new ≡ arn_of region.now account.now vault.now }
{
    let size = put(bytes, 0, b"arn:aws:glacier:");
    let size = put(bytes, size, region.bytes());
    let size = put(bytes, size, b":");
    let size = put(bytes, size, account.bytes());
    let size = put(bytes, size, b":vaults/");
    put(bytes, size, vault.bytes())
}

fn is_principal_of(account: &Account, name: &[u8]) -> bool
    ensures { result ≡ is_principal_of account.now name.now }
{
    if name == b"*".as_slice() || name == account.bytes() {
        return true;
    }
    let mut bytes = [0; LONGEST_TEXT];
    let size = put_root(&mut bytes, account);
    name == &bytes[..size]
}

fn is_any_principal_of(account: &Account, names: &[Text]) -> bool
    ensures { result ≡ list_any (is_principal_of account.now) names.now }
{
    for name in names {
        if is_principal_of(account, name.bytes()) {
            return true;
        }
    }
    false
}

fn is_deletion(pattern: &[u8]) -> bool
    ensures { result ≡ is_deletion pattern.now }
{
    fits(pattern, b"glacier:deletearchive", true)
}

fn is_any_deletion(patterns: &[Text]) -> bool
    ensures { result ≡ list_any is_deletion patterns.now }
{
    for pattern in patterns {
        if is_deletion(pattern.bytes()) {
            return true;
        }
    }
    false
}

fn is_resource(arn: &[u8], pattern: &[u8]) -> bool
    requires { length arn.now ≤ LONGEST_TEXT }
    ensures { result ≡ is_resource arn.now pattern.now }
{
    fits(pattern, arn, false)
}

fn is_any_resource(arn: &[u8], patterns: &[Text]) -> bool
    requires { length arn.now ≤ LONGEST_TEXT }
    ensures { result ≡ list_any (is_resource arn.now) patterns.now }
{
    for pattern in patterns {
        if is_resource(arn, pattern.bytes()) {
            return true;
        }
    }
    false
}

fn is_equal(age: u64, days: &[u64]) -> bool
    ensures { result ≡ list_any (λ day. age == day) days.now }
{
    days.iter().any(|day| age == *day)
}

fn is_less(age: u64, days: &[u64]) -> bool
    ensures { result ≡ list_any (λ day. nat_lt age day) days.now }
{
    days.iter().any(|day| age < *day)
}

fn is_at_most(age: u64, days: &[u64]) -> bool
    ensures { result ≡ list_any (λ day. nat_le age day) days.now }
{
    days.iter().any(|day| age <= *day)
}

fn is_greater(age: u64, days: &[u64]) -> bool
    ensures { result ≡ list_any (λ day. nat_lt day age) days.now }
{
    days.iter().any(|day| *day < age)
}

fn is_at_least(age: u64, days: &[u64]) -> bool
    ensures { result ≡ list_any (λ day. nat_le day age) days.now }
{
    days.iter().any(|day| *day <= age)
}

fn holds_for(operator: Operator, age: u64, days: &[u64]) -> bool
    ensures { result ≡ holds_for operator age days.now }
{
    match operator {
        Operator::Equals => is_equal(age, days),
        Operator::NotEquals => !is_equal(age, days),
        Operator::LessThan => is_less(age, days),
        Operator::LessThanEquals => is_at_most(age, days),
        Operator::GreaterThan => is_greater(age, days),
        Operator::GreaterThanEquals => is_at_least(age, days),
    }
}

fn holds(age: u64, condition: &Condition) -> bool
    ensures { result ≡ holds age condition.now }
{
    holds_for(condition.operator, age, condition.days.as_slice())
}

fn each_holds(age: u64, conditions: &[Condition]) -> bool
    ensures { result ≡ list_all (holds age) conditions.now }
{
    for condition in conditions {
        if !holds(age, condition) {
            return false;
        }
    }
    true
}

fn statement_denies(account: &Account, arn: &[u8], age: u64, statement: &Statement) -> bool
    requires { length arn.now ≤ LONGEST_TEXT }
    ensures { result ≡ statement_denies account.now arn.now age statement.now }
{
    statement.is_deny
        && is_any_principal_of(account, statement.principals.as_slice())
        && is_any_deletion(statement.actions.as_slice())
        && is_any_resource(arn, statement.resources.as_slice())
        && each_holds(age, statement.conditions.as_slice())
}

fn any_denies(account: &Account, arn: &[u8], age: u64, statements: &[Statement]) -> bool
    requires { length arn.now ≤ LONGEST_TEXT }
    ensures { result ≡ list_any (statement_denies account.now arn.now age) statements.now }
{
    for statement in statements {
        if statement_denies(account, arn, age, statement) {
            return true;
        }
    }
    false
}

impl Policy {
    /// Whether the policy denies the deletion of an archive of this age, in whole days, from the
    /// vault. It takes no memory.
    #[tactic(auto, unfolding(crate::specs::Denials::denial))]
    pub fn denies(
        &self,
        region: &Region,
        account: &Account,
        vault: &VaultName,
        age_days: u64,
    ) -> bool
        ensures value { result ≡ denial self.now region.now account.now vault.now age_days }
        ensures meaning { IsTrue result
            ↔ Denies self.now region.now account.now vault.now age_days }
    {
        let mut bytes = [0; LONGEST_TEXT];
        let size = put_arn(&mut bytes, region, account, vault);
        any_denies(
            account,
            &bytes[..size],
            age_days,
            self.statements.as_slice(),
        )
    }
}
