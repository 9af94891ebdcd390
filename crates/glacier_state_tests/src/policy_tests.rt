// Policies of vault locks: their faults, and what they deny. The answers are by hand from
// docs/rules/policies.md.
use glacier_base::{Account, Region, VaultName};
use glacier_policy::{POLICY_LIMIT, Policy, PolicyFault};
use std::alloc::{AllocError, Global};
use std::test::Fail;

/// What stands before the members that a statement's conditions have, and what stands behind them.
const FRONT: &str = "{\"Statement\":{\"Effect\":\"Deny\",\"Principal\":\"*\",\
    \"Action\":\"glacier:DeleteArchive\",\"Resource\":\"*\",\"Condition\":{";

const BACK: &str = "}}}";

/// Members of a condition, and the fault of the policy with it.
const CONDITIONS: [(&str, PolicyFault); 8] = [
    (
        "\"StringLike\":{\"glacier:ArchiveAgeInDays\":\"365\"}",
        PolicyFault::UnknownOperator,
    ),
    ("\"NumericEquals\":{\"a\":1}", PolicyFault::UnknownKey),
    (
        "\"NumericEquals\":{\"a\":1},\"A\":{}",
        PolicyFault::UnknownOperator,
    ),
    (
        "\"NumericEquals\":{\"glacier:archiveageindays\":\"x\",\"a\":1}",
        PolicyFault::UnknownKey,
    ),
    (
        "\"NumericEquals\":{\"GLACIER:ArchiveAgeInDays\":\"x\",\"a\":1}",
        PolicyFault::BadNumber,
    ),
    (
        "\"NumericEquals\":{\"glacier:ArchiveAgeInDays\":1000000000000000000}",
        PolicyFault::BadNumber,
    ),
    (
        "\"NumericEquals\":{\"glacier:ArchiveAgeInDays\":[]}",
        PolicyFault::BadNumber,
    ),
    ("\"NumericEquals\":1", PolicyFault::NotAPolicy),
];

/// Texts that are no policies, whatever their conditions.
const TEXTS: [(&str, PolicyFault); 4] = [
    ("{", PolicyFault::NotJson),
    ("\u{feff}{}", PolicyFault::NotJson),
    ("{\"Statement\":[]}", PolicyFault::NotAPolicy),
    (
        "{\"Statement\":{\"Effect\":\"Deny\",\"Principal\":\"*\",\"Action\":\"*\",\
            \"Resource\":\"*\",\"Condition\":{\"A\":{}},\"a\":null}}",
        PolicyFault::NotAPolicy,
    ),
];

fn has_fault(alloc: Global, text: &[u8], fault: PolicyFault) -> bool {
    match Policy::read(alloc, text) {
        Ok(_) => false,
        Err(found) => found == fault,
    }
}

/// Whether the policy whose conditions have these members has this fault.
fn is_faulty(alloc: Global, members: &str, fault: PolicyFault) -> Result<bool, AllocError> {
    let text = [FRONT, members, BACK].concat(alloc)?;
    Ok(has_fault(alloc, text.as_bytes(), fault))
}

/// Whether so many spaces have this fault.
fn are_faulty(alloc: Global, count: usize, fault: PolicyFault) -> Result<bool, AllocError> {
    let text = " ".repeat(alloc, count)?;
    Ok(has_fault(alloc, text.as_bytes(), fault))
}

#[test]
fn first_faults_of_policies_are_told(rt: HostRuntime) -> Result<(), Fail> {
    for (text, fault) in TEXTS {
        assert!(rt; has_fault(rt.alloc(), text.as_bytes(), fault), "{text}");
    }
    for (members, fault) in CONDITIONS {
        assert!(rt; is_faulty(rt.alloc(), members, fault)?, "{members}");
    }
    assert!(rt; are_faulty(rt.alloc(), POLICY_LIMIT, PolicyFault::NotJson)?);
    assert!(rt;
        are_faulty(
            rt.alloc(),
            POLICY_LIMIT + 1,
            PolicyFault::TooLong { length: 20_481 }
        )?
    );
    Ok(())
}

/// The Developer Guide's policy by age, and one with an Allow, another vault's statement and one
/// with wildcards.
pub(crate) const YEAR: &str = "{\"Version\":\"2012-10-17\",\"Statement\":[{\
    \"Sid\":\"deny-based-on-archive-age\",\"Principal\":\"*\",\"Effect\":\"Deny\",\
    \"Action\":\"glacier:DeleteArchive\",\
    \"Resource\":[\"arn:aws:glacier:us-east-1:111122223333:vaults/examplevault\"],\
    \"Condition\":{\"NumericLessThan\":{\"glacier:ArchiveAgeInDays\":\"365\"}}}]}";

const THREE: &str = "{\"Statement\":[\
    {\"Effect\":\"Allow\",\"Principal\":\"*\",\"Action\":\"*\",\"Resource\":\"*\"},\
    {\"Effect\":\"Deny\",\"Principal\":\"*\",\"Action\":\"*\",\
    \"Resource\":\"arn:aws:glacier:us-east-1:111122223333:vaults/other\"},\
    {\"Effect\":\"Deny\",\"Principal\":{\"AWS\":\"arn:aws:iam::111122223333:root\"},\
    \"Action\":\"GLACIER:delete*\",\"Resource\":\"arn:*/example?ault\",\
    \"Condition\":{\"NumericLessThanEquals\":{\"glacier:ArchiveAgeInDays\":5}}}]}";

const NONE_OF_TWO: &str = "{\"Statement\":{\"Effect\":\"Deny\",\
    \"Principal\":{\"AWS\":[\"444455556666\",\"111122223333\"]},\"Action\":[\"*\"],\
    \"Resource\":[\"*\"],\
    \"Condition\":{\"NumericNotEquals\":{\"glacier:archiveAgeInDays\":[\"10\",20]}}}}";

const NOBODY: &str = "{\"Statement\":{\"Effect\":\"Deny\",\"Principal\":{\"AWS\":[]},\
    \"Action\":\"*\",\"Resource\":\"*\"}}";

/// A policy, an age in days, and whether the deletion is denied.
const ASKED: [(&str, u64, bool); 9] = [
    (YEAR, 0, true),
    (YEAR, 364, true),
    (YEAR, 365, false),
    (THREE, 5, true),
    (THREE, 6, false),
    (NONE_OF_TWO, 11, true),
    (NONE_OF_TWO, 10, false),
    (NONE_OF_TWO, 20, false),
    (NOBODY, 0, false),
];

/// Whether a deletion from the vault of the examples is denied.
fn is_denied(alloc: Global, text: &str, age: u64) -> Option<bool> {
    let policy = Policy::read(alloc, text.as_bytes()).ok()?;
    let region = Region::parse(b"us-east-1")?;
    let account = Account::parse(b"111122223333")?;
    let vault = VaultName::parse(b"examplevault")?;
    Some(policy.denies(&region, &account, &vault, age))
}

#[test]
fn deletions_are_denied(rt: HostRuntime) {
    for (text, age, denied) in ASKED {
        assert!(rt;
            is_denied(rt.alloc(), text, age) == Some(denied),
            "{age} {text}"
        );
    }
}
