// What a policy is, and why a text is none.
use glacier_base::{List, Memory, Text};

/// Why a text is no policy.
#[derive(Clone, Copy, Debug, PartialEq, Eq)]
pub enum PolicyFault {
    /// It has more than `POLICY_LIMIT` bytes.
    TooLong { length: u64 },
    /// It isn't JSON.
    NotJson,
    /// It hasn't the form of a policy.
    NotAPolicy,
    /// A condition's operator isn't known.
    UnknownOperator,
    /// A condition's key isn't `glacier:ArchiveAgeInDays`.
    UnknownKey,
    /// A condition's value is no number of days.
    BadNumber,
    /// There is no memory for it. Any text may want memory.
    Memory,
}

/// How a condition compares an archive's age with its values.
#[derive(Clone, Copy)]
pub enum Operator {
    Equals,
    NotEquals,
    LessThan,
    LessThanEquals,
    GreaterThan,
    GreaterThanEquals,
}

/// What the age of an archive in days must be: in the relation to one of the values, and for
/// `NotEquals` none of them. The values are below 10^18.
#[derive(Drop)]
pub struct Condition {
    pub operator: Operator,
    pub days: List<u64>,
}

/// A statement: whether it denies, whom, what, where, and when. Everybody is the principal `*`.
#[derive(Drop)]
pub struct Statement {
    pub is_deny: bool,
    pub principals: List<Text>,
    pub actions: List<Text>,
    pub resources: List<Text>,
    pub conditions: List<Condition>,
}

/// The policy of a vault's lock.
#[derive(Drop)]
pub struct Policy {
    pub statements: List<Statement>,
}

impl From<Memory> for PolicyFault {
    ghost use Rattle.std.specs.Prelude.{◌≡◌};
    ghost use Rattle.glacier_policy.specs.declared.policy.PolicyFault.TheVariants as faults;

    ghost from_gives = { λ _ fault. fault ≡ faults.Memory };

    fn from(_: Memory) -> Self {
        PolicyFault::Memory
    }
}
