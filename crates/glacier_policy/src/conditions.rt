// The conditions of a statement, or the first fault in them.
ghost use Rattle.std.specs.Prelude.{◌≡◌, []};
ghost use Rattle.serde_json.specs.View.{view, members_view};
ghost use Rattle.glacier_policy.specs.Conditions.{operator_of, is_age_key, condition_of, keys_after, members_in, under_operator, operators_after, conditions_of};
ghost use Rattle.glacier_policy.specs.Reads.{Reads};
ghost use Rattle.glacier_policy.specs.Views.{member_view};

use crate::days::days_of;
use crate::{Condition, Operator, PolicyFault};
use glacier_base::List;
use serde_json::{Map, Value};
use std::alloc::Global;

fn operator_of(name: &str) -> Option<Operator>
    ensures { result ≡ operator_of name.now }
{
    if name == "NumericEquals" {
        Some(Operator::Equals)
    } else if name == "NumericNotEquals" {
        Some(Operator::NotEquals)
    } else if name == "NumericLessThan" {
        Some(Operator::LessThan)
    } else if name == "NumericLessThanEquals" {
        Some(Operator::LessThanEquals)
    } else if name == "NumericGreaterThan" {
        Some(Operator::GreaterThan)
    } else if name == "NumericGreaterThanEquals" {
        Some(Operator::GreaterThanEquals)
    } else {
        None
    }
}

fn is_age_key(key: &str) -> bool
    ensures { result ≡ is_age_key key.now }
{
    key.eq_ignore_ascii_case("glacier:ArchiveAgeInDays")
}

fn condition_of(
    alloc: Global,
    operator: Operator,
    key: &str,
    value: &Value,
) -> Result<Condition, PolicyFault>
    ensures { Reads (condition_of operator key.now (view value.now)) result }
{
    if !is_age_key(key) {
        return Err(PolicyFault::UnknownKey);
    }
    match days_of(alloc, value)? {
        Some(days) => Ok(Condition { operator, days }),
        None => Err(PolicyFault::BadNumber),
    }
}

/// Adds the conditions under an operator's keys.
fn add_keys(
    alloc: Global,
    operator: Operator,
    members: &Map<String, Value>,
    mut conditions: List<Condition>,
) -> Result<List<Condition>, PolicyFault>
    ensures { Reads (keys_after operator conditions (members_view members.now.entries)) result }
{
    for (key, value) in members.iter() {
        let condition = condition_of(alloc, operator, key.as_str(), value)?;
        conditions.push(condition)?;
    }
    Ok(conditions)
}

/// Adds the conditions under one operator.
fn add_operator(
    alloc: Global,
    name: &str,
    value: &Value,
    conditions: List<Condition>,
) -> Result<List<Condition>, PolicyFault>
    ensures { Reads (under_operator (operator_of name.now) conditions (view value.now)) result }
{
    let Some(operator) = operator_of(name) else {
        return Err(PolicyFault::UnknownOperator);
    };
    match value {
        Value::Object(members) => add_keys(alloc, operator, members, conditions),
        _ => Ok(conditions),
    }
}

fn each_operator(
    alloc: Global,
    members: &Map<String, Value>,
) -> Result<List<Condition>, PolicyFault>
    ensures { Reads (operators_after [] (members_view members.now.entries)) result }
{
    let mut conditions = List::new(alloc);
    for (name, value) in members.iter() {
        conditions = add_operator(alloc, name.as_str(), value, conditions)?;
    }
    Ok(conditions)
}

/// The conditions of a statement, from its member of that name.
pub(crate) fn conditions_of(
    alloc: Global,
    value: Option<&Value>,
) -> Result<List<Condition>, PolicyFault>
    ensures { Reads (conditions_of (member_view value.entry)) result }
{
    match value {
        Some(Value::Object(members)) => each_operator(alloc, members),
        _ => Ok(List::new(alloc)),
    }
}
