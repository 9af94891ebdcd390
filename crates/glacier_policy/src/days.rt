// The values of a condition.
ghost use Rattle.std.specs.Prelude.{◌≡◌, ◌<◌, [], ◌∷◌, length, IfOk, Some, option_and_then};
ghost use Rattle.std.specs.List.{list_all};
ghost use Rattle.serde_json.specs.View.{view, items_view};
ghost use Rattle.glacier_base.specs.Digits.{number_of};
ghost use Rattle.glacier_base.specs.Names.{is_digit};
ghost use Rattle.glacier_policy.specs.Conditions.{days_of_text, day_of, days_after, one_or_more, days_of};

use glacier_base::{List, Memory};
use serde_json::Value;
use std::alloc::Global;

const DAYS_LIMIT: u64 = 1_000_000_000_000_000_000;

fn are_digits(text: &str) -> bool
    ensures { result ≡ list_all is_digit text.now }
{
    text.as_bytes()
        .iter()
        .all(|byte| *byte >= b'0' && *byte <= b'9')
}

/// The number that a text's digits write.
fn number_of(text: &str) -> Option<u64>
    requires { 0 < length text.now }
    ensures { result ≡ number_of (length text.now) text.now }
{
    if !are_digits(text) {
        return None;
    }
    text.parse().ok()
}

fn days_of_text(text: &str) -> Option<u64>
    ensures { result ≡ days_of_text text.now }
{
    if text.is_empty() || text.len() > 18 {
        return None;
    }
    number_of(text)
}

fn day_of(value: &Value) -> Option<u64>
    ensures { result ≡ day_of (view value.now) }
{
    if let Some(text) = value.as_str() {
        return days_of_text(text);
    }
    match value.as_u64() {
        Some(days) if days < DAYS_LIMIT => Some(days),
        _ => None,
    }
}

fn each_day(alloc: Global, values: &[Value]) -> Result<Option<List<u64>>, Memory>
    ensures { IfOk result (λ days. days ≡ days_after [] (items_view values.now)) }
{
    let mut days = List::new(alloc);
    for value in values {
        match day_of(value) {
            Some(day) => days.push(day)?,
            None => return Ok(None),
        }
    }
    Ok(Some(days))
}

fn one_or_more(alloc: Global, values: &[Value]) -> Result<Option<List<u64>>, Memory>
    ensures { IfOk result (λ days. days ≡ one_or_more (items_view values.now)) }
{
    match values {
        [] => Ok(None),
        [_, ..] => each_day(alloc, values),
    }
}

fn one_day(alloc: Global, day: Option<u64>) -> Result<Option<List<u64>>, Memory>
    ensures { IfOk result (λ days. days ≡ option_and_then (λ day. Some (day ∷ [])) day) }
{
    let Some(day) = day else {
        return Ok(None);
    };
    let mut days = List::new(alloc);
    days.push(day)?;
    Ok(Some(days))
}

/// The values of a condition, or None where they are none.
pub(crate) fn days_of(alloc: Global, value: &Value) -> Result<Option<List<u64>>, Memory>
    ensures { IfOk result (λ days. days ≡ days_of (view value.now)) }
{
    match value {
        Value::Array(values) => one_or_more(alloc, values),
        _ => one_day(alloc, day_of(value)),
    }
}
