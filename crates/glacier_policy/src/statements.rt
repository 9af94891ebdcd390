// The statements of a policy, or the first fault in their conditions.
ghost use Rattle.std.specs.Prelude.{◌≡◌, [], IfOk};
ghost use Rattle.serde_json.specs.Data.{item, no_items};
ghost use Rattle.serde_json.specs.View.{view, items_view};
ghost use Rattle.glacier_policy.specs.Policies.{is_deny, principals_in, principals_of, statement_of, statements_after, statements_of};
ghost use Rattle.glacier_policy.specs.Reads.{Reads};
ghost use Rattle.glacier_policy.specs.Views.{member_view};

use crate::conditions::conditions_of;
use crate::texts::{one_text, texts_of};
use crate::{PolicyFault, Statement};
use glacier_base::{List, Memory, Text};
use serde_json::Value;
use std::alloc::Global;

fn is_deny(value: Option<&Value>) -> bool
    ensures { result ≡ is_deny (member_view value.entry) }
{
    match value {
        Some(Value::String(text)) => text.as_str() == "Deny",
        _ => false,
    }
}

fn principals_in(alloc: Global, value: &Value) -> Result<List<Text>, Memory>
    ensures { IfOk result (λ names. names ≡ principals_in (view value.now)) }
{
    match value {
        Value::String(text) => one_text(alloc, text.as_str()),
        Value::Object(_) => texts_of(alloc, value.get("AWS")),
        _ => Ok(List::new(alloc)),
    }
}

fn principals_of(alloc: Global, value: Option<&Value>) -> Result<List<Text>, Memory>
    ensures { IfOk result (λ names. names ≡ principals_of (member_view value.entry)) }
{
    match value {
        Some(value) => principals_in(alloc, value),
        None => Ok(List::new(alloc)),
    }
}

fn statement_of(alloc: Global, value: &Value) -> Result<Statement, PolicyFault>
    ensures { Reads (statement_of (view value.now)) result }
{
    let conditions = conditions_of(alloc, value.get("Condition"))?;
    Ok(Statement {
        is_deny: is_deny(value.get("Effect")),
        principals: principals_of(alloc, value.get("Principal"))?,
        actions: texts_of(alloc, value.get("Action"))?,
        resources: texts_of(alloc, value.get("Resource"))?,
        conditions,
    })
}

fn each_statement(alloc: Global, values: &[Value]) -> Result<List<Statement>, PolicyFault>
    ensures { Reads (statements_after [] (items_view values.now)) result }
{
    let mut statements = List::new(alloc);
    for value in values {
        let statement = statement_of(alloc, value)?;
        statements.push(statement)?;
    }
    Ok(statements)
}

fn one_statement(alloc: Global, value: &Value) -> Result<List<Statement>, PolicyFault>
    ensures { Reads (statements_after [] (item (view value.now) no_items)) result }
{
    let statement = statement_of(alloc, value)?;
    let mut statements = List::new(alloc);
    statements.push(statement)?;
    Ok(statements)
}

/// The statements of a policy, from its member of that name.
pub(crate) fn statements_of(
    alloc: Global,
    value: Option<&Value>,
) -> Result<List<Statement>, PolicyFault>
    ensures { Reads (statements_of (member_view value.entry)) result }
{
    let Some(value) = value else {
        return Ok(List::new(alloc));
    };
    match value {
        Value::Array(values) => each_statement(alloc, values),
        Value::Object(_) => one_statement(alloc, value),
        _ => Ok(List::new(alloc)),
    }
}
