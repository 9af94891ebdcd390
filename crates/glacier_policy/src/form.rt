// The form of a policy as a JSON value.
ghost use Rattle.std.specs.Prelude.{◌≡◌, codes};
ghost use Rattle.serde_json.specs.Find.{get};
ghost use Rattle.serde_json.specs.View.{view, items_view, members_view};
ghost use Rattle.glacier_policy.specs.Form.{has_items, every_item, every_name, every_value, needed, allowed, is_text, is_texts, is_one_or_more, is_effect, is_principal, is_principal_name, is_object, is_condition, is_statement, is_statement_name, are_statement_members, are_statements, is_version, is_policy, is_policy_name, are_policy_members};
ghost use Rattle.glacier_policy.specs.Views.{member_view};

use serde_json::{Map, Value};

fn is_text(value: &Value) -> bool
    ensures { result ≡ is_text (view value.now) }
{
    value.is_string()
}

fn has_items(values: &[Value]) -> bool
    ensures { result ≡ has_items (items_view values.now) }
{
    match values {
        [] => false,
        [_, ..] => true,
    }
}

fn are_texts(values: &[Value]) -> bool
    ensures { result ≡ every_item is_text (items_view values.now) }
{
    for value in values {
        if !is_text(value) {
            return false;
        }
    }
    true
}

fn is_texts(value: &Value) -> bool
    ensures { result ≡ is_texts (view value.now) }
{
    match value {
        Value::String(_) => true,
        Value::Array(values) => are_texts(values),
        _ => false,
    }
}

fn is_one_or_more(value: &Value) -> bool
    ensures { result ≡ is_one_or_more (view value.now) }
{
    match value {
        Value::String(_) => true,
        Value::Array(values) => has_items(values) && are_texts(values),
        _ => false,
    }
}

fn is_effect(value: &Value) -> bool
    ensures { result ≡ is_effect (view value.now) }
{
    match value.as_str() {
        Some(text) => text == "Allow" || text == "Deny",
        None => false,
    }
}

fn has_only_principal_names(members: &Map<String, Value>) -> bool
    ensures { result ≡ every_name is_principal_name (members_view members.now.entries) }
{
    for (name, _) in members.iter() {
        if name.as_str() != "AWS" {
            return false;
        }
    }
    true
}

fn has_accounts(value: &Value) -> bool
    ensures { result ≡ needed is_texts (get (codes "AWS") (view value.now)) }
{
    match value.get("AWS") {
        Some(accounts) => is_texts(accounts),
        None => false,
    }
}

fn is_principal(value: &Value) -> bool
    ensures { result ≡ is_principal (view value.now) }
{
    match value {
        Value::String(text) => text.as_str() == "*",
        Value::Object(members) => has_only_principal_names(members) && has_accounts(value),
        _ => false,
    }
}

fn are_objects(members: &Map<String, Value>) -> bool
    ensures { result ≡ every_value is_object (members_view members.now.entries) }
{
    for (_, value) in members.iter() {
        if !value.is_object() {
            return false;
        }
    }
    true
}

fn is_condition(value: &Value) -> bool
    ensures { result ≡ is_condition (view value.now) }
{
    match value.as_object() {
        Some(members) => are_objects(members),
        None => false,
    }
}

fn is_statement_name(name: &str) -> bool
    ensures { result ≡ is_statement_name name.now }
{
    name == "Effect"
        || name == "Principal"
        || name == "Action"
        || name == "Resource"
        || name == "Sid"
        || name == "Condition"
}

fn has_only_statement_names(members: &Map<String, Value>) -> bool
    ensures { result ≡ every_name is_statement_name (members_view members.now.entries) }
{
    for (name, _) in members.iter() {
        if !is_statement_name(name.as_str()) {
            return false;
        }
    }
    true
}

fn is_needed_effect(value: Option<&Value>) -> bool
    ensures { result ≡ needed is_effect (member_view value.entry) }
{
    match value {
        Some(value) => is_effect(value),
        None => false,
    }
}

fn is_needed_principal(value: Option<&Value>) -> bool
    ensures { result ≡ needed is_principal (member_view value.entry) }
{
    match value {
        Some(value) => is_principal(value),
        None => false,
    }
}

fn is_needed_list(value: Option<&Value>) -> bool
    ensures { result ≡ needed is_one_or_more (member_view value.entry) }
{
    match value {
        Some(value) => is_one_or_more(value),
        None => false,
    }
}

fn is_allowed_text(value: Option<&Value>) -> bool
    ensures { result ≡ allowed is_text (member_view value.entry) }
{
    match value {
        Some(value) => is_text(value),
        None => true,
    }
}

fn is_allowed_condition(value: Option<&Value>) -> bool
    ensures { result ≡ allowed is_condition (member_view value.entry) }
{
    match value {
        Some(value) => is_condition(value),
        None => true,
    }
}

fn are_statement_members(value: &Value) -> bool
    ensures { result ≡ are_statement_members (view value.now) }
{
    is_needed_effect(value.get("Effect"))
        && is_needed_principal(value.get("Principal"))
        && is_needed_list(value.get("Action"))
        && is_needed_list(value.get("Resource"))
        && is_allowed_text(value.get("Sid"))
        && is_allowed_condition(value.get("Condition"))
}

fn is_statement(value: &Value) -> bool
    ensures { result ≡ is_statement (view value.now) }
{
    match value {
        Value::Object(members) => has_only_statement_names(members) && are_statement_members(value),
        _ => false,
    }
}

fn is_each_statement(values: &[Value]) -> bool
    ensures { result ≡ every_item is_statement (items_view values.now) }
{
    for value in values {
        if !is_statement(value) {
            return false;
        }
    }
    true
}

fn are_needed_statements(value: Option<&Value>) -> bool
    ensures { result ≡ needed are_statements (member_view value.entry) }
{
    match value {
        Some(value) => are_statements(value),
        None => false,
    }
}

fn are_statements(value: &Value) -> bool
    ensures { result ≡ are_statements (view value.now) }
{
    match value {
        Value::Array(values) => has_items(values) && is_each_statement(values),
        Value::Object(_) => is_statement(value),
        _ => false,
    }
}

fn is_version(value: &Value) -> bool
    ensures { result ≡ is_version (view value.now) }
{
    match value.as_str() {
        Some(text) => text == "2012-10-17" || text == "2008-10-17",
        None => false,
    }
}

fn is_allowed_version(value: Option<&Value>) -> bool
    ensures { result ≡ allowed is_version (member_view value.entry) }
{
    match value {
        Some(value) => is_version(value),
        None => true,
    }
}

fn is_policy_name(name: &str) -> bool
    ensures { result ≡ is_policy_name name.now }
{
    name == "Statement" || name == "Version" || name == "Id"
}

fn has_only_policy_names(members: &Map<String, Value>) -> bool
    ensures { result ≡ every_name is_policy_name (members_view members.now.entries) }
{
    for (name, _) in members.iter() {
        if !is_policy_name(name.as_str()) {
            return false;
        }
    }
    true
}

fn are_policy_members(value: &Value) -> bool
    ensures { result ≡ are_policy_members (view value.now) }
{
    are_needed_statements(value.get("Statement"))
        && is_allowed_version(value.get("Version"))
        && is_allowed_text(value.get("Id"))
}

/// Whether a JSON value has a policy's form.
pub(crate) fn is_policy(value: &Value) -> bool
    ensures { result ≡ is_policy (view value.now) }
{
    match value {
        Value::Object(members) => has_only_policy_names(members) && are_policy_members(value),
        _ => false,
    }
}
