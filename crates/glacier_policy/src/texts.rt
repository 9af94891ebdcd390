// The texts of a member.
ghost use Rattle.std.specs.Prelude.{◌≡◌, [], ◌∷◌, ◌++◌, IfOk, OnOk};
ghost use Rattle.serde_json.specs.View.{view, items_view};
ghost use Rattle.glacier_policy.specs.Texts.{texts_after, texts_in, texts_of};
ghost use Rattle.glacier_policy.specs.Views.{member_view};

use glacier_base::{List, Memory, Text};
use serde_json::Value;
use std::alloc::Global;

/// A list of one text.
pub(crate) fn one_text(alloc: Global, text: &str) -> Result<List<Text>, Memory>
    ensures { IfOk result (λ texts. texts ≡ text.now ∷ []) }
{
    let mut texts = List::new(alloc);
    texts.push(Text::of(alloc, text.as_bytes())?)?;
    Ok(texts)
}

fn each_text(alloc: Global, values: &[Value]) -> Result<List<Text>, Memory>
    ensures { IfOk result (λ texts. texts ≡ texts_after [] (items_view values.now)) }
{
    let mut texts = List::new(alloc);
    for value in values {
        if let Some(text) = value.as_str() {
            texts.push(Text::of(alloc, text.as_bytes())?)?;
        }
    }
    Ok(texts)
}

fn texts_in(alloc: Global, value: &Value) -> Result<List<Text>, Memory>
    ensures { IfOk result (λ texts. texts ≡ texts_in (view value.now)) }
{
    match value {
        Value::String(text) => one_text(alloc, text.as_str()),
        Value::Array(values) => each_text(alloc, values),
        _ => Ok(List::new(alloc)),
    }
}

/// The texts of a member that is a text or a list of texts.
pub(crate) fn texts_of(alloc: Global, value: Option<&Value>) -> Result<List<Text>, Memory>
    ensures { IfOk result (λ texts. texts ≡ texts_of (member_view value.entry)) }
{
    match value {
        Some(value) => texts_in(alloc, value),
        None => Ok(List::new(alloc)),
    }
}
