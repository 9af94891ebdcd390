// The members of a body that is a JSON object.
ghost use Rattle.std.specs.Prelude.{◌≡◌, option_map};
ghost use Rattle.serde_json.specs.Find.{as_str};
ghost use Rattle.serde_json.specs.View.{view};
ghost use Rattle.glacier_requests.specs.Members.{object_of, present};
ghost use Rattle.glacier_requests.specs.Reads.{ReadsAs, or_else};
ghost use Rattle.glacier_vault.specs.declared.refusal.Refusal.TheVariants as refusals;

use crate::unread::Unread;
use glacier_vault::Refusal;
use serde_json::Value;
use std::alloc::Global;

/// The JSON object that a body is: NotJson where it is none.
pub(crate) fn object_of(alloc: Global, body: &[u8]) -> Result<Value, Unread>
    ensures { ReadsAs view (or_else refusals.NotJson (object_of body.now)) result }
{
    let Ok(text) = str::from_utf8(body) else {
        return Err(Unread::Refused(Refusal::NotJson));
    };
    match Value::from_str(alloc, text) {
        Ok(value) => {
            if value.is_object() {
                Ok(value)
            } else {
                Err(Unread::Refused(Refusal::NotJson))
            }
        }
        Err(error) => {
            if error.is_memory() {
                Err(Unread::Memory)
            } else {
                Err(Unread::Refused(Refusal::NotJson))
            }
        }
    }
}

/// The member of a name that is there and isn't null.
pub(crate) fn present<'a>(body: &'a Value, name: &str) -> Option<&'a Value>
    ensures { option_map (λ value. view value.now) result ≡ present name.now (view body.now) }
{
    match body.get(name) {
        None => None,
        Some(Value::Null) => None,
        Some(value) => Some(value),
    }
}

/// The text that a member is, if it is one.
pub(crate) fn text_of(member: &Value) -> Option<&[u8]>
    ensures { option_map (λ text. text.now) result ≡ as_str (view member.now) }
{
    match member.as_str() {
        Some(text) => Some(text.as_bytes()),
        None => None,
    }
}
