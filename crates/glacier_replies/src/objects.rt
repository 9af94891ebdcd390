// Objects of JSON, by their members.
ghost use Rattle.std.specs.Prelude.{◌≡◌, ◌++◌, codes, decimal, IfOk, OnOk, map, false};
ghost use Rattle.hex.specs.Hex.{encode_lower};
ghost use Rattle.serde_json.specs.Data.{string};
ghost use Rattle.serde_json.specs.View.{view, members_view};
ghost use Rattle.serde_json.specs.Written.{has_float, members_have_float};
ghost use Rattle.serde_json.specs.Data.{put};
ghost use Rattle.glacier_base.specs.Dates.{iso_of};
ghost use Rattle.glacier_base.specs.Ids.{id_text};
ghost use Rattle.glacier_replies.specs.Bodies.{pair_of, part_data, object_of};

use crate::ascii::ascii_text;
use glacier_base::{Digest, Id, LAST_MOMENT, Moment, iso_text};
use serde_json::{Map, Value};
use std::alloc::{AllocError, Global};

/// The value of a member.
#[derive(Clone, Copy)]
pub(crate) enum Part<'a> {
    Text(&'a str),
    Number(u64),
    Flag(bool),
    /// The text of a moment.
    Date(&'a Moment),
    /// The 64 digits of a digest.
    Digest(&'a Digest),
    Id(Id),
    /// `FIRST-LAST`.
    Range { first: u64, last: u64 },
    Null,
}

fn date_value(alloc: Global, date: Moment) -> Result<Value, AllocError>
    ensures { IfOk result (λ v. view v ≡ string (iso_of date)) }
{
    prove!(date.seconds() <= LAST_MOMENT);
    let text = iso_text(date);
    Value::try_from_str(alloc, ascii_text(&text))
}

fn digest_value(alloc: Global, digest: &Digest) -> Result<Value, AllocError>
    ensures { IfOk result (λ v. view v ≡ string (encode_lower digest.now)) }
{
    let text = digest.text();
    Value::try_from_str(alloc, ascii_text(&text))
}

fn id_value(alloc: Global, id: Id) -> Result<Value, AllocError>
    ensures { IfOk result (λ v. view v ≡ string (id_text id)) }
{
    let text = id.text();
    Value::try_from_str(alloc, ascii_text(&text))
}

fn range_value(alloc: Global, first: u64, last: u64) -> Result<Value, AllocError>
    ensures { IfOk result (λ v. view v ≡ string (decimal first ++ codes "-" ++ decimal last)) }
{
    let text = format!(in alloc; "{first}-{last}")?;
    Value::try_from_str(alloc, &text)
}

fn value_of(alloc: Global, part: Part<'_>) -> Result<Value, AllocError>
    ensures { IfOk result (λ v. view v ≡ part_data part.entry) }
{
    match part {
        Part::Text(text) => Value::try_from_str(alloc, text),
        Part::Number(number) => Ok(Value::from(number)),
        Part::Flag(flag) => Ok(Value::from(flag)),
        Part::Date(date) => date_value(alloc, *date),
        Part::Digest(digest) => digest_value(alloc, digest),
        Part::Id(id) => id_value(alloc, id),
        Part::Range { first, last } => range_value(alloc, first, last),
        Part::Null => Ok(Value::Null),
    }
}

fn put_part(
    all: &mut Map<String, Value>,
    alloc: Global,
    name: &str,
    part: Part<'_>,
) -> Result<(), AllocError>
    ensures value { OnOk result (members_view all.new.entries
        ≡ put name.now (part_data part.entry) (members_view all.old.entries)) }
    ensures plain { OnOk result (members_have_float (members_view all.old.entries) ≡ false
        → members_have_float (members_view all.new.entries) ≡ false) }
{
    let value = value_of(alloc, part)?;
    serde_json::put(all, alloc, name, value)
}

/// An object of these members.
pub(crate) fn object(alloc: Global, members: &[(&str, Part<'_>)]) -> Result<Value, AllocError>
    ensures value { IfOk result (λ v. view v ≡ object_of (map pair_of members.now)) }
    ensures plain { IfOk result (λ v. has_float (view v) ≡ false) }
{
    let mut all = Map::new(alloc);
    for (name, part) in members {
        put_part(&mut all, alloc, name, *part)?;
    }
    Ok(Value::Object(all))
}
