// The values of fields, written in canonical form.
ghost use Rattle.std.specs.Prelude.{◌≡◌, ◌++◌, OnOk, map};
ghost use Rattle.glacier_sigv4.specs.CanonicalFields.{canonical_value, next_value, value_text, field_text, field_texts};

use crate::field_source::FieldSource;
use glacier_base::{Memory, Text};
use glacier_http::{is_same_text, trimmed};

/// Writes a value.
fn put_value(out: &mut Text, value: &[u8]) -> Result<(), Memory>
    ensures { OnOk result (out.new ≡ out.old ++ canonical_value value.now) }
{
    let mut spaced = false;
    let mut text = trimmed(value);
    'text: while let [b, rest @ ..] = text {
        if !(spaced && *b == b' ') {
            out.push(*b)?;
        }
        spaced = *b == b' ';
        text = rest;
    }
    Ok(())
}

/// Writes a value, behind a comma where another stands before it.
fn put_next(out: &mut Text, comma: bool, value: &[u8]) -> Result<(), Memory>
    ensures { OnOk result (out.new ≡ out.old ++ next_value comma value.now) }
{
    if comma {
        out.push(b',')?;
    }
    put_value(out, value)
}

/// Writes the values of the fields with a name.
fn put_values<F: FieldSource>(out: &mut Text, fields: &F, name: &[u8]) -> Result<(), Memory>
    ensures { OnOk result (out.new
        ≡ out.old ++ value_text name.now (F.pairs fields.now)) }
{
    let mut comma = false;
    for i in 0..fields.len() {
        let (other, value) = fields.at(i);
        let named = is_same_text(other, name);
        if named {
            put_next(out, comma, value)?;
            comma = true;
        }
    }
    Ok(())
}

/// Writes the line of a name.
pub(crate) fn put_field<F: FieldSource>(
    out: &mut Text,
    fields: &F,
    name: &[u8],
) -> Result<(), Memory>
    ensures { OnOk result (out.new
        ≡ out.old ++ field_text (F.pairs fields.now) name.now) }
{
    out.extend_from_slice(name)?;
    out.push(b':')?;
    put_values(out, fields, name)?;
    out.push(b'\n')
}
