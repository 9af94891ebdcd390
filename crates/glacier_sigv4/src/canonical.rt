// The canonical request.
ghost use Rattle.std.specs.Prelude.{◌≡◌, ◌++◌, IfOk, OnOk};
ghost use Rattle.std.specs.List.{slice_split, join_with_byte};
ghost use Rattle.glacier_base.specs.Cuts.{is_byte};
ghost use Rattle.glacier_sigv4.specs.Canonical.{canonical_of, request_of, front_text, signed_text, next_name};
ghost use Rattle.glacier_sigv4.specs.CanonicalFields.{field_texts, pairs_of_fields};

use crate::canonical_fields::put_field;
use crate::canonical_query::put_query;
use crate::field_source::FieldSource;
use glacier_base::{List, Memory, Text, next_piece};
use glacier_http::Field;
use std::alloc::Global;

/// Writes the lines before the fields.
pub(crate) fn put_front(
    alloc: Global,
    out: &mut Text,
    method: &[u8],
    path: &[u8],
    query: &[u8],
) -> Result<(), Memory>
    ensures { OnOk result (out.new
        ≡ out.old ++ front_text method.now path.now query.now) }
{
    out.extend_from_slice(method)?;
    out.push(b'\n')?;
    out.extend_from_slice(path)?;
    out.push(b'\n')?;
    put_query(alloc, out, query)?;
    out.push(b'\n')
}

/// Writes a line for each of the names, which stand between semicolons.
fn put_named<F: FieldSource>(out: &mut Text, fields: &F, names: &[u8]) -> Result<(), Memory>
    ensures { OnOk result (out.new
        ≡ out.old ++ field_texts (F.pairs fields.now) (slice_split (is_byte 59) names.now)) }
{
    let mut rest = names;
    'names: loop {
        let (name, next) = next_piece(rest, b';');
        put_field(out, fields, name)?;
        let Some(left) = next else {
            return Ok(());
        };
        rest = left;
    }
}

/// Writes the lines from the fields on, where the signed names stand between semicolons.
pub(crate) fn put_signed<F: FieldSource>(
    out: &mut Text,
    fields: &F,
    names: &[u8],
    payload: &[u8],
) -> Result<(), Memory>
    ensures { OnOk result (out.new ≡ out.old
        ++ signed_text (F.pairs fields.now) (slice_split (is_byte 59) names.now) payload.now) }
{
    put_named(out, fields, names)?;
    out.push(b'\n')?;
    out.extend_from_slice(names)?;
    out.push(b'\n')?;
    out.extend_from_slice(payload)?;
    Ok(())
}

/// Writes a line for each of the names.
fn put_listed<F: FieldSource>(out: &mut Text, fields: &F, names: &[Text]) -> Result<(), Memory>
    ensures { OnOk result (out.new
        ≡ out.old ++ field_texts (F.pairs fields.now) names.now) }
{
    for name in names {
        put_field(out, fields, name.bytes())?;
    }
    Ok(())
}

/// Writes a name, behind a semicolon where another stands before it.
pub(crate) fn put_name(out: &mut Text, more: bool, name: &[u8]) -> Result<(), Memory>
    ensures { OnOk result (out.new ≡ out.old ++ next_name more name.now) }
{
    if more {
        out.push(b';')?;
    }
    out.extend_from_slice(name)
}

/// Writes names, between semicolons.
fn put_names(out: &mut Text, names: &[Text]) -> Result<(), Memory>
    ensures { OnOk result (out.new ≡ out.old ++ join_with_byte 59 names.now) }
{
    let mut more = false;
    for name in names {
        put_name(out, more, name.bytes())?;
        more = true;
    }
    Ok(())
}

/// The canonical request of Signature Version 4, with these names signed.
pub fn canonical_request(
    alloc: Global,
    method: &[u8],
    path: &[u8],
    query: &[u8],
    fields: &List<Field>,
    signed: &List<Text>,
    payload: &[u8],
) -> Result<Text, Memory>
    ensures { IfOk result (λ text. text ≡ canonical_of (request_of method.now path.now query.now
        (pairs_of_fields fields.now) payload.now) signed.now) }
{
    let mut out = Text::new(alloc);
    put_front(alloc, &mut out, method, path, query)?;
    put_listed(&mut out, fields, signed.as_slice())?;
    out.push(b'\n')?;
    put_names(&mut out, signed.as_slice())?;
    out.push(b'\n')?;
    out.extend_from_slice(payload)?;
    Ok(out)
}
