// What the query of a list says.
ghost use Rattle.std.specs.Prelude.{◌≡◌, IfOk, option_map};
ghost use Rattle.glacier_base.specs.Names.{is_vault_name, where_rule};
ghost use Rattle.glacier_requests.specs.Ids.{id_number};
ghost use Rattle.glacier_requests.specs.Parts.{size_of};
ghost use Rattle.glacier_requests.specs.Queries.{pairs_in, first_under, value_under, limit_of, limit_in, marker_in, completed_in, status_in};
ghost use Rattle.glacier_requests.specs.Reads.{Reads, ReadsAs};

use crate::ids::id_number;
use crate::lists::{DEFAULT_LIMIT, MOST_LIMIT, StatusCode};
use crate::naming::{Fault, refuse};
use crate::same::is_same;
use crate::unread::Unread;
use glacier_base::{IdKind, List, Memory, VaultName};
use glacier_http::{Head, MOST_DIGITS, Pair, number, query_pairs};
use std::alloc::Global;

/// The pairs of a head's query.
pub(crate) fn pairs_in(alloc: Global, head: &Head<'_>) -> Result<List<Pair>, Memory>
    ensures { IfOk result (λ pairs. pairs ≡ pairs_in head.now.query) }
{
    match head.query() {
        None => Ok(List::new(alloc)),
        Some(query) => query_pairs(alloc, query),
    }
}

/// The value of the first pair with this name, and the pairs behind it.
fn first_under<'a>(name: &[u8], pairs: &'a [Pair]) -> Option<(&'a [u8], &'a [Pair])>
    ensures { option_map (λ found. (found.0.now, found.1.now)) result
        ≡ first_under name.now pairs.now }
{
    for (i, pair) in pairs.iter().enumerate() {
        if is_same(pair.name.bytes(), name) {
            return Some((pair.value.bytes(), &pairs[i + 1..]));
        }
    }
    None
}

/// The value of the only pair with this name: BadQuery where it is repeated.
fn value_under<'a>(
    alloc: Global,
    name: &[u8],
    pairs: &'a [Pair],
) -> Result<Option<&'a [u8]>, Unread>
    ensures { ReadsAs (option_map (λ value. value.now)) (value_under name.now pairs.now) result }
{
    let Some((value, behind)) = first_under(name, pairs) else {
        return Ok(None);
    };
    match first_under(name, behind) {
        Some(_) => Err(refuse(alloc, Fault::BadQuery, name)),
        None => Ok(Some(value)),
    }
}

fn limit_of(text: &[u8]) -> Option<u32>
    ensures { result ≡ limit_of text.now }
{
    match number(4, text) {
        Some(limit) if limit >= 1 && limit <= u64::from(MOST_LIMIT) => Some(limit as u32),
        _ => None,
    }
}

/// How many items a list shows at most.
pub(crate) fn limit_in(alloc: Global, pairs: &[Pair]) -> Result<u32, Unread>
    ensures { Reads (limit_in pairs.now) result }
{
    let Some(value) = value_under(alloc, b"limit", pairs)? else {
        return Ok(DEFAULT_LIMIT);
    };
    match limit_of(value) {
        Some(limit) => Ok(limit),
        None => Err(refuse(alloc, Fault::BadQuery, b"limit")),
    }
}

/// The vault's name at which a list begins, if one is marked.
pub(crate) fn name_marker(alloc: Global, pairs: &[Pair]) -> Result<Option<VaultName>, Unread>
    ensures { Reads (marker_in (where_rule is_vault_name) pairs.now) result }
{
    let Some(value) = value_under(alloc, b"marker", pairs)? else {
        return Ok(None);
    };
    match VaultName::parse(value) {
        Some(name) => Ok(Some(name)),
        None => Err(refuse(alloc, Fault::BadQuery, b"marker")),
    }
}

/// The number of the id of this kind at which a list begins, if one is marked.
pub(crate) fn id_marker(alloc: Global, kind: IdKind, pairs: &[Pair]) -> Result<Option<u64>, Unread>
    ensures { Reads (marker_in (id_number kind) pairs.now) result }
{
    let Some(value) = value_under(alloc, b"marker", pairs)? else {
        return Ok(None);
    };
    match id_number(kind, value) {
        Some(id) => Ok(Some(id)),
        None => Err(refuse(alloc, Fault::BadQuery, b"marker")),
    }
}

/// The place of the byte at which a list begins, if one is marked.
pub(crate) fn place_marker(alloc: Global, pairs: &[Pair]) -> Result<Option<u64>, Unread>
    ensures { Reads (marker_in size_of pairs.now) result }
{
    let Some(value) = value_under(alloc, b"marker", pairs)? else {
        return Ok(None);
    };
    match number(MOST_DIGITS, value) {
        Some(place) => Ok(Some(place)),
        None => Err(refuse(alloc, Fault::BadQuery, b"marker")),
    }
}

/// Whether jobs that have come to an end are asked for, or those that haven't.
pub(crate) fn completed_in(alloc: Global, pairs: &[Pair]) -> Result<Option<bool>, Unread>
    ensures { Reads (completed_in pairs.now) result }
{
    let Some(value) = value_under(alloc, b"completed", pairs)? else {
        return Ok(None);
    };
    if is_same(value, b"true") {
        Ok(Some(true))
    } else if is_same(value, b"false") {
        Ok(Some(false))
    } else {
        Err(refuse(alloc, Fault::BadQuery, b"completed"))
    }
}

/// The status of the jobs that are asked for.
pub(crate) fn status_in(alloc: Global, pairs: &[Pair]) -> Result<Option<StatusCode>, Unread>
    ensures { Reads (status_in pairs.now) result }
{
    let Some(value) = value_under(alloc, b"statuscode", pairs)? else {
        return Ok(None);
    };
    if is_same(value, b"InProgress") {
        Ok(Some(StatusCode::InProgress))
    } else if is_same(value, b"Succeeded") {
        Ok(Some(StatusCode::Succeeded))
    } else if is_same(value, b"Failed") {
        Ok(Some(StatusCode::Failed))
    } else {
        Err(refuse(alloc, Fault::BadQuery, b"statuscode"))
    }
}
