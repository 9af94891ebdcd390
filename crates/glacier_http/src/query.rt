// The pairs of a query.
ghost use Rattle.std.specs.Prelude.{◌≡◌, IfOk};
ghost use Rattle.percent_encoding.specs.Percent.{percent_decode as decoded_text};
ghost use Rattle.glacier_http.specs.Query.{pair_of as pair_in, pairs_of};

use glacier_base::{List, Memory, Text, cut, next_piece};
use percent_encoding::percent_decode;
use std::alloc::Global;

/// A name and a value of a query, decoded.
#[derive(Drop)]
pub struct Pair {
    pub name: Text,
    pub value: Text,
}

/// The text without its escapes.
fn decoded(alloc: Global, bytes: &[u8]) -> Result<Text, Memory>
    ensures { IfOk result (λ text. text ≡ decoded_text bytes.now) }
{
    let mut text = Vec::new(alloc);
    percent_decode(bytes).append_to(&mut text)?;
    Ok(Text::from_vec(text))
}

/// The pair of a piece.
fn pair_of(alloc: Global, piece: &[u8]) -> Result<Pair, Memory>
    ensures { IfOk result (λ pair. pair ≡ pair_in piece.now) }
{
    let (name, value): (&[u8], &[u8]) = match cut(piece, b'=') {
        Some(parts) => parts,
        None => (piece, &[]),
    };
    let name = decoded(alloc, name)?;
    let value = decoded(alloc, value)?;
    Ok(Pair { name, value })
}

/// The pairs of a query: the pieces between `&`, the empty ones left out, cut at their first `=`
/// and decoded. A piece without one is a name with an empty value.
pub fn query_pairs(alloc: Global, query: &[u8]) -> Result<List<Pair>, Memory>
    ensures { IfOk result (λ pairs. pairs ≡ pairs_of query.now) }
{
    let mut pairs = List::new(alloc);
    let mut rest = query;
    'pieces: loop {
        let (piece, next) = next_piece(rest, b'&');
        if !piece.is_empty() {
            pairs.push(pair_of(alloc, piece)?)?;
        }
        let Some(left) = next else {
            return Ok(pairs);
        };
        rest = left;
    }
}
