// Which fields are signed, and which must be.
ghost use Rattle.std.specs.Prelude.{◌≡◌, ◌∷◌, [], None, IfOk};
ghost use Rattle.glacier_http.specs.Fields.{lower};
ghost use Rattle.glacier_sigv4.specs.Authorization.{names_in};
ghost use Rattle.glacier_sigv4.specs.Coverage.{is_present as present_one, are_present as present_test, is_signed as signed_test, is_of_amazon as amazon_test, is_unsigned as unsigned_test, unsigned_host as host_unless_signed, least_of, first_unsigned as unsigned_text};

use glacier_base::{Memory, Text, next_piece};
use glacier_http::{Find, Head, is_same_text};
use std::alloc::Global;

fn is_present(head: &Head, name: &[u8]) -> bool
    ensures { result ≡ present_one head.now.fields name.now }
{
    match head.find(name) {
        Find::None => false,
        Find::One(_) => true,
        Find::Many(_) => true,
    }
}

/// Whether each name, between semicolons, is that of a field.
pub(crate) fn are_present(head: &Head, names: &[u8]) -> bool
    ensures { result ≡ present_test head.now.fields (names_in names.now) }
{
    let mut rest = names;
    'names: loop {
        let (name, next) = next_piece(rest, b';');
        if !is_present(head, name) {
            return false;
        }
        let Some(left) = next else {
            return true;
        };
        rest = left;
    }
}

/// Whether a name is among the signed ones.
fn is_signed(names: &[u8], name: &[u8]) -> bool
    ensures { result ≡ signed_test (names_in names.now) name.now }
{
    let mut rest = names;
    'names: loop {
        let (signed, next) = next_piece(rest, b';');
        if is_same_text(signed, name) {
            return true;
        }
        let Some(left) = next else {
            return false;
        };
        rest = left;
    }
}

/// Whether a name begins with `x-amz-`, in any case.
fn is_of_amazon(name: &[u8]) -> bool
    ensures { result ≡ amazon_test name.now }
{
    let front = if name.len() > 6 { &name[..6] } else { name };
    is_same_text(front, b"x-amz-")
}

/// Whether a name begins so and isn't signed.
fn is_unsigned(names: &[u8], name: &[u8]) -> bool
    ensures { result ≡ unsigned_test (names_in names.now) name.now }
{
    is_of_amazon(name) && !is_signed(names, name)
}

fn lowered(alloc: Global, name: &[u8]) -> Result<Text, Memory>
    ensures { IfOk result (λ text. text ≡ lower name.now) }
{
    let mut bytes = name.to_vec(alloc)?;
    bytes.make_ascii_lowercase();
    Ok(Text::from_vec(bytes))
}

/// The least of a text and those before it.
fn least(first: Option<Text>, next: Text) -> Option<Text>
    ensures { result ≡ least_of first (next ∷ []) }
{
    match first {
        None => Some(next),
        Some(first) => {
            if next.bytes().cmp(first.bytes()).is_lt() {
                Some(next)
            } else {
                Some(first)
            }
        }
    }
}

/// The least of `host`, where it isn't signed.
fn unsigned_host(alloc: Global, names: &[u8]) -> Result<Option<Text>, Memory>
    ensures { IfOk result (λ first. first ≡ least_of None (host_unless_signed (names_in names.now))) }
{
    if is_signed(names, b"host") {
        return Ok(None);
    }
    Ok(Some(Text::of(alloc, b"host")?))
}

/// The first name in byte order that must be signed and isn't.
pub(crate) fn first_unsigned(
    alloc: Global,
    head: &Head,
    names: &[u8],
) -> Result<Option<Text>, Memory>
    ensures { IfOk result (λ first. first
        ≡ unsigned_text (names_in names.now) head.now.fields) }
{
    let mut first = unsigned_host(alloc, names)?;
    for i in 0..head.count() {
        let (name, _) = head.field(i);
        let unsigned = is_unsigned(names, name);
        if unsigned {
            first = least(first, lowered(alloc, name)?);
        }
    }
    Ok(first)
}
