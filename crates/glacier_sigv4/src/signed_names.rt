// Names that are signed, between semicolons.
ghost use Rattle.std.specs.Prelude.{◌≡◌};
ghost use Rattle.std.specs.Char.{is_ascii_uppercase};
ghost use Rattle.std.specs.Cmp.Lexicographic.{slice_cmp};
ghost use Rattle.std.specs.List.{list_any};
ghost use Rattle.std.specs.Ordering.{nat_cmp, is_lt};
ghost use Rattle.glacier_sigv4.specs.Authorization.{is_lower_token as lower_token_test, follows as follows_test, are_names as names_test};

use glacier_base::next_piece;
use httparse::is_token;

fn has_uppercase(text: &[u8]) -> bool
    ensures { result ≡ list_any is_ascii_uppercase text.now }
{
    text.iter().any(|b| b.is_ascii_uppercase())
}

/// Whether the text is a token without an upper-case letter.
fn is_lower_token(text: &[u8]) -> bool
    ensures { result ≡ lower_token_test text.now }
{
    is_token(text) && !has_uppercase(text)
}

fn is_below(a: &[u8], b: &[u8]) -> bool
    ensures { result ≡ is_lt (slice_cmp nat_cmp a.now b.now) }
{
    a.cmp(b).is_lt()
}

/// Whether a name is a lower-case token, and stands behind another in byte order.
fn follows(before: &[u8], name: &[u8]) -> bool
    ensures { result ≡ follows_test before.now name.now }
{
    is_lower_token(name) && is_below(before, name)
}

/// Whether the names are lower-case tokens in strictly rising order.
pub(crate) fn are_names(text: &[u8]) -> bool
    ensures { result ≡ names_test text.now }
{
    let mut before: &[u8] = &[];
    let mut rest = text;
    'names: loop {
        let (name, next) = next_piece(rest, b';');
        if !follows(before, name) {
            return false;
        }
        let Some(left) = next else {
            return true;
        };
        before = name;
        rest = left;
    }
}
