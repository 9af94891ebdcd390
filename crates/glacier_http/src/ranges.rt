// Ranges of bytes, by their first and last byte.
ghost use Rattle.std.specs.Prelude.{◌≡◌, ◌≢◌, ◌++◌, ℕ, List, MatchOption};
ghost use Rattle.glacier_http.specs.Ranges.{Finds, IsRange, IsByteRange, IsContentRange};

use crate::numbers::number;
use glacier_base::cut;

/// How many digits the place of a byte has at most.
pub const MOST_DIGITS: usize = 15;

/// What stands behind this front of a text.
fn behind<'a>(text: &'a [u8], front: &[u8]) -> Option<&'a [u8]>
    ensures { MatchOption result ((rest : List ℕ) → text.now ≢ front.now ++ rest)
        (λ rest. text.now ≡ front.now ++ rest.now) }
{
    text.strip_prefix(front)
}

/// What stands before this end of a text.
fn before<'a>(text: &'a [u8], end: &[u8]) -> Option<&'a [u8]>
    ensures { MatchOption result ((rest : List ℕ) → text.now ≢ rest ++ end.now)
        (λ rest. text.now ≡ rest.now ++ end.now) }
{
    text.strip_suffix(end)
}

/// The first and the last byte of a range that is written `a-b`, as the `RetrievalByteRange` of a
/// job is in the Amazon S3 Glacier Developer Guide. Both are places from 0, in 1 to 15 decimal
/// digits each, and the last isn't below the first. None for any other text.
pub fn job_range(text: &[u8]) -> Option<(u64, u64)>
    ensures { Finds (IsRange text.now) result }
{
    let (first, last) = cut(text, b'-')?;
    let first = number(MOST_DIGITS, first)?;
    let last = number(MOST_DIGITS, last)?;
    if first > last {
        return None;
    }
    Some((first, last))
}

/// The first and the last byte of a range that is written `bytes=a-b`: a Range field (RFC 9110,
/// section 14.2) of one range with both ends, as the Developer Guide has it for a job's output.
/// None for any other text: a suffix, an open end, a list, blanks, another case of `bytes`.
pub fn byte_range(text: &[u8]) -> Option<(u64, u64)>
    ensures { Finds (IsByteRange text.now) result }
{
    job_range(behind(text, b"bytes=")?)
}

/// The first and the last byte of a range that is written `bytes a-b/*`: a Content-Range field (RFC
/// 9110, section 14.4) of which the whole length isn't told, as the Developer Guide has it for an
/// upload's part. None for any other text.
pub fn content_range(text: &[u8]) -> Option<(u64, u64)>
    ensures { Finds (IsContentRange text.now) result }
{
    job_range(before(behind(text, b"bytes ")?, b"/*")?)
}
