// Ranges of bytes, read from their texts.
ghost use Rattle.std.specs.Prelude.{◌≡◌};
ghost use Rattle.glacier_requests.specs.Ranges.{range_of, byte_range_of, content_range_of};

use glacier_http::{byte_range, content_range, job_range};

/// The range that is written `a-b`.
pub(crate) fn range_of(text: &[u8]) -> Option<(u64, u64)>
    ensures { result ≡ range_of text.now }
{
    job_range(text)
}

/// The range that is written `bytes=a-b`.
pub(crate) fn byte_range_of(text: &[u8]) -> Option<(u64, u64)>
    ensures { result ≡ byte_range_of text.now }
{
    byte_range(text)
}

/// The range that is written `bytes a-b/*`.
pub(crate) fn content_range_of(text: &[u8]) -> Option<(u64, u64)>
    ensures { result ≡ content_range_of text.now }
{
    content_range(text)
}
