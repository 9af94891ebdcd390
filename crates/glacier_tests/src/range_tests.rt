// Ranges of bytes, in their three forms.
use glacier_http::{byte_range, content_range, job_range};

/// A text, and the range that it says as that of a job.
const JOB_RANGES: [(&[u8], Option<(u64, u64)>); 16] = [
    (b"0-0", Some((0, 0))),
    (b"1048576-5242879", Some((1_048_576, 5_242_879))),
    (b"007-9", Some((7, 9))),
    (b"5-4", None),
    // 15 digits, and 16.
    (
        b"000000000000000-999999999999999",
        Some((0, 999_999_999_999_999)),
    ),
    (b"0-0000000000000001", None),
    (b"0000000000000000-1", None),
    // Other texts.
    (b"", None),
    (b"-", None),
    (b"-5", None),
    (b"5-", None),
    (b"5", None),
    (b"0- 1", None),
    (b"0-1-2", None),
    (b"+0-1", None),
    (b"bytes=0-1", None),
];

/// A text, and the range that it says as a Range field.
const BYTE_RANGES: [(&[u8], Option<(u64, u64)>); 10] = [
    (b"bytes=0-1048575", Some((0, 1_048_575))),
    (b"bytes=0-0", Some((0, 0))),
    (b"bytes=5-4", None),
    (b"bytes=-5", None),
    (b"bytes=5-", None),
    (b"bytes=0-1,3-4", None),
    (b"bytes= 0-1", None),
    (b"Bytes=0-1", None),
    (b"bytes 0-1/*", None),
    (b"bytes", None),
];

/// A text, and the range that it says as a Content-Range field.
const CONTENT_RANGES: [(&[u8], Option<(u64, u64)>); 10] = [
    (b"bytes 0-0/*", Some((0, 0))),
    (b"bytes 0-4194303/*", Some((0, 4_194_303))),
    (b"bytes 5-4/*", None),
    (b"bytes 0-1/2", None),
    (b"bytes 0-1/", None),
    (b"bytes 0-1", None),
    (b"bytes  0-1/*", None),
    (b"bytes 0-1/* ", None),
    (b"bytes */*", None),
    (b"bytes=0-1/*", None),
];

#[test]
fn each_form_says_its_range(rt: HostRuntime) {
    for (text, range) in JOB_RANGES {
        assert!(rt; job_range(text) == range, "{range:?}");
    }
    for (text, range) in BYTE_RANGES {
        assert!(rt; byte_range(text) == range, "{range:?}");
    }
    for (text, range) in CONTENT_RANGES {
        assert!(rt; content_range(text) == range, "{range:?}");
    }
}
