// Heads of each kind, cut at every byte, and what a good one says.
use glacier_http::{BadHead, Find, Head, HeadRoom, HeadStep, read_head};
use std::alloc::{AllocError, Global};
use std::test::Fail;

/// An answer without its spans.
#[derive(Clone, Copy, PartialEq)]
enum Said {
    Need,
    Head,
    Bad(BadHead),
}

fn answer_to(bytes: &[u8], room: &mut HeadRoom) -> Said {
    match read_head(bytes, room) {
        HeadStep::Need => Said::Need,
        HeadStep::Head(_) => Said::Head,
        HeadStep::Bad(cause) => Said::Bad(cause),
    }
}

/// How many of the last bytes of a text are cut off in turn: all but for the longest texts.
const CUTS: usize = 450;

/// Cuts the text at every byte: below `settled` bytes it needs more, and from there it has its
/// answer.
fn is_settled(text: &[u8], settled: usize, answer: Said, room: &mut HeadRoom) -> bool {
    for n in text.len().saturating_sub(CUTS)..text.len() {
        let wanted = if n < settled { Said::Need } else { answer };
        if answer_to(&text[..n], room) != wanted {
            return false;
        }
    }
    answer_to(text, room) == answer
}

/// A text, how many of its bytes settle the answer, and the answer.
const HEADS: [(&[u8], usize, Said); 27] = [
    // The grammar.
    (b"GET / HTTP/1.1\r\n\r\nbody", 18, Said::Head),
    (b"GET / HTTP/1.1\nHost: h\n\n", 24, Said::Head),
    (b"\r\n\n\r\nGET / HTTP/1.1\r\nHost:h\n\r\n", 30, Said::Head),
    (b"GET / HTTP/1.1\r\na:\t b\xff \t\r\n\r\n", 28, Said::Head),
    (b"\0", 1, Said::Bad(BadHead::Syntax)),
    (b"GET /\0", 6, Said::Bad(BadHead::Syntax)),
    (b"GET  / HTTP/1.1", 5, Said::Bad(BadHead::Syntax)),
    (b"GET / HTTP/2", 12, Said::Bad(BadHead::Syntax)),
    (b"GET / HTTP/1.1\r\na : b", 18, Said::Bad(BadHead::Syntax)),
    (
        b"GET / HTTP/1.1\r\na: b\r\n c",
        23,
        Said::Bad(BadHead::Syntax),
    ),
    (b"GET / HTTP/1.1\r\r", 16, Said::Bad(BadHead::Syntax)),
    // The version counts once the head is whole.
    (b"GET / HTTP/1.0\r\n\r\n", 18, Said::Bad(BadHead::Syntax)),
    // A byte above 0x7F in the target, the query included.
    (
        b"GET /\xc3\xa9 HTTP/1.1\r\n\r\n",
        6,
        Said::Bad(BadHead::Syntax),
    ),
    (
        b"GET /?\x80 HTTP/1.1\r\n\r\n",
        7,
        Said::Bad(BadHead::Syntax),
    ),
    // The length.
    (
        b"PUT / HTTP/1.1\r\nContent-Length: 5\r\ncontent-length: 5\r\n\r\n",
        56,
        Said::Bad(BadHead::Length),
    ),
    (
        b"PUT / HTTP/1.1\r\nContent-Length: 00000000005\r\n\r\n",
        47,
        Said::Bad(BadHead::Length),
    ),
    (
        b"PUT / HTTP/1.1\r\nContent-Length: 0000000005\r\n\r\n",
        46,
        Said::Head,
    ),
    (
        b"PUT / HTTP/1.1\r\nContent-Length: 8589934593\r\n\r\n",
        46,
        Said::Bad(BadHead::Length),
    ),
    (
        b"PUT / HTTP/1.1\r\nContent-Length: 8589934592\r\n\r\n",
        46,
        Said::Head,
    ),
    (
        b"PUT / HTTP/1.1\r\nContent-Length:\r\n\r\n",
        35,
        Said::Bad(BadHead::Length),
    ),
    (
        b"PUT / HTTP/1.1\r\nContent-Length: +5\r\n\r\n",
        38,
        Said::Bad(BadHead::Length),
    ),
    (
        b"PUT / HTTP/1.1\r\nContent-Length: 5, 5\r\n\r\n",
        40,
        Said::Bad(BadHead::Length),
    ),
    // The coding, which stands behind the length and before the path.
    (
        b"PUT * HTTP/1.1\r\ntransfer-Encoding: identity\r\n\r\n",
        47,
        Said::Bad(BadHead::Coding),
    ),
    (
        b"PUT / HTTP/1.1\r\nTransfer-Encoding: x\r\nContent-Length: x\r\n\r\n",
        59,
        Said::Bad(BadHead::Length),
    ),
    // The path.
    (b"GET /%20 HTTP/1.1\r\n\r\n", 21, Said::Bad(BadHead::Path)),
    (b"GET * HTTP/1.1\r\n\r\n", 18, Said::Bad(BadHead::Path)),
    (b"GET /aZ0/-._~?%20*&x=y HTTP/1.1\r\n\r\n", 35, Said::Head),
];

#[test]
fn heads_cut_at_every_byte(rt: HostRuntime) -> Result<(), Fail> {
    let mut room = HeadRoom::new(rt.alloc()).ok().ok_or("memory")?;
    for (text, settled, answer) in HEADS {
        assert!(rt;
            is_settled(text, settled, answer, &mut room),
            "at {settled} of {}",
            text.len()
        );
    }
    Ok(())
}

/// So many fields with a value of so many bytes.
fn fields(alloc: Global, count: usize, width: usize) -> Result<String, AllocError> {
    let value = "x".repeat(alloc, width)?;
    let field = ["a:", value.as_str(), "\n"].concat(alloc)?;
    field.repeat(alloc, count)
}

/// A request line, these fields and the end.
fn with_fields(alloc: Global, fields: &str, end: &str) -> Result<String, AllocError> {
    ["GET / HTTP/1.1\r\n", fields, end].concat(alloc)
}

/// The number and width of the fields, the end, how many bytes settle the answer, and the answer.
const LONG_HEADS: [(usize, usize, &str, usize, Said); 7] = [
    (64, 3, "\r\n", 402, Said::Head),
    (65, 3, "\r\n", 408, Said::Bad(BadHead::TooMany)),
    (
        64,
        3,
        "Content-Length: x\r\n\r\n",
        421,
        Said::Bad(BadHead::TooMany),
    ),
    // A head of 16,384 bytes, and one of 16,385.
    (49, 331, "\r\n", 16_384, Said::Head),
    (48, 338, "\n", 16_384, Said::Bad(BadHead::TooLong)),
    // The number of fields counts on a whole head alone.
    (5455, 0, "\n", 16_382, Said::Bad(BadHead::TooMany)),
    (5456, 0, "", 16_384, Said::Bad(BadHead::TooLong)),
];

#[test]
fn long_heads_cut_at_every_byte(rt: HostRuntime) -> Result<(), Fail> {
    let mut room = HeadRoom::new(rt.alloc()).ok().ok_or("memory")?;
    for (count, width, end, settled, answer) in LONG_HEADS {
        let fields = fields(rt.alloc(), count, width)?;
        let text = with_fields(rt.alloc(), fields.as_str(), end)?;
        assert!(rt;
            is_settled(text.as_bytes(), settled, answer, &mut room),
            "at {settled} with {count}"
        );
    }
    Ok(())
}

/// Whether the head asks to close, and expects an interim line.
fn flags(text: &[u8], room: &mut HeadRoom) -> Option<(bool, bool)> {
    match read_head(text, room) {
        HeadStep::Head(spans) => Some((spans.close, spans.expect)),
        _ => None,
    }
}

/// Fields, whether they ask to close, and whether they expect an interim line.
const FLAGS: [(&str, bool, bool); 11] = [
    ("", false, false),
    ("connection: CLOSE\r\n", true, false),
    ("Connection: keep-alive, Close\r\n", true, false),
    ("Connection:\tclose\t,x\r\n", true, false),
    (
        "Connection: keep-alive\r\nConnection: ,close\r\n",
        true,
        false,
    ),
    ("Connection: closed\r\n", false, false),
    ("Connection: close;x\r\n", false, false),
    ("Connection: keep-alive close\r\n", false, false),
    ("Expect: 100-Continue \r\n", false, true),
    ("Expect: 100-continue, x\r\n", false, false),
    (
        "Expect: x\r\nexpect:100-continue\r\nConnection: close\r\n",
        true,
        true,
    ),
];

#[test]
fn close_and_expect(rt: HostRuntime) -> Result<(), Fail> {
    let mut room = HeadRoom::new(rt.alloc()).ok().ok_or("memory")?;
    for (fields, close, expect) in FLAGS {
        let text = with_fields(rt.alloc(), fields, "\r\n")?;
        assert!(rt;
            flags(text.as_bytes(), &mut room) == Some((close, expect)),
            "{close} {expect} of {fields}"
        );
    }
    Ok(())
}

const PARTS: &[u8] = b"\r\nPUT /-/vaults/v?limit=1?x HTTP/1.1\r\nHost: h\r\nX-A:\t1 \r\nx-a: 2\r\n\
    Content-Length: 4\r\n\r\nbody";

fn are_parts_told(head: &Head) -> bool {
    head.method() == b"PUT".as_slice()
        && head.path() == b"/-/vaults/v".as_slice()
        && head.query() == Some(b"limit=1?x".as_slice())
        && head.count() == 4
}

fn are_fields_found(head: &Head) -> bool {
    matches!(head.find(b"host"), Find::One(b"h"))
        && matches!(head.find(b"x-A"), Find::Many(b"1"))
        && matches!(head.find(b"date"), Find::None)
}

fn is_second_shown(head: &Head) -> bool {
    head.count() > 1 && head.field(1) == (b"X-A".as_slice(), b"1".as_slice())
}

fn is_read_in_parts(room: &mut HeadRoom) -> bool {
    match read_head(PARTS, room) {
        HeadStep::Head(spans) => {
            let head = spans.view(PARTS, room);
            (spans.head_length, spans.content_length) == (85, 4)
                && are_parts_told(&head)
                && are_fields_found(&head)
                && is_second_shown(&head)
        }
        _ => false,
    }
}

#[test]
fn parts(rt: HostRuntime) -> Result<(), Fail> {
    let mut room = HeadRoom::new(rt.alloc()).ok().ok_or("memory")?;
    assert!(rt; is_read_in_parts(&mut room));
    Ok(())
}
