// Signed requests on a connection of a station in memory: what is sent, to the byte, and how it
// ends.
use crate::plans::Plan;
use crate::server_tests::{bounds, held};
use crate::signed_replies::*;
use crate::signed_requests::*;
use glacier_server::End;
use std::alloc::Global;
use std::thread::Threads;

/// Friday, 25 May 2012, 00:24:53 UTC.
const READING: u64 = 1_337_905_493;

/// What is told, the readings of the clock, requests and the replies to them.
type Dialogue = (
    &'static str,
    &'static [u64],
    &'static [&'static str],
    &'static [&'static str],
);

const ON_TIME: &[u64] = &[READING];

const DIALOGUES: [Dialogue; 6] = [
    (
        "the same twice makes one vault",
        ON_TIME,
        &[PUT, PUT, GET],
        &[MADE, MADE, DESCRIBED],
    ),
    (
        "a deletion takes the vault, and does nothing where there is none",
        ON_TIME,
        &[PUT, DELETE, GET, DELETE, PUT, GET],
        &[MADE, DELETED, NO_VAULT, DELETED, MADE, DESCRIBED],
    ),
    (
        "a deletion takes no other vault",
        ON_TIME,
        &[
            PUT,
            DELETE_NO_SUCH,
            DELETE_BY_OTHER,
            DELETE_OF_FIRST_BY_OTHER,
            GET,
        ],
        &[MADE, DELETED, DELETED, OTHER_ACCOUNT, DESCRIBED],
    ),
    ("900 s off", &[READING + 900], &[PUT], &[MADE_LATER]),
    (
        "901 s off",
        &[READING + 901, READING],
        &[PUT, GET],
        &[SKEWED, NO_VAULT],
    ),
    (
        "another account's vaults, and its own",
        ON_TIME,
        &[PUT, GET_OF_FIRST_BY_OTHER, GET_BY_OTHER],
        &[MADE, OTHER_ACCOUNT, NO_VAULT],
    ),
];

const MORE_DIALOGUES: [Dialogue; 4] = [
    (
        "what isn't verified changes nothing",
        ON_TIME,
        &[
            PUT_WITHOUT_AUTHORIZATION,
            PUT_OF_UPPER_CASE,
            PUT_BY_NOBODY,
            PUT_OF_ANOTHER_DAY,
            PUT_OF_ANOTHER_REGION,
            PUT_WITH_A_FIELD_MORE,
            PUT_OF_ANOTHER_DIGIT,
            PUT_OF_3_BYTES,
            "abd",
            GET,
        ],
        &[
            MISSING,
            MALFORMED,
            UNKNOWN_KEY,
            WRONG_SCOPE,
            WRONG_SCOPE,
            UNSIGNED,
            BAD_SIGNATURE,
            BAD_SIGNATURE,
            NO_VAULT,
        ],
    ),
    (
        "bodies by the digest that is named",
        ON_TIME,
        &[PUT_OF_A_WRONG_DIGEST, "abc", PUT_OF_NO_DIGEST, GET_NO_SUCH],
        &[MISMATCH, BAD_HEADER, NO_SUCH],
    ),
    (
        "bodies that are signed, and named",
        ON_TIME,
        &[PUT_OF_3_BYTES, "abc", PUT_OF_A_DIGEST, "abc"],
        &[MADE, MADE],
    ),
    // No route: a method, another path, a path that goes on, a list of vaults, 11 digits, a POST.
    // Bad names come before the account. Then in order: the account, a token, the version, a header
    // that is no digest.
    (
        "the order of refusals",
        ON_TIME,
        &[
            POST_VAULT,
            PUT_VAULT_ELSEWHERE,
            PUT_BELOW_VAULT,
            GET_VAULTS,
            GET_OF_11_DIGITS,
            POST_NO_NAME,
            PUT_NO_NAME,
            DELETE_NO_NAME,
            GET_TWO_DOTS,
            GET_TILDE,
            PUT_BAD_NAME_OF_OTHER,
            GET_OF_OTHER_WITH_TOKEN,
            GET_WITH_TOKEN,
            GET_WITHOUT_VERSION,
            GET_OF_TWO_VERSIONS,
        ],
        &[
            NO_ROUTE,
            NO_ROUTE,
            NO_ROUTE,
            NO_ROUTE,
            NO_ROUTE,
            NO_ROUTE,
            BAD_NAME,
            BAD_NAME,
            BAD_NAME,
            BAD_NAME,
            BAD_NAME,
            OTHER_ACCOUNT,
            TOKEN,
            WITHOUT_VERSION,
            OTHER_VERSION,
        ],
    ),
];

/// A text so many times, so many letters `a` behind it, the reply so many times, the last reply and
/// the end.
type Long = (
    usize,
    &'static str,
    usize,
    usize,
    &'static str,
    &'static str,
    End,
);

const LONG: [Long; 9] = [
    // Bad heads.
    (1, "GET /\0", 0, 0, "", BAD_SYNTAX, End::Refused),
    (
        1,
        "GET / HTTP/1.1\r\nContent-Length: x\r\n\r\n",
        0,
        0,
        "",
        BAD_LENGTH,
        End::Refused,
    ),
    (
        1,
        "GET / HTTP/1.1\r\nTransfer-Encoding: x\r\n\r\n",
        0,
        0,
        "",
        BAD_CODING,
        End::Refused,
    ),
    (
        1,
        "GET * HTTP/1.1\r\n\r\n",
        0,
        0,
        "",
        BAD_PATH,
        End::Refused,
    ),
    // A body of more than 1 MiB has to be named by its digest, and may be no plain message's.
    (
        1,
        PUT_WITHOUT_DIGEST,
        1_048_577,
        1,
        HASH_NEEDED,
        "",
        End::Closed,
    ),
    (
        1,
        PUT_OF_A_LONG_BODY,
        1_048_577,
        1,
        BODY_TOO_LONG,
        "",
        End::Closed,
    ),
    // A connection has 1000 replies.
    (1001, GET, 0, 999, NO_VAULT, NO_VAULT_AND_CLOSE, End::Bound),
    // A head has fewer than 16,384 bytes: so many times four bytes of a method that doesn't end.
    (4095, "GETS", 0, 0, "", "", End::Cut { taken: 16_380 }),
    (4096, "GETS", 0, 0, "", TOO_LONG, End::Refused),
];

/// Whether an input in pieces of at most so many bytes is answered with this output, and ends so.
fn is_answered<R: Threads + Sync>(
    rt: &R,
    alloc: Global,
    input: &str,
    piece: usize,
    seconds: &[u64],
    (output, end): (&str, End),
) -> Option<bool> {
    let pieces = bounds(alloc, piece, 2000)?;
    let plan = Plan {
        lead: "",
        left: "",
        inputs: &[input.as_bytes()],
        pieces: &pieces,
        seconds,
        faults: &[],
    };
    Some(held(rt, alloc, &plan, output.as_bytes()) == Some((Some(end), true)))
}

fn is_held<R: Threads + Sync>(
    rt: &R,
    alloc: Global,
    dialogue: &Dialogue,
    piece: usize,
) -> Option<bool> {
    let (_, seconds, requests, replies) = *dialogue;
    let input = requests.concat(alloc).ok()?;
    let output = replies.concat(alloc).ok()?;
    is_answered(
        rt,
        alloc,
        input.as_str(),
        piece,
        seconds,
        (output.as_str(), End::Closed),
    )
}

#[test]
fn more_signed_dialogues(rt: HostRuntime) {
    for row in &MORE_DIALOGUES {
        for piece in [1, 7, 65_536] {
            assert!(rt;
                is_held(&rt, rt.alloc(), row, piece) == Some(true),
                "{} by {piece}",
                row.0
            );
        }
    }
}

/// Clients that wait for the interim line before they send a body.
const WAITING: [Dialogue; 1] = [(
    "a client that waits is asked for its body, also where that is refused then",
    ON_TIME,
    &[
        PUT_OF_3_BYTES_THAT_WAITS,
        "abc",
        PUT_OF_A_WRONG_DIGEST_THAT_WAITS,
        "abc",
        PUT_OF_NO_BYTE_THAT_WAITS,
    ],
    &[CONTINUE, MADE, CONTINUE, MISMATCH, MADE],
)];

const UNTIL_READY: &[u64] = &[
    READING,
    READING,
    READING,
    READING,
    READING + 300,
    READING + 300,
    READING + 300,
    READING + 300,
];

/// Archives, and their retrieval.
const ARCHIVES: [Dialogue; 2] = [
    (
        "what was uploaded is retrieved, whole and in part, also once it is deleted",
        UNTIL_READY,
        &[
            PUT,
            UPLOAD_THAT_WAITS,
            "hello",
            BEGIN_RETRIEVAL,
            GET_OUTPUT,
            GET_OUTPUT,
            GET_PART,
            DELETE_ARCHIVE,
            GET_OUTPUT,
        ],
        &[
            MADE,
            CONTINUE,
            UPLOADED,
            RETRIEVING,
            NOT_READY,
            OUTPUT,
            PART,
            DELETED_LATER,
            OUTPUT,
        ],
    ),
    (
        "other bytes than are named are no archive",
        ON_TIME,
        &[PUT, UPLOAD, "hallo", UPLOAD, "hello"],
        &[MADE, OTHER_BYTES, UPLOADED],
    ),
];

#[test]
fn archive_dialogues(rt: HostRuntime) {
    for row in &ARCHIVES {
        for piece in [1, 7, 65_536] {
            assert!(rt;
                is_held(&rt, rt.alloc(), row, piece) == Some(true),
                "{} by {piece}",
                row.0
            );
        }
    }
}

#[test]
fn waiting_dialogues(rt: HostRuntime) {
    for row in &WAITING {
        for piece in [1, 7, 65_536] {
            assert!(rt;
                is_held(&rt, rt.alloc(), row, piece) == Some(true),
                "{} by {piece}",
                row.0
            );
        }
    }
}

#[test]
fn signed_dialogues(rt: HostRuntime) {
    for row in &DIALOGUES {
        for piece in [1, 7, 65_536] {
            assert!(rt;
                is_held(&rt, rt.alloc(), row, piece) == Some(true),
                "{} by {piece}",
                row.0
            );
        }
    }
}

/// The text so many times, and another text behind it.
fn repeated(alloc: Global, text: &str, count: usize, last: &str) -> Option<String> {
    let first = text.repeat(alloc, count).ok()?;
    [first.as_str(), last].concat(alloc).ok()
}

fn is_long_held<R: Threads + Sync>(rt: &R, alloc: Global, long: &Long) -> Option<bool> {
    let (count, text, letters, replies, reply, last, end) = *long;
    let letters = "a".repeat(alloc, letters).ok()?;
    let input = repeated(alloc, text, count, letters.as_str())?;
    let output = repeated(alloc, reply, replies, last)?;
    is_answered(
        rt,
        alloc,
        input.as_str(),
        65_536,
        &[READING],
        (output.as_str(), end),
    )
}

#[test]
fn long_dialogues(rt: HostRuntime) {
    for row in &LONG {
        assert!(rt;
            is_long_held(&rt, rt.alloc(), row) == Some(true),
            "{} {}",
            row.0,
            row.1
        );
    }
}
