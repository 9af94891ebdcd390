// Names, moments, ids and digests: the texts that are read, and what is shown of them.
use glacier_base::{
    Account, Description, Digest, Id, IdKind, Moment, Region, VaultName, basic_date, basic_text,
    http_date_text, iso_text,
};
use std::alloc::{AllocError, Global};
use std::test::Fail;

/// A moment in seconds, and its three texts.
struct Shown {
    seconds: u64,
    iso: &'static str,
    basic: &'static str,
    http: &'static str,
}

const SHOWN: [Shown; 4] = [
    Shown {
        seconds: 0,
        iso: "1970-01-01T00:00:00.000Z",
        basic: "19700101T000000Z",
        http: "Thu, 01 Jan 1970 00:00:00 GMT",
    },
    Shown {
        seconds: 951_827_696,
        iso: "2000-02-29T12:34:56.000Z",
        basic: "20000229T123456Z",
        http: "Tue, 29 Feb 2000 12:34:56 GMT",
    },
    Shown {
        seconds: 1_337_905_493,
        iso: "2012-05-25T00:24:53.000Z",
        basic: "20120525T002453Z",
        http: "Fri, 25 May 2012 00:24:53 GMT",
    },
    Shown {
        seconds: 253_000_000_000,
        iso: "9987-04-02T17:46:40.000Z",
        basic: "99870402T174640Z",
        http: "Thu, 02 Apr 9987 17:46:40 GMT",
    },
];

fn is_read(text: &str, seconds: u64) -> bool {
    match basic_date(text.as_bytes()) {
        Some(moment) => moment.seconds() == seconds,
        None => false,
    }
}

fn is_shown(row: &Shown) -> bool {
    match Moment::new(row.seconds) {
        Some(moment) => {
            iso_text(moment).as_slice() == row.iso.as_bytes()
                && basic_text(moment).as_slice() == row.basic.as_bytes()
                && http_date_text(moment).as_slice() == row.http.as_bytes()
                && is_read(row.basic, row.seconds)
        }
        None => false,
    }
}

#[test]
fn moments_are_shown_and_read(rt: HostRuntime) {
    for row in &SHOWN {
        assert!(rt; is_shown(row), "at {}", row.seconds);
    }
    assert!(rt; Moment::new(253_000_000_001).is_none());
}

/// Texts of no moment, one a line.
const NO_DATES: &str = "
20120230T000000Z
20130229T000000Z
21000229T000000Z
20121301T000000Z
20120025T002453Z
20120500T002453Z
20120525T240000Z
20120525T002460Z
20120525T002453z
20120525t002453Z
20120525 002453Z
2012052+T002453Z
20120525T002453
20120525T002453ZZ
19691231T235959Z
99870402T174641Z";

#[test]
fn other_texts_are_no_basic_dates(rt: HostRuntime) {
    for text in NO_DATES.split('\n') {
        assert!(rt; basic_date(text.as_bytes()).is_none(), "at {text}");
    }
}

/// What a text may be read as.
#[derive(Clone, Copy)]
enum Kind {
    Vault,
    Region,
    Description,
    Account,
    Digest,
}

/// Whether a text is read and then shown as this one. None where it isn't read.
fn is_shown_as(kind: Kind, text: &[u8], shown: &[u8]) -> Option<bool> {
    match kind {
        Kind::Vault => Some(VaultName::parse(text)?.bytes() == shown),
        Kind::Region => Some(Region::parse(text)?.bytes() == shown),
        Kind::Description => Some(Description::parse(text)?.bytes() == shown),
        Kind::Account => Some(Account::parse(text)?.bytes() == shown),
        Kind::Digest => Some(Digest::parse(text)?.text().as_slice() == shown),
    }
}

/// Texts of a kind, and texts that are none, each with a line of its own.
const READ: [(Kind, &str, &str); 5] = [
    (
        Kind::Vault,
        "examplevault\n-\n...\nMy_vault-2.0",
        "\n.\n..\na/b\na b\ncaf\u{e9}",
    ),
    (Kind::Region, "us-east-1\n0", "\nus_east\nUS-EAST-1"),
    (
        Kind::Description,
        "\n ~\nmy archive",
        "a\tb\n\u{7f}\n\u{e9}",
    ),
    (
        Kind::Account,
        "111122223333",
        "\n11112222333\n1111222233334\n11112222333x",
    ),
    (
        Kind::Digest,
        "e3b0c44298fc1c149afbf4c8996fb92427ae41e4649b934ca495991b7852b855",
        "\n\
        e3b0c44298fc1c149afbf4c8996fb92427ae41e4649b934ca495991b7852b85\n\
        e3b0c44298fc1c149afbf4c8996fb92427ae41e4649b934ca495991b7852b8555\n\
        e3b0c44298fc1c149afbf4c8996fb92427ae41e4649b934ca495991b7852b85g",
    ),
];

/// Whether each of the texts is read as one of this kind.
fn are_read(kind: Kind, texts: &str) -> bool {
    for text in texts.split('\n') {
        if is_shown_as(kind, text.as_bytes(), text.as_bytes()) != Some(true) {
            return false;
        }
    }
    true
}

/// Whether none of the texts is read as one of this kind.
fn are_refused(kind: Kind, texts: &str) -> bool {
    for text in texts.split('\n') {
        if is_shown_as(kind, text.as_bytes(), b"").is_some() {
            return false;
        }
    }
    true
}

#[test]
fn texts_keep_the_rules_of_their_kind(rt: HostRuntime) {
    for (kind, good, bad) in READ {
        assert!(rt; are_read(kind, good), "{good}");
        assert!(rt; are_refused(kind, bad), "{bad}");
    }
    let upper = b"E3B0C44298FC1C149AFBF4C8996FB92427AE41E4649B934CA495991B7852B855";
    let lower = b"e3b0c44298fc1c149afbf4c8996fb92427ae41e4649b934ca495991b7852b855";
    assert!(rt; is_shown_as(Kind::Digest, upper, lower) == Some(true));
}

/// Whether so many bytes `a` are a text of this kind.
fn is_long(alloc: Global, kind: Kind, length: usize) -> Result<bool, AllocError> {
    let bytes = vec![in alloc; b'a'; length]?;
    Ok(is_shown_as(kind, &bytes, &bytes) == Some(true))
}

#[test]
fn texts_have_a_greatest_length(rt: HostRuntime) -> Result<(), Fail> {
    let rows = [
        (Kind::Vault, 255),
        (Kind::Region, 32),
        (Kind::Description, 1024),
    ];
    for (kind, most) in rows {
        assert!(rt; is_long(rt.alloc(), kind, most)?, "{most}");
        assert!(rt; !is_long(rt.alloc(), kind, most + 1)?, "{most}");
    }
    Ok(())
}

const IDS: [(&str, IdKind, u64); 4] = [
    ("a00000000000000000000", IdKind::Archive, 0),
    ("u00000000000000000042", IdKind::Upload, 42),
    (
        "j01234567890123456789",
        IdKind::Job,
        1_234_567_890_123_456_789,
    ),
    ("l18446744073709551615", IdKind::Lock, u64::MAX),
];

/// Texts of no id, one a line.
const NO_IDS: &str = "
a
a18446744073709551616
a99999999999999999999
A00000000000000000000
b00000000000000000000
a0000000000000000000
a000000000000000000000
a+0000000000000000000
a0000000000000000000x
000000000000000000000";

fn is_id(text: &str, kind: IdKind, number: u64) -> bool {
    match Id::parse(text.as_bytes()) {
        Some(id) => {
            id.kind == kind
                && id.number == number
                && Id { kind, number }.text().as_slice() == text.as_bytes()
        }
        None => false,
    }
}

#[test]
fn ids_are_written_and_read(rt: HostRuntime) {
    for (text, kind, number) in IDS {
        assert!(rt; is_id(text, kind, number), "at {text}");
    }
    for text in NO_IDS.split('\n') {
        assert!(rt; Id::parse(text.as_bytes()).is_none(), "at {text}");
    }
}

fn is_name_before(low: &str, high: &str) -> Option<bool> {
    let low = VaultName::parse(low.as_bytes())?;
    let high = VaultName::parse(high.as_bytes())?;
    Some(low < high && low != high)
}

fn is_account_before(low: &str, high: &str) -> Option<bool> {
    Some(Account::parse(low.as_bytes())? < Account::parse(high.as_bytes())?)
}

/// Whether the first of two moments is the earlier, and the second the later of both.
fn is_moment_before(low: u64, high: u64) -> Option<bool> {
    let early = Moment::new(low)?;
    let late = Moment::new(high)?;
    Some(early < late && early.later(late).seconds() == high)
}

#[test]
fn keys_are_ordered(rt: HostRuntime) {
    for (low, high) in [("-", "a"), ("A", "a"), ("a", "ab"), ("ab", "b")] {
        assert!(rt; is_name_before(low, high) == Some(true), "at {low}");
    }
    assert!(rt; is_account_before("099999999999", "100000000000") == Some(true));
    assert!(rt; is_moment_before(7, 8) == Some(true));
}
