// Requests that were signed by another implementation (botocore), each with changes.
ghost use Rattle.std.specs.Prelude.{◌≡◌, IfOk};
ghost use Rattle.glacier_sigv4.specs.CanonicalFields.{pair_of_field};

use glacier_base::{Account, Digest, List, Memory, Moment, Region, Text, basic_text};
use glacier_http::{Field, HeadRoom, HeadStep, read_head};
use glacier_sigv4::{
    AuthFault, KeyRing, canonical_request, payload_text, sign, string_to_sign, verify,
};
use std::alloc::Global;
use std::test::Fail;

pub const KEY_FILE: &str = "111122223333 AKIDEXAMPLE wJalrXUtnFEMI/K7MDENG+bPxRfiCYEXAMPLEKEY 64";

const EMPTY: &[u8] = b"e3b0c44298fc1c149afbf4c8996fb92427ae41e4649b934ca495991b7852b855";

const M0: u64 = 1_337_905_493;

const PUT: &str =
    "PUT /-/vaults/examplevault HTTP/1.1\r\nhost: 127.0.0.1:8080\r\nx-amz-date: 20120525T002453Z\r\nx-amz-glacier-version: 2012-06-01\r\nAuthorization: AWS4-HMAC-SHA256 Credential=AKIDEXAMPLE/20120525/us-east-1/glacier/aws4_request, SignedHeaders=host;x-amz-date;x-amz-glacier-version, Signature=7b620e9f654afab62a8b29be5e8459f5b14ba6f29b41aeaf04b4d32a15e7f35b\r\n\r\n";

fn region() -> Option<Region> {
    Region::parse(b"us-east-1")
}

fn text_of(said: Result<Account, AuthFault>, alloc: Global) -> Option<Text> {
    let word = match said {
        Ok(_) => "verified",
        Err(AuthFault::Missing) => "missing",
        Err(AuthFault::Malformed) => "malformed",
        Err(AuthFault::UnknownKey) => "unknown key",
        Err(AuthFault::WrongScope) => "wrong scope",
        Err(AuthFault::Unsigned { header }) => return Some(header),
        Err(AuthFault::Skewed { .. }) => "skewed",
        Err(AuthFault::BadSignature) => "bad signature",
    };
    Text::of(alloc, word.as_bytes()).ok()
}

/// What is said of a request, with an empty body.
fn verdict(alloc: Global, room: &mut HeadRoom, text: &[u8], seconds: u64) -> Option<Text> {
    let ring = KeyRing::read(alloc, KEY_FILE.as_bytes()).ok()?;
    let HeadStep::Head(spans) = read_head(text, room) else {
        return None;
    };
    let head = spans.view(text, room);
    let mut empty = [0; 64];
    if EMPTY.len() == 64 {
        empty.copy_from_slice(EMPTY);
    }
    let payload = payload_text(&head, &empty);
    let reading = Moment::new(seconds)?;
    let said = verify(alloc, &ring, &region()?, &head, payload, reading).ok()?;
    text_of(said, alloc)
}

/// The text with a part of it replaced.
fn changed(alloc: Global, text: &str, old: &str, new: &str) -> Option<String> {
    let (front, back) = text.split_once(old)?;
    let mut changed = String::from_str(alloc, front).ok()?;
    changed.push_str(new).ok()?;
    changed.push_str(back).ok()?;
    Some(changed)
}

/// A request, a part of it, what replaces the part, the reading and what is then said.
type Row = (&'static str, &'static str, &'static str, u64, &'static str);

fn is_said(alloc: Global, room: &mut HeadRoom, row: &Row) -> Option<bool> {
    let (request, old, new, seconds, said) = *row;
    let text = changed(alloc, request, old, new)?;
    let answer = verdict(alloc, room, text.as_bytes(), seconds)?;
    Some(answer.bytes() == said.as_bytes())
}

const LIST: &str =
    "GET /-/vaults?marker=b%2Dc&&limit=2 HTTP/1.1\r\nhost: 127.0.0.1:8080\r\nx-amz-date: 20120525T002453Z\r\nx-amz-glacier-version: 2012-06-01\r\nAuthorization: AWS4-HMAC-SHA256 Credential=AKIDEXAMPLE/20120525/us-east-1/glacier/aws4_request, SignedHeaders=host;x-amz-date;x-amz-glacier-version, Signature=05c52ce80a1eef9bb6ff9dd9703f46b728ed08e2aa5386ad75251d3af3d215bf\r\n\r\n";

const UPLOAD: &str =
    "POST /-/vaults/v/archives HTTP/1.1\r\nhost: 127.0.0.1:8080\r\nx-amz-archive-description:   a   b\tc  \r\nx-amz-date: 20120525T002453Z\r\nx-amz-glacier-version: 2012-06-01\r\nAuthorization: AWS4-HMAC-SHA256 Credential=AKIDEXAMPLE/20120525/us-east-1/glacier/aws4_request, SignedHeaders=host;x-amz-archive-description;x-amz-date;x-amz-glacier-version, Signature=a8763bb70c673e723bbd7c77a3d834a988f9573e8e4538399c2f407914757da5\r\n\r\n";

const TWICE: &str =
    "GET /-/vaults/v HTTP/1.1\r\nhost: h\r\nx-amz-date: 20120525T002453Z\r\nX-Amz-Two: a\r\nx-amz-two: b\r\nAuthorization: AWS4-HMAC-SHA256 Credential=AKIDEXAMPLE/20120525/us-east-1/glacier/aws4_request, SignedHeaders=host;x-amz-date;x-amz-two, Signature=69937086fab7624ee5099e4dba68285dc7afe67b8e6c2bec31a42d4f9404a051\r\n\r\n";

const ROWS: [Row; 33] = [
    (PUT, "PUT", "PUT", M0, "verified"),
    (PUT, "PUT", "PUT", M0 + 900, "verified"),
    (PUT, "PUT", "PUT", M0 + 901, "skewed"),
    (PUT, "PUT", "PUT", M0 - 900, "verified"),
    (PUT, "PUT", "PUT", M0 - 901, "skewed"),
    (PUT, "PUT", "POST", M0, "bad signature"),
    (PUT, "7b620e", "7b620f", M0, "bad signature"),
    // Fields that aren't signed.
    (
        PUT,
        "Auth",
        "X-Amz-Archive-Description: x\r\nAuth",
        M0,
        "x-amz-archive-description",
    ),
    (
        PUT,
        "Auth",
        "X-Amz-B: x\r\nX-Amz-A: x\r\nAuth",
        M0,
        "x-amz-a",
    ),
    (PUT, "=host;", "=", M0, "host"),
    (PUT, "Auth", "Content-Length: 0\r\nAuth", M0, "verified"),
    (PUT, "host:", "HOST: \t", M0, "verified"),
    // The two fields.
    (PUT, "Authorization", "Authority", M0, "missing"),
    (PUT, "x-amz-date", "x-amz-data", M0, "missing"),
    (PUT, "Auth", "authorization: x\r\nAuth", M0, "malformed"),
    (PUT, "20120525T002453Z", "20120230T000000Z", M0, "malformed"),
    (PUT, "Signature=7b", "Signature=7B", M0, "malformed"),
    (PUT, "host;x-amz-date", "x-amz-date;host", M0, "malformed"),
    (
        PUT,
        "host;x-amz-date",
        "host;range;x-amz-date",
        M0,
        "malformed",
    ),
    (PUT, ", SignedHeaders", ",\tSignedHeaders", M0, "malformed"),
    (PUT, "SHA256 Cred", "SHA256   Cred", M0, "verified"),
    (PUT, ", SignedHeaders", ",SignedHeaders", M0, "verified"),
    // The key and the scope.
    (PUT, "=AKID", "=BKID", M0, "unknown key"),
    (PUT, "/us-east-1/", "/us-west-2/", M0, "wrong scope"),
    (PUT, "/20120525/", "/20120526/", M0, "wrong scope"),
    (PUT, "aws4_request", "aws4_request ", M0, "wrong scope"),
    // Queries, values and a field that stands twice.
    (LIST, "GET", "GET", M0, "verified"),
    (
        LIST,
        "marker=b%2Dc&&limit=2",
        "limit=2&marker=b-c",
        M0,
        "verified",
    ),
    (LIST, "limit=2", "limit=3", M0, "bad signature"),
    (UPLOAD, "POST", "POST", M0, "verified"),
    (UPLOAD, "  a   b\tc  ", "a b\tc", M0, "verified"),
    (UPLOAD, "b\tc", "b c", M0, "bad signature"),
    (TWICE, "GET", "GET", M0, "verified"),
];

#[test]
fn signed_requests_with_changes(rt: HostRuntime) -> Result<(), Fail> {
    let mut room = HeadRoom::new(rt.alloc()).ok().ok_or("memory")?;
    for row in &ROWS {
        assert!(rt;
            is_said(rt.alloc(), &mut room, row) == Some(true),
            "{} {} at {}",
            row.1,
            row.2,
            row.3
        );
    }
    Ok(())
}

fn field(alloc: Global, name: &[u8], value: &[u8]) -> Result<Field, Memory>
    ensures { IfOk result (λ f. pair_of_field f ≡ (name.now, value.now)) }
{
    Ok(Field {
        name: Text::of(alloc, name)?,
        value: Text::of(alloc, value)?,
    })
}

/// The Authorization of the signed request, made anew.
fn signed(alloc: Global, ring: &KeyRing, region: &Region, moment: Moment) -> Result<Text, Memory> {
    let host = field(alloc, b"host", b"127.0.0.1:8080")?;
    let date = field(alloc, b"x-amz-date", &basic_text(moment))?;
    let version = field(alloc, b"x-amz-glacier-version", b"2012-06-01")?;
    let mut fields = List::new(alloc);
    fields.push(host)?;
    fields.push(date)?;
    fields.push(version)?;
    let path = b"/-/vaults/examplevault";
    sign(
        alloc,
        ring.first(),
        region,
        moment,
        b"PUT",
        path,
        b"",
        &fields,
        EMPTY,
    )
}

/// Whether the signed request's Authorization is made anew, and the ring has its quota.
fn is_signed_alike(alloc: Global) -> Option<bool> {
    let ring = KeyRing::read(alloc, KEY_FILE.as_bytes()).ok()?;
    let text = signed(alloc, &ring, &region()?, Moment::new(M0)?).ok()?;
    let (_, rest) = PUT.split_once("Authorization: ")?;
    let (authorization, _) = rest.split_once("\r\n")?;
    Some(
        text.bytes() == authorization.as_bytes()
            && ring.total() == 64
            && ring.quota(ring.first().account) == 64,
    )
}

#[test]
fn signs_as_others_do(rt: HostRuntime) {
    assert!(rt; is_signed_alike(rt.alloc()) == Some(true));
}

/// The three fields of the signed request, and their names.
fn fields(alloc: Global) -> Result<(List<Field>, List<Text>), Memory> {
    let rows: [(&[u8], &[u8]); 3] = [
        (b"host", b"127.0.0.1:8080"),
        (b"x-amz-date", b"20120525T002453Z"),
        (b"x-amz-glacier-version", b"2012-06-01"),
    ];
    let mut fields = List::new(alloc);
    let mut names = List::new(alloc);
    for (name, value) in rows {
        fields.push(field(alloc, name, value)?)?;
        names.push(Text::of(alloc, name)?)?;
    }
    Ok((fields, names))
}

const CANONICAL: &str = "PUT\n/-/vaults/examplevault\n\nhost:127.0.0.1:8080\n\
    x-amz-date:20120525T002453Z\nx-amz-glacier-version:2012-06-01\n\n\
    host;x-amz-date;x-amz-glacier-version\n\
    e3b0c44298fc1c149afbf4c8996fb92427ae41e4649b934ca495991b7852b855";

fn is_canonical(alloc: Global) -> Option<bool> {
    let (fields, names) = fields(alloc).ok()?;
    let path = b"/-/vaults/examplevault";
    let text = canonical_request(alloc, b"PUT", path, b"", &fields, &names, EMPTY).ok()?;
    Some(text.bytes() == CANONICAL.as_bytes())
}

/// Queries, and the canonical requests of no method, path and field with them.
const QUERIES: [(&str, &str); 5] = [
    ("marker=b%2Dc&limit=2", "\n\nlimit=2&marker=b-c\n\n\n"),
    ("a&a1=x&a=%2f", "\n\na=&a=%2F&a1=x\n\n\n"),
    ("&&", "\n\n\n\n\n"),
    ("=&b==c%zz", "\n\n=&b=%3Dc%25zz\n\n\n"),
    ("a=1&a=1", "\n\na=1&a=1\n\n\n"),
];

fn is_query_canonical(alloc: Global, query: &str, canonical: &str) -> Option<bool> {
    let none = List::new(alloc);
    let fields = List::new(alloc);
    let query = query.as_bytes();
    let text = canonical_request(alloc, b"", b"", query, &fields, &none, b"").ok()?;
    Some(text.bytes() == canonical.as_bytes())
}

const DIGEST: &str = "29615a990d1fbe49b7cd26fc053ecc2bcabe31d3a31e7e244fc7301a3384d636";

const TO_SIGN: &str = "AWS4-HMAC-SHA256\n20120525T002453Z\n\
    20120525/us-east-1/glacier/aws4_request\n\
    29615a990d1fbe49b7cd26fc053ecc2bcabe31d3a31e7e244fc7301a3384d636";

fn is_to_sign(alloc: Global) -> Option<bool> {
    let digest = Digest::parse(DIGEST.as_bytes())?;
    let date = basic_text(Moment::new(M0)?);
    let text = string_to_sign(alloc, &date, &region()?, &digest).ok()?;
    Some(text.bytes() == TO_SIGN.as_bytes())
}

#[test]
fn canonical_requests(rt: HostRuntime) {
    let alloc = rt.alloc();
    assert!(rt; is_canonical(alloc) == Some(true));
    assert!(rt; is_to_sign(alloc) == Some(true));
    for (query, canonical) in QUERIES {
        assert!(rt;
            is_query_canonical(alloc, query, canonical) == Some(true),
            "{query}"
        );
    }
}
