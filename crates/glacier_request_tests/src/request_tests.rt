// What heads and queries say, and what refuses them: by hand from docs/rules/requests.md.
use glacier_base::{Digest, VaultName};
use glacier_http::{Head, HeadRoom, HeadStep, read_head};
use glacier_requests::{
    ListQuery, StatusCode, Unread, completion_head, jobs_query, output_range, part_head,
    parts_head, parts_query, upload_head, uploads_query, vaults_query,
};
use glacier_vault::Refusal;
use std::alloc::Global;
use std::test::Fail;

/// What reads a head: a part has 5 bytes.
#[derive(Clone, Copy)]
enum Reader {
    Upload,
    Parts,
    Part,
    Completion,
    Output,
    Vaults,
    Uploads,
    PartList,
    Jobs,
}

/// What is to be read, or the refusal's name and what it names. A digest is its first and its last byte,
/// a text its length.
pub type Want = Result<[u64; 4], (&'static str, &'static [u8])>;

fn ends(digest: &Digest) -> u64 {
    u64::from(digest.0[0]) * 256 + u64::from(digest.0[31])
}

fn upload_told(alloc: Global, head: &Head) -> Result<[u64; 4], Unread> {
    let said = upload_head(alloc, head)?;
    Ok([
        ends(&said.linear),
        ends(&said.tree),
        said.description.bytes().len() as u64,
        0,
    ])
}

fn parts_told(alloc: Global, head: &Head) -> Result<[u64; 4], Unread> {
    let said = parts_head(alloc, head)?;
    Ok([said.description.bytes().len() as u64, said.part_size, 0, 0])
}

fn part_told(alloc: Global, head: &Head) -> Result<[u64; 4], Unread> {
    let said = part_head(alloc, head, 5)?;
    Ok([ends(&said.linear), ends(&said.tree), said.first, said.size])
}

fn completion_told(alloc: Global, head: &Head) -> Result<[u64; 4], Unread> {
    let said = completion_head(alloc, head)?;
    Ok([said.size, ends(&said.tree), 0, 0])
}

fn output_told(head: &Head) -> Result<[u64; 4], Unread> {
    match output_range(head) {
        None => Ok([0, 0, 0, 0]),
        Some((first, last)) => Ok([1, first, last, 0]),
    }
}

/// A list's limit, and from where on it shows its items.
fn list_told(list: &ListQuery) -> Result<[u64; 4], Unread> {
    match list.from {
        None => Ok([u64::from(list.limit), 0, 0, 0]),
        Some(from) => Ok([u64::from(list.limit), 1, from, 0]),
    }
}

fn name_length(name: &VaultName) -> u64 {
    name.bytes().len() as u64
}

fn vaults_told(alloc: Global, head: &Head) -> Result<[u64; 4], Unread> {
    let said = vaults_query(alloc, head)?;
    match &said.from {
        None => Ok([u64::from(said.limit), 0, 0, 0]),
        Some(name) => Ok([u64::from(said.limit), 1, name_length(name), 0]),
    }
}

fn jobs_told(alloc: Global, head: &Head) -> Result<[u64; 4], Unread> {
    let said = jobs_query(alloc, head)?;
    let status = match said.status {
        None => 0,
        Some(StatusCode::InProgress) => 1,
        Some(StatusCode::Succeeded) => 2,
        Some(StatusCode::Failed) => 3,
    };
    let completed = match said.completed {
        None => 0,
        Some(false) => 1,
        Some(true) => 2,
    };
    Ok([
        u64::from(said.list.limit),
        said.list.from.unwrap_or(0),
        completed,
        status,
    ])
}

fn told(reader: Reader, alloc: Global, head: &Head) -> Result<[u64; 4], Unread> {
    match reader {
        Reader::Upload => upload_told(alloc, head),
        Reader::Parts => parts_told(alloc, head),
        Reader::Part => part_told(alloc, head),
        Reader::Completion => completion_told(alloc, head),
        Reader::Output => output_told(head),
        Reader::Vaults => vaults_told(alloc, head),
        Reader::Uploads => list_told(&uploads_query(alloc, head)?),
        Reader::PartList => list_told(&parts_query(alloc, head)?),
        Reader::Jobs => jobs_told(alloc, head),
    }
}

fn refusal_told(refusal: &Refusal) -> (&'static str, &[u8]) {
    match refusal {
        Refusal::MissingHeader { name } => ("MissingHeader", name.bytes()),
        Refusal::BadHeader { name } => ("BadHeader", name.bytes()),
        Refusal::BadQuery { name } => ("BadQuery", name.bytes()),
        Refusal::MissingMember { name } => ("MissingMember", name.bytes()),
        Refusal::BadMember { name } => ("BadMember", name.bytes()),
        Refusal::NotOffered { name } => ("NotOffered", name.bytes()),
        Refusal::BadPartSize => ("BadPartSize", b""),
        Refusal::BadRange => ("BadRange", b""),
        Refusal::BadType => ("BadType", b""),
        Refusal::NotJson => ("NotJson", b""),
        _ => ("another", b""),
    }
}

fn is_refusal(refusal: &Refusal, fault: &str, named: &[u8]) -> bool {
    let (name, what) = refusal_told(refusal);
    name == fault && what == named
}

pub fn is_wanted(told: &Result<[u64; 4], Unread>, want: &Want) -> bool {
    match (told, want) {
        (Ok(told), Ok(want)) => told == want,
        (Err(Unread::Refused(refusal)), Err((fault, named))) => is_refusal(refusal, fault, named),
        _ => false,
    }
}

fn is_read(alloc: Global, reader: Reader, text: &[u8], want: &Want, room: &mut HeadRoom) -> bool {
    match read_head(text, room) {
        HeadStep::Head(spans) => is_wanted(&told(reader, alloc, &spans.view(text, room)), want),
        _ => false,
    }
}

/// A reader, a head, and what it says.
const HEADS: [(Reader, &[u8], Want); 19] = [
    (
        Reader::Upload,
        b"POST / HTTP/1.1\n\
        x-amz-content-sha256: 0a0000000000000000000000000000000000000000000000000000000000000b\n\
        x-amz-sha256-tree-hash: 0C0000000000000000000000000000000000000000000000000000000000000d\n\
        x-amz-archive-description: my photos\n\n",
        Ok([2571, 3085, 9, 0]),
    ),
    (
        Reader::Upload,
        b"POST / HTTP/1.1\nx-amz-content-sha256: 0a\n\n",
        Err(("BadHeader", b"x-amz-content-sha256")),
    ),
    (
        Reader::Parts,
        b"POST / HTTP/1.1\nx-amz-part-size: 1048576\n\n",
        Ok([0, 1_048_576, 0, 0]),
    ),
    (
        Reader::Parts,
        b"POST / HTTP/1.1\nx-amz-part-size: 1MiB\n\n",
        Err(("BadPartSize", b"")),
    ),
    (
        Reader::Part,
        b"PUT / HTTP/1.1\nContent-Range: bytes 7-11/*\n\
        x-amz-content-sha256: 0a0000000000000000000000000000000000000000000000000000000000000b\n\
        x-amz-sha256-tree-hash: 0C0000000000000000000000000000000000000000000000000000000000000d\n\n",
        Ok([2571, 3085, 7, 5]),
    ),
    (
        Reader::Part,
        b"PUT / HTTP/1.1\nContent-Range: bytes 7-12/*\n\
        x-amz-content-sha256: 0a0000000000000000000000000000000000000000000000000000000000000b\n\
        x-amz-sha256-tree-hash: 0C0000000000000000000000000000000000000000000000000000000000000d\n\n",
        Err(("BadRange", b"")),
    ),
    (
        Reader::Completion,
        b"POST / HTTP/1.1\nx-amz-archive-size: 12\n\
        x-amz-sha256-tree-hash: 0C0000000000000000000000000000000000000000000000000000000000000d\n\n",
        Ok([12, 3085, 0, 0]),
    ),
    (
        Reader::Completion,
        b"POST / HTTP/1.1\nx-amz-archive-size: 12\n\n",
        Err(("MissingHeader", b"x-amz-sha256-tree-hash")),
    ),
    (
        Reader::Output,
        b"GET / HTTP/1.1\nRange: bytes=3-9\n\n",
        Ok([1, 3, 9, 0]),
    ),
    (
        Reader::Output,
        b"GET / HTTP/1.1\nRange: bytes=-9\n\n",
        Ok([1, 18_446_744_073_709_551_615, 18_446_744_073_709_551_615, 0]),
    ),
    (Reader::Output, b"GET / HTTP/1.1\n\n", Ok([0, 0, 0, 0])),
    (
        Reader::Vaults,
        b"GET /?limit=7&marker=photos HTTP/1.1\n\n",
        Ok([7, 1, 6, 0]),
    ),
    (Reader::Vaults, b"GET / HTTP/1.1\n\n", Ok([50, 0, 0, 0])),
    (
        Reader::Vaults,
        b"GET /?limit=1001 HTTP/1.1\n\n",
        Err(("BadQuery", b"limit")),
    ),
    (
        Reader::Uploads,
        b"GET /?marker=u00000000000000000042 HTTP/1.1\n\n",
        Ok([50, 1, 42, 0]),
    ),
    (
        Reader::Uploads,
        b"GET /?marker=j00000000000000000042 HTTP/1.1\n\n",
        Err(("BadQuery", b"marker")),
    ),
    (
        Reader::PartList,
        b"GET /?marker=1048576&limit=1000 HTTP/1.1\n\n",
        Ok([1000, 1, 1_048_576, 0]),
    ),
    (
        Reader::Jobs,
        b"GET /?marker=j00000000000000000003&completed=true&statuscode=Failed HTTP/1.1\n\n",
        Ok([50, 3, 2, 3]),
    ),
    (
        Reader::Jobs,
        b"GET /?completed=yes HTTP/1.1\n\n",
        Err(("BadQuery", b"completed")),
    ),
];

#[test]
fn heads_say_what_is_asked_for(rt: HostRuntime) -> Result<(), Fail> {
    let mut room = HeadRoom::new(rt.alloc()).ok().ok_or("memory")?;
    for (reader, text, want) in &HEADS {
        assert!(rt;
            is_read(rt.alloc(), *reader, text, want, &mut room),
            "{want:?}"
        );
    }
    Ok(())
}
