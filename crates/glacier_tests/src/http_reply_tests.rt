// Replies as they are printed, and the interim line.
ghost use Rattle.std.specs.Prelude.{◌+◌, ◌≡◌, ◌≤◌, IfOk, IfSome, length};
ghost use Rattle.std.specs.List.{sum_by};
ghost use Rattle.glacier_http.specs.Printed.{HasReason, field_room};

use glacier_base::{List, Memory, Moment, Text};
use glacier_http::{Field, Kind, Reply, interim, write_head, write_reply};
use std::alloc::Global;
use std::test::Fail;

/// A reply and what its connection adds.
#[derive(Clone, Copy)]
struct Row {
    status: u16,
    fields: &'static [(&'static str, &'static str)],
    kind: Kind,
    body: &'static str,
    count: u64,
    date: u64,
    close: bool,
    head: &'static str,
}

/// The status, where it is one of those with a reason.
fn known(status: u16) -> Option<u16>
    ensures { IfSome result HasReason }
{
    match status {
        200 => Some(200),
        201 => Some(201),
        202 => Some(202),
        204 => Some(204),
        206 => Some(206),
        400 => Some(400),
        403 => Some(403),
        404 => Some(404),
        _ => None,
    }
}

fn reply_of(alloc: Global, status: u16, row: &Row) -> Result<Reply, Memory>
    ensures { IfOk result (λ reply. reply.status ≡ status) }
{
    let mut fields = List::new(alloc);
    for (name, value) in row.fields {
        let name = Text::of(alloc, name.as_bytes())?;
        let value = Text::of(alloc, value.as_bytes())?;
        fields.push(Field { name, value })?;
    }
    let body = Text::of(alloc, row.body.as_bytes())?;
    Ok(Reply {
        status,
        fields,
        kind: row.kind,
        body,
    })
}

/// How many bytes the lines of the fields have.
fn room_of(fields: &[Field]) -> Option<usize>
    ensures { IfSome result (λ n. n ≡ sum_by field_room fields.now) }
{
    let mut room = 0usize;
    for field in fields {
        room = room.checked_add(field.name.bytes().len())?;
        room = room.checked_add(field.value.bytes().len())?;
        room = room.checked_add(4)?;
    }
    Some(room)
}

/// Whether the reply is printed as its head and its body.
fn is_whole(alloc: Global, reply: &Reply, row: &Row, date: Moment) -> Result<bool, Memory>
    requires { HasReason reply.now.status }
{
    let text = write_reply(alloc, reply, row.count, date, row.close)?;
    let mut whole = Text::of(alloc, row.head.as_bytes())?;
    whole.extend_from_slice(row.body.as_bytes())?;
    Ok(text.bytes() == whole.bytes())
}

/// Whether its head is printed to the front of a buffer of exactly the room that is asked for, and
/// nothing behind it.
fn is_in_front(alloc: Global, reply: &Reply, row: &Row, date: Moment) -> Result<bool, Memory>
    requires { HasReason reply.now.status }
{
    let fields = room_of(reply.fields.as_slice()).ok_or(Memory)?;
    let room = fields.checked_add(512).ok_or(Memory)?;
    let untouched = vec![in alloc; b'#'; room]?;
    let mut into = vec![in alloc; b'#'; room]?;
    let end = write_head(reply, row.count, date, row.close, &mut into);
    Ok(
        end == row.head.len()
            && into.starts_with(row.head.as_bytes())
            && into[end..] == untouched[end..],
    )
}

fn is_printed(alloc: Global, row: &Row) -> Result<bool, Memory> {
    let (Some(status), Some(date)) = (known(row.status), Moment::new(row.date)) else {
        return Ok(false);
    };
    let reply = reply_of(alloc, status, row)?;
    Ok(is_whole(alloc, &reply, row, date)? && is_in_front(alloc, &reply, row, date)?)
}

const ROWS: [Row; 8] = [
    Row {
        status: 201,
        fields: &[("Location", "/111122223333/vaults/examplevault")],
        kind: Kind::Empty,
        body: "",
        count: 0,
        date: 1_337_905_493,
        close: false,
        head: "HTTP/1.1 201 Created\r\n\
            Date: Fri, 25 May 2012 00:24:53 GMT\r\n\
            Location: /111122223333/vaults/examplevault\r\n\
            Content-Length: 0\r\n\r\n",
    },
    Row {
        status: 404,
        fields: &[("x-amzn-RequestId", "a"), ("Server", "")],
        kind: Kind::Json,
        body: "{\"code\":\"ResourceNotFoundException\",\"message\":\"No such operation.\",\"type\":\"Client\"}",
        count: 83,
        date: 784_111_777,
        close: false,
        head: "HTTP/1.1 404 Not Found\r\n\
            Date: Sun, 06 Nov 1994 08:49:37 GMT\r\n\
            x-amzn-RequestId: a\r\n\
            Server: \r\n\
            Content-Type: application/json\r\n\
            Content-Length: 83\r\n\r\n",
    },
    Row {
        status: 204,
        fields: &[],
        kind: Kind::Empty,
        body: "",
        count: 0,
        date: 0,
        close: false,
        head: "HTTP/1.1 204 No Content\r\nDate: Thu, 01 Jan 1970 00:00:00 GMT\r\n\r\n",
    },
    Row {
        status: 400,
        fields: &[],
        kind: Kind::Json,
        body: "{\"code\":\"BadRequest\",\"message\":\"The request head is not valid.\",\"type\":\"Client\"}",
        count: 80,
        date: 0,
        close: true,
        head: "HTTP/1.1 400 Bad Request\r\n\
            Date: Thu, 01 Jan 1970 00:00:00 GMT\r\n\
            Content-Type: application/json\r\n\
            Connection: close\r\n\
            Content-Length: 80\r\n\r\n",
    },
    // A stretch whose body follows from elsewhere.
    Row {
        status: 206,
        fields: &[("Content-Range", "bytes 0-8589934590/8589934592")],
        kind: Kind::Octets,
        body: "",
        count: 8_589_934_591,
        date: 253_000_000_000,
        close: true,
        head: "HTTP/1.1 206 Partial Content\r\n\
            Date: Thu, 02 Apr 9987 17:46:40 GMT\r\n\
            Content-Range: bytes 0-8589934590/8589934592\r\n\
            Content-Type: application/octet-stream\r\n\
            Connection: close\r\n\
            Content-Length: 8589934591\r\n\r\n",
    },
    Row {
        status: 200,
        fields: &[],
        kind: Kind::Csv,
        body: "ArchiveId,Size\r\n",
        count: 16,
        date: 0,
        close: false,
        head: "HTTP/1.1 200 OK\r\n\
            Date: Thu, 01 Jan 1970 00:00:00 GMT\r\n\
            Content-Type: text/csv\r\n\
            Content-Length: 16\r\n\r\n",
    },
    Row {
        status: 202,
        fields: &[("x-amz-job-id", "j")],
        kind: Kind::Empty,
        body: "",
        count: 0,
        date: 0,
        close: false,
        head: "HTTP/1.1 202 Accepted\r\n\
            Date: Thu, 01 Jan 1970 00:00:00 GMT\r\n\
            x-amz-job-id: j\r\n\
            Content-Length: 0\r\n\r\n",
    },
    Row {
        status: 403,
        fields: &[],
        kind: Kind::Json,
        body: "{\"code\":\"AccessDeniedException\",\"message\":\"The vault is locked.\",\"type\":\"Client\"}",
        count: 81,
        date: 0,
        close: false,
        head: "HTTP/1.1 403 Forbidden\r\n\
            Date: Thu, 01 Jan 1970 00:00:00 GMT\r\n\
            Content-Type: application/json\r\n\
            Content-Length: 81\r\n\r\n",
    },
];

#[test]
fn replies_are_printed(rt: HostRuntime) {
    for row in &ROWS {
        assert!(rt; is_printed(rt.alloc(), row) == Ok(true), "{}", row.status);
    }
}

#[test]
fn interim_lines(rt: HostRuntime) {
    let line = "HTTP/1.1 100 Continue\r\n\r\n";
    for (expect, count, text) in [
        (true, 1, line),
        (true, 0, ""),
        (false, 1, ""),
        (false, 0, ""),
    ] {
        assert!(rt;
            interim(expect, count) == text.as_bytes(),
            "{expect} {count}"
        );
    }
}
