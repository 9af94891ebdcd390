// What the heads of an upload in parts say, and of an output.
ghost use Rattle.std.specs.Prelude.{◌≡◌, codes};
ghost use Rattle.glacier_http.specs.Fields.{values_of};
ghost use Rattle.glacier_requests.specs.Parts.{part_size_in, parts_head_of, first_of as first_of_range, first_in, part_head_of, archive_size_in, completion_head_of, range_or_outside as range_that_may_be_outside, output_range_of};
ghost use Rattle.glacier_requests.specs.Reads.{Reads};

use crate::naming::{Fault, refuse};
use crate::ranges::{byte_range_of, content_range_of};
use crate::unread::Unread;
use crate::uploads::{description_under, digest_under};
use glacier_base::{Description, Digest};
use glacier_http::{Find, Head, MOST_DIGITS, number};
use glacier_vault::Refusal;
use std::alloc::Global;

/// Both ends of a range that lies outside every output.
pub const OUTSIDE: u64 = u64::MAX;

/// What the head says that begins an upload in parts.
#[derive(Clone, Copy)]
pub struct PartsHead {
    pub description: Description,
    /// How many bytes each part has but the last: any number of 1 to 15 digits.
    pub part_size: u64,
}

/// What the head of a part says.
#[derive(Clone, Copy)]
pub struct PartHead {
    /// The SHA-256 of the body.
    pub linear: Digest,
    /// The tree hash of the body.
    pub tree: Digest,
    /// The place of the part's first byte in the archive.
    pub first: u64,
    /// How many bytes it has, at least 1.
    pub size: u64,
}

/// What the head says that completes an upload in parts.
#[derive(Clone, Copy)]
pub struct CompletionHead {
    /// How many bytes the archive has, at least 1.
    pub size: u64,
    /// The tree hash of the archive.
    pub tree: Digest,
}

fn part_size_under(alloc: Global, head: &Head<'_>) -> Result<u64, Unread>
    ensures { Reads (part_size_in (values_of (codes "x-amz-part-size") head.now.fields)) result }
{
    match head.find(b"x-amz-part-size") {
        Find::None => Err(refuse(alloc, Fault::MissingHeader, b"x-amz-part-size")),
        Find::One(value) => match number(MOST_DIGITS, value) {
            Some(part_size) => Ok(part_size),
            None => Err(Unread::Refused(Refusal::BadPartSize)),
        },
        Find::Many(_) => Err(Unread::Refused(Refusal::BadPartSize)),
    }
}

/// What the head says that begins an upload in parts, or the first that holds of BadHeader for the
/// description, and MissingHeader and BadPartSize for the part size. Only a refusal takes memory.
pub fn parts_head(alloc: Global, head: &Head<'_>) -> Result<PartsHead, Unread>
    ensures { Reads (parts_head_of head.now) result }
{
    let description = description_under(alloc, head)?;
    let part_size = part_size_under(alloc, head)?;
    Ok(PartsHead {
        description,
        part_size,
    })
}

/// The first byte of a range of this length.
fn first_of(length: u64, range: Option<(u64, u64)>) -> Result<u64, Unread>
    ensures { Reads (first_of_range length range) result }
{
    match range {
        Some((first, last)) if length > 0 && last.saturating_sub(first) == length - 1 => Ok(first),
        _ => Err(Unread::Refused(Refusal::BadRange)),
    }
}

fn first_under(alloc: Global, head: &Head<'_>, length: u64) -> Result<u64, Unread>
    ensures { Reads (first_in length (values_of (codes "Content-Range") head.now.fields)) result }
{
    match head.find(b"Content-Range") {
        Find::None => Err(refuse(alloc, Fault::MissingHeader, b"Content-Range")),
        Find::One(value) => first_of(length, content_range_of(value)),
        Find::Many(_) => Err(Unread::Refused(Refusal::BadRange)),
    }
}

/// What the head of a part with a body of this length says, or the first that holds of
/// MissingHeader and BadHeader for the body's SHA-256, the same for its tree hash, and
/// MissingHeader and BadRange for the range. Only a refusal takes memory.
pub fn part_head(alloc: Global, head: &Head<'_>, length: u64) -> Result<PartHead, Unread>
    ensures { Reads (part_head_of head.now length) result }
{
    let linear = digest_under(alloc, head, b"x-amz-content-sha256")?;
    let tree = digest_under(alloc, head, b"x-amz-sha256-tree-hash")?;
    let first = first_under(alloc, head, length)?;
    Ok(PartHead {
        linear,
        tree,
        first,
        size: length,
    })
}

fn archive_size_under(alloc: Global, head: &Head<'_>) -> Result<u64, Unread>
    ensures { Reads (archive_size_in (values_of (codes "x-amz-archive-size") head.now.fields)) result }
{
    match head.find(b"x-amz-archive-size") {
        Find::None => Err(refuse(alloc, Fault::MissingHeader, b"x-amz-archive-size")),
        Find::One(value) => match number(MOST_DIGITS, value) {
            Some(size) if size >= 1 => Ok(size),
            _ => Err(refuse(alloc, Fault::BadHeader, b"x-amz-archive-size")),
        },
        Find::Many(_) => Err(refuse(alloc, Fault::BadHeader, b"x-amz-archive-size")),
    }
}

/// What the head says that completes an upload in parts, or the first that holds of MissingHeader
/// and BadHeader for the archive's size, and the same for its tree hash. Only a refusal takes
/// memory.
pub fn completion_head(alloc: Global, head: &Head<'_>) -> Result<CompletionHead, Unread>
    ensures { Reads (completion_head_of head.now) result }
{
    let size = archive_size_under(alloc, head)?;
    let tree = digest_under(alloc, head, b"x-amz-sha256-tree-hash")?;
    Ok(CompletionHead { size, tree })
}

fn range_or_outside(range: Option<(u64, u64)>) -> (u64, u64)
    ensures { result ≡ range_that_may_be_outside range }
{
    match range {
        Some(range) => range,
        None => (OUTSIDE, OUTSIDE),
    }
}

/// The first and the last byte of an output that the head asks for, by its Range header; None where
/// it has none. A header that is repeated or says no range of bytes asks for `OUTSIDE`, so that it
/// is BadByteRange where the job has an output. It takes no memory.
pub fn output_range(head: &Head<'_>) -> Option<(u64, u64)>
    ensures { result ≡ output_range_of head.now }
{
    match head.find(b"Range") {
        Find::None => None,
        Find::One(value) => Some(range_or_outside(byte_range_of(value))),
        Find::Many(_) => Some((OUTSIDE, OUTSIDE)),
    }
}
