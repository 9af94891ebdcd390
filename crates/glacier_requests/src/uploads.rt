// What the head of an upload says.
ghost use Rattle.std.specs.Prelude.{◌≡◌, []};
ghost use Rattle.glacier_requests.specs.Reads.{Reads};
ghost use Rattle.glacier_requests.specs.Uploads.{digest_under, description_under as description_in, upload_head_of};

use crate::naming::{Fault, refuse};
use crate::unread::Unread;
use glacier_base::{Description, Digest};
use glacier_http::{Find, Head};
use std::alloc::Global;

/// What the head of an upload of an archive says.
#[derive(Clone, Copy)]
pub struct UploadHead {
    /// The SHA-256 of the body.
    pub linear: Digest,
    /// The tree hash of the body.
    pub tree: Digest,
    pub description: Description,
}

/// The digest under a header's name: MissingHeader without one, BadHeader where it is repeated or
/// no digest.
pub(crate) fn digest_under(alloc: Global, head: &Head<'_>, name: &[u8]) -> Result<Digest, Unread>
    ensures { Reads (digest_under name.now head.now) result }
{
    match head.find(name) {
        Find::None => Err(refuse(alloc, Fault::MissingHeader, name)),
        Find::One(value) => match Digest::parse(value) {
            Some(digest) => Ok(digest),
            None => Err(refuse(alloc, Fault::BadHeader, name)),
        },
        Find::Many(_) => Err(refuse(alloc, Fault::BadHeader, name)),
    }
}

/// The description of nothing.
pub(crate) fn no_description() -> Description
    ensures { result ≡ [] }
{
    match Description::parse(b"") {
        Some(description) => description,
        None => unreachable!(),
    }
}

/// The description of an archive: empty where its header is missing, and BadHeader where it is
/// repeated or breaks the rule.
pub(crate) fn description_under(alloc: Global, head: &Head<'_>) -> Result<Description, Unread>
    ensures { Reads (description_in head.now) result }
{
    match head.find(b"x-amz-archive-description") {
        Find::None => Ok(no_description()),
        Find::One(value) => match Description::parse(value) {
            Some(description) => Ok(description),
            None => Err(refuse(alloc, Fault::BadHeader, b"x-amz-archive-description")),
        },
        Find::Many(_) => Err(refuse(alloc, Fault::BadHeader, b"x-amz-archive-description")),
    }
}

/// What the head of an upload of an archive says, or the first that holds of MissingHeader and
/// BadHeader for the body's SHA-256, the same for its tree hash, and BadHeader for the description.
/// Only a refusal takes memory.
pub fn upload_head(alloc: Global, head: &Head<'_>) -> Result<UploadHead, Unread>
    ensures { Reads (upload_head_of head.now) result }
{
    let linear = digest_under(alloc, head, b"x-amz-content-sha256")?;
    let tree = digest_under(alloc, head, b"x-amz-sha256-tree-hash")?;
    let description = description_under(alloc, head)?;
    Ok(UploadHead {
        linear,
        tree,
        description,
    })
}
