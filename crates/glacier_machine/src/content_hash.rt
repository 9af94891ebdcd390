// The hash that a head names for its body.
ghost use Rattle.std.specs.Prelude.{◌≡◌, IfOk};
ghost use Rattle.sha2.specs.Sha256.{sha256};
ghost use Rattle.glacier_machine.specs.ContentHash.{hash_name, named_hashes, need_refusal as refusal_of_need, hash_refusal as refusal_of_hash, length_refusal as refusal_of_length, mismatch as refusal_of_mismatch, content_refusal as refusal_of_content};
ghost use Rattle.glacier_vault.specs.declared.refusal.Refusal.TheVariants.{BadHeader};

use crate::same::is_same;
use glacier_base::{Digest, Memory, Text};
use glacier_http::{Find, Head};
use glacier_vault::Refusal;
use sha2::{Digest as _, Sha256};
use std::alloc::Global;

/// How many bytes a body may have, where the request is no upload.
pub const MOST_BODY: u64 = 1_048_576;

/// The refusal of a long body whose hash isn't named.
pub(crate) fn need_refusal(head: &Head<'_>, content_length: u64) -> Option<Refusal>
    ensures { result ≡ refusal_of_need (named_hashes head.now) content_length }
{
    match head.find(b"x-amz-content-sha256") {
        Find::None => {
            if content_length > MOST_BODY {
                Some(Refusal::HashNeeded {
                    length: content_length,
                })
            } else {
                None
            }
        }
        _ => None,
    }
}

fn bad_header(alloc: Global) -> Result<Refusal, Memory>
    ensures { IfOk result (λ refusal. refusal ≡ BadHeader hash_name) }
{
    let name = Text::of(alloc, b"x-amz-content-sha256")?;
    Ok(Refusal::BadHeader { name })
}

/// The refusal of what the head names as the body's hash.
pub(crate) fn hash_refusal(alloc: Global, head: &Head<'_>) -> Result<Option<Refusal>, Memory>
    ensures { IfOk result (λ refusal. refusal ≡ refusal_of_hash (named_hashes head.now)) }
{
    match head.find(b"x-amz-content-sha256") {
        Find::None => Ok(None),
        Find::One(value) => match Digest::parse(value) {
            Some(_) => Ok(None),
            None => Ok(Some(bad_header(alloc)?)),
        },
        Find::Many(_) => Ok(Some(bad_header(alloc)?)),
    }
}

/// The refusal of a body's length.
pub(crate) fn length_refusal(content_length: u64) -> Option<Refusal>
    ensures { result ≡ refusal_of_length content_length }
{
    if content_length > MOST_BODY {
        Some(Refusal::BodyTooLong {
            length: content_length,
        })
    } else {
        None
    }
}

/// The SHA-256 of a body.
pub(crate) fn digest(body: &[u8]) -> Digest
    ensures { result ≡ sha256 body.now }
{
    Digest(Sha256::digest(body))
}

/// The refusal of a digest, where another is named.
fn mismatch(found: Digest, said: Option<Digest>) -> Option<Refusal>
    ensures { result ≡ refusal_of_mismatch found said }
{
    let said = said?;
    if is_same(&found.0, &said.0) {
        return None;
    }
    Some(Refusal::ContentMismatch { found, said })
}

/// The refusal of a body that hasn't the hash that the head names.
pub(crate) fn content_refusal(head: &Head<'_>, body: &[u8]) -> Option<Refusal>
    ensures { result ≡ refusal_of_content (named_hashes head.now) body.now }
{
    match head.find(b"x-amz-content-sha256") {
        Find::None => None,
        Find::One(value) => mismatch(digest(body), Digest::parse(value)),
        Find::Many(value) => mismatch(digest(body), Digest::parse(value)),
    }
}
