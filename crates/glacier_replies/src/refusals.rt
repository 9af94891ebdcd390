// What is answered to what is refused.
ghost use Rattle.std.specs.Prelude.{◌≡◌, IfOk};
ghost use Rattle.glacier_replies.specs.Messages.{HasAsciiText};
ghost use Rattle.glacier_replies.specs.Refusals.{status_of, code_of, head_refusal};
ghost use Rattle.glacier_replies.specs.Replies.{json_reply as reply_of, refused};

use crate::bodies::refusal_body;
use crate::messages::message;
use glacier_base::{List, Memory, Text};
use glacier_http::{BadHead, Kind, Reply};
use glacier_vault::Refusal;
use std::alloc::Global;

/// The refusal of a bad head.
pub fn bad_head_refusal(cause: BadHead) -> Refusal
    ensures { result ≡ head_refusal cause }
{
    match cause {
        BadHead::Syntax => Refusal::HeadSyntax,
        BadHead::TooLong => Refusal::HeadTooLong,
        BadHead::TooMany => Refusal::HeadTooMany,
        BadHead::Length => Refusal::HeadLength,
        BadHead::Coding => Refusal::HeadCoding,
        BadHead::Path => Refusal::HeadPath,
    }
}

fn status(refusal: &Refusal) -> u16
    ensures { result ≡ status_of refusal.now }
{
    match refusal {
        Refusal::Malformed
        | Refusal::UnknownKey
        | Refusal::WrongScope
        | Refusal::Unsigned { .. }
        | Refusal::Skewed { .. }
        | Refusal::BadSignature
        | Refusal::OtherAccount
        | Refusal::VaultLocked
        | Refusal::LockPending
        | Refusal::LockFixed
        | Refusal::Denied { .. } => 403,
        Refusal::NoRoute
        | Refusal::BadId
        | Refusal::NoVault { .. }
        | Refusal::NoUpload { .. }
        | Refusal::NoArchive { .. }
        | Refusal::NoJob { .. }
        | Refusal::JobFailed
        | Refusal::NoLock => 404,
        _ => 400,
    }
}

fn code(refusal: &Refusal) -> &'static str
    ensures { result.now ≡ code_of refusal.now }
{
    match refusal {
        Refusal::HeadSyntax => "BadRequest",
        Refusal::HeadTooLong => "BadRequest",
        Refusal::HeadTooMany => "BadRequest",
        Refusal::HeadLength => "BadRequest",
        Refusal::HeadCoding => "BadRequest",
        Refusal::HeadPath => "InvalidParameterValueException",
        Refusal::HashNeeded { .. } => "MissingParameterValueException",
        Refusal::Missing => "MissingAuthenticationTokenException",
        Refusal::Malformed => "InvalidSignatureException",
        Refusal::UnknownKey => "UnrecognizedClientException",
        Refusal::WrongScope => "InvalidSignatureException",
        Refusal::Unsigned { .. } => "InvalidSignatureException",
        Refusal::Skewed { .. } => "InvalidSignatureException",
        Refusal::BadSignature => "InvalidSignatureException",
        Refusal::NoRoute => "ResourceNotFoundException",
        Refusal::OtherAccount => "AccessDeniedException",
        Refusal::Token => "InvalidParameterValueException",
        Refusal::NoVersion => "MissingParameterValueException",
        Refusal::BadVersion => "InvalidParameterValueException",
        Refusal::BodyTooLong { .. } => "InvalidParameterValueException",
        Refusal::MissingHeader { .. } => "MissingParameterValueException",
        Refusal::BadHeader { .. } => "InvalidParameterValueException",
        Refusal::ContentMismatch { .. } => "InvalidParameterValueException",
        Refusal::BadName => "InvalidParameterValueException",
        Refusal::BadId => "ResourceNotFoundException",
        Refusal::BadQuery { .. } => "InvalidParameterValueException",
        Refusal::NotJson => "SerializationException",
        Refusal::MissingMember { .. } => "MissingParameterValueException",
        Refusal::BadMember { .. } => "InvalidParameterValueException",
        Refusal::NotOffered { .. } => "InvalidParameterValueException",
        Refusal::BadType => "InvalidParameterValueException",
        Refusal::BadPolicy { .. } => "InvalidParameterValueException",
        Refusal::NoVault { .. } => "ResourceNotFoundException",
        Refusal::VaultLimit => "LimitExceededException",
        Refusal::VaultNotEmpty => "InvalidParameterValueException",
        Refusal::VaultLocked => "AccessDeniedException",
        Refusal::Empty => "InvalidParameterValueException",
        Refusal::TooLarge { .. } => "InvalidParameterValueException",
        Refusal::NoRoom { .. } => "InsufficientCapacityException",
        Refusal::TreeMismatch { .. } => "InvalidParameterValueException",
        Refusal::BadPartSize => "InvalidParameterValueException",
        Refusal::NoUpload { .. } => "ResourceNotFoundException",
        Refusal::BadRange => "InvalidParameterValueException",
        Refusal::PartTooMany { .. } => "InvalidParameterValueException",
        Refusal::Gap { .. } => "InvalidParameterValueException",
        Refusal::SizeDiffers { .. } => "InvalidParameterValueException",
        Refusal::UploadLimit => "LimitExceededException",
        Refusal::NoArchive { .. } => "ResourceNotFoundException",
        Refusal::NoJob { .. } => "ResourceNotFoundException",
        Refusal::BadJobRange => "InvalidParameterValueException",
        Refusal::NotReady { .. } => "InvalidParameterValueException",
        Refusal::JobFailed => "ResourceNotFoundException",
        Refusal::BadByteRange { .. } => "InvalidParameterValueException",
        Refusal::JobLimit => "LimitExceededException",
        Refusal::LockPending => "AccessDeniedException",
        Refusal::LockFixed => "AccessDeniedException",
        Refusal::NoLock => "ResourceNotFoundException",
        Refusal::WrongLockId => "InvalidParameterValueException",
        Refusal::Denied { .. } => "AccessDeniedException",
        Refusal::CounterEnd => "LimitExceededException",
    }
}

/// A reply with a JSON body and no field of its own.
pub(crate) fn json_reply(alloc: Global, status: u16, body: Text) -> Reply
    ensures { result ≡ reply_of status body }
{
    Reply {
        status,
        fields: List::new(alloc),
        kind: Kind::Json,
        body,
    }
}

/// The reply to what is refused: its status, and `{"code":CODE,"message":TEXT,"type":"Client"}`.
/// A text that the refusal keeps is ASCII.
pub fn refusal_reply(alloc: Global, refusal: &Refusal) -> Result<Reply, Memory>
    requires { HasAsciiText refusal.now }
    ensures { IfOk result (λ reply. reply ≡ refused refusal.now) }
{
    let message = message(alloc, refusal)?;
    let body = refusal_body(alloc, code(refusal), &message)?;
    Ok(json_reply(alloc, status(refusal), body))
}
