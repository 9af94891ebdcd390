// The messages of refusals.
ghost use Rattle.std.specs.Prelude.{◌≡◌, ◌++◌, codes, IfOk, IsAscii, string_bytes};
ghost use Rattle.hex.specs.Hex.{encode_lower};
ghost use Rattle.glacier_replies.specs.Messages.{fault_name as name_of_fault, message_of, name_of, HasAsciiText};
ghost use Rattle.glacier_vault.specs.declared.refusal.Refusal.TheVariants.{Skewed, BadPolicy, NoVault, TooLarge, NoRoom, PartTooMany, SizeDiffers, NotReady};

use crate::ascii::{ascii_text, name_text};
use glacier_base::{Digest, Id, IdKind, LAST_MOMENT, Moment, Text, VaultName, basic_text};
use glacier_policy::PolicyFault;
use glacier_vault::Refusal;
use std::alloc::{AllocError, Global};

/// The message that ends with a name.
fn named(alloc: Global, front: &str, name: &Text) -> Result<String, AllocError>
    requires { IsAscii name.now }
    ensures { IfOk result (λ text. string_bytes text ≡ front.now ++ name.now) }
{
    let name = ascii_text(name.bytes());
    format!(in alloc; "{front}{name}")
}

/// The message on what has no item of an id.
fn missing(alloc: Global, front: &str, kind: IdKind, number: u64) -> Result<String, AllocError>
    ensures { IfOk result (λ text. string_bytes text ≡ front.now ++ name_of kind number) }
{
    let id = Id { kind, number }.text();
    let id = ascii_text(&id);
    format!(in alloc; "{front}{id}")
}

/// The message on a vault that isn't there.
fn no_vault(alloc: Global, name: &VaultName) -> Result<String, AllocError>
    ensures { IfOk result (λ text. string_bytes text ≡ message_of (NoVault name.now)) }
{
    let name = name_text(name);
    format!(in alloc; "Vault not found: {name}")
}

/// The message on a date that is too far from the clock's reading.
fn skewed(alloc: Global, theirs: Moment, ours: Moment) -> Result<String, AllocError>
    ensures { IfOk result (λ text. string_bytes text ≡ message_of (Skewed theirs ours)) }
{
    prove!(theirs.seconds() <= LAST_MOMENT);
    prove!(ours.seconds() <= LAST_MOMENT);
    let (theirs, ours) = (basic_text(theirs), basic_text(ours));
    let (theirs, ours) = (ascii_text(&theirs), ascii_text(&ours));
    format!(in alloc; "The date {theirs} is too far from {ours}.")
}

/// The message on a job that has no output yet.
fn not_ready(alloc: Global, ready: Moment) -> Result<String, AllocError>
    ensures { IfOk result (λ text. string_bytes text ≡ message_of (NotReady ready)) }
{
    prove!(ready.seconds() <= LAST_MOMENT);
    let ready = basic_text(ready);
    let ready = ascii_text(&ready);
    format!(in alloc; "The job is ready at {ready}.")
}

/// The message on bytes that haven't the digest that is named.
fn mismatch(alloc: Global, front: &str, found: &Digest, said: &Digest) -> Result<String, AllocError>
    ensures { IfOk result (λ text. string_bytes text ≡ front.now ++ encode_lower found.now
        ++ codes ", not " ++ encode_lower said.now ++ codes ".") }
{
    let (found, said) = (found.text(), said.text());
    let (found, said) = (ascii_text(&found), ascii_text(&said));
    format!(in alloc; "{front}{found}, not {said}.")
}

/// The message on an archive that has too many bytes.
fn too_large(alloc: Global, size: u64, most: u64) -> Result<String, AllocError>
    ensures { IfOk result (λ text. string_bytes text ≡ message_of (TooLarge size most)) }
{
    format!(in alloc; "The archive has {size} bytes, more than {most}.")
}

/// The message on a quota that hasn't room.
fn no_room(alloc: Global, used: u64, need: u64, quota: u64) -> Result<String, AllocError>
    ensures { IfOk result (λ text. string_bytes text ≡ message_of (NoRoom used need quota)) }
{
    format!(in alloc; "Used {used}, needed {need}, quota {quota}.")
}

/// The message on a part with too great an index.
fn part_too_many(alloc: Global, index: u64) -> Result<String, AllocError>
    ensures { IfOk result (λ text. string_bytes text ≡ message_of (PartTooMany index)) }
{
    format!(in alloc; "Part {index} is above 9999.")
}

/// The message on parts that hold another number of bytes than was named.
fn size_differs(alloc: Global, covered: u64, named: u64) -> Result<String, AllocError>
    ensures { IfOk result (λ text. string_bytes text ≡ message_of (SizeDiffers covered named)) }
{
    format!(in alloc; "The parts cover {covered} bytes, not {named}.")
}

/// The name of a policy's fault.
fn fault_name(fault: PolicyFault) -> &'static str
    ensures { result.now ≡ name_of_fault fault }
{
    match fault {
        PolicyFault::TooLong { .. } => "TooLong",
        PolicyFault::NotJson => "NotJson",
        PolicyFault::NotAPolicy => "NotAPolicy",
        PolicyFault::UnknownOperator => "UnknownOperator",
        PolicyFault::UnknownKey => "UnknownKey",
        PolicyFault::BadNumber => "BadNumber",
        PolicyFault::Memory => "Memory",
    }
}

/// The message on a policy with a fault.
fn bad_policy(alloc: Global, fault: PolicyFault) -> Result<String, AllocError>
    ensures { IfOk result (λ text. string_bytes text ≡ message_of (BadPolicy fault)) }
{
    let name = fault_name(fault);
    format!(in alloc; "Bad policy: {name}")
}

/// The message of a refusal. A text that it keeps is ASCII.
pub(crate) fn message(alloc: Global, refusal: &Refusal) -> Result<String, AllocError>
    requires { HasAsciiText refusal.now }
    ensures { IfOk result (λ text. string_bytes text ≡ message_of refusal.now) }
{
    match refusal {
        Refusal::HeadSyntax => "The request head is not valid.".to_string(alloc),
        Refusal::HeadTooLong => "The request head is too long.".to_string(alloc),
        Refusal::HeadTooMany => "The request head has too many fields.".to_string(alloc),
        Refusal::HeadLength => "The Content-Length is not valid.".to_string(alloc),
        Refusal::HeadCoding => "Transfer-Encoding is not accepted.".to_string(alloc),
        Refusal::HeadPath => "The path is not valid.".to_string(alloc),
        Refusal::HashNeeded { length } => format!(in alloc;
            "x-amz-content-sha256 is needed for {length} bytes."
        ),
        Refusal::Missing => "Authorization or x-amz-date is missing.".to_string(alloc),
        Refusal::Malformed => "Authorization or x-amz-date is not valid.".to_string(alloc),
        Refusal::UnknownKey => "The access key is not known.".to_string(alloc),
        Refusal::WrongScope => "The credential scope does not fit.".to_string(alloc),
        Refusal::Unsigned { header } => named(alloc, "Not signed: ", header),
        Refusal::Skewed { theirs, ours } => skewed(alloc, *theirs, *ours),
        Refusal::BadSignature => "The signature does not match.".to_string(alloc),
        Refusal::NoRoute => "No such operation.".to_string(alloc),
        Refusal::OtherAccount => "The account is not the signer's.".to_string(alloc),
        Refusal::Token => "x-amz-security-token is not accepted.".to_string(alloc),
        Refusal::NoVersion => "x-amz-glacier-version is missing.".to_string(alloc),
        Refusal::BadVersion => "x-amz-glacier-version is not 2012-06-01.".to_string(alloc),
        Refusal::BodyTooLong { length } => format!(in alloc; "The body has {length} bytes."),
        Refusal::MissingHeader { name } => named(alloc, "Missing header: ", name),
        Refusal::BadHeader { name } => named(alloc, "Bad header: ", name),
        Refusal::ContentMismatch { found, said } => mismatch(
            alloc,
            "Content hash is ",
            found,
            said,
        ),
        Refusal::BadName => "The vault name is not valid.".to_string(alloc),
        Refusal::BadId => "The id is not valid.".to_string(alloc),
        Refusal::BadQuery { name } => named(alloc, "Bad query: ", name),
        Refusal::NotJson => "The body is not a JSON object.".to_string(alloc),
        Refusal::MissingMember { name } => named(alloc, "Missing member: ", name),
        Refusal::BadMember { name } => named(alloc, "Bad member: ", name),
        Refusal::NotOffered { name } => named(alloc, "Not offered: ", name),
        Refusal::BadType => "The job type is not valid.".to_string(alloc),
        Refusal::BadPolicy { fault } => bad_policy(alloc, *fault),
        Refusal::NoVault { name } => no_vault(alloc, name),
        Refusal::VaultLimit => "The account has 1000 vaults.".to_string(alloc),
        Refusal::VaultNotEmpty => "The vault has an archive or an open upload.".to_string(alloc),
        Refusal::VaultLocked => "The vault is locked.".to_string(alloc),
        Refusal::Empty => "The archive is empty.".to_string(alloc),
        Refusal::TooLarge { size, most } => too_large(alloc, *size, *most),
        Refusal::NoRoom { used, need, quota } => no_room(alloc, *used, *need, *quota),
        Refusal::TreeMismatch { found, said } => mismatch(alloc, "Tree hash is ", found, said),
        Refusal::BadPartSize => "The part size is not valid.".to_string(alloc),
        Refusal::NoUpload { upload } => missing(
            alloc,
            "Upload not found: ",
            IdKind::Upload,
            *upload,
        ),
        Refusal::BadRange => "The Content-Range is not valid.".to_string(alloc),
        Refusal::PartTooMany { index } => part_too_many(alloc, *index),
        Refusal::Gap { at } => format!(in alloc; "No part covers byte {at}."),
        Refusal::SizeDiffers { covered, named } => size_differs(alloc, *covered, *named),
        Refusal::UploadLimit => "The account has 1000 open uploads.".to_string(alloc),
        Refusal::NoArchive { archive } => missing(
            alloc,
            "Archive not found: ",
            IdKind::Archive,
            *archive,
        ),
        Refusal::NoJob { job } => missing(alloc, "Job not found: ", IdKind::Job, *job),
        Refusal::BadJobRange => "The retrieval range is not valid.".to_string(alloc),
        Refusal::NotReady { ready } => not_ready(alloc, *ready),
        Refusal::JobFailed => "The job failed.".to_string(alloc),
        Refusal::BadByteRange { length } => format!(in alloc;
            "The Range is not valid for {length} bytes."
        ),
        Refusal::JobLimit => "The account has 10000 jobs.".to_string(alloc),
        Refusal::LockPending => "A lock is in progress.".to_string(alloc),
        Refusal::LockFixed => "The vault is locked.".to_string(alloc),
        Refusal::NoLock => "The vault has no lock.".to_string(alloc),
        Refusal::WrongLockId => "The lock id is not this lock's.".to_string(alloc),
        Refusal::Denied { age } => format!(in alloc;
            "The lock policy denies deletion at {age} days."
        ),
        Refusal::CounterEnd => "The account's ids are used up.".to_string(alloc),
    }
}
