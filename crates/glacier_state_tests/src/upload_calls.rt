// Calls on uploads, for tests: what they answer.
ghost use Rattle.std.specs.Prelude.{◌≡◌, ◌≤◌, IfOk, OnOk, length};
ghost use Rattle.glacier_vault.specs.Lawful.{IsLawful};
ghost use Rattle.glacier_vault.specs.Totals.{need};

use crate::ground::{Ground, passed};
use glacier_base::{Digest, List, Memory};
use glacier_treehash::root_of;
use glacier_upload::{
    Found, PartAsk, UploadAsk, abort, admit_part, admit_upload, begin, commit_part, commit_upload,
    complete,
};
use glacier_vault::{AccountState, Change, Refusal, blocks_of, delete_archive};
use std::alloc::Global;

/// A call. The leaves of a body are of 32 bytes `leaf`, and its SHA-256 is 32 bytes 9.
#[derive(Clone, Copy)]
pub(crate) enum Step {
    /// So many bytes, with this leaf. The SHA-256 that is named is of bytes of the last number.
    Upload(u64, u8, u8),
    /// The deletion of this archive.
    Delete(u64),
    /// An upload in parts begins, with this part size.
    Begin(u64),
    /// A part of upload 0: its first byte, its size and its leaf.
    Part(u64, u64, u8),
    /// A completion of upload 0, with this size and tree hash.
    Complete(u64, &'static str),
    /// The abort of upload 0.
    Abort,
    /// The time so many seconds after the ground's moment.
    Time(u64),
}

/// What a call answers.
#[derive(Clone, Copy, PartialEq)]
pub(crate) enum Said {
    Event,
    Nothing,
    /// An event that freed this blob and no other.
    Freed(u64),
    /// An archive's number, and whether there was an event.
    Archive(u64, bool),
    Empty,
    TooLarge(u64),
    NoRoom(u64, u64, u64),
    Content,
    Tree,
    BadPartSize,
    NoUpload(u64),
    BadRange,
    PartTooMany(u64),
    Gap(u64),
    SizeDiffers(u64, u64),
    UploadLimit,
    CounterEnd,
    Other,
}

fn refusal_said(refusal: &Refusal) -> Said {
    match refusal {
        Refusal::Empty => Said::Empty,
        Refusal::TooLarge { size, .. } => Said::TooLarge(*size),
        Refusal::NoRoom { used, need, quota } => Said::NoRoom(*used, *need, *quota),
        Refusal::ContentMismatch { .. } => Said::Content,
        Refusal::TreeMismatch { .. } => Said::Tree,
        Refusal::BadPartSize => Said::BadPartSize,
        Refusal::NoUpload { upload } => Said::NoUpload(*upload),
        Refusal::BadRange => Said::BadRange,
        Refusal::PartTooMany { index } => Said::PartTooMany(*index),
        Refusal::Gap { at } => Said::Gap(*at),
        Refusal::SizeDiffers { covered, named } => Said::SizeDiffers(*covered, *named),
        Refusal::UploadLimit => Said::UploadLimit,
        Refusal::CounterEnd => Said::CounterEnd,
        _ => Said::Other,
    }
}

fn change_said(change: &Change) -> Said {
    match change.freed.as_slice() {
        [] if change.event.is_some() => Said::Event,
        [] => Said::Nothing,
        [blob] if change.event.is_some() => Said::Freed(*blob),
        _ => Said::Other,
    }
}

fn answer_said(answer: &Result<Change, Refusal>) -> Said {
    match answer {
        Ok(change) => change_said(change),
        Err(refusal) => refusal_said(refusal),
    }
}

/// What was found in a body of this size.
pub(crate) fn found_in(alloc: Global, size: u64, leaf: u8) -> Result<Found, Memory>
    ensures { IfOk result (λ found. length found.leaves ≡ need size) }
{
    let leaves = vec![in alloc; Digest([leaf; 32]); blocks_of(size) as usize]?;
    Ok(Found {
        linear: Digest([9; 32]),
        leaves: List::from_vec(leaves),
    })
}

pub(crate) fn tree_of(found: &Found) -> Digest {
    match root_of(found.leaves.as_slice()) {
        Some(root) => root,
        None => Digest([0; 32]),
    }
}

/// An upload: before its body, and where it isn't refused then, after it.
fn upload(
    alloc: Global,
    state: &mut AccountState,
    ground: &Ground,
    size: u64,
    leaf: u8,
    said: u8,
) -> Result<Said, Memory>
    requires { IsLawful state.old }
    ensures { OnOk result (IsLawful state.new) }
{
    let found = found_in(alloc, size, leaf)?;
    let ask = UploadAsk {
        vault: ground.vault,
        description: ground.description,
        size,
        linear: Digest([said; 32]),
        tree: tree_of(&found),
    };
    if let Some(refusal) = admit_upload(state, &ground.rules, &ask) {
        return Ok(refusal_said(&refusal));
    }
    let m = state.last.later(ground.m);
    let answer = commit_upload(alloc, state, m, &ask, found)?;
    Ok(answer_said(&answer))
}

/// A part of upload 0, in the same way.
pub(crate) fn part(
    alloc: Global,
    state: &mut AccountState,
    ground: &Ground,
    first: u64,
    size: u64,
    leaf: u8,
) -> Result<Said, Memory>
    requires { IsLawful state.old }
    ensures { OnOk result (IsLawful state.new) }
{
    let found = found_in(alloc, size, leaf)?;
    let ask = PartAsk {
        vault: ground.vault,
        upload: 0,
        first,
        size,
        linear: Digest([9; 32]),
        tree: tree_of(&found),
    };
    if size < 1 {
        return Ok(Said::Other);
    }
    if let Some(refusal) = admit_part(state, &ground.rules, &ask) {
        return Ok(refusal_said(&refusal));
    }
    let m = state.last.later(ground.m);
    let answer = commit_part(alloc, state, m, &ask, found)?;
    Ok(answer_said(&answer))
}

/// A completion of upload 0.
fn completion(
    alloc: Global,
    state: &mut AccountState,
    ground: &Ground,
    size: u64,
    tree: &str,
) -> Result<Said, Memory>
    requires { IsLawful state.old }
    ensures { OnOk result (IsLawful state.new) }
{
    let Some(tree) = Digest::parse(tree.as_bytes()) else {
        return Ok(Said::Other);
    };
    if size < 1 {
        return Ok(Said::Other);
    }
    let m = state.last.later(ground.m);
    let answer = complete(alloc, state, m, &ground.vault, 0, size, &tree)?;
    let said = match &answer {
        Ok((archive, change)) => Said::Archive(*archive, change.event.is_some()),
        Err(refusal) => refusal_said(refusal),
    };
    Ok(said)
}

/// The deletion of an archive that is live.
fn deletion(
    alloc: Global,
    state: &mut AccountState,
    ground: &Ground,
    archive: u64,
) -> Result<Said, Memory>
    requires { IsLawful state.old }
    ensures { OnOk result (IsLawful state.new) }
{
    let m = state.last.later(ground.m);
    let Some(vault) = state.vaults.get(&ground.vault) else {
        return Ok(Said::Other);
    };
    if !vault.archives.contains(archive) {
        return Ok(Said::Other);
    }
    let change = delete_archive(alloc, state, m, &ground.vault, archive)?;
    Ok(change_said(&change))
}

/// What a call answers.
pub(crate) fn said_of(
    alloc: Global,
    state: &mut AccountState,
    ground: &Ground,
    step: Step,
) -> Result<Said, Memory>
    requires { IsLawful state.old }
    ensures { OnOk result (IsLawful state.new) }
{
    let m = state.last.later(ground.m);
    let name = &ground.vault;
    match step {
        Step::Upload(size, leaf, said) => upload(alloc, state, ground, size, leaf, said),
        Step::Delete(archive) => deletion(alloc, state, ground, archive),
        Step::Begin(part_size) => {
            let answer = begin(alloc, state, m, name, part_size, &ground.description)?;
            Ok(answer_said(&answer))
        }
        Step::Part(first, size, leaf) => part(alloc, state, ground, first, size, leaf),
        Step::Complete(size, tree) => completion(alloc, state, ground, size, tree),
        Step::Abort => {
            let answer = abort(alloc, state, m, name, 0)?;
            Ok(answer_said(&answer))
        }
        Step::Time(seconds) => {
            let change = passed(alloc, state, ground, seconds)?;
            Ok(change_said(&change))
        }
    }
}
