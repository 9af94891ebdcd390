// An archive of the bytes `abc`. Its digest is FIPS 180-4's own vector, that of no bytes is by
// Python's hashlib.
ghost use Rattle.std.specs.Prelude.{◌≡◌, IfOk, OnOk, length};
ghost use Rattle.glacier_vault.specs.Lawful.{IsLawful};

use crate::ground::{Ground, account_on, ground_of};
use glacier_base::{Digest, List, Memory};
use glacier_upload::{Found, UploadAsk, admit_upload, commit_upload};
use glacier_vault::{AccountState, Archive, Event, Refusal};
use std::alloc::Global;

const ABC: &str = "ba7816bf8f01cfea414140de5dae2223b00361a396177a9cb410ff61f20015ad";

const NO_BYTES: &str = "e3b0c44298fc1c149afbf4c8996fb92427ae41e4649b934ca495991b7852b855";

/// What a call answers.
#[derive(Clone, Copy, PartialEq)]
enum Said {
    /// The event of this upload, which frees nothing.
    Upload,
    /// The content has another SHA-256 than was named.
    Content,
    /// The content has another tree hash than was named.
    Tree,
    Other,
}

fn one_leaf(alloc: Global, leaf: Digest) -> Result<Found, Memory>
    ensures { IfOk result (λ found. length found.leaves ≡ 1) }
{
    let leaves = List::from_vec(vec![in alloc; leaf; 1]?);
    Ok(Found {
        linear: leaf,
        leaves,
    })
}

/// Whether this is the event of an upload of `abc`.
fn is_upload(event: &Event, ground: &Ground, digest: &Digest) -> bool {
    match event {
        Event::Upload {
            name,
            size,
            leaves,
            ..
        } => *name == ground.vault && *size == 3 && leaves.as_slice() == [*digest].as_slice(),
        _ => false,
    }
}

fn refusal_said(refusal: &Refusal, abc: &Digest, named: &Digest) -> Said {
    match refusal {
        Refusal::ContentMismatch { found, said } if found == abc && said == named => Said::Content,
        Refusal::TreeMismatch { found, said } if found == abc && said == named => Said::Tree,
        _ => Said::Other,
    }
}

/// An upload of `abc` with these digests named.
fn uploaded(
    alloc: Global,
    state: &mut AccountState,
    ground: &Ground,
    abc: Digest,
    linear: Digest,
    tree: Digest,
) -> Result<Said, Memory>
    requires { IsLawful state.old }
    ensures { OnOk result (IsLawful state.new) }
{
    let ask = UploadAsk {
        vault: ground.vault,
        description: ground.description,
        size: 3,
        linear,
        tree,
    };
    if admit_upload(state, &ground.rules, &ask).is_some() {
        return Ok(Said::Other);
    }
    let found = one_leaf(alloc, abc)?;
    let m = state.last.later(ground.m);
    match &commit_upload(alloc, state, m, &ask, found)? {
        Ok(change) => match &change.event {
            Some(event) if is_upload(event, ground, &abc) && change.freed.as_slice().is_empty() => {
                Ok(Said::Upload)
            }
            _ => Ok(Said::Other),
        },
        Err(refusal) if linear == abc => Ok(refusal_said(refusal, &abc, &tree)),
        Err(refusal) => Ok(refusal_said(refusal, &abc, &linear)),
    }
}

fn is_kept(archive: &Archive, ground: &Ground, abc: &Digest) -> bool {
    archive.size == 3
        && archive.tree == *abc
        && archive.leaves.as_slice() == [*abc].as_slice()
        && archive.blobs.as_slice() == [0].as_slice()
        && archive.created.seconds() == ground.m.seconds()
}

/// Whether the ground's vault has archive 0 of `abc` and no other, and 3 bytes.
fn has_abc(state: &AccountState, ground: &Ground, abc: &Digest) -> bool {
    let Some(vault) = state.vaults.get(&ground.vault) else {
        return false;
    };
    match vault.archives.get(0) {
        Some(archive) => {
            is_kept(archive, ground, abc) && vault.bytes == 3 && vault.archives.len() == 1
        }
        None => false,
    }
}

#[test]
fn an_archive_of_three_bytes_is_kept(rt: HostRuntime) -> Result<(), Memory> {
    let alloc = rt.alloc();
    let ground = ground_of(64).expect(&rt, "a ground");
    let abc = Digest::parse(ABC.as_bytes()).expect(&rt, "a digest");
    let no_bytes = Digest::parse(NO_BYTES.as_bytes()).expect(&rt, "a digest");
    let mut state = account_on(alloc, &ground)?;
    let said = uploaded(alloc, &mut state, &ground, abc, no_bytes, abc)?;
    assert!(rt; said == Said::Content && state.counter == 0);
    let said = uploaded(alloc, &mut state, &ground, abc, abc, no_bytes)?;
    assert!(rt; said == Said::Tree && state.counter == 0);
    let said = uploaded(alloc, &mut state, &ground, abc, abc, abc)?;
    assert!(rt; said == Said::Upload && state.counter == 1 && state.used == 1);
    assert!(rt; has_abc(&state, &ground, &abc));
    Ok(())
}
