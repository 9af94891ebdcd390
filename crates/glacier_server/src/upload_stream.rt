// The rest of an upload's body, which streams into the blocks of an open body (docs/rules/blocks.md).
ghost use Rattle.std.specs.Prelude.{◌≡◌, ℕ, ◌+◌, ◌%◌, ◌<◌, ◌≤◌, min, [], IsTrue, IsErrOf, IfOk, IfErr, length, take, true};
ghost use Rattle.glacier_base.specs.Outside.{HasRisen};
ghost use Rattle.glacier_bodies.specs.BlobAreas.{IsOpen};
ghost use Rattle.glacier_bodies.specs.Bodies.{body_room, body_runs, body_taken};
ghost use Rattle.glacier_extents.specs.Places.{block_size};
ghost use Rattle.glacier_server.specs.declared.upload_stream.StreamFault.TheVariants as fault;
ghost use Rattle.glacier_server.specs.Streams.{HasStreamed, HasTakenPiece, IsBroken, IsFilled, IsLeft, IsPieceFor, stream_of, streaming_if};
ghost use Rattle.glacier_server.specs.Transfer.{Keeps};

use crate::body::{keep_rest, put_front};
use glacier_bodies::Body;
use glacier_disk::Station;
use glacier_store::Store;
use glacier_treehash::Open;
use std::thread::Threads;

/// What broke the streaming of a body off.
#[derive(Clone, Copy, Debug, PartialEq, Eq)]
pub enum StreamFault {
    /// A receive failed.
    Receive,
    /// A call of the disk failed.
    Disk,
}

/// What was taken of a body's next piece, and how many bytes of the body are missing then.
pub(crate) enum Taken {
    /// All of it, and it is written.
    Piece { left: u64 },
    /// A part of it, behind which the input ended.
    Part { left: u64 },
}

/// Where a piece ends that begins with so many bytes, where so many more are missing of the body.
fn end_of_piece(held: usize, left: u64, room: usize) -> usize
    requires { held ≤ room }
    ensures { result ≡ min room (held + left) }
{
    if left < (room - held) as u64 {
        held + left as usize
    } else {
        room
    }
}

/// Takes the next piece of an open body, whose first bytes stand at the front of the buffer, and
/// writes it, unless the input ends in it.
#[tactic(auto, using(crate::proofs::KeepLemmas::kept))]
fn next_piece<S: Station, R: Threads + Sync>(
    rt: &R,
    station: &mut S,
    store: &Store,
    body: &mut Body,
    piece: &mut [u8],
    held: usize,
    missing: u64,
) -> Result<Taken, StreamFault>
    requires connected { (S.told station.old).connected ≡ true }
    requires open { (S.told station.old).opened ≡ true }
    requires body { IsOpen store.now.area (body_runs body.old) }
    requires whole { body_taken body.old % block_size ≡ 0 }
    requires size { (0 < held + missing)
        × (body_taken body.old + (held + missing) ≤ body_room body.old) }
    requires piece { IsPieceFor (length piece.old) held }
    ensures taken { IsTrue S.tells → IfOk result (HasTakenPiece (stream_of store.now body.old
        (take held piece.old) missing (length piece.old)) (S.told station.old) (S.told station.new)
        body.new) }
    ensures failed { IsTrue S.tells → IfErr result (IsBroken (stream_of store.now body.old
        (take held piece.old) missing (length piece.old)) (S.told station.old) (S.told station.new)) }
    ensures runs { body_runs body.new ≡ body_runs body.old }
    ensures left { IfOk result (IsLeft body.old held missing body.new) }
    ensures fault { IsErrOf result fault.Disk → HasRisen (S.told station.old).disk_faults
        (S.told station.new).disk_faults }
    ensures keeps { Keeps (S.told station.old) (S.told station.new) (streaming_if result) }
{
    let end = end_of_piece(held, missing, piece.len());
    let filled = match keep_rest(station, piece, held, end) {
        Ok(filled) => filled,
        Err(_) => return Err(StreamFault::Receive),
    };
    let left = missing - (filled - held) as u64;
    if filled < end {
        return Ok(Taken::Part { left });
    }
    match store.body_piece(rt, station, body, &piece[..end], &Open) {
        Ok(()) => Ok(Taken::Piece { left }),
        Err(_) => Err(StreamFault::Disk),
    }
}

/// Takes what is missing of an open body, piece after piece, until it is whole or the input ends. It
/// answers how many bytes are missing then.
#[tactic(auto, using(crate::proofs::KeepLemmas::kept))]
fn stream_rest<S: Station, R: Threads + Sync>(
    rt: &R,
    station: &mut S,
    store: &Store,
    body: &mut Body,
    piece: &mut [u8],
    missing: u64,
) -> Result<u64, StreamFault>
    requires connected { (S.told station.old).connected ≡ true }
    requires open { (S.told station.old).opened ≡ true }
    requires body { IsOpen store.now.area (body_runs body.old) }
    requires whole { body_taken body.old % block_size ≡ 0 }
    requires size { (0 < missing) × (body_taken body.old + missing ≤ body_room body.old) }
    requires piece { IsPieceFor (length piece.old) 0 }
    ensures streams { IsTrue S.tells → IfOk result (HasStreamed (stream_of store.now body.old []
        missing (length piece.old)) (S.told station.old) (S.told station.new) body.new) }
    ensures failed { IsTrue S.tells → IfErr result (IsBroken (stream_of store.now body.old []
        missing (length piece.old)) (S.told station.old) (S.told station.new)) }
    ensures runs { body_runs body.new ≡ body_runs body.old }
    ensures left { IfOk result (IsFilled body.old body.new 0 missing) }
    ensures fault { IsErrOf result fault.Disk → HasRisen (S.told station.old).disk_faults
        (S.told station.new).disk_faults }
    ensures keeps { Keeps (S.told station.old) (S.told station.new) (streaming_if result) }
{
    let mut left = missing;
    while left > 0 {
        match next_piece(rt, station, store, body, piece, 0, left) {
            Ok(Taken::Piece { left: behind }) => left = behind,
            Ok(Taken::Part { left: cut }) => return Ok(cut),
            Err(fault) => return Err(fault),
        }
    }
    Ok(left)
}

/// Takes the rest of an upload's body straight into the blocks of an open body: `here` are its first
/// bytes, which were read with the head, and `missing` more are to come. A piece is written when the
/// lent buffer, of whole blocks, is full of it or the body ends with it, so that no more than one
/// is taken and not yet written; a part of a piece, at which the input ends or a receive fails, isn't
/// written. It answers how many bytes are missing then: none where the body is whole. It takes no
/// memory.
#[tactic(auto, using(crate::proofs::KeepLemmas::kept))]
pub fn stream_body<S: Station, R: Threads + Sync>(
    rt: &R,
    station: &mut S,
    store: &Store,
    body: &mut Body,
    piece: &mut [u8],
    here: &[u8],
    missing: u64,
) -> Result<u64, StreamFault>
    requires connected { (S.told station.old).connected ≡ true }
    requires open { (S.told station.old).opened ≡ true }
    requires body { IsOpen store.now.area (body_runs body.old) }
    requires whole { body_taken body.old % block_size ≡ 0 }
    requires size { (0 < length here.now + missing)
        × (body_taken body.old + (length here.now + missing) ≤ body_room body.old) }
    requires piece { IsPieceFor (length piece.old) (length here.now) }
    ensures streams { IsTrue S.tells → IfOk result (HasStreamed (stream_of store.now body.old
        here.now missing (length piece.old)) (S.told station.old) (S.told station.new) body.new) }
    ensures failed { IsTrue S.tells → IfErr result (IsBroken (stream_of store.now body.old here.now
        missing (length piece.old)) (S.told station.old) (S.told station.new)) }
    ensures runs { body_runs body.new ≡ body_runs body.old }
    ensures left { IfOk result (IsFilled body.old body.new (length here.now) missing) }
    ensures fault { IsErrOf result fault.Disk → HasRisen (S.told station.old).disk_faults
        (S.told station.new).disk_faults }
    ensures keeps { Keeps (S.told station.old) (S.told station.new) (streaming_if result) }
{
    put_front(piece, here);
    match next_piece(rt, station, store, body, piece, here.len(), missing) {
        Ok(Taken::Piece { left }) => {
            if left == 0 {
                return Ok(0);
            }
            stream_rest(rt, station, store, body, piece, left)
        }
        Ok(Taken::Part { left }) => Ok(left),
        Err(fault) => Err(fault),
    }
}
