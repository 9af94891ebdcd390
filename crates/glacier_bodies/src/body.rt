// A body that is taken piece by piece (docs/rules/blocks.md).
ghost use Rattle.std.specs.Prelude.{◌≡◌, ◌+◌, ◌*◌, ◌%◌, ◌<◌, ◌≤◌, ◌++◌, ℕ, List, [], IsTrue, true, length, take, drop, OnOk, vec_len, ◌^◌};
ghost use Rattle.std.specs.Int.{div_ceil};
ghost use Rattle.sha2.specs.Sha256.{sha256};
ghost use Rattle.glacier_disk.specs.declared.area.Area.TheVariants.{Blobs};
ghost use Rattle.glacier_extents.specs.Places.{WritesBlocks};
ghost use Rattle.glacier_extents.specs.Runs.{block_count, has_block};
ghost use Rattle.glacier_treehash.specs.Leaves.{leaves_of};
ghost use Rattle.glacier_treehash.specs.Linear.{Feeds};
ghost use Rattle.glacier_bodies.specs.Blobs.{Holds};
ghost use Rattle.glacier_bodies.specs.Calls.{BlobCall};

use crate::Layout;
use crate::pieces::write_pieces;
use glacier_base::{Digest, Failed, List};
use glacier_disk::Disk;
use glacier_extents::BLOCK;
use glacier_treehash::{Gate, Linear, hash_piece};
use std::thread::Threads;

/// How many leaves one worker hashes.
const GRAIN: u32 = 4;

/// The digests of a whole body.
#[derive(Drop)]
pub struct Found {
    /// Its SHA-256 (FIPS 180-4).
    pub linear: Digest,
    /// The SHA-256 of each of its leaves of 1 MiB, in order (docs/rules/tree-hash.md).
    pub leaves: List<Digest>,
}

/// A body that is taken piece by piece into blocks of its own.
#[derive(Drop)]
pub struct Body {
    pub(crate) layout: Layout,
    pub(crate) taken: u64,
    pub(crate) linear: Linear,
    pub(crate) leaves: Vec<Digest>,
    ghost room: { vec_len leaves ≡ block_count layout },
}

/// Feeds a piece to a running SHA-256, and fills the digests of its leaves from a place on.
fn hash_at<R: Threads + Sync, G: Gate + Sync>(
    rt: &R,
    bytes: &[u8],
    linear: &mut Linear,
    leaves: &mut [Digest],
    first: usize,
    gate: &G,
)
    requires size { length bytes.now ≤ 2 ^ 40 }
    requires some { 0 < length bytes.now }
    requires room { first + div_ceil (length bytes.now) BLOCK ≤ length leaves.old }
    ensures leaves { leaves.new ≡ take first leaves.old ++ leaves_of bytes.now
        ++ drop (first + div_ceil (length bytes.now) BLOCK) leaves.old }
    ensures linear { Feeds linear.old linear.new bytes.now }
{
    let count = bytes.len().div_ceil(BLOCK as usize);
    let (_, rest) = leaves.split_at_mut(first);
    let (here, _) = rest.split_at_mut(count);
    hash_piece(rt, bytes, linear, here, GRAIN, gate);
}

impl Body {
    ghost use Rattle.glacier_bodies.specs.Bodies.{body_runs, body_taken, body_room, HasTaken, Takes};

    /// How many bytes it has taken.
    pub fn taken(&self) -> u64
        ensures { result ≡ body_taken self.now }
    {
        self.taken
    }

    /// Takes a piece behind whole blocks: hashes it, and writes it to the blocks at its place.
    pub(crate) fn take_piece<D: Disk, R: Threads + Sync, G: Gate + Sync>(
        &mut self,
        rt: &R,
        disk: &mut D,
        bytes: &[u8],
        gate: &G,
    ) -> Result<(), Failed>
        requires open { (D.told disk.old).opened ≡ true }
        requires some { 0 < length bytes.now }
        requires whole { body_taken self.old % BLOCK ≡ 0 }
        requires room { body_taken self.old + length bytes.now ≤ body_room self.old }
        ensures taken { OnOk result (Takes self.old self.new bytes.now) }
        ensures runs { body_runs self.new ≡ body_runs self.old }

        // The pieces before it stay where they are, and it stands behind them.
        ensures stored { IsTrue D.tells → (message : List ℕ) → HasTaken self.old message →
            Holds (body_runs self.old) message ((D.told disk.old).reads Blobs) →
            Holds (body_runs self.old) message ((D.told disk.new).reads Blobs) × OnOk result
            (Holds (body_runs self.old) (message ++ bytes.now) ((D.told disk.new).reads Blobs)) }
        ensures own { IsTrue D.tells →
            WritesBlocks (has_block (body_runs self.old)) (D.told disk.old) (D.told disk.new) }
        ensures alone { D.by_disk disk.old disk.new }
        ensures call { BlobCall (D.told disk.old) (D.told disk.new) result }
    {
        let _ = self.layout.count();
        let _ = self.layout.runs();
        let first = self.taken / BLOCK;
        hash_at(
            rt,
            bytes,
            &mut self.linear,
            &mut self.leaves,
            first as usize,
            gate,
        );
        write_pieces(disk, &self.layout, first as u32, bytes)?;
        self.taken += bytes.len() as u64;
        Ok(())
    }

    /// The digests of the bytes that it has taken, which fill its blocks, and these blocks.
    pub fn finish(self) -> (Found, Layout)
        requires some { 0 < body_taken self }
        requires full { block_count (body_runs self) ≡ div_ceil (body_taken self) BLOCK }
        ensures linear { (message : List ℕ) → HasTaken self message → result.0.linear ≡ sha256 message }
        ensures leaves { (message : List ℕ) → HasTaken self message → result.0.leaves ≡ leaves_of message }
        ensures count { length result.0.leaves ≡ block_count (body_runs self) }
        ensures runs { result.1 ≡ body_runs self }
    {
        let Body {
            layout,
            taken: _,
            linear,
            leaves,
        } = self;
        let found = Found {
            linear: linear.finish(),
            leaves: List::from_vec(leaves),
        };
        (found, layout)
    }
}
