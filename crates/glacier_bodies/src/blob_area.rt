// The blocks of all blobs, and the free ones.
ghost use Rattle.std.specs.Prelude.{◌≡◌, ◌≤◌, ◌<◌, ◌+◌, ◌*◌, ◌%◌, ◌&&◌, ◌||◌, not, ◌++◌, ◌↔◌, ℕ, List as Items, [], Some, None, true, false, IsTrue, IfOk, OnOk, OnErr, unwrap_or, length, take, drop};
ghost use Rattle.std.specs.FinMap as map;
ghost use Rattle.std.specs.Int.{div_ceil};
ghost use Rattle.std.specs.Option.{option_copied};
ghost use Rattle.glacier_disk.specs.declared.area.Area.TheVariants.{Blobs};
ghost use Rattle.glacier_disk.specs.Calls.{Rests};
ghost use Rattle.glacier_extents.specs.declared.run.Run.{Run as RunOf};
ghost use Rattle.glacier_extents.specs.Runs.{has_block, block_count, AreDistinct};
ghost use Rattle.glacier_extents.specs.FreeRuns.{AllIn, Claims};
ghost use Rattle.glacier_bodies.specs.Blobs.{Holds, IsApart};
ghost use Rattle.glacier_bodies.specs.Calls.{BlobCall};

use crate::blob_map::{put_blob, take_blob};
use crate::reading::read_front;
use crate::{Body, Layout};
use glacier_base::{Account, AccountMap, Digest, Failed, List, Memory, NumberMap};
use glacier_disk::Disk;
use glacier_extents::{BLOCK, BLOCKS, Blocks, Run};
use glacier_treehash::{Gate, Linear};
use std::alloc::Global;
use std::marker::Model;
use std::thread::Threads;

/// Which blocks of a disk's area Blobs are free, and which are each blob's, by its account and its
/// number (docs/rules/blocks.md). Blocks that are neither are those of bodies that are open.
#[derive(Drop)]
pub struct BlobArea {
    blocks: Blocks,
    blobs: AccountMap<NumberMap<Layout>>,
}

impl Model for BlobArea {
    ghost use Rattle.glacier_bodies.specs.BlobAreas.{AreaState, area_code, IsSound};

    ghost Value = { AreaState };

    ghost coded = { area_code };

    ghost view = { λ a. record { free = a.blocks; blobs = a.blobs } };

    ghost invariant = { λ a. IsSound a.blocks a.blobs };
}

impl BlobArea {
    ghost use Rattle.glacier_bodies.specs.BlobAreas.{IsOpen, Releases, runs_of, with_blob, without_blob};
    ghost use Rattle.glacier_bodies.specs.Bodies.{body_runs, body_taken, body_room, HasTaken, Takes};
    ghost use Rattle.glacier_bodies.specs.Stands.{at_blob, StreamsInto};

    /// All 1,048,576 blocks free, and no blob.
    pub fn new(alloc: Global) -> Result<Self, Memory>
        ensures blobs { IfOk result (λ area. area.blobs ≡ map.empty) }
        ensures free { IfOk result (λ area. (b : ℕ) → IsTrue (has_block area.free b) ↔ (b < BLOCKS)) }
        ensures count { IfOk result (λ area. block_count area.free ≡ BLOCKS) }
    {
        let blocks = Blocks::new(alloc)?;
        let _ = blocks.free();
        Ok(BlobArea {
            blocks,
            blobs: AccountMap::new(alloc),
        })
    }

    /// How many blocks are free, at most 1,048,576.
    pub fn free(&self) -> u32
        ensures count { result ≡ block_count self.now.free }
        ensures bound { result ≤ BLOCKS }
    {
        self.blocks.free()
    }

    /// Opens a body of this many bytes, in the lowest free blocks. It takes the memory for all leaves
    /// of the body, so that no later call of it takes any. After an `Err` nothing has changed.
    pub fn begin_body(&mut self, alloc: Global, length: u64) -> Result<Body, Memory>
        requires { div_ceil length BLOCK ≤ block_count self.old.free }
        ensures opened { IfOk result (λ body. IsOpen self.new (body_runs body)) }
        ensures empty { IfOk result (λ body. HasTaken body []) }
        ensures lowest { IfOk result (λ body.
            Claims (div_ceil length BLOCK) self.old.free self.new.free (body_runs body)) }
        ensures blobs { self.new.blobs ≡ self.old.blobs }
        ensures others { IfOk result (λ body. (runs : Items RunOf) → IsOpen self.old runs →
            IsOpen self.new runs × IsApart (has_block (body_runs body)) runs) }
        ensures err { OnErr result (self.new ≡ self.old) }
    {
        let _ = self.blocks.free();
        let need = length.div_ceil(BLOCK) as u32;
        let leaves = Vec::from_elem(alloc, Digest([0; 32]), need as usize)?;
        let runs = self.blocks.claim(alloc, need)?;
        match Layout::of(alloc, runs) {
            Ok(layout) => Ok(Body {
                layout,
                taken: 0,
                linear: Linear::new(),
                leaves,
            }),
            Err(runs) => {
                self.blocks.release(&runs);
                Err(Memory)
            }
        }
    }

    /// Gives back the blocks of a body that becomes no blob. It takes no memory.
    pub fn release(&mut self, layout: Layout)
        requires { IsOpen self.old layout }
        ensures released { Releases self.old self.new layout }
        ensures blobs { self.new.blobs ≡ self.old.blobs }
    {
        self.blocks.release(layout.runs());
    }

    /// Gives back the blocks of a body that was cut, or isn't to be kept. It takes no memory.
    pub fn drop_body(&mut self, body: Body)
        requires { IsOpen self.old (body_runs body) }
        ensures released { Releases self.old self.new (body_runs body) }
        ensures blobs { self.new.blobs ≡ self.old.blobs }
    {
        let Body { layout, .. } = body;
        self.release(layout);
    }

    /// Makes a body's blocks a blob's. After an `Err` they are in use and nobody's.
    pub fn name_blob(
        &mut self,
        alloc: Global,
        account: Account,
        number: u64,
        layout: Layout,
    ) -> Result<(), Memory>
        requires open { IsOpen self.old layout }
        requires fresh { at_blob self.old.blobs account number ≡ None }
        ensures ok { OnOk result (self.new.blobs ≡ with_blob self.old.blobs account number layout) }
        ensures err { OnErr result (self.new.blobs ≡ self.old.blobs) }
        ensures free { self.new.free ≡ self.old.free }
    {
        put_blob(&mut self.blobs, alloc, account, number, layout)
    }

    /// Makes these blocks a blob's, as a record names them. Answers false, and changes nothing,
    /// where they aren't distinct blocks, none past the last and all of them free. After an `Err` the
    /// area is given up.
    pub fn mark_blob(
        &mut self,
        alloc: Global,
        account: Account,
        number: u64,
        runs: List<Run>,
    ) -> Result<bool, Memory>
        requires { at_blob self.old.blobs account number ≡ None }
        ensures free { IfOk result (λ marked. IsTrue marked ↔
            (AreDistinct BLOCKS runs × AllIn self.old.free runs)) }
        ensures named { IfOk result (λ marked. IsTrue marked →
            self.new.blobs ≡ with_blob self.old.blobs account number runs) }
        ensures taken { IfOk result (λ marked. IsTrue marked → (b : ℕ) →
            has_block self.new.free b ≡ (has_block self.old.free b && not (has_block runs b))) }
        ensures same { IfOk result (λ marked. marked ≡ false → self.new ≡ self.old) }
    {
        if !self.blocks.mark(&runs) {
            return Ok(false);
        }
        let layout = match Layout::of(alloc, runs) {
            Ok(layout) => layout,
            Err(_) => return Err(Memory),
        };
        put_blob(&mut self.blobs, alloc, account, number, layout)?;
        Ok(true)
    }

    /// Takes a blob away, if it is there, and gives its blocks back. It takes no memory.
    pub fn free_blob(&mut self, account: &Account, number: u64)
        ensures blobs { self.new.blobs ≡ without_blob self.old.blobs account.now number }
        ensures released { Releases self.old self.new
            (unwrap_or (at_blob self.old.blobs account.now number) []) }
    {
        if let Some(layout) = take_blob(&mut self.blobs, account, number) {
            self.blocks.release(layout.runs());
        }
    }

    /// The blocks of a blob.
    fn blob(&self, account: &Account, number: u64) -> Option<&Layout>
        ensures { option_copied result ≡ at_blob self.now.blobs account.now number }
    {
        match self.blobs.get(account) {
            Some(blobs) => blobs.get(number),
            None => None,
        }
    }

    /// Fills `into` with bytes of an archive from a place on: those of the account's blobs, one after
    /// another. It goes through the blobs before the place, changes nothing, and takes no memory.
    pub fn read<D: Disk>(
        &self,
        disk: &mut D,
        account: &Account,
        blobs: &[u64],
        at: u64,
        into: &mut [u8],
    ) -> Result<(), Failed>
        requires open { (D.told disk.old).opened ≡ true }
        ensures bytes { IsTrue D.tells → (bytes : Items ℕ) →
            Holds (runs_of self.now.blobs account.now blobs.now) bytes
            ((D.told disk.old).reads Blobs) → at + length into.old ≤ length bytes →
            OnOk result (into.new ≡ take (length into.old) (drop at bytes)) }
        ensures rests { Rests (D.told disk.old) (D.told disk.new) }
        ensures alone { D.by_disk disk.old disk.new }
        ensures call { BlobCall (D.told disk.old) (D.told disk.new) result }
    {
        let mut skip = at;
        let mut done = 0;
        for number in blobs {
            if done == into.len() {
                break;
            }
            let Some(layout) = self.blob(account, *number) else {
                continue;
            };
            done += read_front(disk, layout, skip, &mut into[done..])?;
            skip = skip.saturating_sub(layout.count() as u64 * BLOCK);
        }
        Ok(())
    }

    /// Takes the next piece of an open body behind whole blocks: hashes it, with a worker for each 4
    /// MiB, and writes it to the blocks at its place. No image loses a blob. It takes no memory.
    pub fn body_piece<D: Disk, R: Threads + Sync, G: Gate + Sync>(
        &self,
        rt: &R,
        disk: &mut D,
        body: &mut Body,
        bytes: &[u8],
        gate: &G,
    ) -> Result<(), Failed>
        requires open { (D.told disk.old).opened ≡ true }
        requires body { IsOpen self.now (body_runs body.old) }
        requires some { 0 < length bytes.now }
        requires whole { body_taken body.old % BLOCK ≡ 0 }
        requires room { body_taken body.old + length bytes.now ≤ body_room body.old }
        ensures taken { OnOk result (Takes body.old body.new bytes.now) }
        ensures runs { body_runs body.new ≡ body_runs body.old }
        ensures stored { IsTrue D.tells → (message : Items ℕ) → HasTaken body.old message →
            Holds (body_runs body.old) message ((D.told disk.old).reads Blobs) →
            Holds (body_runs body.old) message ((D.told disk.new).reads Blobs) × OnOk result
            (Holds (body_runs body.old) (message ++ bytes.now) ((D.told disk.new).reads Blobs)) }
        ensures streams { IsTrue D.tells → StreamsInto self.now.blobs (body_runs body.old)
            (D.told disk.old) (D.told disk.new) }
        ensures alone { D.by_disk disk.old disk.new }
        ensures call { BlobCall (D.told disk.old) (D.told disk.new) result }
    {
        body.take_piece(rt, disk, bytes, gate)
    }
}
