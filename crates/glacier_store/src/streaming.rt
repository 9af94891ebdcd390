// Bodies of a store: they stream into free blocks, and are read from theirs.
ghost use Rattle.std.specs.Prelude.{◌≡◌, ◌≤◌, ◌<◌, ◌+◌, ◌%◌, ◌++◌, ℕ, List as Items, [], true, IsTrue, IfOk, OnOk, OnErr, length, take, drop};
ghost use Rattle.std.specs.Int.{div_ceil};
ghost use Rattle.glacier_bodies.specs.BlobAreas.{IsOpen, Releases, bytes_of};
ghost use Rattle.glacier_bodies.specs.Blobs.{Holds};
ghost use Rattle.glacier_bodies.specs.Bodies.{HasTaken, Takes, body_room, body_runs, body_taken};
ghost use Rattle.glacier_bodies.specs.Calls.{BlobCall};
ghost use Rattle.glacier_disk.specs.Calls.{Rests};
ghost use Rattle.glacier_disk.specs.declared.area.Area.TheVariants.{Blobs};
ghost use Rattle.glacier_extents.specs.Runs.{block_count};
ghost use Rattle.glacier_replay.specs.Changes.{State};
ghost use Rattle.glacier_replay.specs.Made.{IsRest};
ghost use Rattle.glacier_replay.specs.Standing.{IsTold};
ghost use Rattle.glacier_store.specs.Kept.{IsHeldBy, IsRestBeside};
ghost use Rattle.glacier_store.specs.Calls.{HasBegun, KeepsHeld, OnlyFree};

use crate::Store;
use glacier_base::{Account, Failed, Memory};
use glacier_bodies::{Body, Layout};
use glacier_disk::Disk;
use glacier_extents::BLOCK;
use glacier_treehash::Gate;
use std::alloc::Global;
use std::thread::Threads;

impl Store {
    /// Opens a body of so many bytes, in the lowest free blocks. No later call of the body takes
    /// memory before it is kept. After an `Err` nothing has changed: fewer blocks are free than the
    /// body needs, or memory is wanting.
    pub fn begin_body(&mut self, alloc: Global, length: u64) -> Result<Body, Memory>
        ensures begun { IfOk result
            (HasBegun self.old.area self.new.area (div_ceil length BLOCK)) }
        ensures beside { IfOk result (λ body. IsRest self.old.area.free self.old.area.blobs →
            IsRestBeside (body_runs body) self.new.area.free self.new.area.blobs) }
        ensures same { OnlyFree self.old self.new }
        ensures err { OnErr result (self.new.area ≡ self.old.area) }
    {
        let free = self.area.free();
        if u64::from(free) < length.div_ceil(BLOCK) {
            return Err(Memory);
        }
        self.area.begin_body(alloc, length)
    }

    /// Takes the next piece of an open body behind whole blocks: hashes it and writes it to the
    /// body's own blocks, and to no other. Whatever state is held stays held, at each moment. It takes
    /// no memory.
    pub fn body_piece<D: Disk, R: Threads + Sync, G: Gate + Sync>(
        &self,
        rt: &R,
        disk: &mut D,
        body: &mut Body,
        bytes: &[u8],
        gate: &G,
    ) -> Result<(), Failed>
        requires open { (D.told disk.old).opened ≡ true }
        requires body { IsOpen self.now.area (body_runs body.old) }
        requires some { 0 < length bytes.now }
        requires whole { body_taken body.old % BLOCK ≡ 0 }
        requires room { body_taken body.old + length bytes.now ≤ body_room body.old }

        ensures taken { OnOk result (Takes body.old body.new bytes.now) }
        ensures runs { body_runs body.new ≡ body_runs body.old }
        ensures stored { IsTrue D.tells → (message : Items ℕ) → HasTaken body.old message →
            Holds (body_runs body.old) message ((D.told disk.old).reads Blobs) →
            Holds (body_runs body.old) message ((D.told disk.new).reads Blobs) × OnOk result
            (Holds (body_runs body.old) (message ++ bytes.now) ((D.told disk.new).reads Blobs)) }

        ensures keeps { IsTrue D.tells → KeepsHeld (D.told disk.old) (D.told disk.new)
            self.now.journal self.now.area.blobs (body_runs body.old) }
        ensures alone { D.by_disk disk.old disk.new }
        ensures call { BlobCall (D.told disk.old) (D.told disk.new) result }
    {
        self.area.body_piece(rt, disk, body, bytes, gate)
    }

    /// Gives back the blocks of a body that was cut, or isn't to be kept. It takes no memory.
    pub fn drop_body(&mut self, body: Body)
        requires { IsOpen self.old.area (body_runs body) }
        ensures released { Releases self.old.area self.new.area (body_runs body) }
        ensures rest { IsRestBeside (body_runs body) self.old.area.free self.old.area.blobs →
            IsRest self.new.area.free self.new.area.blobs }
        ensures same { OnlyFree self.old self.new }
    {
        self.area.drop_body(body);
    }

    /// Gives back the blocks of a body that becomes no blob. It takes no memory.
    pub fn release(&mut self, layout: Layout)
        requires { IsOpen self.old.area layout }
        ensures released { Releases self.old.area self.new.area layout }
        ensures rest { IsRestBeside layout self.old.area.free self.old.area.blobs →
            IsRest self.new.area.free self.new.area.blobs }
        ensures same { OnlyFree self.old self.new }
    {
        self.area.release(layout);
    }

    /// Fills `into` with the bytes of a body from a place on: those of the account's blobs, one
    /// after another. It changes nothing, and takes no memory.
    pub fn read_body<D: Disk>(
        &self,
        disk: &mut D,
        account: &Account,
        blobs: &[u64],
        at: u64,
        into: &mut [u8],
    ) -> Result<(), Failed>
        requires open { (D.told disk.old).opened ≡ true }

        ensures bytes { IsTrue D.tells → (state : State) (size : ℕ) (leaves : Items (Items ℕ)) →
            IsHeldBy (D.told disk.old) self.now.journal self.now.area.blobs state →
            IsTold state.bodies account.now size leaves blobs.now → at + length into.old ≤ size →
            OnOk result (into.new ≡ take (length into.old)
            (drop at (bytes_of state.bodies account.now blobs.now))) }

        ensures rests { Rests (D.told disk.old) (D.told disk.new) }
        ensures alone { D.by_disk disk.old disk.new }
        ensures call { BlobCall (D.told disk.old) (D.told disk.new) result }
    {
        self.area.read(disk, account, blobs, at, into)
    }
}
