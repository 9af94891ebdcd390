// Bodies of a store that are opened and given back, by hand from docs/rules/blocks.md.
ghost use Rattle.std.specs.Prelude.{◌≡◌, false, IfSome};
ghost use Rattle.glacier_bodies.specs.BlobAreas.{IsOpen};
ghost use Rattle.glacier_bodies.specs.Blobs.{IsApart};
ghost use Rattle.glacier_bodies.specs.Bodies.{body_runs};
ghost use Rattle.glacier_extents.specs.Runs.{has_block};

use crate::store_body_calls::{begun, drop_beside, is_refused};
use glacier_bodies::Body;
use glacier_disk::{Disk, MemPlan, MemStation};
use glacier_extents::{BLOCK, BLOCKS};
use glacier_store::Store;
use std::alloc::Global;
use std::test::Fail;

/// All bytes of Blobs: 2^40.
const ALL: u64 = BLOCKS as u64 * BLOCK;

/// Whether a body of all blocks leaves none for another, and gives them all back; and whether there
/// is none for a byte more.
fn are_all_taken(alloc: Global, store: &mut Store) -> bool {
    let Some(body) = begun(alloc, store, ALL) else {
        return false;
    };
    let is_full = store.area.free() == 0 && is_refused(alloc, store, 1);
    store.drop_body(body);
    is_full && store.area.free() == BLOCKS && is_refused(alloc, store, ALL + 1)
}

/// Two bodies beside each other: of one block, and of two.
fn two_bodies(alloc: Global, store: &mut Store) -> Option<(Body, Body)>
    ensures opened { IfSome result (λ two. IsOpen store.new.area (body_runs two.0)) }
    ensures other { IfSome result (λ two. IsOpen store.new.area (body_runs two.1)) }
    ensures apart { IfSome result (λ two.
        IsApart (has_block (body_runs two.1)) (body_runs two.0)) }
{
    let first = begun(alloc, store, 1)?;
    let second = begun(alloc, store, BLOCK + 1)?;
    Some((first, second))
}

/// Whether the blocks of the first are given back beside the second, and then all of them.
fn are_given_back(store: &mut Store, first: Body, second: Body) -> bool
    requires opened { IsOpen store.old.area (body_runs first) }
    requires other { IsOpen store.old.area (body_runs second) }
    requires apart { IsApart (has_block (body_runs second)) (body_runs first) }
{
    let are_taken = store.area.free() == BLOCKS - 3;
    drop_beside(store, first, &second);
    let is_back = store.area.free() == BLOCKS - 2;
    store.drop_body(second);
    are_taken && is_back && store.area.free() == BLOCKS
}

/// Whether bodies that are opened and dropped take their blocks and give them back.
fn are_counted<D: Disk>(alloc: Global, disk: &mut D) -> bool
    requires { (D.told disk.old).opened ≡ false }
{
    if disk.open("here").is_err() {
        return false;
    }
    let Ok(mut store) = Store::create(alloc, disk) else {
        return false;
    };
    if !are_all_taken(alloc, &mut store) {
        return false;
    }
    match two_bodies(alloc, &mut store) {
        Some((first, second)) => are_given_back(&mut store, first, second),
        None => false,
    }
}

fn bodies_give_back(alloc: Global) -> Option<bool> {
    let mut station = MemStation::new(alloc, MemPlan::empty(alloc)).ok()?;
    Some(are_counted(alloc, &mut station))
}

#[test]
fn blocks_of_bodies_are_given_back(rt: HostRuntime) -> Result<(), Fail> {
    assert!(rt; bodies_give_back(rt.alloc()) == Some(true));
    Ok(())
}
