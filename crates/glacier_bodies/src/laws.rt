//! What writes to a body's own blocks leave of everything else.
ghost use Rattle.std.specs.Prelude.{◌≡◌, ℕ, List, Bool, IsTrue};
ghost use Rattle.glacier_disk.specs.declared.area.Area.TheVariants.{Blobs};
ghost use Rattle.glacier_extents.specs.declared.run.Run.{Run};
ghost use Rattle.glacier_extents.specs.Places.{WritesBlocks};
ghost use Rattle.glacier_bodies.specs.BlobAreas.{AreFilled, bytes_of, runs_of};
ghost use Rattle.glacier_bodies.specs.Blobs.{Holds, IsApart};
ghost use Rattle.glacier_bodies.specs.Stands.{Layouts, Bodies, AllHeld, KeepsImages, IsUnnamed};

use glacier_disk::Disk;

/// Writes to blocks that no blob has keep each image that a crash may leave, after them and at each
/// moment inside them: its blobs stay, and so does all that is outside Blobs.
pub fn body_writes_keep<D: Disk>(before: &D, after: &D)
    ensures { IsTrue D.tells → (own : ℕ → Bool) (layouts : Layouts) (bodies : Bodies) →
        WritesBlocks own (D.told before.now) (D.told after.now) → IsUnnamed own layouts →
        AllHeld layouts bodies ((D.told before.now).reads Blobs) →
        KeepsImages layouts bodies (D.told before.now) (D.told after.now) }
{}

/// They leave what another body has taken where it is.
pub fn other_bodies_stay<D: Disk>(before: &D, after: &D)
    ensures { (own : ℕ → Bool) (runs : List Run) (bytes : List ℕ) →
        WritesBlocks own (D.told before.now) (D.told after.now) → IsApart own runs →
        Holds runs bytes ((D.told before.now).reads Blobs) →
        Holds runs bytes ((D.told after.now).reads Blobs) }
{}

/// Where bytes are held, there are no others.
pub fn held_once()
    ensures { (runs : List Run) (bytes other content : List ℕ) → Holds runs bytes content →
        Holds runs other content → Rattle.std.specs.Prelude.length bytes ≡
        Rattle.std.specs.Prelude.length other → bytes ≡ other }
{}

/// An archive's bytes, those of its blobs one after another, lie in its blobs' blocks.
pub fn archives_are_held()
    ensures { (blobs : Layouts) (bodies : Bodies) (account numbers content : List ℕ) →
        AllHeld blobs bodies content → AreFilled blobs bodies account numbers →
        Holds (runs_of blobs account numbers) (bytes_of bodies account numbers) content }
{}
