// The outputs of jobs, read from the blocks of their archives.
ghost use Rattle.std.specs.Prelude.{◌≡◌, ◌≤◌, ◌-◌, min, true, IsTrue, IfOk, IfSome, length, take, drop};
ghost use Rattle.std.specs.Option.{option_copied};
ghost use Rattle.glacier_bodies.specs.Calls.{BlobCall};
ghost use Rattle.glacier_disk.specs.Calls.{Rests};
ghost use Rattle.glacier_replay.specs.Changes.{State};
ghost use Rattle.glacier_store.specs.Kept.{IsHeldBy};
ghost use Rattle.glacier_store.specs.Outputs.{archive_in, stretch_bytes};

use crate::Store;
use glacier_base::{Account, Failed};
use glacier_disk::Disk;
use glacier_machine::{Stretch, stored_archive};
use glacier_vault::Archive;

impl Store {
    /// The archive that a stretch is of, if it is there.
    #[tactic(auto, using(crate::proofs::OutputLemmas::none_stored))]
    fn archive_of(&self, account: &Account, stretch: &Stretch) -> Option<&Archive>
        ensures { option_copied result ≡ archive_in self.now.accounts account.now stretch.now }
    {
        let state = self.accounts.get(account)?;
        stored_archive(state, &stretch.vault, stretch.archive)
    }

    /// Fills the front of `into` with the bytes of a stretch of an archive, live or held, from a place
    /// on, as far as it reaches, and says how many these are: all that the stretch has from there on,
    /// where it ends within the archive, and none where there is no such archive.
    /// An error is a fault of the disk. It changes nothing, and takes no memory.
    pub fn read_output<D: Disk>(
        &self,
        disk: &mut D,
        account: &Account,
        stretch: &Stretch,
        at: u64,
        into: &mut [u8],
    ) -> Result<usize, Failed>
        requires { (D.told disk.old).opened ≡ true }
        ensures bytes { IsTrue D.tells → (state : State) → state.accounts ≡ self.now.accounts →
            IsHeldBy (D.told disk.old) self.now.journal self.now.area.blobs state →
            IfOk result (λ n. take n into.new ≡ take (length into.old)
            (drop at (stretch_bytes state account.now stretch.now))) }
        ensures within { IfOk result (λ n. n ≤ length into.old) }
        ensures count { IfSome (archive_in self.now.accounts account.now stretch.now) (λ archive.
            stretch.now.end ≤ archive.size → IfOk result (λ n.
            n ≡ min (length into.old) (stretch.now.end - stretch.now.first - at))) }
        ensures rests { Rests (D.told disk.old) (D.told disk.new) }
        ensures alone { D.by_disk disk.old disk.new }
        ensures call { BlobCall (D.told disk.old) (D.told disk.new) result }
    {
        let Some(archive) = self.archive_of(account, stretch) else {
            return Ok(0);
        };
        let end = stretch.end.min(archive.size);
        let place = stretch.first.saturating_add(at);
        let n = (into.len() as u64).min(end.saturating_sub(place)) as usize;
        self.read_body(
            disk,
            account,
            archive.blobs.as_slice(),
            place,
            &mut into[..n],
        )?;
        Ok(n)
    }
}
