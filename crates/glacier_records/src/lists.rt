// Reading lists of fields, each behind its number.
ghost use Rattle.glacier_records.specs.Codec.{read_many};
ghost use Rattle.glacier_records.specs.Fields.{digest_field, leaves_field, run_field, runs_field, blob_field, blobs_field};
ghost use Rattle.glacier_records.specs.Taken.{Takes};

use crate::kept::Blob;
use crate::reader::Reader;
use crate::unread::Unread;
use glacier_base::{Digest, List};
use glacier_extents::Run;
use std::alloc::Global;

impl<'a> Reader<'a> {
    /// So many digests.
    fn digests(&mut self, alloc: Global, count: u32) -> Result<List<Digest>, Unread>
        ensures { Takes (read_many digest_field count self.old) result self.new }
    {
        let mut digests = List::new(alloc);
        for _ in 0..count {
            let next = self.digest()?;
            digests.push(next)?;
        }
        Ok(digests)
    }

    /// The digests of an archive's pieces.
    pub(crate) fn leaves(&mut self, alloc: Global) -> Result<List<Digest>, Unread>
        ensures { Takes (leaves_field.read self.old) result self.new }
    {
        let count = self.u32()?;
        self.digests(alloc, count)
    }

    fn run(&mut self) -> Result<Run, Unread>
        ensures { Takes (run_field.read self.old) result self.new }
    {
        let first = self.u32()?;
        let count = self.u32()?;
        if count == 0 {
            return Err(Unread::NoValue);
        }
        Ok(Run { first, count })
    }

    /// So many runs.
    fn some_runs(&mut self, alloc: Global, count: u32) -> Result<List<Run>, Unread>
        ensures { Takes (read_many run_field count self.old) result self.new }
    {
        let mut runs = List::new(alloc);
        for _ in 0..count {
            let next = self.run()?;
            runs.push(next)?;
        }
        Ok(runs)
    }

    /// The blocks of a blob.
    pub(crate) fn runs(&mut self, alloc: Global) -> Result<List<Run>, Unread>
        ensures { Takes (runs_field.read self.old) result self.new }
    {
        let count = self.u32()?;
        self.some_runs(alloc, count)
    }

    fn blob(&mut self, alloc: Global) -> Result<Blob, Unread>
        ensures { Takes (blob_field.read self.old) result self.new }
    {
        let number = self.u64()?;
        let runs = self.runs(alloc)?;
        Ok(Blob { number, runs })
    }

    /// So many blobs.
    fn some_blobs(&mut self, alloc: Global, count: u32) -> Result<List<Blob>, Unread>
        ensures { Takes (read_many blob_field count self.old) result self.new }
    {
        let mut blobs = List::new(alloc);
        for _ in 0..count {
            let next = self.blob(alloc)?;
            blobs.push(next)?;
        }
        Ok(blobs)
    }

    /// The blobs of an archive.
    pub(crate) fn blobs(&mut self, alloc: Global) -> Result<List<Blob>, Unread>
        ensures { Takes (blobs_field.read self.old) result self.new }
    {
        let count = self.u32()?;
        self.some_blobs(alloc, count)
    }
}
