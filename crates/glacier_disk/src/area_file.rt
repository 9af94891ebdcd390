// One file of a folder, and whether it has changed since it was last made stable.
ghost use Rattle.std.specs.Prelude.{◌≡◌, ◌≤◌, ◌<◌, ◌+◌, ◌^◌, IsTrue, false, length, take, drop, IfOk, OnOk};
ghost use Rattle.glacier_disk.specs.Image.{padded, put, window};
ghost use Rattle.glacier_disk.specs.RawFiles.{ReadsAt};
ghost use Rattle.std.proofs.Props.{props};

use crate::raw_file::RawFile;
use glacier_base::Failed;
use std::io::ErrorKind;

/// One file of a folder.
#[derive(Drop)]
pub struct AreaFile<F: RawFile + Drop> {
    pub file: F,
    // It was written, cut or just opened since it was last made stable.
    changed: bool,
    ghost skips: { IsTrue F.tells → changed ≡ false → F.stable file ≡ F.content file } by { Prim.hlevel props },
}

impl<F: RawFile + Drop> AreaFile<F> {
    /// A file that was just opened: nothing is known to be stable.
    pub fn new(file: F) -> AreaFile<F>
        ensures { result.file ≡ file }
    {
        AreaFile {
            file,
            changed: true,
        }
    }

    /// Its length in bytes. One of 2^63 or more is a fault.
    pub fn size(&mut self) -> Result<u64, Failed>
        ensures size { IsTrue F.tells → IfOk result (λ n. n ≡ length (F.content self.old.file)) }
        ensures within { IfOk result (λ n. n < 2 ^ 63) }
        ensures same { IsTrue F.tells → F.content self.new.file ≡ F.content self.old.file }
    {
        match self.file.size() {
            Ok(size) if size < 1 << 63 => Ok(size),
            _ => Err(Failed),
        }
    }

    /// Reads some bytes. An interrupted read is tried again.
    fn read_some(&mut self, at: u64, into: &mut [u8]) -> Result<usize, Failed>
        ensures bound { IfOk result (λ n. n ≤ length into.old) }
        ensures bytes { IsTrue F.tells → IfOk result (ReadsAt (F.content self.old.file) at into.new) }
        ensures same { IsTrue F.tells → F.content self.new.file ≡ F.content self.old.file }
    {
        for _ in 0..u64::MAX {
            match self.file.read_once(into, at) {
                Ok(count) => return Ok(count),
                Err(error) => {
                    if error.kind() != ErrorKind::Interrupted {
                        return Err(Failed);
                    }
                }
            }
        }
        Err(Failed)
    }

    /// Fills `into` whole, with zeros past the end.
    pub fn read(&mut self, at: u64, into: &mut [u8]) -> Result<(), Failed>
        ensures bytes { IsTrue F.tells →
            OnOk result (into.new ≡ window (F.content self.old.file) at (length into.old)) }
        ensures same { IsTrue F.tells → F.content self.new.file ≡ F.content self.old.file }
    {
        let mut done = 0usize;
        for _ in 0..u64::MAX {
            if done >= into.len() {
                return Ok(());
            }
            let Some(place) = at.checked_add(done as u64) else {
                return Err(Failed);
            };
            let count = self.read_some(place, &mut into[done..])?;
            if count == 0 {
                into[done..].fill(0);
                return Ok(());
            }
            done += count;
        }
        Err(Failed)
    }

    /// Writes all bytes. No bytes past the end lengthen the file too, as bytes would.
    pub fn write(&mut self, at: u64, bytes: &[u8]) -> Result<(), Failed>
        ensures { IsTrue F.tells → OnOk result
            (F.content self.new.file ≡ put at bytes.now (F.content self.old.file)) }
    {
        if bytes.is_empty() && self.size()? < at {
            return self.cut(at);
        }
        self.changed = true;
        match self.file.write_all(bytes, at) {
            Ok(()) => Ok(()),
            Err(_) => Err(Failed),
        }
    }

    /// Cuts it to a length. A length past the end fills it up with zeros.
    pub fn cut(&mut self, length: u64) -> Result<(), Failed>
        ensures { IsTrue F.tells →
            OnOk result (F.content self.new.file ≡ padded length (F.content self.old.file)) }
    {
        self.changed = true;
        match self.file.resize(length) {
            Ok(()) => Ok(()),
            Err(_) => Err(Failed),
        }
    }

    /// Makes its bytes stable. One that hasn't changed since it last did so is skipped.
    pub fn sync(&mut self) -> Result<(), Failed>
        ensures durable { IsTrue F.tells →
            OnOk result (F.stable self.new.file ≡ F.content self.new.file) }
        ensures same { IsTrue F.tells → F.content self.new.file ≡ F.content self.old.file }
    {
        if !self.changed {
            return Ok(());
        }
        match self.file.sync() {
            Ok(()) => {
                self.changed = false;
                Ok(())
            }
            Err(_) => Err(Failed),
        }
    }
}
