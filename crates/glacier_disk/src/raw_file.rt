// One file of a folder, by the calls of the system.
ghost use Rattle.std.specs.Prelude.{◌≡◌, ◌≤◌, Bool, IsTrue, ℕ, List, [], false, length, IfOk, OnOk};
ghost use Rattle.glacier_disk.specs.Image.{padded};
ghost use Rattle.glacier_disk.specs.RawFiles.{ReadsAt, SameFile, overwritten};

use std::fs::File;
use std::io;
use std::os::unix::fs::FileExt;

/// A file, one call of the system a method.
pub trait RawFile {
    /// Whether it tells its bytes. A clause on them holds where it does.
    ghost tells: { Bool };

    /// Its bytes, as a read gives them.
    ghost content: { Self → List ℕ };

    /// The bytes that a crash leaves.
    ghost stable: { Self → List ℕ };

    /// How many bytes it has.
    fn size(&mut self) -> io::Result<u64>
        ensures size { IsTrue tells → IfOk result (λ n. n ≡ length (content self.old)) }
        ensures same { IsTrue tells → SameFile content stable self.old self.new };

    /// Reads some of the bytes from a place on, none only at the end.
    fn read_once(&mut self, into: &mut [u8], at: u64) -> io::Result<usize>
        ensures bound { IfOk result (λ n. n ≤ length into.old) }
        ensures bytes { IsTrue tells → IfOk result (ReadsAt (content self.old) at into.new) }
        ensures same { IsTrue tells → SameFile content stable self.old self.new };

    /// Writes all of them from a place on. No bytes change nothing.
    fn write_all(&mut self, bytes: &[u8], at: u64) -> io::Result<()>
        ensures { IsTrue tells →
            OnOk result (content self.new ≡ overwritten at bytes.now (content self.old)) };

    /// Cuts it to this length, or fills it up with zeros.
    fn resize(&mut self, length: u64) -> io::Result<()>
        ensures { IsTrue tells → OnOk result (content self.new ≡ padded length (content self.old)) };

    /// Makes its bytes stable.
    fn sync(&mut self) -> io::Result<()>
        ensures durable { IsTrue tells → OnOk result (stable self.new ≡ content self.old) }
        ensures same { IsTrue tells → content self.new ≡ content self.old };
}

impl RawFile for File {
    ghost tells = { false };

    ghost content = { λ file. [] };

    ghost stable = { λ file. [] };

    fn size(&mut self) -> io::Result<u64> {
        Ok(self.metadata()?.len())
    }

    fn read_once(&mut self, into: &mut [u8], at: u64) -> io::Result<usize> {
        self.read_at(into, at)
    }

    fn write_all(&mut self, bytes: &[u8], at: u64) -> io::Result<()> {
        self.write_all_at(bytes, at)
    }

    fn resize(&mut self, length: u64) -> io::Result<()> {
        self.set_len(length)
    }

    fn sync(&mut self) -> io::Result<()> {
        self.sync_all()
    }
}
