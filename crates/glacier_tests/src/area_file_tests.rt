// One file of a folder, over a file in memory.
ghost use Rattle.std.specs.Prelude.{false, []};

use glacier_base::Failed;
use glacier_disk::{AreaFile, RawFile};
use std::alloc::Global;
use std::io;
use std::io::ErrorKind;
use std::test::Fail;

/// A file in memory. Every other read is interrupted, and the others give one byte.
#[derive(Drop)]
struct MemFile {
    alloc: Global,
    content: Vec<u8>,
    stable: Vec<u8>,
    interrupts: bool,
}

impl RawFile for MemFile {
    ghost tells = { false };

    ghost content = { λ file. [] };

    ghost stable = { λ file. [] };

    fn size(&mut self) -> io::Result<u64> {
        Ok(self.content.len() as u64)
    }

    fn read_once(&mut self, into: &mut [u8], at: u64) -> io::Result<usize> {
        self.interrupts = !self.interrupts;
        if self.interrupts {
            return Err(ErrorKind::Interrupted.into());
        }
        let start = (at as usize).min(self.content.len());
        let count = into.len().min(self.content.len() - start).min(1);
        into[..count].copy_from_slice(&self.content[start..start + count]);
        Ok(count)
    }

    fn write_all(&mut self, bytes: &[u8], at: u64) -> io::Result<()> {
        let start = at as usize;
        let Some(end) = start.checked_add(bytes.len()) else {
            return Err(ErrorKind::InvalidInput.into());
        };
        if self.content.len() < end {
            self.resize(end as u64)?;
        }
        if self.content.len() < end {
            return Err(ErrorKind::OutOfMemory.into());
        }
        self.content[start..end].copy_from_slice(bytes);
        Ok(())
    }

    fn resize(&mut self, length: u64) -> io::Result<()> {
        match self.content.resize(length as usize, 0) {
            Ok(()) => Ok(()),
            Err(_) => Err(ErrorKind::OutOfMemory.into()),
        }
    }

    fn sync(&mut self) -> io::Result<()> {
        match self.content.as_slice().to_vec(self.alloc) {
            Ok(copy) => {
                self.stable = copy;
                Ok(())
            }
            Err(_) => Err(ErrorKind::OutOfMemory.into()),
        }
    }
}

/// Writes past the end, reads past it, cuts, makes stable, and lengthens by no bytes. What was
/// read.
fn write_and_cut(file: &mut AreaFile<MemFile>) -> Result<[u8; 8], Failed> {
    let mut read = [1u8; 8];
    file.write(3, b"abcd")?;
    file.read(2, &mut read)?;
    file.cut(6)?;
    file.sync()?;
    file.write(8, b"")?;
    Ok(read)
}

#[test]
fn a_sync_makes_the_content_stable(rt: HostRuntime) -> Result<(), Fail> {
    let mut file = AreaFile::new(MemFile {
        alloc: rt.alloc(),
        content: Vec::new(rt.alloc()),
        stable: Vec::new(rt.alloc()),
        interrupts: false,
    });
    let read = write_and_cut(&mut file)?;
    assert_eq!(rt; read.as_slice(), b"\0abcd\0\0\0".as_slice());
    assert_eq!(rt; file.file.stable.as_slice(), b"\0\0\0abc".as_slice());
    file.sync()?;
    assert_eq!(rt; file.file.stable.as_slice(), b"\0\0\0abc\0\0".as_slice());
    Ok(())
}
