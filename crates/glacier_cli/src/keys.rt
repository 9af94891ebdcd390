// The key file of a server.
ghost use Rattle.std.specs.Prelude.{◌≡◌, IsTrue, Ok, Some, IfOk, IfErr};
ghost use Rattle.glacier_cli.specs.FileUse.{KeepsContents, file_use};
ghost use Rattle.glacier_cli.specs.KeyUse.{HasKeys, KeysEnd};

use crate::ending::Ending;
use crate::hash::{fill, zeros};
use glacier_base::Files;
use glacier_sigv4::{KeyFault, KeyRing};
use std::alloc::Global;

/// The most bytes of a key file without a bad line: 64 lines of 12 digits, 128 and 128 bytes and 7
/// digits, with a space between each two and a line feed behind.
pub const MOST_KEYS: usize = 17_856;

/// Reads the key file of this name: one byte more than one without a bad line has, if there are so
/// many, since then one of its first 65 lines is bad. Where it can't, the run ends so.
pub(crate) fn read_keys<F: Files>(
    alloc: Global,
    name: &str,
    files: &mut F,
) -> Result<KeyRing, Ending>
    ensures ring { IfOk result (λ ring.
        HasKeys (file_use F.tells (F.told files.old) (F.told files.new)) name.now ring) }
    ensures ends { IfErr result (λ ending.
        KeysEnd (file_use F.tells (F.told files.old) (F.told files.new)) name.now ending) }
    ensures contents { KeepsContents (file_use F.tells (F.told files.old) (F.told files.new)) }
{
    let Ok(mut text) = zeros(alloc, MOST_KEYS + 1) else {
        return Err(Ending::NoMemory);
    };
    if files.open_read(Some(name)).is_err() {
        return Err(Ending::FileFault);
    }
    let Ok(count) = fill(files, &mut text) else {
        return Err(Ending::FileFault);
    };
    match KeyRing::read(alloc, &text[..count]) {
        Ok(ring) => Ok(ring),
        Err(KeyFault::BadLine { line }) => Err(Ending::BadKeyFile(line)),
        Err(KeyFault::Memory) => Err(Ending::NoMemory),
    }
}
