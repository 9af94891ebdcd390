// Reads and writes that don't wait.
ghost use Rattle.std.specs.Prelude.{◌≤◌, length, IfOk, IfSome};
ghost use Rattle.std.specs.Io.KnownBytes.{WriteAppends};
ghost use Rattle.glacier_host.specs.Held.{ReadsNow};

use glacier_base::Failed;
use std::io::{ErrorKind, Read, Write};

/// Reads what is there. It answers `None` where nothing is there yet, and 0 only at the end, or
/// where `into` is empty. An interrupted read is tried again.
pub fn receive_now<R: Read>(reader: &mut R, into: &mut [u8]) -> Result<Option<usize>, Failed>
    ensures bound { IfOk result (λ came. IfSome came (λ count. count ≤ length into.old)) }
    ensures bytes { ReadsNow (R.remaining reader.old) (R.remaining reader.new) result into.new }
{
    for _ in 0..u64::MAX {
        match reader.read(into) {
            Ok(count) => return Ok(Some(count)),
            Err(error) => match error.kind() {
                ErrorKind::Interrupted => {}
                ErrorKind::WouldBlock => return Ok(None),
                _ => return Err(Failed),
            },
        }
    }
    Err(Failed)
}

/// Writes what can be written, and tells how many bytes that were. It answers 0 where nothing can be
/// written yet, or where it was interrupted.
pub fn send_now<W: Write>(writer: &mut W, bytes: &[u8]) -> Result<usize, Failed>
    ensures bound { IfOk result (λ count. count ≤ length bytes.now) }
    ensures bytes { WriteAppends (W.contents writer.old) (W.contents writer.new)
        result bytes.now }
{
    match writer.write(bytes) {
        Ok(0) => Err(Failed),
        Ok(count) => Ok(count),
        Err(error)
            if error.kind() == ErrorKind::Interrupted || error.kind() == ErrorKind::WouldBlock => {
            Ok(0)
        }
        Err(_) => Err(Failed),
    }
}
