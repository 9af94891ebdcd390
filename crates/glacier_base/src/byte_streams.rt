// Reads and writes that are tried again where they were interrupted.
ghost use Rattle.std.specs.Prelude.{◌≤◌, length, IfOk, OnOk, OnErr};
ghost use Rattle.std.specs.Io.KnownBytes.{Appends, ReadConsumes, WriteAppends};
ghost use Rattle.glacier_base.specs.ByteStreams.{AppendsPart};

use crate::Failed;
use std::io::{ErrorKind, Read, Write};

/// Reads what is there, once. None is read only at the end, or where `into` is empty.
pub fn read_some<R: Read>(reader: &mut R, into: &mut [u8]) -> Result<usize, Failed>
    ensures bound { IfOk result (λ count. count ≤ length into.old) }
    ensures bytes { ReadConsumes (R.remaining reader.old) (R.remaining reader.new)
        result into.new }
{
    for _ in 0..u64::MAX {
        match reader.read(into) {
            Ok(count) => return Ok(count),
            Err(error) => {
                if error.kind() != ErrorKind::Interrupted {
                    return Err(Failed);
                }
            }
        }
    }
    Err(Failed)
}

/// Writes some bytes, once, and tells how many. It answers 0 only where it was interrupted.
fn write_once<W: Write>(writer: &mut W, bytes: &[u8]) -> Result<usize, Failed>
    ensures bound { IfOk result (λ count. count ≤ length bytes.now) }
    ensures bytes { WriteAppends (W.contents writer.old) (W.contents writer.new)
        result bytes.now }
{
    match writer.write(bytes) {
        Ok(0) => Err(Failed),
        Ok(count) => Ok(count),
        Err(error) if error.kind() == ErrorKind::Interrupted => Ok(0),
        Err(_) => Err(Failed),
    }
}

/// Writes all bytes, or a first part of them and then answers `Failed`.
#[tactic(auto, using(crate::proofs::StreamLemmas::appends_whole))]
pub fn write_whole<W: Write>(writer: &mut W, bytes: &[u8]) -> Result<(), Failed>
    ensures whole { OnOk result (Appends (W.contents writer.old) (W.contents writer.new)
        bytes.now) }
    ensures part { OnErr result (AppendsPart (W.contents writer.old) (W.contents writer.new)
        bytes.now) }
{
    let mut done = 0;
    for _ in 0..u64::MAX {
        if done == bytes.len() {
            return Ok(());
        }
        done += write_once(writer, &bytes[done..])?;
    }
    Err(Failed)
}
