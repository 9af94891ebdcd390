// Reading bytes and numbers from left to right.
ghost use Rattle.std.specs.Prelude.{◌≡◌, ◌==◌, length, IfOk};
ghost use Rattle.std.specs.Int.{w8, w16, w32, w64};
ghost use Rattle.glacier_records.specs.Codec.{number, exactly};
ghost use Rattle.glacier_records.specs.Taken.{Takes, lent};

use crate::unread::Unread;
use std::marker::Model;

/// Bytes that are read from the front, which contracts see as those that are left.
#[derive(Drop)]
pub(crate) struct Reader<'a> {
    rest: &'a [u8],
}

impl<'a> Model for Reader<'a> {
    ghost use Rattle.std.specs.Prelude.{List, ℕ};

    ghost Value = { List ℕ };

    ghost view = { λ reader. reader.rest.now };
}

impl<'a> Reader<'a> {
    pub(crate) fn new(bytes: &'a [u8]) -> Self
        ensures { result ≡ bytes.now }
    {
        Reader { rest: bytes }
    }

    /// So many bytes.
    pub(crate) fn bytes(&mut self, count: usize) -> Result<&'a [u8], Unread>
        ensures taken { Takes ((exactly count).read self.old) (lent result) self.new }
        ensures length { IfOk result (λ bytes. length bytes.now ≡ count) }
    {
        if self.rest.len() < count {
            return Err(Unread::NoValue);
        }
        let (front, rest) = self.rest.split_at(count);
        self.rest = rest;
        Ok(front)
    }

    pub(crate) fn byte(&mut self) -> Result<u8, Unread>
        ensures { Takes ((number w8).read self.old) result self.new }
    {
        let front = self.bytes(1)?;
        Ok(front[0])
    }

    /// A number of two bytes, its highest byte first.
    pub(crate) fn u16(&mut self) -> Result<u16, Unread>
        ensures { Takes ((number w16).read self.old) result self.new }
    {
        let front = self.bytes(2)?;
        Ok(u16::from_be_bytes([front[0], front[1]]))
    }

    /// A number of four bytes, its highest byte first.
    pub(crate) fn u32(&mut self) -> Result<u32, Unread>
        ensures { Takes ((number w32).read self.old) result self.new }
    {
        let front = self.bytes(4)?;
        Ok(u32::from_be_bytes([front[0], front[1], front[2], front[3]]))
    }

    /// A number of eight bytes, its highest byte first.
    pub(crate) fn u64(&mut self) -> Result<u64, Unread>
        ensures { Takes ((number w64).read self.old) result self.new }
    {
        let front = self.bytes(8)?;
        Ok(u64::from_be_bytes([
            front[0], front[1], front[2], front[3], front[4], front[5], front[6], front[7],
        ]))
    }

    /// Whether no bytes are left.
    pub(crate) fn is_done(&self) -> bool
        ensures { result ≡ (length self.now == 0) }
    {
        self.rest.is_empty()
    }
}
