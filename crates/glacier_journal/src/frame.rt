// A payload as it is written.
ghost use Rattle.std.specs.Prelude.{◌≡◌, ◌≤◌, IfOk, length};
ghost use Rattle.glacier_journal.specs.Listed.{framed, most};

use glacier_base::Memory;
use std::alloc::Global;
use std::marker::Model;

/// A payload, held as it is written, which contracts see as its bytes.
#[derive(Drop)]
pub struct Frame {
    bytes: Vec<u8>,
}

impl Model for Frame {
    ghost use Rattle.std.specs.Prelude.{◌≡◌, ◌≤◌, List, ℕ, length};
    ghost use Rattle.glacier_journal.specs.Frames.{payload_in};
    ghost use Rattle.glacier_journal.specs.Listed.{framed, most};

    ghost Value = { List ℕ };

    ghost view = { λ f. payload_in f.bytes.items };

    ghost invariant = { λ f. (f.bytes.items ≡ framed (payload_in f.bytes.items)) × (length (payload_in f.bytes.items) ≤ most) };
}

impl Frame {
    /// The frame of a payload of at most 2^26 bytes. It fails for want of memory alone.
    pub fn of(alloc: Global, payload: &[u8]) -> Result<Frame, Memory>
        requires { length payload.now ≤ most }
        ensures { IfOk result (λ frame. frame ≡ payload.now) }
    {
        let size = payload.len() as u32;
        let mut bytes = size.to_be_bytes().to_vec(alloc)?;
        bytes.extend_from_slice(payload)?;
        bytes.push(0)?;
        Ok(Frame { bytes })
    }

    /// What is written: the payload behind its length, and a closed gate.
    pub(crate) fn bytes(&self) -> &[u8]
        ensures framed { result.now ≡ framed self.now }
        ensures short { length self.now ≤ most }
    {
        &self.bytes
    }
}
