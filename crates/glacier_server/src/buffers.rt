// The room that a connection works in.
ghost use Rattle.std.specs.Prelude.{◌≡◌, ◌≤◌, [], length, IfOk};
ghost use Rattle.glacier_machine.specs.declared.content_hash.TheConstants.{MOST_BODY as MOST_KEPT};
ghost use Rattle.glacier_server.specs.declared.buffers.TheConstants.{PIECE as MOST_PIECE};
ghost use Rattle.glacier_server.specs.declared.reply_sender.TheConstants.{MOST_AT_ONCE as MOST_PRINTED};

use crate::read_buffer::ReadBuffer;
use crate::reply_sender::MOST_AT_ONCE;
use glacier_base::Memory;
use glacier_http::HeadRoom;
use glacier_machine::MOST_BODY;
use std::alloc::Global;

/// A body streams into the store in pieces of so many bytes, which are whole blocks.
pub const PIECE: usize = 16_777_216;

/// The room that a connection works in, which one connection after another is lent.
#[derive(Drop)]
pub struct Buffers {
    /// Where the fields of the next head are.
    pub head: HeadRoom,
    /// What was taken and not yet used.
    pub unread: ReadBuffer,
    /// A body, at its front.
    pub body: Vec<u8>,
    /// A piece of a body that streams into the store.
    pub piece: Vec<u8>,
    /// The text of a reply.
    pub reply: Vec<u8>,
    ghost most: { MOST_KEPT ≤ length body.items },
    ghost whole: { length piece.items ≡ MOST_PIECE },
    ghost room: { length reply.items ≡ MOST_PRINTED },
}

/// Room for a body that is kept.
fn body_room(alloc: Global) -> Result<Vec<u8>, Memory>
    ensures { IfOk result (λ body. MOST_BODY ≤ length body.items) }
{
    Ok(vec![in alloc; 0u8; MOST_BODY as usize]?)
}

/// Room for a piece of a body that streams.
fn piece_room(alloc: Global) -> Result<Vec<u8>, Memory>
    ensures { IfOk result (λ piece. length piece.items ≡ PIECE) }
{
    Ok(vec![in alloc; 0u8; PIECE]?)
}

impl Buffers {
    /// Takes the memory once: 17,648 KB.
    pub fn new(alloc: Global) -> Result<Buffers, Memory>
        ensures { IfOk result (λ buffers. buffers.unread ≡ []) }
    {
        let head = HeadRoom::new(alloc)?;
        let unread = ReadBuffer::new(alloc)?;
        let body = body_room(alloc)?;
        let piece = piece_room(alloc)?;
        let reply = vec![in alloc; 0u8; MOST_AT_ONCE]?;
        Ok(Buffers {
            head,
            unread,
            body,
            piece,
            reply,
        })
    }
}
