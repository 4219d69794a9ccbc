//! What a worker's trips read into and write from.

ghost use Rattle.std.specs.Prelude.{◌≡◌, [], IfOk};
ghost use Rattle.gw_stream.specs.Outbox.{out_size};

use gw_body::BodyReader;
use gw_head::{Framing, HeadReader};
use gw_stream::{Inbox, Incoming, Outbox};
use std::alloc::{AllocError, Global};

/// Want of memory.
pub type NoMemory = AllocError;

/// What a worker's trips read into and write from; it is made once, and serves one session after another.
#[derive(Drop)]
pub struct Buffers {
    /// The reader of heads.
    pub reader: HeadReader,
    /// What comes of the client's link.
    pub client: Incoming,
    /// What comes of the backend's link.
    pub backend: Incoming,
    /// What is on its way to either.
    pub out: Outbox,
}

impl Buffers {
    /// Buffers of which nothing is used. They take 524,288 bytes: 65,536 for a head, twice 131,072 to read into, and
    /// 196,608 to write from.
    pub fn new(alloc: Global) -> Result<Buffers, NoMemory>
        ensures client { IfOk result (λ buffers. buffers.client.inbox ≡ []) }
        ensures backend { IfOk result (λ buffers. buffers.backend.inbox ≡ []) }
        ensures room { IfOk result (λ buffers. buffers.out.size ≡ out_size) }
    {
        Ok(Buffers {
            reader: HeadReader::new(alloc)?,
            client: incoming(alloc)?,
            backend: incoming(alloc)?,
            out: Outbox::new(alloc)?,
        })
    }
}

// A link of which nothing was read.
fn incoming(alloc: Global) -> Result<Incoming, NoMemory>
    ensures { IfOk result (λ incoming. incoming.inbox ≡ []) }
{
    Ok(Incoming {
        body: BodyReader::new(Framing::None),
        inbox: Inbox::new(alloc)?,
    })
}
