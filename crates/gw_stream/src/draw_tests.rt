//! Bodies that are pulled of a link, piece by piece.

ghost use Rattle.std.specs.Prelude.{◌≡◌, ◌≤◌, ◌<◌, IfOk, false};

use crate::drawing::{Pull, pull_piece};
use crate::inbox::Inbox;
use crate::tests::{NOW, half_a_minute};
use crate::waits::Loss;
use gw_body::BodyReader;
use gw_chunk::ChunkError;
use gw_head::Framing;
use gw_wire::{Bytes, ConnEvent, MemConn, MemWire, Moment, Script, Wire};
use std::alloc::{AllocError, Global};
use std::test::Fail;

fn wire(alloc: Global) -> Result<MemWire, AllocError>
    ensures { IfOk result (λ wire. wire.aged ≡ false) }
{
    MemWire::new(
        alloc,
        Script {
            accepts: Vec::new(alloc),
            dials: Vec::new(alloc),
            moments: vec![in alloc; Moment { from: 0, at: NOW }]?,
            acts: 32,
            bytes: 64,
        },
    )
}

// A link that sends this text in pieces of so many bytes, and then ends.
fn link(alloc: Global, text: &[u8], size: usize) -> Result<MemConn, AllocError>
    requires { 0 < size }
{
    let mut events = Vec::new(alloc);
    for piece in text.chunks(size) {
        events.push(ConnEvent::Piece(Bytes::new(piece.to_vec(alloc)?)))?;
    }
    Ok(MemConn::new(7, events, Vec::new(alloc)))
}

/// How a body ended that was pulled into a buffer of 4 bytes, its data, and what stands behind it.
#[derive(Drop)]
struct Came {
    end: Pull,
    data: Vec<u8>,
    behind: Vec<u8>,
}

// Pulls a body of a text that comes in pieces of so many bytes, for at most a hundred pulls.
fn gather(alloc: Global, framing: Framing, text: &[u8], size: usize) -> Result<Came, AllocError>
    requires { 0 < size }
{
    let mut wire = wire(alloc)?;
    let mut conn = link(alloc, text, size)?;
    let mut guard = half_a_minute();
    let mut inbox = Inbox::new(alloc)?;
    let mut body = BodyReader::new(framing);
    let mut buf = [0; 4];
    let mut data = Vec::new(alloc);
    for _pull in 0..100 {
        let _ = wire.now();
        guard = half_a_minute();
        match pull_piece(
            &mut wire, &mut guard, &mut conn, &mut body, &mut inbox, &mut buf, None,
        ) {
            Pull::Data(count) => data.extend_from_slice(&buf[..count])?,
            Pull::More => {}
            end => {
                let behind = inbox.ahead().to_vec(alloc)?;
                return Ok(Came { end, data, behind });
            }
        }
    }
    Ok(Came {
        end: Pull::More,
        data,
        behind: Vec::new(alloc),
    })
}

fn is_so(came: &Came, end: Pull, data: &[u8], behind: &[u8]) -> bool {
    came.end == end && came.data.as_slice() == data && came.behind.as_slice() == behind
}

/// The data of each framing, whatever the pieces that its text comes in, and how each body ends.
#[test]
fn bodies_in_pieces(rt: HostRuntime) -> Result<(), Fail> {
    let alloc = rt.alloc();
    let text = b"5\r\nhello\r\n1;a\r\n!\r\n0\r\n\r\nGET".as_slice();
    let short = Pull::Lost(Loss::End);
    let bad = Pull::Bad(ChunkError::BadLine);
    assert!(rt;
        is_so(
            &gather(alloc, Framing::Chunked, text, 1)?,
            Pull::Done,
            b"hello!",
            b""
        )
    );
    assert!(rt;
        is_so(
            &gather(alloc, Framing::Chunked, text, 64)?,
            Pull::Done,
            b"hello!",
            b"GET"
        )
    );
    assert!(rt;
        is_so(
            &gather(alloc, Framing::Chunked, b"2\r\nhi\r\nx\n", 3)?,
            bad,
            b"hi",
            b"\nx\n"
        )
    );
    assert!(rt;
        is_so(
            &gather(alloc, Framing::Chunked, b"2\r\nhi\r\n", 3)?,
            short,
            b"hi",
            b""
        )
    );
    assert!(rt;
        is_so(
            &gather(alloc, Framing::Length(5), b"helloGET", 7)?,
            Pull::Done,
            b"hello",
            b"GE"
        )
    );
    assert!(rt;
        is_so(
            &gather(alloc, Framing::Length(9), b"hello", 7)?,
            short,
            b"hello",
            b""
        )
    );
    assert!(rt;
        is_so(
            &gather(alloc, Framing::None, b"GET", 7)?,
            Pull::Done,
            b"",
            b""
        )
    );
    assert!(rt;
        is_so(
            &gather(alloc, Framing::ToEnd, b"to the end", 3)?,
            Pull::Done,
            b"to the end",
            b""
        )
    );
    Ok(())
}
