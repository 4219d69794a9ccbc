//! What no clause says of the parts of a session: each of them once over a wire in memory.

ghost use Rattle.std.specs.Prelude.{◌≡◌, IfOk, false};

use crate::hearing::{Request, hear_request};
use crate::saying::refusal_code;
use gw_stream::Loss;
use gw_transport::Buffers;
use gw_wire::{Bytes, ConnEvent, MemConn, MemWire, Moment, Script};
use std::alloc::{AllocError, Global};
use std::test::Fail;

/// The moment of each test: Sun, 06 Nov 1994 08:49:37 GMT.
const NOW: u64 = 784_111_777_000;

/// A client's bytes, whether its link fails behind them or ends, what comes of its request's head, and what is ahead then.
struct Row {
    sends: &'static [&'static [u8]],
    fails: bool,
    heard: Heard,
    ahead: &'static [u8],
}

#[derive(Clone, Copy, PartialEq, Eq)]
enum Heard {
    Get,
    Refused(u16),
    Ended,
    Failed,
    Else,
}

const ROWS: [Row; 6] = [
    Row {
        sends: &[b"GET / HTTP/1.1\r\nHost: a\r\n\r\nGET"],
        fails: false,
        heard: Heard::Get,
        ahead: b"GET",
    },
    Row {
        sends: &[b"GET / HTTP/1.1\r\nHo", b"st: a\r\n", b"\r\n"],
        fails: false,
        heard: Heard::Get,
        ahead: b"",
    },
    Row {
        sends: &[b"GET / HTTP/1.1\r\n\r\nmore"],
        fails: false,
        heard: Heard::Refused(400),
        ahead: b"more",
    },
    Row {
        sends: &[b"GET / HTTP/2.0\r\nHost: a\r\n\r\n"],
        fails: false,
        heard: Heard::Refused(505),
        ahead: b"",
    },
    Row {
        sends: &[b"GET / HTTP/1.1\r\nHost"],
        fails: false,
        heard: Heard::Ended,
        ahead: b"",
    },
    Row {
        sends: &[b"GET / HTTP/1.1\r\nHost"],
        fails: true,
        heard: Heard::Failed,
        ahead: b"",
    },
];

fn wire(alloc: Global) -> Result<MemWire, AllocError>
    ensures { IfOk result (λ wire. wire.aged ≡ false) }
{
    MemWire::new(
        alloc,
        Script {
            accepts: Vec::new(alloc),
            dials: Vec::new(alloc),
            moments: vec![in alloc; Moment { from: 0, at: NOW }]?,
            acts: 32,
            bytes: 32_768,
        },
    )
}

fn client(alloc: Global, row: &Row) -> Result<MemConn, AllocError> {
    let mut events = Vec::new(alloc);
    for piece in row.sends {
        events.push(ConnEvent::Piece(Bytes::new(piece.to_vec(alloc)?)))?;
    }
    if row.fails {
        events.push(ConnEvent::Failed)?;
    }
    Ok(MemConn::new(1, events, Vec::new(alloc)))
}

fn heard_of(request: &Request) -> Heard {
    match request {
        Request::Head(head) => {
            if head.method.as_str() == "GET" {
                Heard::Get
            } else {
                Heard::Else
            }
        }
        Request::Refused(error) => Heard::Refused(refusal_code(*error)),
        Request::Lost(Loss::End) => Heard::Ended,
        Request::Lost(Loss::Failed) => Heard::Failed,
        Request::Lost(Loss::Stopped(_)) | Request::NoMemory => Heard::Else,
    }
}

// Whether a client is heard so.
fn is_heard(alloc: Global, row: &Row) -> Result<bool, AllocError> {
    let mut wire = wire(alloc)?;
    let mut conn = client(alloc, row)?;
    let mut buffers = Buffers::new(alloc)?;
    let request = hear_request(&mut wire, &mut conn, &mut buffers, 500);
    Ok(heard_of(&request) == row.heard && buffers.client.inbox.ahead() == row.ahead)
}

#[test]
fn heads_in_pieces(rt: HostRuntime) -> Result<(), Fail> {
    for row in &ROWS {
        let heard = is_heard(rt.alloc(), row)?;
        assert!(rt; heard);
    }
    Ok(())
}
