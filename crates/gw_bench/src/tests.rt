//! Messages that are passed on, over a wire in memory.

ghost use Rattle.std.specs.Prelude.{◌≡◌, IfOk, false};

use crate::proxy::{Kept, pass};
use gw_head::Framing;
use gw_stream::Timer;
use gw_wire::{Act, Bytes, ConnEvent, MemConn, MemWire, Moment, Script};
use std::alloc::{AllocError, Global};
use std::test::Fail;

/// A message whose link sends two pieces and ends: whether it is passed on whole, and what the other link took.
struct Row {
    framing: Framing,
    first: &'static [u8],
    second: &'static [u8],
    whole: bool,
    text: &'static [u8],
}

// Chunks are written anew, with up to 8,192 bytes each; of a body that stops in its middle whole pieces of as many are.
const ROWS: [Row; 5] = [
    Row {
        framing: Framing::None,
        first: b"GET / HTTP/1.1\r\nHost: a\r\n\r",
        second: b"\n",
        whole: true,
        text: b"GET / HTTP/1.1\r\nHost: a\r\n\r\n",
    },
    Row {
        framing: Framing::Length(5),
        first: b"HTTP/1.1 200 OK\r\n\r\nhe",
        second: b"llo",
        whole: true,
        text: b"HTTP/1.1 200 OK\r\n\r\nhello",
    },
    Row {
        framing: Framing::Chunked,
        first: b"HTTP/1.1 200 OK\r\n\r\n2\r\nhe\r\n",
        second: b"3\r\nllo\r\n0\r\n\r\n",
        whole: true,
        text: b"HTTP/1.1 200 OK\r\n\r\n5\r\nhello\r\n0\r\n\r\n",
    },
    Row {
        framing: Framing::Length(5),
        first: b"HTTP/1.1 200 OK\r\n\r\nhe",
        second: b"l",
        whole: false,
        text: b"HTTP/1.1 200 OK\r\n\r\n",
    },
    Row {
        framing: Framing::None,
        first: b"HTTP/1.1 200 OK\r\n",
        second: b"\r",
        whole: false,
        text: b"",
    },
];

/// Whether a message was passed on whole, and what the other link took.
#[derive(Drop)]
struct Passed {
    whole: bool,
    text: Vec<u8>,
}

fn wire(alloc: Global) -> Result<MemWire, AllocError>
    ensures { IfOk result (λ wire. wire.aged ≡ false) }
{
    MemWire::new(
        alloc,
        Script {
            accepts: Vec::new(alloc),
            dials: Vec::new(alloc),
            moments: vec![in alloc; Moment { from: 0, at: 1_000 }]?,
            acts: 32,
            bytes: 1_024,
        },
    )
}

// What link 8 took.
fn taken(alloc: Global, acts: &[Act]) -> Result<Vec<u8>, AllocError> {
    let mut text = Vec::new(alloc);
    for act in acts {
        if let Act::Wrote(8, piece) = act {
            text.extend_from_slice(piece.as_slice())?;
        }
    }
    Ok(text)
}

fn pass_row(alloc: Global, row: &Row) -> Result<Passed, AllocError> {
    let mut wire = wire(alloc)?;
    let mut events = Vec::new(alloc);
    events.push(ConnEvent::Piece(Bytes::new(row.first.to_vec(alloc)?)))?;
    events.push(ConnEvent::Piece(Bytes::new(row.second.to_vec(alloc)?)))?;
    let mut source = MemConn::new(7, events, Vec::new(alloc));
    let mut target = MemConn::new(8, Vec::new(alloc), Vec::new(alloc));
    let whole = pass(
        &mut wire,
        &mut Timer::new(None),
        &mut source,
        &mut target,
        &mut Kept::new(alloc)?,
        row.framing,
    )?;
    let text = taken(alloc, wire.acts())?;
    Ok(Passed { whole, text })
}

fn is_so(passed: &Passed, row: &Row) -> bool {
    passed.whole == row.whole && passed.text.as_slice() == row.text
}

/// Messages of each framing, and two whose link ends in their middle.
#[test]
fn messages_are_passed_on(rt: HostRuntime) -> Result<(), Fail> {
    let alloc = rt.alloc();
    for row in &ROWS {
        let passed = pass_row(alloc, row)?;
        assert!(rt; is_so(&passed, row));
    }
    Ok(())
}
