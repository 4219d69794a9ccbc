//! Bodies that are passed on, over a wire in memory.

ghost use Rattle.std.specs.Prelude.{◌≡◌, ◌≤◌, IfOk, false};

use crate::beginning::{Began, first_piece};
use crate::inbox::Inbox;
use crate::outbox::Outbox;
use crate::relaying::{Incoming, Relayed, Silences, relay, write_whole};
use crate::tests::{NOW, half_a_minute};
use crate::waits::Loss;
use gw_body::BodyReader;
use gw_chunk::ChunkError;
use gw_head::Framing;
use gw_wire::{Act, Bytes, ConnEvent, MemConn, MemWire, Moment, Script};
use std::alloc::{AllocError, Global};
use std::test::Fail;

/// A body that is passed on: what its link sends before it ends, how many bytes each write takes (0 fails), how the relay
/// ends and what the other link took.
struct Row {
    framing: Framing,
    sends: &'static [u8],
    chunks: bool,
    takes: &'static [u32],
    end: Relayed,
    text: &'static [u8],
}

const ROWS: [Row; 6] = [
    Row {
        framing: Framing::Chunked,
        sends: b"5\r\nhello\r\n1;a\r\n!\r\n0\r\n\r\nGET",
        chunks: true,
        takes: &[],
        end: Relayed::Whole,
        text: b"6\r\nhello!\r\n0\r\n\r\n",
    },
    Row {
        framing: Framing::Length(5),
        sends: b"helloGET",
        chunks: false,
        takes: &[2],
        end: Relayed::Whole,
        text: b"hello",
    },
    Row {
        framing: Framing::Length(9),
        sends: b"hello",
        chunks: false,
        takes: &[],
        end: Relayed::Lost(Loss::End),
        text: b"",
    },
    Row {
        framing: Framing::Chunked,
        sends: b"2\r\nhi\r\nx\n",
        chunks: false,
        takes: &[],
        end: Relayed::Bad(ChunkError::BadLine),
        text: b"",
    },
    Row {
        framing: Framing::Length(5),
        sends: b"hello",
        chunks: true,
        takes: &[0],
        end: Relayed::WriteFailed(false),
        text: b"",
    },
    Row {
        framing: Framing::ToEnd,
        sends: b"hello",
        chunks: true,
        takes: &[4, 0],
        end: Relayed::WriteFailed(true),
        text: b"5\r\nh",
    },
];

/// How a body ended that was passed on, and what the other link took.
#[derive(Drop)]
struct Passed {
    end: Relayed,
    text: Vec<u8>,
}

fn wire(alloc: Global) -> Result<MemWire, AllocError>
    ensures { IfOk result (λ wire. wire.aged ≡ false) }
{
    MemWire::new(
        alloc,
        Script {
            accepts: Vec::new(alloc),
            dials: Vec::new(alloc),
            moments: vec![in alloc; Moment { from: 0, at: NOW }]?,
            acts: 32,
            bytes: 32_768,
        },
    )
}

// What link 8 took.
fn taken(alloc: Global, acts: &[Act]) -> Result<Vec<u8>, AllocError> {
    let mut text = Vec::new(alloc);
    for act in acts {
        if let Act::Wrote(8, piece) = act {
            text.extend_from_slice(piece.as_slice())?;
        }
    }
    Ok(text)
}

// Passes a body on of a link that sends these bytes and ends, to one whose writes take so many bytes each.
fn pass(
    alloc: Global,
    framing: Framing,
    sends: Vec<u8>,
    chunks: bool,
    takes: &[u32],
) -> Result<Passed, AllocError> {
    let mut wire = wire(alloc)?;
    let mut events = Vec::new(alloc);
    events.push(ConnEvent::Piece(Bytes::new(sends)))?;
    let mut source = MemConn::new(7, events, Vec::new(alloc));
    let mut target = MemConn::new(8, Vec::new(alloc), takes.to_vec(alloc)?);
    let mut from = Incoming {
        body: BodyReader::new(framing),
        inbox: Inbox::new(alloc)?,
    };
    let mut out = Outbox::new(alloc)?;
    out.restart(chunks);
    let silences = Silences {
        source: None,
        target: None,
    };
    let end = relay(
        &mut wire,
        &mut half_a_minute(),
        &mut source,
        &mut target,
        &mut from,
        &mut out,
        silences,
    );
    let text = taken(alloc, wire.acts())?;
    Ok(Passed { end, text })
}

fn is_so(passed: &Passed, row: &Row) -> bool {
    passed.end == row.end && passed.text.as_slice() == row.text
}

/// Bodies of each framing that end whole, short, with a fault, or with a write that fails.
#[test]
fn bodies_are_passed_on(rt: HostRuntime) -> Result<(), Fail> {
    let alloc = rt.alloc();
    for row in &ROWS {
        let sends = row.sends.to_vec(alloc)?;
        let passed = pass(alloc, row.framing, sends, row.chunks, row.takes)?;
        assert!(rt; is_so(&passed, row));
    }
    Ok(())
}

/// A body with so many bytes, of which so many letters `x` come: how its relay ends, and of the text that the other link
/// took its beginning, its end and how long it is.
struct Long {
    length: u64,
    count: usize,
    end: Relayed,
    front: &'static [u8],
    behind: &'static [u8],
    size: usize,
}

const LONG: [Long; 4] = [
    Long {
        length: 8_191,
        count: 8_191,
        end: Relayed::Whole,
        front: b"1fff\r\nx",
        behind: b"x\r\n0\r\n\r\n",
        size: 8_204,
    },
    Long {
        length: 8_192,
        count: 8_192,
        end: Relayed::Whole,
        front: b"2000\r\nx",
        behind: b"x\r\n0\r\n\r\n",
        size: 8_205,
    },
    Long {
        length: 8_193,
        count: 8_193,
        end: Relayed::Whole,
        front: b"2000\r\nx",
        behind: b"x\r\n1\r\nx\r\n0\r\n\r\n",
        size: 8_211,
    },
    Long {
        length: 9_000,
        count: 8_193,
        end: Relayed::Lost(Loss::End),
        front: b"2000\r\nx",
        behind: b"x\r\n",
        size: 8_200,
    },
];

fn is_long(passed: &Passed, row: &Long) -> bool {
    let text = passed.text.as_slice();
    passed.end == row.end
        && text.len() == row.size
        && text.starts_with(row.front)
        && text.ends_with(row.behind)
}

/// Bodies of about a piece's length, in chunks, and one that is cut behind a piece.
#[test]
fn pieces_are_passed_on(rt: HostRuntime) -> Result<(), Fail> {
    let alloc = rt.alloc();
    for row in &LONG {
        let sends = vec![in alloc; b'x'; row.count]?;
        let passed = pass(alloc, Framing::Length(row.length), sends, true, &[])?;
        assert!(rt; is_long(&passed, row));
    }
    Ok(())
}

// The same of a body up to its link's end, whose first piece is waited for before a head is written in front of it; and
// how many writes there were.
fn reply(alloc: Global, count: usize) -> Result<(Began, Passed, usize), AllocError> {
    let mut wire = wire(alloc)?;
    let mut events = Vec::new(alloc);
    events.push(ConnEvent::Piece(Bytes::new(vec![in alloc; b'x'; count]?)))?;
    let mut source = MemConn::new(7, events, Vec::new(alloc));
    let mut target = MemConn::new(8, Vec::new(alloc), Vec::new(alloc));
    let mut from = Incoming {
        body: BodyReader::new(Framing::ToEnd),
        inbox: Inbox::new(alloc)?,
    };
    let mut out = Outbox::new(alloc)?;
    let began = first_piece(
        &mut wire,
        &mut half_a_minute(),
        &mut source,
        &mut from,
        &mut out,
        None,
    );
    let before = wire.acts().len();
    let mut end = Relayed::Spent;
    if out.takes_head(b"head ") {
        out.put_head(b"head ");
        end = write_whole(&mut wire, &mut half_a_minute(), &mut target, &mut out, None);
    }
    let text = taken(alloc, wire.acts())?;
    let writes = wire.acts().len().saturating_sub(before);
    Ok((began, Passed { end, text }, writes))
}

/// A body that is whole before it has 8,192 bytes leaves with its head in one write.
#[test]
fn head_and_body_in_one_write(rt: HostRuntime) -> Result<(), Fail> {
    let alloc = rt.alloc();
    let (began, passed, writes) = reply(alloc, 5)?;
    assert!(rt; began == Began::Whole);
    assert!(rt; passed.end == Relayed::Whole);
    assert!(rt; passed.text.as_slice() == b"head xxxxx".as_slice());
    assert!(rt; writes == 1);
    let (began, _, _) = reply(alloc, 8_192)?;
    assert!(rt; began == Began::Piece);
    Ok(())
}

// A read, a write, a read and a write.
fn is_in_turn(acts: &[Act]) -> bool {
    matches!(
        acts,
        [
            Act::Read(7, _),
            Act::Wrote(8, _),
            Act::Read(7, _),
            Act::Wrote(8, _)
        ]
    )
}

/// A whole piece is written before more of its body is waited for, also where what ends its chunk came with it.
#[test]
fn ready_before_a_wait(rt: HostRuntime) -> Result<(), Fail> {
    let alloc = rt.alloc();
    let mut wire = wire(alloc)?;
    let mut chunk = b"2000\r\n".to_vec(alloc)?;
    chunk.extend_from_slice(&[b'x'; 8_192])?;
    chunk.extend_from_slice(b"\r\n")?;
    let mut events = Vec::new(alloc);
    events.push(ConnEvent::Piece(Bytes::new(chunk)))?;
    events.push(ConnEvent::Piece(Bytes::new(b"0\r\n\r\n".to_vec(alloc)?)))?;
    let mut source = MemConn::new(7, events, Vec::new(alloc));
    let mut target = MemConn::new(8, Vec::new(alloc), Vec::new(alloc));
    let mut from = Incoming {
        body: BodyReader::new(Framing::Chunked),
        inbox: Inbox::new(alloc)?,
    };
    let mut out = Outbox::new(alloc)?;
    out.restart(true);
    let silences = Silences {
        source: None,
        target: None,
    };
    let end = relay(
        &mut wire,
        &mut half_a_minute(),
        &mut source,
        &mut target,
        &mut from,
        &mut out,
        silences,
    );
    assert!(rt; end == Relayed::Whole);
    assert!(rt; is_in_turn(wire.acts()));
    Ok(())
}
