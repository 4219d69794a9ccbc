//! Trips of requests whose bodies are read of the client's link, over a wire in memory.

ghost use Rattle.std.specs.Prelude.{◌≡◌, ◌<◌, [], false};
ghost use Rattle.gw_stream.specs.Outbox.{out_size};
ghost use Rattle.gw_transport.specs.Leasing.{IsRested};

use crate::replying::End;
use crate::test_links::{Chunk, Line, Log, in_chunks, link, shows, taken};
use crate::test_rig::{EIGHT, Rig, make_rig};
use crate::test_uploads::{HEAD, Went, read_ahead, send};
use crate::trip_tests::{Came, EMPTY};
use gw_chunk::ChunkError;
use gw_head::Framing;
use gw_retry::Failure;
use gw_wire::{Bytes, ConnEvent, MemConn, Wire};
use std::alloc::{AllocError, Global};
use std::test::Fail;

const CONTINUE: &[u8] = b"HTTP/1.1 100 Continue\r\n\r\n";

const BODY: &[u8] = b"5\r\nhello\r\n0\r\n\r\n";

/// A body that is in chunks, or has five bytes: whether its first piece was read before the trip, and whether its client
/// waits to be told; what comes of the client's link, whether that fails behind it or ends, and how many bytes its writes
/// and the backend's take. Then what comes of the trip, how many bytes the client was told, and which; and what the
/// backend takes.
struct Row {
    chunked: bool,
    ahead: bool,
    expect: bool,
    sends: &'static [&'static [u8]],
    fails: bool,
    client_takes: &'static [u32],
    takes: &'static [u32],
    came: Came,
    continued: usize,
    told: &'static [u8],
    text: &'static [u8],
}

const SENT: [Row; 3] = [
    Row {
        chunked: true,
        ahead: true,
        expect: false,
        sends: &[BODY],
        fails: false,
        client_takes: &[],
        takes: &[],
        came: Came::Reply(200),
        continued: 0,
        told: b"",
        text: b"POST / HTTP/1.1\r\n\r\n5\r\nhello\r\n0\r\n\r\n",
    },
    Row {
        chunked: true,
        ahead: false,
        expect: false,
        sends: &[b"5\r\nhe", b"llo\r\n0", b"\r\n\r\n"],
        fails: true,
        client_takes: &[],
        takes: &[],
        came: Came::Reply(200),
        continued: 0,
        told: b"",
        text: b"POST / HTTP/1.1\r\n\r\n5\r\nhello\r\n0\r\n\r\n",
    },
    Row {
        chunked: false,
        ahead: false,
        expect: false,
        sends: &[b"hello"],
        fails: true,
        client_takes: &[],
        takes: &[2, 1],
        came: Came::Reply(200),
        continued: 0,
        told: b"",
        text: b"POST / HTTP/1.1\r\n\r\nhello",
    },
];

const TOLD: [Row; 2] = [
    Row {
        chunked: true,
        ahead: false,
        expect: true,
        sends: &[BODY],
        fails: false,
        client_takes: &[3],
        takes: &[],
        came: Came::Reply(200),
        continued: 25,
        told: CONTINUE,
        text: b"POST / HTTP/1.1\r\n\r\n5\r\nhello\r\n0\r\n\r\n",
    },
    Row {
        chunked: true,
        ahead: false,
        expect: true,
        sends: &[BODY],
        fails: false,
        client_takes: &[3, 0],
        takes: &[],
        came: Came::Over(End::ClientFailed),
        continued: 3,
        told: b"HTT",
        text: b"",
    },
];

const LOST: [Row; 3] = [
    Row {
        chunked: true,
        ahead: false,
        expect: false,
        sends: &[b"5\r\nhel"],
        fails: false,
        client_takes: &[],
        takes: &[],
        came: Came::Over(End::ClientEnd),
        continued: 0,
        told: b"",
        text: HEAD,
    },
    Row {
        chunked: true,
        ahead: false,
        expect: false,
        sends: &[b"5\r\nhello\r\n"],
        fails: true,
        client_takes: &[],
        takes: &[],
        came: Came::Over(End::ClientFailed),
        continued: 0,
        told: b"",
        text: HEAD,
    },
    Row {
        chunked: true,
        ahead: false,
        expect: false,
        sends: &[b"5\r\nhello\r\nx\n"],
        fails: false,
        client_takes: &[],
        takes: &[],
        came: Came::Over(End::Body(ChunkError::BadLine)),
        continued: 0,
        told: b"",
        text: HEAD,
    },
];

const REFUSED: [Row; 2] = [
    Row {
        chunked: true,
        ahead: false,
        expect: false,
        sends: &[BODY],
        fails: false,
        client_takes: &[],
        takes: &[0],
        came: Came::Failed(Failure::NothingWritten),
        continued: 0,
        told: b"",
        text: b"",
    },
    Row {
        chunked: true,
        ahead: false,
        expect: false,
        sends: &[BODY],
        fails: false,
        client_takes: &[],
        takes: &[100, 0],
        came: Came::Failed(Failure::Broken),
        continued: 0,
        told: b"",
        text: HEAD,
    },
];

fn framing_of(chunked: bool, length: u64) -> Framing {
    if chunked {
        Framing::Chunked
    } else {
        Framing::Length(length)
    }
}

// What comes of a row's trip.
fn come(alloc: Global, rig: &mut Rig, row: &Row) -> Result<Went, AllocError>
    requires fresh { rig.old.wire.aged ≡ false }
    requires rested { IsRested rig.old.pool }
    requires within { 0 < rig.old.pool.limits.hosts }
    requires used { rig.old.buffers.client.inbox ≡ [] }
    requires room { rig.old.buffers.out.size ≡ out_size }
{
    let one = Line {
        number: 1,
        sends: row.sends,
        fails: row.fails,
        takes: row.client_takes,
    };
    let mut client = link(alloc, &one)?;
    read_ahead(rig, &mut client, row.ahead);
    send(
        alloc,
        rig,
        &mut client,
        framing_of(row.chunked, 5),
        row.expect,
    )
}

// Whether a trip comes to what its row says, over one link to the backend, which is kept behind a reply alone.
fn is_so(alloc: Global, row: &Row) -> Result<bool, AllocError> {
    let seven = Line {
        number: 7,
        sends: &[EMPTY],
        fails: false,
        takes: row.takes,
    };
    let mut rig = make_rig(alloc, &seven)?;
    let went = come(alloc, &mut rig, row)?;
    let told = taken(alloc, rig.wire.acts(), 1)?;
    let logged = shows(alloc, rig.wire.acts(), &log_of(row))?;
    Ok(
        logged
            && went.came == row.came
            && went.continued == row.continued
            && told.as_slice() == row.told,
    )
}

fn log_of(row: &Row) -> Log {
    Log {
        dials: 1,
        closed: row.came != Came::Reply(200),
        link: 7,
        text: row.text,
    }
}

/// A body goes out as it comes, in chunks or as it is.
#[test]
fn bodies_go_out(rt: HostRuntime) -> Result<(), Fail> {
    for (at, row) in SENT.iter().enumerate() {
        assert!(rt; is_so(rt.alloc(), row)?, "row {at}");
    }
    Ok(())
}

/// A client that waits for it is told to go on, and how much of that it took is known.
#[test]
fn told_to_go_on(rt: HostRuntime) -> Result<(), Fail> {
    for (at, row) in TOLD.iter().enumerate() {
        assert!(rt; is_so(rt.alloc(), row)?, "row {at}");
    }
    Ok(())
}

/// A client that is lost inside its body, or whose body has a fault: the backend gets no last chunk.
#[test]
fn client_is_lost(rt: HostRuntime) -> Result<(), Fail> {
    for (at, row) in LOST.iter().enumerate() {
        assert!(rt; is_so(rt.alloc(), row)?, "row {at}");
    }
    Ok(())
}

/// A backend's link that takes nothing, or no more: no further attempt is made.
#[test]
fn backend_is_lost(rt: HostRuntime) -> Result<(), Fail> {
    for (at, row) in REFUSED.iter().enumerate() {
        assert!(rt; is_so(rt.alloc(), row)?, "row {at}");
    }
    Ok(())
}

const CAME: [Chunk; 5] = [
    (b"1000", 4_096),
    (b"1000", 4_096),
    (b"1000", 4_096),
    (b"1000", 4_096),
    (b"e20", 3_616),
];

const WENT: [Chunk; 3] = [(b"2000", 8_192), (b"2000", 8_192), (b"e20", 3_616)];

// A text behind which a body of 20,000 letters `x` stands as it is.
fn as_it_is(alloc: Global, head: &[u8]) -> Result<Vec<u8>, AllocError> {
    let mut text = head.to_vec(alloc)?;
    text.extend_from_slice(&vec![in alloc; b'x'; 20_000]?)?;
    Ok(text)
}

// What the backend takes of a body that comes so.
fn sent(alloc: Global, chunked: bool, body: Vec<u8>) -> Result<Vec<u8>, AllocError> {
    let events = vec![in alloc; ConnEvent::Piece(Bytes::new(body))]?;
    let mut client = MemConn::new(1, events, Vec::new(alloc));
    let mut rig = make_rig(alloc, &EIGHT)?;
    let _ = send(
        alloc,
        &mut rig,
        &mut client,
        framing_of(chunked, 20_000),
        false,
    )?;
    taken(alloc, rig.wire.acts(), 8)
}

/// A large body goes out as it is, or in chunks of at most 8,192 bytes, whatever chunks it comes in.
#[test]
fn large_bodies(rt: HostRuntime) -> Result<(), Fail> {
    let alloc = rt.alloc();
    let plain = sent(alloc, false, as_it_is(alloc, b"")?)?;
    assert!(rt; plain.as_slice() == as_it_is(alloc, HEAD)?.as_slice());
    let coded = sent(alloc, true, in_chunks(alloc, b"", &CAME)?)?;
    assert!(rt; coded.as_slice() == in_chunks(alloc, HEAD, &WENT)?.as_slice());
    Ok(())
}
