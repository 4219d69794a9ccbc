//! Whole runs over a world in memory.

ghost use Rattle.std.specs.Prelude.{◌≡◌, IfOk, [], ◌∷◌};
ghost use Rattle.gw_wire.specs.World.{IsAlone};
ghost use Rattle.gw_wire.specs.Memory.{wire_view};

mod commands;
mod passing;
mod replies;
mod reuse;
mod runs;
mod stops;
mod workers;

use super::*;
use gw_pool::{Call, Entry, Offer, Reply};
use gw_wire::{
    AcceptEvent, Act, Bytes, ConnEvent, DialEvent, MemConn, MemWire, MemWorld, Moment, PeerText,
    Script,
};
use std::alloc::{AllocError, Global};
use std::sync::Wait;
use std::test::Fail;
use std::thread::Threads;

const NOW: u64 = 784_111_777_000;

const FILE: &[u8] =
    b"{\"listen\":\"127.0.0.1:8080\",\"workers\":1,\"routes\":[{\"pattern\":\"/\",\"backend\":\"http://127.0.0.1:9000\"}]}";

const GET: &[u8] =
    b"GET /hello?x=1 HTTP/1.1\r\nHost: example.com\r\nUser-Agent: curl/8.5.0\r\nAccept: */*\r\n\r\n";

// What the backend gets of it.
const PASSED_GET: &[u8] =
    b"GET /hello?x=1 HTTP/1.1\r\nHost: example.com\r\nAccept: */*\r\nUser-Agent: curl/8.5.0\r\nX-Forwarded-For: 10.0.0.7\r\n\r\n";

const REPLY: &[u8] =
    b"HTTP/1.1 200 OK\r\nContent-Type: text/plain\r\nContent-Length: 3\r\n\r\nhi\n";

// What the client gets of it.
const PASSED_REPLY: &[u8] =
    b"HTTP/1.1 200 OK\r\nContent-Length: 3\r\nContent-Type: text/plain\r\nDate: Sun, 06 Nov 1994 08:49:37 GMT\r\n\r\nhi\n";

fn bytes(alloc: Global, text: &[u8]) -> Result<Bytes, AllocError> {
    Ok(Bytes::new(text.to_vec(alloc)?))
}

// A link that sends these bytes in one piece and ends, and takes all that is written to it.
fn sends(alloc: Global, number: u64, text: &[u8]) -> Result<MemConn, AllocError> {
    let mut events = Vec::new(alloc);
    events.push(ConnEvent::Piece(bytes(alloc, text)?))?;
    Ok(MemConn::new(number, events, Vec::new(alloc)))
}

// A wire with one client that sends a request, and one backend that sends a reply.
fn wire(alloc: Global, request: &[u8], reply: &[u8]) -> Result<MemWire, AllocError>
    ensures { IfOk result (λ wire. IsAlone (wire_view wire)) }
{
    let mut accepts = Vec::new(alloc);
    if let Some(peer) = PeerText::new(b"10.0.0.7") {
        accepts.push(AcceptEvent::Conn(sends(alloc, 1, request)?, peer))?;
    }
    let mut dials = Vec::new(alloc);
    dials.push(DialEvent::Conn(sends(alloc, 2, reply)?))?;
    let moments = vec![in alloc; Moment { from: 0, at: NOW }]?;
    MemWire::new(
        alloc,
        Script {
            accepts,
            dials,
            moments,
            acts: 32,
            bytes: 1_024,
        },
    )
}

// A world with one route file and one wire.
fn world(alloc: Global, file: &[u8], wire: MemWire) -> Result<MemWorld<MemWire>, AllocError>
    requires { IsAlone (wire_view wire) }
{
    let mut files = Vec::new(alloc);
    files.push((bytes(alloc, b"routes.json")?, bytes(alloc, file)?))?;
    let mut wires = Vec::new(alloc);
    wires.push(wire)?;
    MemWorld::new(alloc, files, Some(wires), true)
}

fn words(alloc: Global, words: &[&str]) -> Result<Vec<String>, AllocError> {
    let mut made = Vec::new(alloc);
    for word in words.iter() {
        made.push(String::from_str(alloc, word)?)?;
    }
    Ok(made)
}

// A link that sends these pieces one after another and ends.
fn sends_all(alloc: Global, number: u64, pieces: &[&[u8]]) -> Result<MemConn, AllocError> {
    let mut events = Vec::new(alloc);
    for piece in pieces {
        events.push(ConnEvent::Piece(bytes(alloc, piece)?))?;
    }
    Ok(MemConn::new(number, events, Vec::new(alloc)))
}

// The status of a command that ends, and what it printed.
fn tells(alloc: Global, spoken: &[&str], file: &str, prints: bool) -> Result<(u8, Vec<u8>), Fail> {
    let mut files = Vec::new(alloc);
    files.push((bytes(alloc, b"f")?, bytes(alloc, file.as_bytes())?))?;
    let none: Option<Vec<MemWire>> = None;
    let mut world = MemWorld::new(alloc, files, none, prints)?;
    let words = words(alloc, spoken)?;
    let status = run_plain(alloc, words.as_slice(), &mut world);
    Ok((status, world.printed().to_vec(alloc)?))
}

// A file with these patterns, each to the same backend.
fn file_of(alloc: Global, patterns: &[&str]) -> Result<String, Fail> {
    let mut text = String::from_str(
        alloc,
        "{\"listen\":\"127.0.0.1:8080\",\"workers\":1,\"routes\":[",
    )?;
    for (i, pattern) in patterns.iter().enumerate() {
        if i > 0 {
            text.push_str(",")?;
        }
        text.push_str("{\"pattern\":\"")?;
        text.push_str(pattern)?;
        text.push_str("\",\"backend\":\"http://127.0.0.1:9000\"}")?;
    }
    text.push_str("]}")?;
    Ok(text)
}

// What was written to a link in a run.
fn written_to(alloc: Global, acts: &[Act], link: u64) -> Result<Vec<u8>, AllocError> {
    let mut text = Vec::new(alloc);
    for act in acts {
        if let Act::Wrote(at, piece) = act {
            if *at == link {
                text.extend_from_slice(piece.as_slice())?;
            }
        }
    }
    Ok(text)
}

// What the only client of a run was written, and what the backend that it was passed on to.
fn traded<R: Threads + Wait + Sync>(
    rt: &R,
    alloc: Global,
    file: &str,
    request: &[u8],
    reply: &[u8],
) -> Result<(Vec<u8>, Vec<u8>), Fail> {
    let mut world = world(alloc, file.as_bytes(), wire(alloc, request, reply)?)?;
    let words = words(alloc, &["serve", "routes.json"])?;
    let report = run_gateway(rt, alloc, words.as_slice(), &mut world);
    match report.workers.as_slice() {
        [worker] => Ok((
            written_to(alloc, worker.wire.acts(), 1)?,
            written_to(alloc, worker.wire.acts(), 2)?,
        )),
        _ => Ok((Vec::new(alloc), Vec::new(alloc))),
    }
}

// What the only client of a run was written.
fn answered<R: Threads + Wait + Sync>(
    rt: &R,
    alloc: Global,
    file: &str,
    request: &[u8],
) -> Result<Vec<u8>, Fail> {
    let (client, _) = traded(rt, alloc, file, request, REPLY)?;
    Ok(client)
}
