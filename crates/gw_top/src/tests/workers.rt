//! Several workers over one pool.

ghost use Rattle.std.specs.Prelude.{IsTrue, IfOk, All};
ghost use Rattle.std.specs.List.{list_all};
ghost use Rattle.gw_wire.specs.Memory.{wire_view};
ghost use Rattle.gw_wire.specs.Script.{is_clock, is_visible_peer};
ghost use Rattle.gw_wire.specs.World.{IsAlone};

use super::{
    AcceptEvent, Act, Call, ConnEvent, DialEvent, Entry, GET, MemConn, MemWire, MemWorld, Moment,
    NOW, PASSED_REPLY, PeerText, REPLY, Script, Worker, bytes, run_gateway, words, written_to,
};
use gw_wire::MeetWire;
use std::alloc::{AllocError, Global};
use std::test::Fail;

const TWO: &[u8] =
    b"{\"listen\":\"127.0.0.1:8080\",\"workers\":2,\"routes\":[{\"pattern\":\"/\",\"backend\":\"http://127.0.0.1:9000\"}]}";

const FOUR: &[u8] =
    b"{\"listen\":\"127.0.0.1:8080\",\"workers\":4,\"idle_per_host\":100,\"routes\":[{\"pattern\":\"/\",\"backend\":\"http://127.0.0.1:9000\"}]}";

const SIXTY_FOUR: &[u8] =
    b"{\"listen\":\"127.0.0.1:8080\",\"workers\":64,\"idle_per_host\":100,\"routes\":[{\"pattern\":\"/\",\"backend\":\"http://127.0.0.1:9000\"}]}";

// A link that sends this piece so many times, and ends.
fn repeats(alloc: Global, number: u64, piece: &[u8], times: u32) -> Result<MemConn, AllocError> {
    let mut events = Vec::new(alloc);
    for _ in 0..times {
        events.push(ConnEvent::Piece(bytes(alloc, piece)?))?;
    }
    Ok(MemConn::new(number, events, Vec::new(alloc)))
}

// Backends with the links from 2 on up to this one, each of which sends so many replies.
fn backends(alloc: Global, end: u64, replies: u32) -> Result<Vec<DialEvent>, AllocError> {
    let mut dials = Vec::new(alloc);
    for number in 2..end {
        dials.push(DialEvent::Conn(repeats(alloc, number, REPLY, replies)?))?;
    }
    Ok(dials)
}

// A client with link 1 that sends so many requests. A connection may go from one worker to another, so each backend has
// a reply for every request of the run.
fn script(alloc: Global, requests: u32, end: u64, replies: u32) -> Result<Script, AllocError>
    ensures clock { IfOk result (λ s. IsTrue (is_clock s.moments.items)) }
    ensures peers { IfOk result (λ s. IsTrue (list_all is_visible_peer s.accepts.items)) }
{
    let dials = backends(alloc, end, replies)?;
    let client = repeats(alloc, 1, GET, requests)?;
    let mut accepts = Vec::new(alloc);
    if let Some(peer) = PeerText::new(b"10.0.0.7") {
        accepts.push(AcceptEvent::Conn(client, peer))?;
    }
    Ok(Script {
        accepts,
        dials,
        moments: vec![in alloc; Moment { from: 0, at: NOW }]?,
        acts: 512,
        bytes: 32_768,
    })
}

// A wire with such a script.
fn busy(alloc: Global, requests: u32, end: u64, replies: u32) -> Result<MemWire, AllocError>
    ensures { IfOk result (λ wire. IsAlone (wire_view wire)) }
{
    MemWire::new(alloc, script(alloc, requests, end, replies)?)
}

// So many wires, each with a script of its own.
fn wires(
    alloc: Global,
    count: u32,
    requests: u32,
    end: u64,
    replies: u32,
) -> Result<Vec<MemWire>, AllocError>
    ensures { IfOk result (λ wires. All (λ w. IsAlone (wire_view w)) wires.items) }
{
    let mut wires = Vec::new(alloc);
    for _made in 0..count {
        wires.push(busy(alloc, requests, end, replies)?)?;
    }
    Ok(wires)
}

// Whether the clients of all wires got so many replies each, all of them the backend's, and the workers are numbered in
// their order.
fn all_served(
    alloc: Global,
    workers: &[Worker<MemWire>],
    requests: u32,
) -> Result<bool, AllocError> {
    let mut replies = Vec::new(alloc);
    for _ in 0..requests {
        replies.extend_from_slice(PASSED_REPLY)?;
    }
    for (number, worker) in workers.iter().enumerate() {
        let text = written_to(alloc, worker.wire.acts(), 1)?;
        if worker.number as usize != number
            || worker.entered != u64::from(requests)
            || text.as_slice() != replies.as_slice()
        {
            return Ok(false);
        }
    }
    Ok(true)
}

fn is_reply_to_client(act: &Act) -> bool {
    match act {
        Act::Wrote(1, text) => text.as_slice() == PASSED_REPLY,
        _ => false,
    }
}

fn has_met(worker: &Worker<MeetWire>, number: u32) -> bool {
    worker.number == number
        && worker.entered == 1
        && worker.wire.acts().iter().any(|act| is_reply_to_client(act))
}

/// Each worker's backend replies only once the other worker has passed its request on. If the second worker began when
/// the first one had ended, the first would get no reply, and this run wouldn't end in time.
#[test]
fn two_workers_meet(rt: HostRuntime) -> Result<(), Fail> {
    let alloc = rt.alloc();
    let (first, second) = MeetWire::pair(alloc, script(alloc, 1, 3, 1)?, script(alloc, 1, 3, 1)?)?;
    let mut files = Vec::new(alloc);
    files.push((bytes(alloc, b"routes.json")?, bytes(alloc, TWO)?))?;
    let mut wires = Vec::new(alloc);
    wires.push(first)?;
    wires.push(second)?;
    let mut world = MemWorld::new(alloc, files, Some(wires), true)?;
    let words = words(alloc, &["serve", "routes.json"])?;
    let report = run_gateway(&rt, alloc, words.as_slice(), &mut world);
    assert_eq!(rt; report.status, 0);
    let [zero, one] = report.workers.as_slice() else {
        panic!(rt; "not two workers");
    };
    assert!(rt; has_met(zero, 0));
    assert!(rt; has_met(one, 1));
    Ok(())
}

#[test]
fn sixty_four_workers(rt: HostRuntime) -> Result<(), Fail> {
    let alloc = rt.alloc();
    let wires = wires(alloc, 64, 1, 3, 64)?;
    let mut files = Vec::new(alloc);
    files.push((bytes(alloc, b"routes.json")?, bytes(alloc, SIXTY_FOUR)?))?;
    let mut world = MemWorld::new(alloc, files, Some(wires), true)?;
    let words = words(alloc, &["serve", "routes.json"])?;
    let report = run_gateway(&rt, alloc, words.as_slice(), &mut world);
    assert_eq!(rt; report.status, 0);
    assert_eq!(rt; report.workers.len(), 64);
    assert!(rt; all_served(alloc, report.workers.as_slice(), 1)?);
    Ok(())
}

fn is_want(entry: &Entry) -> bool {
    matches!(&entry.call, Call::Want { .. })
}

fn is_back(entry: &Entry) -> bool {
    matches!(&entry.call, Call::GiveBack { .. })
}

/// The journal tells each exchange of every worker: a connection is wanted and given back.
#[test]
fn four_workers_share(rt: HostRuntime) -> Result<(), Fail> {
    let alloc = rt.alloc();
    let wires = wires(alloc, 4, 50, 10, 200)?;
    let mut files = Vec::new(alloc);
    files.push((bytes(alloc, b"routes.json")?, bytes(alloc, FOUR)?))?;
    let mut world = MemWorld::new(alloc, files, Some(wires), true)?;
    let words = words(alloc, &["serve", "routes.json"])?;
    let report = run_gateway(&rt, alloc, words.as_slice(), &mut world);
    assert_eq!(rt; report.status, 0);
    assert_eq!(rt; report.workers.len(), 4);
    assert!(rt; all_served(alloc, report.workers.as_slice(), 50)?);
    let journal = report.journal.as_slice();
    assert_eq!(rt; journal.iter().filter(|entry| is_want(entry)).count(), 200);
    assert_eq!(rt; journal.iter().filter(|entry| is_back(entry)).count(), 200);
    assert!(rt; journal.iter().all(|entry| entry.caller < 4));
    Ok(())
}
