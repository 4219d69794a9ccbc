//! Connections to backends that are kept for later requests, or are not.

ghost use Rattle.std.specs.Prelude.{◌≡◌, ◌<◌, ◌≤◌, IfOk};
ghost use Rattle.gw_wire.specs.World.{IsAlone};
ghost use Rattle.gw_wire.specs.Memory.{wire_view};

use super::{
    AcceptEvent, Act, Call, DialEvent, Entry, MemWire, Moment, NOW, Offer, PASSED_REPLY, PeerText,
    REPLY, Reply, Script, file_of, run_gateway, sends, sends_all, words, world, written_to,
};
use std::alloc::{AllocError, Global};
use std::sync::Wait;
use std::test::Fail;
use std::thread::Threads;

// A wire with one client that sends these requests in one piece; its first backend sends these replies, and a second
// one sends one reply.
fn wire_to(alloc: Global, requests: &[u8], replies: &[&[u8]]) -> Result<MemWire, AllocError>
    ensures { IfOk result (λ wire. IsAlone (wire_view wire)) }
{
    let mut accepts = Vec::new(alloc);
    if let Some(peer) = PeerText::new(b"10.0.0.7") {
        accepts.push(AcceptEvent::Conn(sends(alloc, 1, requests)?, peer))?;
    }
    let mut dials = Vec::new(alloc);
    dials.push(DialEvent::Conn(sends_all(alloc, 2, replies)?))?;
    dials.push(DialEvent::Conn(sends(alloc, 3, REPLY)?))?;
    let moments = vec![in alloc; Moment { from: 0, at: NOW }]?;
    MemWire::new(
        alloc,
        Script {
            accepts,
            dials,
            moments,
            acts: 64,
            bytes: 4_096,
        },
    )
}

// The links of the connections that were dialed.
fn dialed(alloc: Global, acts: &[Act]) -> Result<Vec<u64>, AllocError> {
    let mut links = Vec::new(alloc);
    for act in acts {
        if let Act::Dialed(_, _, link) = act {
            links.push(*link)?;
        }
    }
    Ok(links)
}

// The links that were closed, in their order.
fn closed(alloc: Global, acts: &[Act]) -> Result<Vec<u64>, AllocError> {
    let mut links = Vec::new(alloc);
    for act in acts {
        if let Act::Closed(link) = act {
            links.push(*link)?;
        }
    }
    Ok(links)
}

// Whether the connection went idle by this entry, and none was evicted.
fn went_idle(entry: &Entry) -> bool {
    matches!(&entry.call, Call::GiveBack { .. })
        && matches!(
            &entry.reply,
            Reply::Put {
                offer: Offer::Idle { evicted: None }
            }
        )
}

// Whether the fourth entry is the last, and its connection went idle.
fn ends_idle(journal: &[Entry]) -> bool {
    match journal {
        [_, _, _, back] => went_idle(back),
        _ => false,
    }
}

/// What `Connection` names stays behind, and with it the client's `close`, which is not the backend's.
#[test]
fn hop_by_hop(rt: HostRuntime) -> Result<(), Fail> {
    let alloc = rt.alloc();
    let file = file_of(alloc, &["/"])?;
    let requests =
        b"GET / HTTP/1.1\r\nHost: example.com\r\nConnection: X-Secret, close\r\nX-Secret: 1\r\nTE: gzip, trailers\r\nKeep-Alive: 5\r\nX-Forwarded-For: 1.2.3.4\r\n\r\nGET / HTTP/1.1\r\nHost: example.com\r\n\r\n";
    let reply: &[u8] = b"HTTP/1.1 200 OK\r\nContent-Length: 0\r\n\r\n";
    let mut world = world(alloc, file.as_bytes(), wire_to(alloc, requests, &[reply])?)?;
    let words = words(alloc, &["serve", "routes.json"])?;
    let report = run_gateway(&rt, alloc, words.as_slice(), &mut world);
    assert_eq!(rt; report.status, 0);
    let acts = report.workers[0].wire.acts();
    assert_eq!(rt;
        written_to(alloc, acts, 2)?.as_slice(),
        b"GET / HTTP/1.1\r\nHost: example.com\r\nTe: trailers\r\nX-Forwarded-For: 1.2.3.4, 10.0.0.7\r\n\r\n".as_slice()
    );
    assert_eq!(rt;
        written_to(alloc, acts, 1)?.as_slice(),
        b"HTTP/1.1 200 OK\r\nConnection: close\r\nContent-Length: 0\r\nDate: Sun, 06 Nov 1994 08:49:37 GMT\r\n\r\n".as_slice()
    );
    assert!(rt; ends_idle(report.journal.as_slice()));
    assert_eq!(rt; closed(alloc, acts)?.as_slice(), [1, 2].as_slice());
    Ok(())
}

// The links that were dialed and closed for two requests whose first one is replied so, and whether the second got its
// reply.
fn links_of<R: Threads + Wait + Sync>(
    rt: &R,
    alloc: Global,
    replies: &[&[u8]],
) -> Result<(Vec<u64>, Vec<u64>, bool), Fail> {
    let file = file_of(alloc, &["/"])?;
    let requests = b"GET /1 HTTP/1.1\r\nHost: a\r\n\r\nGET /2 HTTP/1.1\r\nHost: a\r\n\r\n";
    let mut world = world(alloc, file.as_bytes(), wire_to(alloc, requests, replies)?)?;
    let words = words(alloc, &["serve", "routes.json"])?;
    let report = run_gateway(rt, alloc, words.as_slice(), &mut world);
    let [worker] = report.workers.as_slice() else {
        return Ok((Vec::new(alloc), Vec::new(alloc), false));
    };
    let acts = worker.wire.acts();
    let text = written_to(alloc, acts, 1)?;
    let replied = report.status == 0
        && worker.entered == 2
        && text.as_slice().ends_with(PASSED_REPLY);
    Ok((dialed(alloc, acts)?, closed(alloc, acts)?, replied))
}

/// A reply, and the links that were dialed for it and the next one.
type Reused = (&'static str, &'static [u64]);

const REUSED: [Reused; 9] = [
    ("HTTP/1.1 200 OK\r\nContent-Length: 2\r\n\r\nok", &[2]),
    ("HTTP/1.1 204 No Content\r\n\r\n", &[2]),
    (
        "HTTP/1.1 200 OK\r\nTransfer-Encoding: chunked\r\n\r\n2\r\nok\r\n0\r\n\r\n",
        &[2],
    ),
    ("HTTP/1.1 404 Not Found\r\nContent-Length: 0\r\n\r\n", &[2]),
    (
        "HTTP/1.1 200 OK\r\nConnection: Close\r\nContent-Length: 2\r\n\r\nok",
        &[2, 3],
    ),
    ("HTTP/1.0 200 OK\r\nContent-Length: 2\r\n\r\nok", &[2, 3]),
    ("HTTP/1.1 200 OK\r\nContent-Length: 2\r\n\r\nokX", &[2, 3]),
    (
        "HTTP/1.1 200 OK\r\nTransfer-Encoding: chunked\r\n\r\n2\r\nokX\r\n0\r\n\r\n",
        &[2, 3],
    ),
    ("HTTP/1.1 100 Continue\r\n\r\n", &[2, 3]),
];

fn first_wrong<R: Threads + Wait + Sync>(
    rt: &R,
    alloc: Global,
    rows: &[Reused],
) -> Result<Option<&'static str>, Fail> {
    for i in 0..rows.len() {
        let (reply, links) = rows[i];
        let (dialed, _, replied) = links_of(rt, alloc, &[reply.as_bytes(), REPLY])?;
        if !replied || dialed.as_slice() != links {
            return Ok(Some(reply));
        }
    }
    Ok(None)
}

/// A connection serves the next request exactly where its reply was delimited and read to its end, nothing came behind
/// it, and neither its version nor its fields say that it closes.
#[test]
fn reuse(rt: HostRuntime) -> Result<(), Fail> {
    assert_eq!(rt; first_wrong(&rt, rt.alloc(), &REUSED)?, None);
    Ok(())
}

// Whether the connection of this reply is closed before its client's, and the next request dials.
fn is_closed_at_once<R: Threads + Wait + Sync>(
    rt: &R,
    alloc: Global,
    reply: &str,
) -> Result<bool, Fail> {
    let (dialed, closed, replied) = links_of(rt, alloc, &[reply.as_bytes()])?;
    Ok(
        replied
            && dialed.as_slice() == [2, 3].as_slice()
            && closed.as_slice() == [2, 1, 3].as_slice(),
    )
}

/// A connection whose reply goes up to the link's end, or that fails, is closed, and the next request dials.
#[test]
fn ended_connections_are_closed(rt: HostRuntime) -> Result<(), Fail> {
    let alloc = rt.alloc();
    assert!(rt; is_closed_at_once(&rt, alloc, "HTTP/1.1 200 OK\r\n\r\nhello")?);
    assert!(rt;
        is_closed_at_once(
            &rt,
            alloc,
            "HTTP/1.1 200 OK\r\nContent-Length: 10\r\n\r\n1234"
        )?
    );
    assert!(rt; is_closed_at_once(&rt, alloc, "HTTP/1.1 20")?);
    Ok(())
}

/// Where the journal has no room for a further exchange, a request is answered 503.
#[test]
fn full_journal(rt: HostRuntime) -> Result<(), Fail> {
    let alloc = rt.alloc();
    let file =
        b"{\"listen\":\"127.0.0.1:8080\",\"workers\":1,\"journal\":16,\"routes\":[{\"pattern\":\"/\",\"backend\":\"http://127.0.0.1:9000\"}]}";
    let mut requests = Vec::new(alloc);
    let mut replies = Vec::new(alloc);
    for _ in 0..4 {
        requests.extend_from_slice(b"GET / HTTP/1.1\r\nHost: a\r\n\r\n")?;
        replies.extend_from_slice(PASSED_REPLY)?;
    }
    requests.extend_from_slice(b"GET / HTTP/1.1\r\nHost: a\r\n\r\n")?;
    replies.extend_from_slice(
        b"HTTP/1.1 503 Service Unavailable\r\nContent-Length: 24\r\nDate: Sun, 06 Nov 1994 08:49:37 GMT\r\n\r\n503 Service Unavailable\n",
    )?;
    let wire = wire_to(alloc, &requests, &[REPLY, REPLY, REPLY, REPLY, REPLY])?;
    let mut world = world(alloc, file, wire)?;
    let words = words(alloc, &["serve", "routes.json"])?;
    let report = run_gateway(&rt, alloc, words.as_slice(), &mut world);
    assert_eq!(rt; report.status, 0);
    let acts = report.workers[0].wire.acts();
    assert_eq!(rt; written_to(alloc, acts, 1)?.as_slice(), replies.as_slice());
    assert_eq!(rt; dialed(alloc, acts)?.as_slice(), [2].as_slice());
    assert_eq!(rt; report.journal.len(), 10);
    Ok(())
}

// A wire with two clients, one after the other, for two backends. Once the second has come the clock says `later`.
fn two_clients(alloc: Global, later: u64) -> Result<MemWire, AllocError>
    requires after { 784_111_777_000 ≤ later }
    requires year { later < 253_402_300_800_000 }
    ensures { IfOk result (λ wire. IsAlone (wire_view wire)) }
{
    let mut accepts = Vec::new(alloc);
    if let Some(peer) = PeerText::new(b"10.0.0.7") {
        accepts.push(AcceptEvent::Conn(
            sends(alloc, 1, b"GET /a HTTP/1.1\r\nHost: a\r\n\r\n")?,
            peer,
        ))?;
    }
    if let Some(peer) = PeerText::new(b"10.0.0.8") {
        accepts.push(AcceptEvent::Conn(
            sends(alloc, 3, b"GET /b HTTP/1.1\r\nHost: a\r\n\r\n")?,
            peer,
        ))?;
    }
    let mut dials = Vec::new(alloc);
    dials.push(DialEvent::Conn(sends(alloc, 2, REPLY)?))?;
    dials.push(DialEvent::Conn(sends(alloc, 4, REPLY)?))?;
    // The first client is closed by the eighth act.
    let moments = vec![in alloc; Moment { from: 0, at: NOW }, Moment { from: 8, at: later }]?;
    MemWire::new(
        alloc,
        Script {
            accepts,
            dials,
            moments,
            acts: 64,
            bytes: 4_096,
        },
    )
}

// Whether the first connection was taken out as expired before the second request's want, and both went idle.
fn expires_first(journal: &[Entry]) -> bool {
    match journal {
        [_, _, _, first, expire, want, _, _, second] => {
            went_idle(first) && is_expired(expire) && wants_the_second(want) && went_idle(second)
        }
        _ => false,
    }
}

fn is_expired(entry: &Entry) -> bool {
    matches!(
        &entry.call,
        Call::Expire {
            now: 784_111_778_001
        }
    ) && matches!(&entry.reply, Reply::Taken { conn: 0 })
}

fn wants_the_second(entry: &Entry) -> bool {
    matches!(
        &entry.call,
        Call::Want {
            host: 1,
            now: 784_111_778_001
        }
    ) && matches!(&entry.reply, Reply::Granted { want: 1 })
}

const SHORT_IDLE: &[u8] =
    b"{\"listen\":\"127.0.0.1:8080\",\"workers\":1,\"idle_ms\":1000,\"routes\":[{\"pattern\":\"/a\",\"backend\":\"http://127.0.0.1:9000\"},{\"pattern\":\"/b\",\"backend\":\"http://127.0.0.1:9001\"}]}";

/// A connection that was idle too long is closed before the next exchange, whatever its host.
#[test]
fn due_expire(rt: HostRuntime) -> Result<(), Fail> {
    let alloc = rt.alloc();
    let words = words(alloc, &["serve", "routes.json"])?;
    let mut due = world(alloc, SHORT_IDLE, two_clients(alloc, NOW + 1_001)?)?;
    let report = run_gateway(&rt, alloc, words.as_slice(), &mut due);
    assert_eq!(rt; report.status, 0);
    assert_eq!(rt;
        closed(alloc, report.workers[0].wire.acts())?.as_slice(),
        [1, 2, 3, 4].as_slice()
    );
    assert!(rt; expires_first(report.journal.as_slice()));
    Ok(())
}

/// One millisecond earlier it stays.
#[test]
fn not_due(rt: HostRuntime) -> Result<(), Fail> {
    let alloc = rt.alloc();
    let words = words(alloc, &["serve", "routes.json"])?;
    let mut early = world(alloc, SHORT_IDLE, two_clients(alloc, NOW + 1_000)?)?;
    let report = run_gateway(&rt, alloc, words.as_slice(), &mut early);
    assert_eq!(rt; report.status, 0);
    assert_eq!(rt;
        closed(alloc, report.workers[0].wire.acts())?.as_slice(),
        [1, 3, 2, 4].as_slice()
    );
    assert_eq!(rt; report.journal.len(), 8);
    Ok(())
}
