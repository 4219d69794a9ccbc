//! Requests that are passed on, and their replies.

ghost use Rattle.std.specs.Prelude.{◌≡◌, IfOk};
ghost use Rattle.gw_wire.specs.World.{IsAlone};
ghost use Rattle.gw_wire.specs.Memory.{wire_view};

use super::{
    AcceptEvent, Act, Call, ConnEvent, DialEvent, MemConn, MemWire, Moment, NOW, PASSED_GET,
    PeerText, REPLY, Report, Script, bytes, file_of, run_gateway, sends_all, traded, wire, words,
    world, written_to,
};
use std::alloc::{AllocError, Global};
use std::sync::Wait;
use std::test::Fail;
use std::thread::Threads;

/// A request and a reply, as they come and as they go.
struct Exchange {
    name: &'static str,
    request: &'static str,
    to_backend: &'static str,
    reply: &'static str,
    to_client: &'static str,
}

const EXCHANGES: [Exchange; 7] = [
    Exchange {
        name: "chunked_upload",
        request: "POST /up HTTP/1.1\r\nHost: example.com\r\nTransfer-Encoding: chunked\r\n\r\n4;x=y\r\nWiki\r\n5\r\npedia\r\n0\r\nT: 1\r\n\r\n",
        to_backend: "POST /up HTTP/1.1\r\nHost: example.com\r\nTransfer-Encoding: chunked\r\nX-Forwarded-For: 10.0.0.7\r\n\r\n9\r\nWikipedia\r\n0\r\n\r\n",
        reply: "HTTP/1.1 204 No Content\r\n\r\n",
        to_client: "HTTP/1.1 204 No Content\r\nDate: Sun, 06 Nov 1994 08:49:37 GMT\r\n\r\n",
    },
    Exchange {
        name: "bad_chunk",
        request: "POST /up HTTP/1.1\r\nHost: example.com\r\nTransfer-Encoding: chunked\r\n\r\n4\r\nWikiX\r\n0\r\n\r\n",
        to_backend: "POST /up HTTP/1.1\r\nHost: example.com\r\nTransfer-Encoding: chunked\r\nX-Forwarded-For: 10.0.0.7\r\n\r\n",
        reply: "HTTP/1.1 204 No Content\r\n\r\n",
        to_client: "HTTP/1.1 400 Bad Request\r\nConnection: close\r\nContent-Length: 16\r\nDate: Sun, 06 Nov 1994 08:49:37 GMT\r\n\r\n400 Bad Request\n",
    },
    Exchange {
        name: "old_client",
        request: "GET / HTTP/1.0\r\n\r\n",
        to_backend: "GET / HTTP/1.1\r\nHost: 127.0.0.1:9000\r\nX-Forwarded-For: 10.0.0.7\r\n\r\n",
        reply: "HTTP/1.1 200 OK\r\nTransfer-Encoding: chunked\r\n\r\n2\r\nok\r\n0\r\n\r\n",
        to_client: "HTTP/1.0 200 OK\r\nConnection: close\r\nDate: Sun, 06 Nov 1994 08:49:37 GMT\r\n\r\nok",
    },
    Exchange {
        name: "continue",
        request: "POST /up HTTP/1.1\r\nHost: example.com\r\nContent-Length: 2\r\nExpect: 100-continue\r\n\r\nok",
        to_backend: "POST /up HTTP/1.1\r\nHost: example.com\r\nContent-Length: 2\r\nX-Forwarded-For: 10.0.0.7\r\n\r\nok",
        reply: "HTTP/1.1 204 No Content\r\n\r\n",
        to_client: "HTTP/1.1 100 Continue\r\n\r\nHTTP/1.1 204 No Content\r\nDate: Sun, 06 Nov 1994 08:49:37 GMT\r\n\r\n",
    },
    Exchange {
        name: "head",
        request: "HEAD / HTTP/1.1\r\nHost: example.com\r\n\r\n",
        to_backend: "HEAD / HTTP/1.1\r\nHost: example.com\r\nX-Forwarded-For: 10.0.0.7\r\n\r\n",
        reply: "HTTP/1.1 200 OK\r\nContent-Length: 5\r\n\r\n",
        to_client: "HTTP/1.1 200 OK\r\nContent-Length: 5\r\nDate: Sun, 06 Nov 1994 08:49:37 GMT\r\n\r\n",
    },
    Exchange {
        name: "to_the_end",
        request: "GET / HTTP/1.1\r\nHost: example.com\r\n\r\n",
        to_backend: "GET / HTTP/1.1\r\nHost: example.com\r\nX-Forwarded-For: 10.0.0.7\r\n\r\n",
        reply: "HTTP/1.1 200 OK\r\n\r\nhello",
        to_client: "HTTP/1.1 200 OK\r\nDate: Sun, 06 Nov 1994 08:49:37 GMT\r\nTransfer-Encoding: chunked\r\n\r\n5\r\nhello\r\n0\r\n\r\n",
    },
    Exchange {
        name: "truncated_reply",
        request: "GET / HTTP/1.1\r\nHost: example.com\r\n\r\n",
        to_backend: "GET / HTTP/1.1\r\nHost: example.com\r\nX-Forwarded-For: 10.0.0.7\r\n\r\n",
        reply: "HTTP/1.1 200 OK\r\nContent-Length: 10\r\n\r\n1234",
        to_client: "HTTP/1.1 502 Bad Gateway\r\nContent-Length: 16\r\nDate: Sun, 06 Nov 1994 08:49:37 GMT\r\n\r\n502 Bad Gateway\n",
    },
];

// Whether an exchange goes as it should.
fn is_passed<R: Threads + Wait + Sync>(
    rt: &R,
    alloc: Global,
    file: &str,
    row: &Exchange,
) -> Result<bool, Fail> {
    let (client, backend) = traded(
        rt,
        alloc,
        file,
        row.request.as_bytes(),
        row.reply.as_bytes(),
    )?;
    Ok(
        client.as_slice() == row.to_client.as_bytes()
            && backend.as_slice() == row.to_backend.as_bytes(),
    )
}

// The name of the first exchange that goes otherwise.
fn first_wrong<R: Threads + Wait + Sync>(
    rt: &R,
    alloc: Global,
    file: &str,
    rows: &[Exchange],
) -> Result<Option<&'static str>, Fail> {
    for i in 0..rows.len() {
        if !is_passed(rt, alloc, file, &rows[i])? {
            return Ok(Some(rows[i].name));
        }
    }
    Ok(None)
}

/// Requests with their replies, as they come and as they go.
#[test]
fn passed_on(rt: HostRuntime) -> Result<(), Fail> {
    let alloc = rt.alloc();
    let file = file_of(alloc, &["/"])?;
    assert_eq!(rt; first_wrong(&rt, alloc, file.as_str(), &EXCHANGES)?, None);
    Ok(())
}

// A wire with one client whose bytes come one by one, and a backend that replies twice and ends.
fn slow_wire(alloc: Global, requests: &[u8]) -> Result<MemWire, AllocError>
    ensures { IfOk result (λ wire. IsAlone (wire_view wire)) }
{
    let mut events = Vec::new(alloc);
    for byte in requests {
        events.push(ConnEvent::Piece(bytes(alloc, &[*byte])?))?;
    }
    let mut accepts = Vec::new(alloc);
    if let Some(peer) = PeerText::new(b"10.0.0.7") {
        accepts.push(AcceptEvent::Conn(MemConn::new(1, events, Vec::new(alloc)), peer))?;
    }
    let mut dials = Vec::new(alloc);
    dials.push(DialEvent::Conn(sends_all(alloc, 2, &[REPLY, REPLY])?))?;
    let moments = vec![in alloc; Moment { from: 0, at: NOW }]?;
    MemWire::new(
        alloc,
        Script {
            accepts,
            dials,
            moments,
            acts: 1_024,
            bytes: 8_192,
        },
    )
}

// Ten requests behind one another, and what each is answered.
const MIXED: [(&str, &str); 10] = [
    (
        "GET /hello?x=1 HTTP/1.1\r\nHost: example.com\r\nUser-Agent: curl/8.5.0\r\nAccept: */*\r\n\r\n",
        "HTTP/1.1 200 OK\r\nContent-Length: 3\r\nContent-Type: text/plain\r\nDate: Sun, 06 Nov 1994 08:49:37 GMT\r\n\r\nhi\n",
    ),
    (
        "GET /none HTTP/1.1\r\nHost: a\r\n\r\n",
        "HTTP/1.1 404 Not Found\r\nContent-Length: 14\r\nDate: Sun, 06 Nov 1994 08:49:37 GMT\r\n\r\n404 Not Found\n",
    ),
    (
        "HEAD /none HTTP/1.1\r\nHost: a\r\n\r\n",
        "HTTP/1.1 404 Not Found\r\nContent-Length: 14\r\nDate: Sun, 06 Nov 1994 08:49:37 GMT\r\n\r\n",
    ),
    (
        "POST /up HTTP/1.1\r\nHost: a\r\nContent-Length: 2\r\n\r\nok",
        "HTTP/1.1 200 OK\r\nContent-Length: 3\r\nContent-Type: text/plain\r\nDate: Sun, 06 Nov 1994 08:49:37 GMT\r\n\r\nhi\n",
    ),
    (
        "OPTIONS * HTTP/1.1\r\nHost: a\r\n\r\n",
        "HTTP/1.1 200 OK\r\nContent-Length: 0\r\nDate: Sun, 06 Nov 1994 08:49:37 GMT\r\n\r\n",
    ),
    (
        "GET /up HTTP/1.1\r\nHost: a\r\n\r\n",
        "HTTP/1.1 405 Method Not Allowed\r\nAllow: POST\r\nContent-Length: 23\r\nDate: Sun, 06 Nov 1994 08:49:37 GMT\r\n\r\n405 Method Not Allowed\n",
    ),
    (
        "GET /x//y HTTP/1.1\r\nHost: a\r\n\r\n",
        "HTTP/1.1 301 Moved Permanently\r\nContent-Length: 0\r\nDate: Sun, 06 Nov 1994 08:49:37 GMT\r\nLocation: /x/y\r\n\r\n",
    ),
    (
        "\r\nGET /none HTTP/1.1\r\nHost: a\r\nContent-Length: 0\r\n\r\n",
        "HTTP/1.1 404 Not Found\r\nContent-Length: 14\r\nDate: Sun, 06 Nov 1994 08:49:37 GMT\r\n\r\n404 Not Found\n",
    ),
    (
        "POST /up HTTP/1.1\r\nHost: a\r\nTransfer-Encoding: chunked\r\n\r\n2\r\nok\r\n0\r\n\r\n",
        "HTTP/1.1 502 Bad Gateway\r\nContent-Length: 16\r\nDate: Sun, 06 Nov 1994 08:49:37 GMT\r\n\r\n502 Bad Gateway\n",
    ),
    (
        "OPTIONS * HTTP/1.1\r\nHost: a\r\nConnection: close\r\n\r\n",
        "HTTP/1.1 200 OK\r\nConnection: close\r\nContent-Length: 0\r\nDate: Sun, 06 Nov 1994 08:49:37 GMT\r\n\r\n",
    ),
];

/// Requests behind one another are answered in their order, however they are cut. Two are passed on over one
/// connection, and the third that is meets its end.
#[test]
fn pipeline(rt: HostRuntime) -> Result<(), Fail> {
    let alloc = rt.alloc();
    let file = file_of(alloc, &["/hello", "POST /up"])?;
    let mut requests = Vec::new(alloc);
    let mut replies = Vec::new(alloc);
    for (request, reply) in MIXED {
        requests.extend_from_slice(request.as_bytes())?;
        replies.extend_from_slice(reply.as_bytes())?;
    }
    let mut world = world(alloc, file.as_bytes(), slow_wire(alloc, &requests)?)?;
    let words = words(alloc, &["serve", "routes.json"])?;
    let report = run_gateway(&rt, alloc, words.as_slice(), &mut world);
    assert_eq!(rt; report.status, 0);
    assert_eq!(rt; report.workers[0].entered, 10);
    let acts = report.workers[0].wire.acts();
    assert_eq!(rt; written_to(alloc, acts, 1)?.as_slice(), replies.as_slice());
    let mut passed = PASSED_GET.to_vec(alloc)?;
    passed.extend_from_slice(
        b"POST /up HTTP/1.1\r\nHost: a\r\nContent-Length: 2\r\nX-Forwarded-For: 10.0.0.7\r\n\r\nok",
    )?;
    passed.extend_from_slice(
        b"POST /up HTTP/1.1\r\nHost: a\r\nTransfer-Encoding: chunked\r\nX-Forwarded-For: 10.0.0.7\r\n\r\n2\r\nok\r\n0\r\n\r\n",
    )?;
    assert_eq!(rt; written_to(alloc, acts, 2)?.as_slice(), passed.as_slice());
    Ok(())
}

/// A base stands before the path.
#[test]
fn base_before_path(rt: HostRuntime) -> Result<(), Fail> {
    let alloc = rt.alloc();
    let file =
        "{\"listen\":\"127.0.0.1:8080\",\"workers\":1,\"routes\":[{\"pattern\":\"/\",\"backend\":\"http://127.0.0.1:9000/api/\"}]}";
    let (_, backend) = traded(
        &rt,
        alloc,
        file,
        b"GET /x?y HTTP/1.1\r\nHost: a\r\n\r\n",
        REPLY,
    )?;
    assert_eq!(rt;
        backend.as_slice(),
        b"GET /api/x?y HTTP/1.1\r\nHost: a\r\nX-Forwarded-For: 10.0.0.7\r\n\r\n".as_slice()
    );
    Ok(())
}

// Where a request with this host was passed on to: the backend's number, the dialed port, and the host of the want.
fn passed_to<R: Threads + Wait + Sync>(
    rt: &R,
    alloc: Global,
    file: &[u8],
    host: &str,
) -> Result<(u8, u32, u16, u32), Fail> {
    let mut request = b"GET / HTTP/1.1\r\nHost: ".to_vec(alloc)?;
    request.extend_from_slice(host.as_bytes())?;
    request.extend_from_slice(b"\r\n\r\n")?;
    let mut world = world(alloc, file, wire(alloc, &request, REPLY)?)?;
    let words = words(alloc, &["serve", "routes.json"])?;
    let report = run_gateway(rt, alloc, words.as_slice(), &mut world);
    let (number, port) = dialed_to(&report);
    Ok((report.status, number, port, wanted(&report)))
}

fn dialed_to(report: &Report<MemWire>) -> (u32, u16) {
    let [worker] = report.workers.as_slice() else {
        return (9, 9);
    };
    match worker.wire.acts() {
        [_, _, Act::Dialed(at, addr, 2), ..] => (*at, addr.port),
        _ => (9, 9),
    }
}

fn wanted(report: &Report<MemWire>) -> u32 {
    let [want, ..] = report.journal.as_slice() else {
        return 9;
    };
    match &want.call {
        Call::Want { host, now: _ } => *host,
        _ => 9,
    }
}

/// The host decides without its port, and each route has its own backend.
#[test]
fn hosts_and_backends(rt: HostRuntime) -> Result<(), Fail> {
    let alloc = rt.alloc();
    let file =
        b"{\"listen\":\"127.0.0.1:8080\",\"workers\":1,\"routes\":[{\"pattern\":\"/\",\"backend\":\"http://127.0.0.1:9000\"},{\"pattern\":\"b.example/\",\"backend\":\"http://127.0.0.1:9001\"}]}";
    assert_eq!(rt; passed_to(&rt, alloc, file, "a.example")?, (0, 0, 9_000, 0));
    assert_eq!(rt;
        passed_to(&rt, alloc, file, "b.example:80")?,
        (0, 1, 9_001, 1)
    );
    Ok(())
}
