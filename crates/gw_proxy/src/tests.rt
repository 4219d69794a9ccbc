//! What is sent, byte for byte.
ghost use Rattle.std.specs.Prelude.{◌<◌, IfSome, IsTrue};
ghost use Rattle.gw_proxy.specs.OutReply.{is_own};

use crate::{OutHead, Own, out_reply_head, out_request, own_reply, sent_framing};
use gw_body::reply_framing;
use gw_head::{Framing, HeadReader, Step};
use gw_wire::{Addr, Bytes, PeerText};
use http::Method;
use std::alloc::{AllocError, Global};
use std::test::Fail;

const NOW: u64 = 784_111_777_000;

const BACKEND: Addr = Addr {
    local: false,
    ip: [127, 0, 0, 1],
    port: 9000,
};

fn bytes_of(alloc: Global, text: &str) -> Result<Bytes, AllocError> {
    Ok(Bytes::new(text.as_bytes().to_vec(alloc)?))
}

// The request with this head as it goes to the backend, for a client at 10.0.0.7; `None` where the head is refused.
fn sent(alloc: Global, head: &str, base: &str, addr: &Addr) -> Result<Option<OutHead>, Fail> {
    let Step::Head(request) = HeadReader::new(alloc)?.feed_request(head.as_bytes()).step else {
        return Ok(None);
    };
    let Some(peer) = PeerText::new(b"10.0.0.7") else {
        return Ok(None);
    };
    Ok(Some(out_request(alloc, &request, base.as_bytes(), addr, &peer)?))
}

const ONE_GET: [&str; 2] = [
    "GET /hello?x=1 HTTP/1.1\r\nHost: example.com\r\nUser-Agent: curl/8.5.0\r\nAccept: */*\r\n\r\n",
    "GET /hello?x=1 HTTP/1.1\r\nHost: example.com\r\nAccept: */*\r\nUser-Agent: curl/8.5.0\r\nX-Forwarded-For: 10.0.0.7\r\n\r\n",
];

const HOP_BY_HOP: [&str; 2] = [
    "GET / HTTP/1.1\r\nHost: example.com\r\nConnection: X-Secret, close\r\nX-Secret: 1\r\nTE: gzip, trailers\r\nKeep-Alive: 5\r\nX-Forwarded-For: 1.2.3.4\r\n\r\n",
    "GET / HTTP/1.1\r\nHost: example.com\r\nTe: trailers\r\nX-Forwarded-For: 1.2.3.4, 10.0.0.7\r\n\r\n",
];

const CHUNKED: [&str; 2] = [
    "POST /up HTTP/1.1\r\nHost: example.com\r\nTransfer-Encoding: Chunked\r\n\r\n",
    "POST /up HTTP/1.1\r\nHost: example.com\r\nTransfer-Encoding: chunked\r\nX-Forwarded-For: 10.0.0.7\r\n\r\n",
];

const OLD_CLIENT: [&str; 2] = [
    "GET / HTTP/1.0\r\n\r\n",
    "GET / HTTP/1.1\r\nHost: 127.0.0.1:9000\r\nX-Forwarded-For: 10.0.0.7\r\n\r\n",
];

const EMPTY_HOST: [&str; 2] = [
    "GET / HTTP/1.1\r\nHost:\r\n\r\n",
    "GET / HTTP/1.1\r\nHost: 127.0.0.1:9000\r\nX-Forwarded-For: 10.0.0.7\r\n\r\n",
];

const CONTINUE: [&str; 2] = [
    "POST /up HTTP/1.1\r\nHost: a:81\r\nExpect: 100-continue\r\nContent-Length: 002\r\nCONTENT-LENGTH: 002\r\n\r\n",
    "POST /up HTTP/1.1\r\nHost: a:81\r\nContent-Length: 2\r\nX-Forwarded-For: 10.0.0.7\r\n\r\n",
];

// The host of the target goes before that of the field, and the names that `Connection` lists change neither framing
// nor host.
const NAMED: [&str; 2] = [
    "PUT http://b.example?q HTTP/1.1\r\nHost: a\r\nConnection: host, content-length, x-forwarded-for, te\r\nX-Forwarded-For: 1.1.1.1\r\nContent-Length: 7\r\nTE: trailers;q=1\r\n\r\n",
    "PUT /?q HTTP/1.1\r\nHost: b.example\r\nContent-Length: 7\r\nX-Forwarded-For: 10.0.0.7\r\n\r\n",
];

const FORWARDED: [&str; 2] = [
    "GET /?? HTTP/1.1\r\nX-FORWARDED-FOR: 1.1.1.1 ,2.2.2.2\r\nhost: a\r\nx-forwarded-for:\r\nUpgrade: h2c\r\nX-Forwarded-For: 3.3.3.3\r\n\r\n",
    "GET /?? HTTP/1.1\r\nHost: a\r\nX-Forwarded-For: 1.1.1.1 ,2.2.2.2, , 3.3.3.3, 10.0.0.7\r\n\r\n",
];

const STAR: [&str; 2] = [
    "OPTIONS * HTTP/1.1\r\nHost: a\r\n\r\n",
    "OPTIONS * HTTP/1.1\r\nHost: a\r\nX-Forwarded-For: 10.0.0.7\r\n\r\n",
];

const REQUESTS: [[&str; 2]; 9] = [
    ONE_GET, HOP_BY_HOP, CHUNKED, OLD_CLIENT, EMPTY_HOST, CONTINUE, NAMED, FORWARDED, STAR,
];

// Whether just this text is sent for the request.
fn is_sent_as(
    alloc: Global,
    head: &str,
    base: &str,
    addr: &Addr,
    text: &str,
) -> Result<bool, Fail> {
    match sent(alloc, head, base, addr)? {
        Some(out) => Ok(out.bytes.as_slice() == text.as_bytes()),
        None => Ok(false),
    }
}

#[test]
fn requests_to_a_backend(rt: HostRuntime) -> Result<(), Fail> {
    for [head, text] in &REQUESTS {
        assert!(rt; is_sent_as(rt.alloc(), head, "", &BACKEND, text)?, "{head}");
    }
    Ok(())
}

const LOCAL: Addr = Addr {
    local: true,
    ip: [127, 0, 0, 1],
    port: 80,
};

/// A base, a target, and the target that is sent.
type BaseRow = (&'static str, &'static str, &'static str);

const BASES: [BaseRow; 8] = [
    ("/api/", "/x", "/api/x"),
    ("/api", "/", "/api/"),
    ("", "/x", "/x"),
    ("/api", "/x?y=/z", "/api/x?y=/z"),
    ("/api/", "/", "/api/"),
    ("/", "/x", "/x"),
    ("//", "//x", "///x"),
    ("/a", "/?", "/a/?"),
];

fn is_joined(alloc: Global, row: &BaseRow) -> Result<bool, Fail> {
    let (base, target, expected) = *row;
    let head = format!(in alloc; "GET {target} HTTP/1.0\r\n\r\n")?;
    let text = format!(in alloc;
        "GET {expected} HTTP/1.1\r\nHost: localhost:80\r\nX-Forwarded-For: 10.0.0.7\r\n\r\n"
    )?;
    is_sent_as(alloc, &head, base, &LOCAL, &text)
}

#[test]
fn joining_a_base(rt: HostRuntime) -> Result<(), Fail> {
    for row in &BASES {
        assert!(rt; is_joined(rt.alloc(), row)?, "{}", row.1);
    }
    Ok(())
}

/// Field lines, and whether they tell a request that is sent again.
type KeyRow = (&'static str, bool);

const KEYS: [KeyRow; 5] = [
    ("Idempotency-Key: 1\r\n", true),
    ("x-idempotency-key:\r\n", true),
    ("Idempotency-Keys: 1\r\n", false),
    (
        "Idempotency-Key: 1\r\nConnection: Idempotency-Key\r\n",
        false,
    ),
    ("", false),
];

fn has_key_as(alloc: Global, row: &KeyRow) -> Result<bool, Fail> {
    let (lines, expected) = *row;
    let head = format!(in alloc; "POST / HTTP/1.1\r\nHost: a\r\n{lines}\r\n")?;
    match sent(alloc, &head, "", &BACKEND)? {
        Some(out) => Ok(out.has_key == expected && out.method.as_str() == "POST"),
        None => Ok(false),
    }
}

#[test]
fn keys_that_are_sent(rt: HostRuntime) -> Result<(), Fail> {
    for row in &KEYS {
        assert!(rt; has_key_as(rt.alloc(), row)?, "{}", row.0);
    }
    Ok(())
}

// A client: its method, whether it speaks HTTP/1.0, and whether its link closes.
type Client = (&'static str, bool, bool);

const NEW: Client = ("GET", false, false);

const OLD: Client = ("GET", true, true);

// The head of a backend's reply as it goes to the client, `None` where it is refused.
fn answered(alloc: Global, head: &str, client: Client) -> Result<Option<Vec<u8>>, Fail> {
    let Step::Head(reply) = HeadReader::new(alloc)?.feed_reply(head.as_bytes()).step else {
        return Ok(None);
    };
    let (name, old, close) = client;
    let Ok(method) = Method::from_bytes(alloc, name.as_bytes()) else {
        return Ok(None);
    };
    let framing = reply_framing(&reply, &method);
    Ok(Some(out_reply_head(alloc, &reply, framing, &method, old, close, NOW)?))
}

/// A backend's head, the client, and the head that it gets.
type ReplyRow = (&'static str, Client, &'static str);

const REPLIES: [ReplyRow; 10] = [
    (
        "HTTP/1.1 200 OK\r\nContent-Type: text/plain\r\nContent-Length: 3\r\n\r\n",
        NEW,
        "HTTP/1.1 200 OK\r\nContent-Length: 3\r\nContent-Type: text/plain\r\nDate: Sun, 06 Nov 1994 08:49:37 GMT\r\n\r\n",
    ),
    (
        "HTTP/1.1 200 OK\r\nTransfer-Encoding: chunked\r\n\r\n",
        OLD,
        "HTTP/1.0 200 OK\r\nConnection: close\r\nDate: Sun, 06 Nov 1994 08:49:37 GMT\r\n\r\n",
    ),
    (
        "HTTP/1.1 200 OK\r\nTransfer-Encoding: chunked\r\n\r\n",
        NEW,
        "HTTP/1.1 200 OK\r\nDate: Sun, 06 Nov 1994 08:49:37 GMT\r\nTransfer-Encoding: chunked\r\n\r\n",
    ),
    (
        "HTTP/1.0 299 Own\r\n\r\n",
        NEW,
        "HTTP/1.1 299 \r\nDate: Sun, 06 Nov 1994 08:49:37 GMT\r\nTransfer-Encoding: chunked\r\n\r\n",
    ),
    (
        "HTTP/1.0 404 No\r\nServer: b\r\n\r\n",
        OLD,
        "HTTP/1.0 404 Not Found\r\nConnection: close\r\nDate: Sun, 06 Nov 1994 08:49:37 GMT\r\nServer: b\r\n\r\n",
    ),
    (
        "HTTP/1.1 200 OK\r\nContent-Length: 5\r\n\r\n",
        OLD,
        "HTTP/1.0 200 OK\r\nConnection: close\r\nContent-Length: 5\r\nDate: Sun, 06 Nov 1994 08:49:37 GMT\r\n\r\n",
    ),
    (
        "HTTP/1.1 204 No Content\r\nContent-Length: 0\r\n\r\n",
        NEW,
        "HTTP/1.1 204 No Content\r\nDate: Sun, 06 Nov 1994 08:49:37 GMT\r\n\r\n",
    ),
    (
        "HTTP/1.1 304 Not Modified\r\nContent-Length: 9\r\nETag: x\r\nDate: then\r\n\r\n",
        ("GET", false, true),
        "HTTP/1.1 304 Not Modified\r\nConnection: close\r\nContent-Length: 9\r\nDate: then\r\nEtag: x\r\n\r\n",
    ),
    (
        "HTTP/1.1 200 OK\r\nContent-Length: 007\r\nConnection: date, x-a\r\nX-A: 1\r\nDate: then\r\nSet-Cookie: b\r\nSet-Cookie: a\r\n\r\n",
        ("HEAD", false, false),
        "HTTP/1.1 200 OK\r\nContent-Length: 7\r\nDate: Sun, 06 Nov 1994 08:49:37 GMT\r\nSet-Cookie: b\r\nSet-Cookie: a\r\n\r\n",
    ),
    (
        "HTTP/1.1 200 OK\r\nTransfer-Encoding: chunked\r\n\r\n",
        ("HEAD", false, false),
        "HTTP/1.1 200 OK\r\nDate: Sun, 06 Nov 1994 08:49:37 GMT\r\n\r\n",
    ),
];

fn is_answered_as(alloc: Global, row: &ReplyRow) -> Result<bool, Fail> {
    let (head, client, text) = *row;
    match answered(alloc, head, client)? {
        Some(out) => Ok(out.as_slice() == text.as_bytes()),
        None => Ok(false),
    }
}

#[test]
fn replies_to_a_client(rt: HostRuntime) -> Result<(), Fail> {
    for row in &REPLIES {
        assert!(rt; is_answered_as(rt.alloc(), row)?, "{}", row.0);
    }
    Ok(())
}

#[test]
fn bodies_to_a_client(rt: HostRuntime) {
    let table = [
        (Framing::None, Framing::None, Framing::None),
        (Framing::Length(3), Framing::Length(3), Framing::Length(3)),
        (Framing::Chunked, Framing::Chunked, Framing::ToEnd),
        (Framing::ToEnd, Framing::Chunked, Framing::ToEnd),
    ];
    for (framing, new, old) in table {
        assert_eq!(rt; sent_framing(framing, false), new);
        assert_eq!(rt; sent_framing(framing, true), old);
    }
}

/// The code of a plain reply, its phrase and the length of its body.
type PlainRow = (u16, &'static str, u64);

const PLAIN: [PlainRow; 11] = [
    (200, "OK", 7),
    (400, "Bad Request", 16),
    (404, "Not Found", 14),
    (405, "Method Not Allowed", 23),
    (417, "Expectation Failed", 23),
    (431, "Request Header Fields Too Large", 36),
    (501, "Not Implemented", 20),
    (502, "Bad Gateway", 16),
    (503, "Service Unavailable", 24),
    (504, "Gateway Timeout", 20),
    (505, "HTTP Version Not Supported", 31),
];

// The plain reply with this code, where there is one.
fn plain(code: u16) -> Option<Own>
    ensures { IfSome result (λ own. IsTrue (is_own own)) }
{
    match code {
        200 | 400 | 404 | 405 | 417 | 431 | 501..=505 => Some(Own::Plain(code)),
        _ => None,
    }
}

const DATE: &str = "Date: Sun, 06 Nov 1994 08:49:37 GMT";

// Whether just this text is the reply.
fn is_said(
    alloc: Global,
    own: &Own,
    method: &Method,
    closes: bool,
    now: u64,
    text: &str,
) -> Result<bool, Fail>
    requires known { IsTrue (is_own own.now) }
    requires dated { now < 253_402_300_800_000 }
{
    Ok(own_reply(alloc, own, method, closes, closes, now)?.as_slice() == text.as_bytes())
}

fn is_plain_as(alloc: Global, row: &PlainRow) -> Result<bool, Fail> {
    let (code, phrase, length) = *row;
    let Some(own) = plain(code) else {
        return Ok(false);
    };
    let kept = format!(in alloc;
        "HTTP/1.1 {code} {phrase}\r\nContent-Length: {length}\r\n{DATE}\r\n\r\n{code} {phrase}\n"
    )?;
    let closed = format!(in alloc;
        "HTTP/1.0 {code} {phrase}\r\nConnection: close\r\nContent-Length: {length}\r\n{DATE}\r\n\r\n"
    )?;
    Ok(
        is_said(alloc, &own, &Method::GET, false, NOW, &kept)?
            && is_said(alloc, &own, &Method::HEAD, true, NOW + 999, &closed)?,
    )
}

#[test]
fn plain_replies(rt: HostRuntime) -> Result<(), Fail> {
    for row in &PLAIN {
        assert!(rt; is_plain_as(rt.alloc(), row)?, "{}", row.0);
    }
    Ok(())
}

const OPTIONS: &str =
    "HTTP/1.1 200 OK\r\nContent-Length: 0\r\nDate: Sun, 06 Nov 1994 08:49:37 GMT\r\n\r\n";

const STOPPED: &str =
    "HTTP/1.1 200 OK\r\nContent-Length: 7\r\nDate: Sun, 06 Nov 1994 08:49:37 GMT\r\n\r\n200 OK\n";

const MOVED: &str =
    "HTTP/1.1 301 Moved Permanently\r\nContent-Length: 0\r\nDate: Sun, 06 Nov 1994 08:49:37 GMT\r\nLocation: /a/c?x=1\r\n\r\n";

const NOT_ALLOWED: &str =
    "HTTP/1.1 405 Method Not Allowed\r\nAllow: GET, HEAD\r\nContent-Length: 23\r\nDate: Sun, 06 Nov 1994 08:49:37 GMT\r\n\r\n405 Method Not Allowed\n";

#[test]
fn other_own_replies(rt: HostRuntime) -> Result<(), Fail> {
    let alloc = rt.alloc();
    let post = Method::POST;
    assert!(rt;
        is_said(alloc, &Own::Options, &post, false, NOW, OPTIONS)?,
        "options"
    );
    assert!(rt;
        is_said(alloc, &Own::Stopped, &post, false, NOW, STOPPED)?,
        "stopped"
    );
    let moved = Own::Moved(bytes_of(alloc, "/a/c?x=1")?);
    assert!(rt; is_said(alloc, &moved, &post, false, NOW, MOVED)?, "moved");
    let methods = Own::NotAllowed(vec![in alloc; Method::GET, Method::HEAD]?);
    assert!(rt;
        is_said(alloc, &methods, &post, false, NOW, NOT_ALLOWED)?,
        "not allowed"
    );
    Ok(())
}
