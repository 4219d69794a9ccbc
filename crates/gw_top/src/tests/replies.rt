//! Replies of the gateway's own.

use super::{PASSED_REPLY, answered, file_of};
use std::alloc::Global;
use std::sync::Wait;
use std::test::Fail;
use std::thread::Threads;

/// What a client sends, and what it is answered.
type Row = (&'static str, &'static str);

// The first row whose text, with this behind it, is answered otherwise.
fn first_wrong<R: Threads + Wait + Sync>(
    rt: &R,
    alloc: Global,
    file: &str,
    rows: &[Row],
    back: &[u8],
) -> Result<Option<&'static str>, Fail> {
    for i in 0..rows.len() {
        let (front, reply) = rows[i];
        let mut request = front.as_bytes().to_vec(alloc)?;
        request.extend_from_slice(back)?;
        let said = answered(rt, alloc, file, &request)?;
        if said.as_slice() != reply.as_bytes() {
            return Ok(Some(front));
        }
    }
    Ok(None)
}

const UNROUTED: [Row; 3] = [
    (
        "GET /a//b/../c?x=1",
        "HTTP/1.1 301 Moved Permanently\r\nContent-Length: 0\r\nDate: Sun, 06 Nov 1994 08:49:37 GMT\r\nLocation: /a/c?x=1\r\n\r\n",
    ),
    (
        "GET /q",
        "HTTP/1.1 404 Not Found\r\nContent-Length: 14\r\nDate: Sun, 06 Nov 1994 08:49:37 GMT\r\n\r\n404 Not Found\n",
    ),
    (
        "HEAD /q",
        "HTTP/1.1 404 Not Found\r\nContent-Length: 14\r\nDate: Sun, 06 Nov 1994 08:49:37 GMT\r\n\r\n",
    ),
];

#[test]
fn cleaning_redirects(rt: HostRuntime) -> Result<(), Fail> {
    let alloc = rt.alloc();
    let file = file_of(alloc, &["/zzz"])?;
    let back = b" HTTP/1.1\r\nHost: a:80\r\n\r\n";
    assert_eq!(rt;
        first_wrong(&rt, alloc, file.as_str(), &UNROUTED, back)?,
        None
    );
    Ok(())
}

const BAD: &str =
    "HTTP/1.1 400 Bad Request\r\nConnection: close\r\nContent-Length: 16\r\nDate: Sun, 06 Nov 1994 08:49:37 GMT\r\n\r\n400 Bad Request\n";

const CODING: &str =
    "HTTP/1.1 501 Not Implemented\r\nConnection: close\r\nContent-Length: 20\r\nDate: Sun, 06 Nov 1994 08:49:37 GMT\r\n\r\n501 Not Implemented\n";

const REFUSED: [Row; 8] = [
    (
        "POST / HTTP/1.1\r\nHost: a\r\nContent-Length: 3\r\nTransfer-Encoding: chunked\r\n\r\nGET / HTTP/1.1\r\nHost: a\r\n\r\n",
        BAD,
    ),
    ("GET / HTTP/1.1\r\n\r\n", BAD),
    ("GET /%zz HTTP/1.1\r\nHost: a\r\n\r\n", BAD),
    ("GET /\r\nHost: a\r\n\r\n", BAD),
    ("CONNECT a:1 HTTP/1.1\r\nHost: a\r\n\r\n", CODING),
    (
        "GET / HTTP/1.1\r\nHost: a\r\nTransfer-Encoding: gzip\r\n\r\n",
        CODING,
    ),
    (
        "GET / HTTP/1.1\r\nHost: a\r\nExpect: gift\r\n\r\n",
        "HTTP/1.1 417 Expectation Failed\r\nConnection: close\r\nContent-Length: 23\r\nDate: Sun, 06 Nov 1994 08:49:37 GMT\r\n\r\n417 Expectation Failed\n",
    ),
    (
        "GET / HTTP/2.0\r\nHost: a\r\n\r\n",
        "HTTP/1.1 505 HTTP Version Not Supported\r\nConnection: close\r\nContent-Length: 31\r\nDate: Sun, 06 Nov 1994 08:49:37 GMT\r\n\r\n505 HTTP Version Not Supported\n",
    ),
];

/// A head that fails a check gets the reply of its code.
#[test]
fn length_and_coding(rt: HostRuntime) -> Result<(), Fail> {
    let alloc = rt.alloc();
    let file = file_of(alloc, &["/"])?;
    assert_eq!(rt;
        first_wrong(&rt, alloc, file.as_str(), &REFUSED, b"")?,
        None
    );
    Ok(())
}

/// The connection stays open behind a 405, and behind the answer to `OPTIONS *`.
#[test]
fn method_not_allowed(rt: HostRuntime) -> Result<(), Fail> {
    let alloc = rt.alloc();
    let file = file_of(alloc, &["GET /a"])?;
    let said = answered(
        &rt,
        alloc,
        file.as_str(),
        b"POST /a HTTP/1.1\r\nHost: a\r\nContent-Length: 0\r\n\r\nOPTIONS * HTTP/1.1\r\nHost: a\r\n\r\nPOST /a HTTP/1.1\r\nHost: a\r\nContent-Length: 3\r\n\r\nOPTIONS * HTTP/1.1\r\nHost: a\r\n\r\n",
    )?;
    assert_eq!(rt;
        said.as_slice(),
        b"HTTP/1.1 405 Method Not Allowed\r\nAllow: GET, HEAD\r\nContent-Length: 23\r\nDate: Sun, 06 Nov 1994 08:49:37 GMT\r\n\r\n405 Method Not Allowed\nHTTP/1.1 200 OK\r\nContent-Length: 0\r\nDate: Sun, 06 Nov 1994 08:49:37 GMT\r\n\r\nHTTP/1.1 405 Method Not Allowed\r\nAllow: GET, HEAD\r\nConnection: close\r\nContent-Length: 23\r\nDate: Sun, 06 Nov 1994 08:49:37 GMT\r\n\r\n405 Method Not Allowed\n".as_slice()
    );
    Ok(())
}

// What a client is answered whose head has a field of so many letters.
fn with_letters<R: Threads + Wait + Sync>(
    rt: &R,
    alloc: Global,
    file: &str,
    letters: usize,
) -> Result<Vec<u8>, Fail> {
    let mut head = b"GET / HTTP/1.1\r\nHost: a\r\nX: ".to_vec(alloc)?;
    for _ in 0..letters {
        head.push(b'x')?;
    }
    head.extend_from_slice(b"\r\n\r\n")?;
    answered(rt, alloc, file, &head)
}

/// A head has 65,536 bytes at most.
#[test]
fn largest_head(rt: HostRuntime) -> Result<(), Fail> {
    let alloc = rt.alloc();
    let file = file_of(alloc, &["/"])?;
    let refused =
        b"HTTP/1.1 431 Request Header Fields Too Large\r\nConnection: close\r\nContent-Length: 36\r\nDate: Sun, 06 Nov 1994 08:49:37 GMT\r\n\r\n431 Request Header Fields Too Large\n";
    let said = with_letters(&rt, alloc, file.as_str(), 65_504)?;
    assert_eq!(rt; said.as_slice(), PASSED_REPLY);
    let said = with_letters(&rt, alloc, file.as_str(), 65_505)?;
    assert_eq!(rt; said.as_slice(), refused.as_slice());
    Ok(())
}
