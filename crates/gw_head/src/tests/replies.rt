//! Heads of replies that are good, or fail a check.

use super::{Frame, Row, first_wrong};
use std::test::Fail;

const REPLIES: [Row; 25] = [
    ("HTTP/1.1 200 OK\r\n\r\n", "ok"),
    ("HTTP/1.0 200\r\n\r\n", "ok"),
    ("HTTP/1.1 100 Continue\n\n", "ok"),
    ("HTTP/1.1 999 x\r\n\r\n", "ok"),
    ("HTTP/1.1 204 x\r\nContent-Length: 3\r\n\r\n", "ok"),
    ("HTTP/1.2 200 OK\r\n\r\n", "H4"),
    ("\r\nHTTP/2.0 200 OK\r\n\r\n", "H4"),
    ("HTTP/2.0\r\n\r\n", "H4"),
    ("HTTP/2 200 OK\r\n\r\n", "H1"),
    ("HTTP/11.1 200 OK\r\n\r\n", "H1"),
    ("http/2.0 200 OK\r\n\r\n", "H1"),
    ("ICY 200 OK\r\n\r\n", "H1"),
    ("HTTP/1.1 099 x\r\n\r\n", "H1"),
    ("HTTP/1.1 000 x\r\n\r\n", "H1"),
    ("HTTP/1.1 1000 x\r\n\r\n", "H1"),
    ("HTTP/1.1 20 x\r\n\r\n", "H1"),
    ("HTTP/1.1 200 OK\r\nX : y\r\n\r\n", "H1"),
    (
        "HTTP/1.1 200 OK\r\nTransfer-Encoding: chunked\r\n\r\n",
        "ok",
    ),
    (
        "HTTP/1.0 200 OK\r\nTransfer-Encoding: chunked\r\n\r\n",
        "H8",
    ),
    (
        "HTTP/1.1 200 OK\r\nTransfer-Encoding: gzip, chunked\r\n\r\n",
        "H8",
    ),
    (
        "HTTP/1.1 200 OK\r\nContent-Length: 3\r\nTransfer-Encoding: chunked\r\n\r\n",
        "H7",
    ),
    ("HTTP/1.1 200 OK\r\nContent-Length: 3, 3\r\n\r\n", "H6"),
    (
        "HTTP/1.1 200 OK\r\nContent-Length: 3\r\nContent-Length: 4\r\n\r\n",
        "H6",
    ),
    ("HTTP/1.1 099 OK\r\nContent-Length: x\r\n\r\n", "H1"),
    ("HTTP/1.1 200 OK\r\n", "no end"),
];

#[test]
fn replies(rt: HostRuntime) -> Result<(), Fail> {
    let frame = Frame {
        request: false,
        front: b"",
        back: b"",
    };
    assert_eq!(rt; first_wrong(rt.alloc(), &frame, &REPLIES)?, None);
    Ok(())
}
