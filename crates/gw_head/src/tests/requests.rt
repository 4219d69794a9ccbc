//! Heads of requests that are good, or fail a check.

use super::{Frame, Row, first_wrong};
use std::test::Fail;

const FIRST_LINES: [Row; 23] = [
    ("GET / HTTP/1.1", "ok"),
    ("\r\n\nGET / HTTP/1.1", "ok"),
    ("get / HTTP/1.1", "ok"),
    ("M-SEARCH / HTTP/1.0", "ok"),
    ("GET / HTTP/1.2", "H4"),
    ("GET / HTTP/2.0", "H4"),
    ("GET / HTTP/0.9", "H4"),
    ("\r\n\r\nGET / HTTP/2.0", "H4"),
    ("CONNECT a HTTP/1.9", "H4"),
    (" HTTP/9.9", "H4"),
    ("GET / HTTP/1.1 ", "H1"),
    ("GET / HTTP/1.10", "H1"),
    ("GET / http/2.0", "H1"),
    ("GET / HTTP/2", "H1"),
    ("GET /", "H1"),
    ("GET  / HTTP/1.1", "H1"),
    ("GET /a b HTTP/1.1", "H1"),
    ("GET\t/ HTTP/1.1", "H1"),
    (" GET / HTTP/1.1", "H1"),
    ("G(T / HTTP/1.1", "H1"),
    ("CONNECT a:80 HTTP/1.1", "H10"),
    ("CONNECT / HTTP/1.0", "H10"),
    ("connect a:80 HTTP/1.1", "H1"),
];

#[test]
fn first_lines(rt: HostRuntime) -> Result<(), Fail> {
    let frame = Frame {
        request: true,
        front: b"",
        back: b"\r\nHost: a\r\n\r\n",
    };
    assert_eq!(rt; first_wrong(rt.alloc(), &frame, &FIRST_LINES)?, None);
    Ok(())
}

const FIELDS: [Row; 52] = [
    ("Host: a", "ok"),
    ("Host : a", "H1"),
    ("Host: a\r\n folded", "H1"),
    ("Host: a\r\n: b", "H1"),
    ("Host: a\r\nno colon", "H1"),
    ("Host: a\r\nX: b\x0bc", "H1"),
    ("Host: a\r\nTransfer-Encoding: chunked", "ok"),
    ("Host: a\r\nTransfer-Encoding:\tCHUNKED\t ", "ok"),
    ("Host: a\r\nTransfer-Encoding: \x0bchunked", "H1"),
    ("Host: a\r\nTransfer-Encoding : chunked", "H1"),
    ("Host: a\r\nTransfer-Encoding: chunked, chunked", "H8"),
    ("Host: a\r\nTransfer-Encoding: gzip, chunked", "H8"),
    ("Host: a\r\nTransfer-Encoding: chunked,", "H8"),
    ("Host: a\r\nTransfer-Encoding: xchunked", "H8"),
    ("Host: a\r\nTransfer-Encoding: identity", "H8"),
    ("Host: a\r\nTransfer-Encoding:", "H8"),
    (
        "Host: a\r\nTransfer-Encoding: chunked\r\ntransfer-encoding: chunked",
        "H8",
    ),
    ("Content-Length: x\r\nTransfer-Encoding: chunked", "H7"),
    ("Content-Length: 3\r\nTransfer-Encoding: gzip", "H8"),
    ("Host: a\r\nContent-Length: 3", "ok"),
    ("Host: a\r\nContent-Length: 3\r\nContent-Length: 3", "ok"),
    ("Host: a\r\nContent-Length: 9223372036854775807", "ok"),
    ("Content-Length: 9223372036854775808", "H6"),
    ("Content-Length: 99999999999999999999999", "H6"),
    ("Content-Length: 3\r\nContent-Length: 03", "H6"),
    ("Content-Length: 3\r\nX: y\r\ncontent-length: 4", "H6"),
    ("Content-Length: 3, 3", "H6"),
    ("Content-Length: +3", "H6"),
    ("Content-Length: -0", "H6"),
    ("Content-Length: 0x3", "H6"),
    ("Content-Length: 3 3", "H6"),
    ("Content-Length:", "H6"),
    ("X: y", "H5"),
    ("Host: a\r\nHOST: a", "H5"),
    ("Host:", "ok"),
    ("Host: [::1]:80", "ok"),
    ("Host: a b", "H5"),
    ("Host: a/b", "H5"),
    ("Host: u@a", "H5"),
    ("Host: a?", "H5"),
    ("Host: a#", "H5"),
    ("Host: a\\", "H5"),
    ("Host: <a>", "H5"),
    ("Host: \"a\"", "H5"),
    ("Host: \u{e9}", "H5"),
    ("Host: a\r\nExpect: 100-continue", "ok"),
    ("Host: a\r\nExpect: 100-CONTINUE", "ok"),
    ("Host: a\r\nExpect: 200-ok", "H11"),
    ("Host: a\r\nExpect:", "H11"),
    ("Host: a\r\nExpect: 100-continue, 100-continue", "H11"),
    (
        "Host: a\r\nExpect: 100-continue\r\nExpect: 100-continue",
        "H11",
    ),
    ("Expect: 200-ok", "H5"),
];

#[test]
fn fields_of_requests(rt: HostRuntime) -> Result<(), Fail> {
    let frame = Frame {
        request: true,
        front: b"POST /a HTTP/1.1\r\n",
        back: b"\r\n\r\n",
    };
    assert_eq!(rt; first_wrong(rt.alloc(), &frame, &FIELDS)?, None);
    Ok(())
}

const OLD_FIELDS: [Row; 6] = [
    ("", "ok"),
    ("Host: a\r\n", "ok"),
    ("Expect: 100-continue\r\n", "ok"),
    ("Host: a\r\nHost: a\r\n", "H5"),
    ("Host: a b\r\n", "H5"),
    ("Transfer-Encoding: chunked\r\n", "H8"),
];

#[test]
fn old_requests(rt: HostRuntime) -> Result<(), Fail> {
    let frame = Frame {
        request: true,
        front: b"POST / HTTP/1.0\r\n",
        back: b"\r\n",
    };
    assert_eq!(rt; first_wrong(rt.alloc(), &frame, &OLD_FIELDS)?, None);
    Ok(())
}

const TARGETS: [Row; 25] = [
    ("GET *", "H1"),
    ("OPTIONS *?a", "H1"),
    ("OPTIONS **", "H1"),
    ("GET a/b", "H1"),
    ("GET ?a", "H1"),
    ("GET /a#b", "H1"),
    ("GET /a?b#c", "H1"),
    ("GET http://a/#b", "H1"),
    ("GET ftp://a/", "H1"),
    ("GET http:/a", "H1"),
    ("GET http://", "H1"),
    ("GET http:///a", "H1"),
    ("GET https://?a", "H1"),
    ("GET http://u@a/", "H1"),
    ("GET http://a\"b/", "H5"),
    ("GET http://a\\b/", "H5"),
    ("GET /a%", "H9"),
    ("GET /a%4", "H9"),
    ("GET /%4g/b", "H9"),
    ("GET /%g4", "H9"),
    ("GET /%%41", "H9"),
    ("GET http://a/%zz", "H9"),
    ("GET /a%41%2fb", "ok"),
    ("GET /a?%zz", "ok"),
    ("GET /a@b", "ok"),
];

#[test]
fn targets_that_are_refused(rt: HostRuntime) -> Result<(), Fail> {
    let frame = Frame {
        request: true,
        front: b"",
        back: b" HTTP/1.1\r\nHost: c\r\n\r\n",
    };
    assert_eq!(rt; first_wrong(rt.alloc(), &frame, &TARGETS)?, None);
    Ok(())
}
