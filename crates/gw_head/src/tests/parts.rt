//! The parts of good heads.

use super::{Frame, framed, request_of};
use crate::{Framing, HeadReader, Step};
use gw_wire::Bytes;
use std::alloc::Global;
use std::str;
use std::test::Fail;

fn words(bytes: &Bytes) -> &str {
    str::from_utf8(bytes.as_slice()).unwrap_or("not text")
}

fn is_query(query: &Option<Bytes>, text: &str) -> bool {
    match query {
        Some(query) => words(query) == text,
        None => text == "none",
    }
}

/// A request line without its version, the host, the path, the query or `none`, and whether the target is `*`.
type TargetRow = (&'static str, &'static str, &'static str, &'static str, bool);

const TARGETS: Frame = Frame {
    request: true,
    front: b"",
    back: b" HTTP/1.1\r\nHost: c:1 \r\n\r\nrest",
};

fn has_parts(alloc: Global, row: &TargetRow) -> Result<bool, Fail> {
    let (line, host, path, query, star) = *row;
    let text = framed(alloc, &TARGETS, line)?;
    let Some(head) = request_of(alloc, &text)? else {
        return Ok(false);
    };
    Ok(
        words(&head.host) == host
            && words(&head.path) == path
            && is_query(&head.query, query)
            && head.star == star,
    )
}

const PARTS_OF_TARGETS: [TargetRow; 8] = [
    ("GET /a", "c:1", "/a", "none", false),
    ("GET /?", "c:1", "/", "", false),
    ("GET //a?b?c", "c:1", "//a", "b?c", false),
    ("GET http://a", "a", "/", "none", false),
    ("GET HTTP://A:80/b?c", "A:80", "/b", "c", false),
    ("GET https://a?b/c@d", "a", "/", "b/c@d", false),
    ("OPTIONS http://a/", "a", "/", "none", false),
    ("OPTIONS *", "c:1", "", "none", true),
];

#[test]
fn parts_of_targets(rt: HostRuntime) -> Result<(), Fail> {
    for row in &PARTS_OF_TARGETS {
        assert!(rt; has_parts(rt.alloc(), row)?, "{}", row.0);
    }
    Ok(())
}

/// Field lines, the framing that they say, whether `100-continue` is expected, and whether the connection closes.
type FramingRow = (&'static str, Framing, bool, bool);

const FIELDS: Frame = Frame {
    request: true,
    front: b"POST /a HTTP/1.1\r\n",
    back: b"\r\n\r\n",
};

fn is_framed(alloc: Global, row: &FramingRow) -> Result<bool, Fail> {
    let (lines, framing, expect, close) = *row;
    let text = framed(alloc, &FIELDS, lines)?;
    let Some(head) = request_of(alloc, &text)? else {
        return Ok(false);
    };
    Ok(
        head.method.as_str() == "POST"
            && head.framing == framing
            && (head.expect, head.close, head.old) == (expect, close, false),
    )
}

const FRAMINGS: [FramingRow; 5] = [
    ("Host: a", Framing::None, false, false),
    (
        "Host: a\r\nContent-Length: 007",
        Framing::Length(7),
        false,
        false,
    ),
    (
        "Host: a\r\nTransfer-Encoding: chunked\r\nExpect: 100-continue",
        Framing::Chunked,
        true,
        false,
    ),
    (
        "Host: a\r\nConnection: x, CLOSE\r\nContent-Length: 0",
        Framing::Length(0),
        false,
        true,
    ),
    ("Host: a\r\nConnection: closed", Framing::None, false, false),
];

/// The parts of a request that its fields decide.
#[test]
fn framings(rt: HostRuntime) -> Result<(), Fail> {
    for row in &FRAMINGS {
        assert!(rt; is_framed(rt.alloc(), row)?, "{}", row.0);
    }
    Ok(())
}

#[test]
fn fields_are_kept(rt: HostRuntime) -> Result<(), Fail> {
    let text = framed(rt.alloc(), &FIELDS, "HOST:a\r\nX-One: \t b c \t\r\nx-one:")?;
    let Some(head) = request_of(rt.alloc(), &text)? else {
        panic!(rt; "refused");
    };
    assert_eq!(rt; head.fields.len(), 3);
    for (i, (name, value)) in [("host", "a"), ("x-one", "b c"), ("x-one", "")]
        .iter()
        .enumerate()
    {
        match head.fields.get(i) {
            Some((own, text)) => {
                assert_eq!(rt; own.as_bytes(), name.as_bytes());
                assert_eq!(rt; text.as_bytes(), value.as_bytes());
            }
            None => panic!(rt; "no field at {i}"),
        }
    }
    Ok(())
}

/// A head, its code, whether it is of HTTP/1.0, whether the connection closes, its length, and whether it is in chunks.
type ReplyRow = (&'static str, u16, bool, bool, Option<u64>, bool);

fn is_reply(alloc: Global, row: &ReplyRow) -> Result<bool, Fail> {
    let (text, code, old, close, length, chunked) = *row;
    let mut reader = HeadReader::new(alloc)?;
    Ok(match reader.feed_reply(text.as_bytes()).step {
        Step::Head(head) => {
            (head.code, head.old, head.close) == (code, old, close)
                && (head.length, head.chunked) == (length, chunked)
        }
        _ => false,
    })
}

const REPLIES: [ReplyRow; 4] = [
    (
        "HTTP/1.1 404 Not Found\r\n\r\n",
        404,
        false,
        false,
        None,
        false,
    ),
    (
        "HTTP/1.0 100 x\r\nConnection: close\r\n\r\n",
        100,
        true,
        true,
        None,
        false,
    ),
    (
        "HTTP/1.1 200 OK\r\nContent-Length: 18446744073\r\n\r\n",
        200,
        false,
        false,
        Some(18_446_744_073),
        false,
    ),
    (
        "HTTP/1.1 200 OK\r\nTransfer-Encoding: Chunked\r\n\r\n",
        200,
        false,
        false,
        None,
        true,
    ),
];

#[test]
fn parts_of_a_reply(rt: HostRuntime) -> Result<(), Fail> {
    for row in &REPLIES {
        assert!(rt; is_reply(rt.alloc(), row)?, "{}", row.0);
    }
    Ok(())
}
