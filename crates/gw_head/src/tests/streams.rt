//! How much of a stream is a head's, and readers that are fed again.

use super::{Outcome, by_bytes, feed_reply, feed_request, in_two, said_in_pieces};
use crate::HeadReader;
use std::alloc::Global;
use std::test::Fail;

/// A line that is repeated, how often, and what is said of the head.
type CountRow = (&'static str, u32, &'static str);

// A head's outcome, and whether it is that all of it was used and this was said.
fn says_of_lines(alloc: Global, row: &CountRow) -> Result<bool, Fail> {
    let (line, count, said) = *row;
    let mut text = b"\nGET / HTTP/1.1\r\nHost: a\r\n".to_vec(alloc)?;
    for _ in 0..count {
        text.extend_from_slice(line.as_bytes())?;
    }
    text.extend_from_slice(b"\r\n")?;
    let mut reader = HeadReader::new(alloc)?;
    Ok(in_two(&mut reader, true, &text, b"") == (text.len(), said))
}

const COUNTS: [CountRow; 5] = [
    ("X: y\r\n", 127, "ok"),
    ("X: y\r\n", 128, "H3"),
    ("X: y\n", 127, "ok"),
    ("no colon\n", 127, "H1"),
    ("no colon\n", 128, "H3"),
];

/// 128 lines stand behind the first at most, whatever they hold.
#[test]
fn lines_are_counted(rt: HostRuntime) -> Result<(), Fail> {
    for row in &COUNTS {
        assert!(rt; says_of_lines(rt.alloc(), row)?, "{} of {}", row.1, row.0);
    }
    Ok(())
}

/// A stream, and what came of it.
type StreamRow = (&'static [u8], Outcome);

const STREAMS: [StreamRow; 7] = [
    (b"GET / HTTP/1.1\nHost: a\n\n\n\n", (24, "ok")),
    (
        b"\r\n\nGET /%2f?%41 HTTP/1.1\r\nhOST:\ta \r\n\r\nrest",
        (38, "ok"),
    ),
    (
        b"GET / HTTP/1.1\r\nHost: a\r\nX-Host: b\r\n\nGET",
        (37, "ok"),
    ),
    (b"GET / HTTP/1.1\r\nHost: a\r\n\r", (26, "no end")),
    (b"\r\n\r\n\n\n", (6, "no end")),
    (b"GET / HTTP/1.1\r\nHost: a\r\n b\r\n\r\nrest", (31, "H1")),
    (b"x\n\nrest", (3, "H1")),
];

// The number of the first stream, counted from 0, of which something else comes.
fn first_other(alloc: Global, rows: &[StreamRow]) -> Result<Option<usize>, Fail> {
    for i in 0..rows.len() {
        let (text, outcome) = rows[i];
        if said_in_pieces(alloc, true, text)? != outcome {
            return Ok(Some(i));
        }
    }
    Ok(None)
}

/// How much of a stream is a head's: up to its end mark, and all of it where there is none yet.
#[test]
fn used_bytes(rt: HostRuntime) -> Result<(), Fail> {
    assert_eq!(rt; first_other(rt.alloc(), &STREAMS)?, None);
    Ok(())
}

/// The reader has the bytes of the head that it gave; a closed reader answers its last error to what comes later, and
/// begins anew where it is restarted.
#[test]
fn readers_are_closed_and_restarted(rt: HostRuntime) -> Result<(), Fail> {
    assert!(rt; HeadReader::new(rt.alloc()).is_ok(), "memory is ample");

    let request = b"GET /a HTTP/1.1\r\nHost: h\r\n\r\n".as_slice();
    let bad = b"POST / HTTP/1.1\r\nHost: a\r\nExpect: x\r\n\r\n".as_slice();
    let mut reader = HeadReader::new(rt.alloc())?;
    assert_eq!(rt; feed_request(&mut reader, &request[..9]), (9, "no end"));
    assert_eq!(rt; reader.bytes(), &request[..9]);
    assert_eq!(rt; feed_request(&mut reader, &request[9..]), (19, "ok"));
    assert_eq!(rt; reader.bytes(), request);
    assert_eq!(rt; feed_request(&mut reader, request), (0, "H1"));
    assert_eq!(rt; feed_reply(&mut reader, request), (0, "H1"));

    reader.restart();
    assert_eq!(rt; feed_request(&mut reader, bad), (bad.len(), "H11"));
    assert_eq!(rt; feed_request(&mut reader, request), (0, "H11"));

    reader.restart();
    assert_eq!(rt; feed_request(&mut reader, request), (28, "ok"));
    assert_eq!(rt; reader.bytes(), request);
    Ok(())
}

fn long_request(alloc: Global, letters: usize) -> Result<Vec<u8>, Fail> {
    let mut text = b"GET / HTTP/1.1\r\nHost: a\r\nX: ".to_vec(alloc)?;
    for _ in 0..letters {
        text.push(b'x')?;
    }
    text.extend_from_slice(b"\r\n\r\n")?;
    Ok(text)
}

/// A head has 65,536 bytes at most.
#[test]
fn largest_head(rt: HostRuntime) -> Result<(), Fail> {
    let mut reader = HeadReader::new(rt.alloc())?;
    let text = long_request(rt.alloc(), 65_504)?;
    assert_eq!(rt; text.len(), 65_536);
    assert_eq!(rt; in_two(&mut reader, true, &text, b""), (65_536, "ok"));
    assert_eq!(rt; in_two(&mut reader, true, b"", &text), (65_536, "ok"));
    assert_eq!(rt; by_bytes(&mut reader, true, &text), (65_536, "ok"));

    let text = long_request(rt.alloc(), 65_505)?;
    assert_eq!(rt; in_two(&mut reader, true, &text, b""), (65_537, "H2"));
    assert_eq!(rt; by_bytes(&mut reader, true, &text), (65_536, "H2"));
    assert_eq!(rt; in_two(&mut reader, false, &text, b""), (65_537, "H2"));
    Ok(())
}
