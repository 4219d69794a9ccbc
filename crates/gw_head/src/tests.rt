//! Heads with what is said of them: `ok`, or the code of the first check that they fail; and how many bytes were used.

mod hosts;
mod parts;
mod replies;
mod requests;
mod streams;

use crate::{HeadError, HeadReader, RequestHead, Step};
use std::alloc::Global;
use std::test::Fail;

/// A text, and what is said of it.
type Row = (&'static str, &'static str);

/// How many bytes of a stream were used, and what was said.
type Outcome = (usize, &'static str);

/// What stands round the text of a row to make it a head, and whether it is a request's.
#[derive(Clone, Copy)]
struct Frame {
    request: bool,
    front: &'static [u8],
    back: &'static [u8],
}

fn code_of(error: HeadError) -> &'static str {
    match error {
        HeadError::Malformed => "H1",
        HeadError::TooLong => "H2",
        HeadError::TooManyFields => "H3",
        HeadError::Version => "H4",
        HeadError::HostCount => "H5",
        HeadError::BadLength => "H6",
        HeadError::LengthAndCoding => "H7",
        HeadError::Coding => "H8",
        HeadError::BadEscape => "H9",
        HeadError::Connect => "H10",
        HeadError::Expectation => "H11",
    }
}

fn said_of<H>(step: &Step<H>) -> &'static str {
    match step {
        Step::More => "no end",
        Step::Head(_) => "ok",
        Step::Bad(error) => code_of(*error),
        Step::NoMemory => "no memory",
    }
}

fn feed_request(reader: &mut HeadReader, piece: &[u8]) -> Outcome {
    let fed = reader.feed_request(piece);
    (fed.used, said_of(&fed.step))
}

fn feed_reply(reader: &mut HeadReader, piece: &[u8]) -> Outcome {
    let fed = reader.feed_reply(piece);
    (fed.used, said_of(&fed.step))
}

fn feed(reader: &mut HeadReader, request: bool, piece: &[u8]) -> Outcome {
    if request {
        feed_request(reader, piece)
    } else {
        feed_reply(reader, piece)
    }
}

fn in_two(reader: &mut HeadReader, request: bool, front: &[u8], back: &[u8]) -> Outcome {
    reader.restart();
    let (used, said) = feed(reader, request, front);
    if said != "no end" {
        return (used, said);
    }
    let (more, said) = feed(reader, request, back);
    (used.saturating_add(more), said)
}

fn by_bytes(reader: &mut HeadReader, request: bool, text: &[u8]) -> Outcome {
    reader.restart();
    let mut used: usize = 0;
    for byte in text {
        let (more, said) = feed(reader, request, &[*byte]);
        used = used.saturating_add(more);
        if said != "no end" {
            return (used, said);
        }
    }
    (used, "no end")
}

// What is said of a text that is whole, fed byte by byte and cut anywhere, where it is the same each time.
fn said_in_pieces(alloc: Global, request: bool, text: &[u8]) -> Result<Outcome, Fail> {
    let mut reader = HeadReader::new(alloc)?;
    let whole = in_two(&mut reader, request, text, b"");
    if by_bytes(&mut reader, request, text) != whole {
        return Ok((0, "another answer byte by byte"));
    }
    for cut in 0..text.len() {
        if in_two(&mut reader, request, &text[..cut], &text[cut..]) != whole {
            return Ok((cut, "another answer with this cut"));
        }
    }
    Ok(whole)
}

// The text of a row in its frame.
fn framed(alloc: Global, frame: &Frame, text: &str) -> Result<Vec<u8>, Fail> {
    let mut head = frame.front.to_vec(alloc)?;
    head.extend_from_slice(text.as_bytes())?;
    head.extend_from_slice(frame.back)?;
    Ok(head)
}

// What is said of a row's text in its frame.
fn said_of_text(alloc: Global, frame: &Frame, text: &str) -> Result<&'static str, Fail> {
    let head = framed(alloc, frame, text)?;
    Ok(said_in_pieces(alloc, frame.request, &head)?.1)
}

// The number of the first row, counted from 0, of which something else is said.
fn first_wrong(alloc: Global, frame: &Frame, rows: &[Row]) -> Result<Option<usize>, Fail> {
    for i in 0..rows.len() {
        let (text, said) = rows[i];
        if said_of_text(alloc, frame, text)? != said {
            return Ok(Some(i));
        }
    }
    Ok(None)
}

fn request_of(alloc: Global, text: &[u8]) -> Result<Option<RequestHead>, Fail> {
    let mut reader = HeadReader::new(alloc)?;
    Ok(match reader.feed_request(text).step {
        Step::Head(head) => Some(head),
        _ => None,
    })
}
