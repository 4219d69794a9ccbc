//! Bodies of each framing cut at every place, how replies are framed, and what the writer writes.
use crate::place::{Place, advance};
use crate::{AtEnd, BodyReader, BodyWriter, Rewindable, reply_framing, write_body};
use gw_chunk::{ChunkError, ChunkFed, ChunkStep, PIECE_LIMIT};
use gw_fields::Fields;
use gw_head::{Framing, ReplyHead};
use http::Method;
use std::alloc::{AllocError, Global};
use std::test::Fail;

// Feeds a piece until nothing of it is left to say; gives the bytes used and the last step.
fn feed(
    reader: &mut BodyReader,
    piece: &[u8],
    data: &mut Vec<u8>,
) -> Result<(usize, ChunkStep), AllocError> {
    let mut rest = piece;
    let mut step = ChunkStep::More;
    for _ in 0..=piece.len() {
        let fed = reader.take(rest);
        step = fed.step;
        match fed.step {
            ChunkStep::Data { from, to } => data.extend_from_slice(&rest[from..to])?,
            ChunkStep::More | ChunkStep::Done | ChunkStep::Bad(_) => {
                return Ok((
                    piece
                        .len()
                        .saturating_sub(rest.len().saturating_sub(fed.used)),
                    step,
                ));
            }
        }
        rest = &rest[fed.used..];
    }
    Ok((piece.len(), step))
}

// What a stream gives in two pieces: its data, the bytes used, the last step, and what the link's end makes of it.
fn read_cut(
    alloc: Global,
    framing: Framing,
    stream: &[u8],
    cut: usize,
) -> Result<(Vec<u8>, usize, ChunkStep, AtEnd), AllocError> {
    let (front, back) = stream.split_at(cut.min(stream.len()));
    let mut reader = BodyReader::new(framing);
    let mut data = Vec::new(alloc);
    let (first_used, _) = feed(&mut reader, front, &mut data)?;
    let (used, step) = feed(&mut reader, back, &mut data)?;
    let end = reader.link_ended();
    Ok((data, first_used.saturating_add(used), step, end))
}

#[test]
fn whole_bodies(rt: HostRuntime) -> Result<(), Fail> {
    for (framing, stream, data, used, step) in [
        (
            Framing::None,
            b"GET".as_slice(),
            b"".as_slice(),
            0,
            ChunkStep::Done,
        ),
        (Framing::Length(0), b"GET", b"", 0, ChunkStep::Done),
        (Framing::Length(5), b"hello", b"hello", 5, ChunkStep::Done),
        (
            Framing::Length(5),
            b"helloGET",
            b"hello",
            5,
            ChunkStep::Done,
        ),
        (
            Framing::Chunked,
            b"2;x\r\nhe\r\n3\r\nllo\r\n0\r\nT: 1\r\n\r\nGET",
            b"hello",
            28,
            ChunkStep::Done,
        ),
        (Framing::ToEnd, b"", b"", 0, ChunkStep::More),
        (Framing::ToEnd, b"hello", b"hello", 5, ChunkStep::More),
    ] {
        for cut in 0..=stream.len() {
            let (found, found_used, found_step, end) = read_cut(rt.alloc(), framing, stream, cut)?;
            assert_eq!(rt; found.as_slice(), data, "{stream:?} {cut}");
            assert_eq!(rt; found_used, used, "{stream:?} {cut}");
            assert_eq!(rt; found_step, step, "{stream:?} {cut}");
            assert_eq!(rt; end, AtEnd::Whole, "{stream:?} {cut}");
        }
    }
    Ok(())
}

#[test]
fn short_bodies(rt: HostRuntime) -> Result<(), Fail> {
    for (framing, stream) in [
        (Framing::Length(5), b"hello".as_slice()),
        (Framing::Chunked, b"5\r\nhello\r\n0\r\n\r\n"),
    ] {
        for len in 0..stream.len() {
            let (_, used, step, end) = read_cut(rt.alloc(), framing, &stream[..len], len / 2)?;
            assert_eq!(rt; used, len, "{framing:?}");
            assert_eq!(rt; step, ChunkStep::More, "{framing:?} {len}");
            assert_eq!(rt; end, AtEnd::Short, "{framing:?} {len}");
        }
    }
    Ok(())
}

#[test]
fn done_behind_the_last_byte(rt: HostRuntime) {
    let mut reader = BodyReader::new(Framing::Length(2));
    assert_eq!(rt;
        reader.take(b"abc"),
        ChunkFed {
            used: 2,
            step: ChunkStep::Data { from: 0, to: 2 }
        }
    );
    assert!(rt; reader.done());
    assert_eq!(rt;
        reader.take(b"c"),
        ChunkFed {
            used: 0,
            step: ChunkStep::Done
        }
    );
    assert!(rt; BodyReader::new(Framing::None).done());
    assert!(rt; !BodyReader::new(Framing::Chunked).done());
    let mut unbounded = BodyReader::new(Framing::ToEnd);
    assert!(rt; !unbounded.done());
    assert_eq!(rt; unbounded.link_ended(), AtEnd::Whole);
    assert!(rt; unbounded.done());
}

#[test]
fn refused_chunks(rt: HostRuntime) {
    let mut reader = BodyReader::new(Framing::Chunked);
    let refused = ChunkFed {
        used: 0,
        step: ChunkStep::Bad(ChunkError::DataEnd),
    };
    assert_eq!(rt;
        reader.take(b"1\r\naXY"),
        ChunkFed {
            used: 4,
            step: ChunkStep::Data { from: 3, to: 4 }
        }
    );
    assert_eq!(rt; reader.take(b"XY"), refused);
    assert_eq!(rt; reader.take(b"\r\n0\r\n\r\n"), refused);
    assert!(rt; !reader.done());
    assert_eq!(rt; reader.link_ended(), AtEnd::Short);
}

// Two bytes more are allowed.
#[test]
fn limit_of_unbounded_body(rt: HostRuntime) {
    let mut place = Place::ToEnd { left: 2 };
    assert_eq!(rt;
        advance(&mut place, b"abc"),
        ChunkFed {
            used: 2,
            step: ChunkStep::Data { from: 0, to: 2 }
        }
    );
    assert_eq!(rt;
        advance(&mut place, b""),
        ChunkFed {
            used: 0,
            step: ChunkStep::More
        }
    );
    let refused = ChunkFed {
        used: 0,
        step: ChunkStep::Bad(ChunkError::TooLarge),
    };
    assert_eq!(rt; advance(&mut place, b"c"), refused);
    assert_eq!(rt; advance(&mut place, b""), refused);
}

#[test]
fn framing_of_replies(rt: HostRuntime) {
    for (code, chunked, length, method, framing) in [
        (200, false, Some(5), Method::GET, Framing::Length(5)),
        (200, false, Some(0), Method::GET, Framing::Length(0)),
        (200, true, None, Method::POST, Framing::Chunked),
        (200, false, None, Method::GET, Framing::ToEnd),
        (200, false, Some(5), Method::HEAD, Framing::None),
        (200, true, None, Method::HEAD, Framing::None),
        (404, false, None, Method::HEAD, Framing::None),
        (100, false, None, Method::GET, Framing::None),
        (199, true, None, Method::GET, Framing::None),
        (203, false, None, Method::GET, Framing::ToEnd),
        (204, false, Some(5), Method::GET, Framing::None),
        (205, false, Some(5), Method::GET, Framing::Length(5)),
        (303, true, None, Method::GET, Framing::Chunked),
        (304, false, Some(5), Method::GET, Framing::None),
        (305, false, None, Method::GET, Framing::ToEnd),
        (999, false, None, Method::OPTIONS, Framing::ToEnd),
    ] {
        let head = ReplyHead {
            code,
            old: false,
            fields: Fields::new(rt.alloc()),
            close: false,
            length,
            chunked,
        };
        assert_eq!(rt; reply_framing(&head, &method), framing, "{code}");
    }
}

#[test]
fn written_in_chunks(rt: HostRuntime) -> Result<(), Fail> {
    let mut out = b"\r\n".to_vec(rt.alloc())?;
    let mut writer = BodyWriter::new(Framing::Chunked);
    writer.piece(&[b'c'; PIECE_LIMIT], &mut out)?;
    writer.piece(b"rest", &mut out)?;
    writer.end(&mut out)?;
    assert_eq!(rt; out.len(), 2 + 8_200 + 9 + 5);
    assert!(rt; out.starts_with(b"\r\n2000\r\nc"));
    assert!(rt; out.ends_with(b"c\r\n4\r\nrest\r\n0\r\n\r\n"));
    Ok(())
}

#[test]
fn written_plain(rt: HostRuntime) -> Result<(), Fail> {
    let alloc = rt.alloc();
    let mut out = b"> ".to_vec(alloc)?;
    let mut counted = BodyWriter::new(Framing::Length(5));
    counted.piece(b"hel", &mut out)?;
    counted.piece(b"lo", &mut out)?;
    counted.end(&mut out)?;
    assert_eq!(rt; out.as_slice(), b"> hello".as_slice());
    let mut unbounded = BodyWriter::new(Framing::ToEnd);
    unbounded.piece(b" and", &mut out)?;
    unbounded.piece(b" more", &mut out)?;
    unbounded.end(&mut out)?;
    BodyWriter::new(Framing::None).end(&mut out)?;
    assert_eq!(rt; out.as_slice(), b"> hello and more".as_slice());
    let mut empty = Vec::new(alloc);
    BodyWriter::new(Framing::Chunked).end(&mut empty)?;
    assert_eq!(rt; empty.as_slice(), b"0\r\n\r\n".as_slice());
    Ok(())
}

#[test]
fn framed_in_place(rt: HostRuntime) {
    let mut chunks = BodyWriter::new(Framing::Chunked);
    let mut buffer = *b"------hello--!";
    assert_eq!(rt; (chunks.gap_before(), chunks.gap_behind()), (6, 2));
    assert_eq!(rt; chunks.frame(&mut buffer, 5), 3);
    assert_eq!(rt; buffer, *b"---5\r\nhello\r\n!");
    assert_eq!(rt; chunks.finish(), b"0\r\n\r\n".as_slice());
    let mut counted = BodyWriter::new(Framing::Length(2));
    let mut two = *b"hi!";
    assert_eq!(rt; (counted.gap_before(), counted.gap_behind()), (0, 0));
    assert_eq!(rt; counted.frame(&mut two, 2), 0);
    assert_eq!(rt; two, *b"hi!");
    assert_eq!(rt; counted.finish(), b"".as_slice());
}

#[test]
fn whole_texts(rt: HostRuntime) -> Result<(), Fail> {
    let alloc = rt.alloc();
    let mut out = b"> ".to_vec(alloc)?;
    write_body(Framing::Length(5), b"hello", &mut out)?;
    write_body(Framing::None, b"", &mut out)?;
    write_body(Framing::ToEnd, b"!", &mut out)?;
    write_body(Framing::Chunked, b"", &mut out)?;
    assert_eq!(rt; out.as_slice(), b"> hello!0\r\n\r\n".as_slice());
    let mut chunks = Vec::new(alloc);
    write_body(Framing::Chunked, &[b'c'; 8_193], &mut chunks)?;
    assert_eq!(rt; chunks.len(), 8_200 + 6 + 5);
    assert!(rt; chunks.starts_with(b"2000\r\nc") && chunks.ends_with(b"c\r\n1\r\nc\r\n0\r\n\r\n"));
    Ok(())
}

#[test]
fn kept_bodies(rt: HostRuntime) -> Result<(), Fail> {
    let kept = Rewindable::new(b"twice".to_vec(rt.alloc())?);
    assert_eq!(rt;
        (kept.again(), kept.again()),
        (b"twice".as_slice(), b"twice".as_slice())
    );
    Ok(())
}
