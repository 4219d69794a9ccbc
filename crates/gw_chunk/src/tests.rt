//! Texts cut in different ways, the byte at which each fault is answered, and what the encoder writes.
ghost use Rattle.std.specs.Prelude.{◌<◌, ◌≤◌};

use crate::lines::LineForm;
use crate::position::Position;
use crate::{
    ChunkError, ChunkFed, ChunkStep, Decoder, PIECE_LIMIT, encode_end, encode_piece, end_text,
    frame_piece,
};
use std::alloc::{AllocError, Global};
use std::test::Fail;

// What a text gives in pieces of so many bytes: its data, the bytes used, and the last step.
fn decoded(
    alloc: Global,
    text: &[u8],
    size: usize,
) -> Result<(Vec<u8>, usize, ChunkStep), AllocError>
    requires { 0 < size }
{
    let mut decoder = Decoder::new();
    let mut data = Vec::new(alloc);
    let mut used: usize = 0;
    let mut step = ChunkStep::More;
    for piece in text.chunks(size) {
        let mut rest = piece;
        for _ in 0..=piece.len() {
            let fed = decoder.feed(rest);
            used = used.saturating_add(fed.used);
            step = fed.step;
            match fed.step {
                ChunkStep::Data { from, to } => data.extend_from_slice(&rest[from..to])?,
                ChunkStep::More | ChunkStep::Done | ChunkStep::Bad(_) => break,
            }
            rest = &rest[fed.used..];
        }
    }
    Ok((data, used, step))
}

// The fault of a text that is fed a byte at a time, and the place of the byte at which it is answered.
fn fault(text: &[u8]) -> Option<(ChunkError, usize)> {
    let mut decoder = Decoder::new();
    for (at, byte) in text.iter().enumerate() {
        let fed = decoder.feed(&[*byte]);
        if let ChunkStep::Bad(error) = fed.step {
            return Some((error, at));
        }
    }
    None
}

// A text with so many of a byte between two others.
fn filled(
    alloc: Global,
    before: &[u8],
    byte: u8,
    count: usize,
    after: &[u8],
) -> Result<Vec<u8>, AllocError> {
    let mut text = Vec::new(alloc);
    text.extend_from_slice(before)?;
    for _ in 0..count {
        text.push(byte)?;
    }
    text.extend_from_slice(after)?;
    Ok(text)
}

#[test]
fn data_in_two_pieces(rt: HostRuntime) {
    let mut decoder = Decoder::new();
    assert_eq!(rt;
        decoder.feed(b"5;a\r\nhe"),
        ChunkFed {
            used: 7,
            step: ChunkStep::Data { from: 5, to: 7 }
        }
    );
    let piece: &[u8] = b"llo\r\n0\r\n\r\nX";
    assert_eq!(rt;
        decoder.feed(piece),
        ChunkFed {
            used: 3,
            step: ChunkStep::Data { from: 0, to: 3 }
        }
    );
    assert_eq!(rt;
        decoder.feed(&piece[3..]),
        ChunkFed {
            used: 7,
            step: ChunkStep::Done
        }
    );
    assert_eq!(rt;
        decoder.feed(&piece[10..]),
        ChunkFed {
            used: 0,
            step: ChunkStep::Done
        }
    );
}

#[test]
fn chunked_upload(rt: HostRuntime) -> Result<(), Fail> {
    let text: &[u8] = b"4;x=y\r\nWiki\r\n5\r\npedia\r\n0\r\nT: 1\r\n\r\nGET";
    for size in [1, 2, 3, 5, 37] {
        let (data, used, step) = decoded(rt.alloc(), text, size)?;
        assert_eq!(rt; data.as_slice(), b"Wikipedia".as_slice(), "{size}");
        assert_eq!(rt; used, 34, "{size}");
        assert_eq!(rt; step, ChunkStep::Done, "{size}");
    }
    Ok(())
}

#[test]
fn faults(rt: HostRuntime) {
    for (text, error, at) in [
        (b"\n".as_slice(), ChunkError::BadLine, 0),
        (b"\r\n", ChunkError::BadLine, 1),
        (b"5\n", ChunkError::BadLine, 1),
        (b"5\rx\r\n", ChunkError::BadLine, 4),
        (b"+5\r\n", ChunkError::BadLine, 3),
        (b"0x5\r\n", ChunkError::BadLine, 4),
        (b"g\r\n", ChunkError::BadLine, 2),
        (b" 5\r\n", ChunkError::BadLine, 3),
        (b"5 5\r\n", ChunkError::BadLine, 4),
        (b"5;a\rb\r\n", ChunkError::BadLine, 6),
        (b"1000000000000\r\n", ChunkError::TooLarge, 14),
        (b"4\r\nWikiX\r\n", ChunkError::DataEnd, 8),
        (b"1\r\na\n\n", ChunkError::DataEnd, 5),
        (b"0\r\n\n", ChunkError::Trailer, 3),
        (b"0\r\nT 1\r\n", ChunkError::Trailer, 7),
        (b"0\r\n: 1\r\n", ChunkError::Trailer, 7),
        (b"0\r\nT: 1\n", ChunkError::Trailer, 7),
        (b"0\r\nT: a\0b\r\n", ChunkError::Trailer, 10),
        (b"0\r\nT: a\rb\r\n", ChunkError::Trailer, 10),
    ] {
        assert_eq!(rt; fault(text), Some((error, at)), "{text:?}");
    }
}

#[test]
fn good_fronts(rt: HostRuntime) {
    for text in [
        b"ffffffffffff\r\n".as_slice(),
        b"00000000000000000000A \t;\xff;\0\r\n",
        b"1;\"a\"=b\r\n\n\r\n0 \r\n!a: \r\nb:\t:\xff\r\n\r\n\n",
    ] {
        assert_eq!(rt; fault(text), None, "{text:?}");
    }
}

#[test]
fn limits(rt: HostRuntime) -> Result<(), Fail> {
    let alloc = rt.alloc();
    for (before, byte, count, after, expected) in [
        (b"".as_slice(), b'0', 4_094, b"\r\n\r\n".as_slice(), None),
        (
            b"",
            b'0',
            4_095,
            b"\r\n",
            Some((ChunkError::LineTooLong, 4_095)),
        ),
        (
            b"1;",
            b'a',
            8_192,
            b"",
            Some((ChunkError::LineTooLong, 4_095)),
        ),
        (b"0\r\nT:", b'a', 65_530, b"\r\n\r\n", None),
        (
            b"0\r\nT:",
            b'a',
            65_531,
            b"\r\n\r\n",
            Some((ChunkError::Trailer, 65_538)),
        ),
        (
            b"0\r\nT:",
            b'a',
            65_532,
            b"\r\n\r\n",
            Some((ChunkError::Trailer, 65_538)),
        ),
        (
            b"0\r\nT:",
            b'a',
            70_000,
            b"",
            Some((ChunkError::Trailer, 65_538)),
        ),
    ] {
        let text = filled(alloc, before, byte, count, after)?;
        assert_eq!(rt; fault(&text), expected, "{count} {byte}");
    }
    Ok(())
}

// The sizes so far are five bytes short of the limit.
#[test]
fn sum_limit(rt: HostRuntime) {
    for (line, is_refused) in [(b"5\r\n".as_slice(), false), (b"6\r\n", true)] {
        let mut position = Position::Line {
            form: LineForm::Empty,
            read: 0,
            size: 0,
            sum: (1 << 62) - 5,
        };
        for byte in line {
            position = position.after(*byte);
        }
        assert_eq!(rt;
            matches!(position, Position::Refused(ChunkError::TooLarge)),
            is_refused
        );
    }
}

#[test]
fn refused_for_good(rt: HostRuntime) {
    let mut decoder = Decoder::new();
    let refused = ChunkFed {
        used: 0,
        step: ChunkStep::Bad(ChunkError::BadLine),
    };
    assert_eq!(rt; decoder.feed(b"x\r\n"), refused);
    assert_eq!(rt; decoder.feed(b"0\r\n\r\n"), refused);
    assert_eq!(rt; decoder.feed(b""), refused);
}

#[test]
fn written_text(rt: HostRuntime) -> Result<(), Fail> {
    let alloc = rt.alloc();
    let mut text = Vec::new(alloc);
    encode_piece(b"Wikipedia", &mut text)?;
    encode_end(&mut text)?;
    assert_eq!(rt; text.as_slice(), b"9\r\nWikipedia\r\n0\r\n\r\n".as_slice());
    Ok(())
}

#[test]
fn sizes_of_20000_bytes(rt: HostRuntime) -> Result<(), Fail> {
    let alloc = rt.alloc();
    let data = filled(alloc, b"", b'c', 20_000, b"")?;
    let mut text = Vec::new(alloc);
    for piece in data.chunks(PIECE_LIMIT) {
        encode_piece(piece, &mut text)?;
    }
    encode_end(&mut text)?;
    for (at, line) in [
        (0, b"2000\r\n".as_slice()),
        (8_200, b"2000\r\n"),
        (16_400, b"e20\r\n"),
    ] {
        assert!(rt;
            text.as_slice()
                .get(at..)
                .is_some_and(|rest| rest.starts_with(line)),
            "{at}"
        );
    }
    let (read, used, step) = decoded(alloc, &text, 1_000)?;
    assert_eq!(rt; read.as_slice(), data.as_slice());
    assert_eq!(rt; used, 20_028);
    assert_eq!(rt; step, ChunkStep::Done);
    Ok(())
}

// A piece of so many `x` between bytes that stay, framed in place: the buffer then.
fn framed(alloc: Global, len: usize) -> Result<(Vec<u8>, usize), AllocError>
    requires some { 0 < len }
    requires most { len ≤ 8192 }
{
    let mut buffer = vec![in alloc; b'-'; 6 + len + 3]?;
    for byte in &mut buffer[6..6 + len] {
        *byte = b'x';
    }
    let start = frame_piece(&mut buffer, len);
    Ok((buffer, start))
}

#[test]
fn framed_in_place(rt: HostRuntime) -> Result<(), Fail> {
    let alloc = rt.alloc();
    let (one, start) = framed(alloc, 1)?;
    assert_eq!(rt; (one.as_slice(), start), (b"---1\r\nx\r\n-".as_slice(), 3));
    let (ten, start) = framed(alloc, 10)?;
    assert_eq!(rt;
        (ten.as_slice(), start),
        (b"---a\r\nxxxxxxxxxx\r\n-".as_slice(), 3)
    );
    let (whole, start) = framed(alloc, PIECE_LIMIT)?;
    assert_eq!(rt; (whole.len(), start), (8_201, 0));
    assert!(rt; whole.starts_with(b"2000\r\nx") && whole.ends_with(b"x\r\n-"));
    assert_eq!(rt; end_text(), b"0\r\n\r\n".as_slice());
    Ok(())
}

#[test]
fn codes(rt: HostRuntime) -> Result<(), Fail> {
    for (error, code) in [
        (ChunkError::BadLine, "C1"),
        (ChunkError::LineTooLong, "C2"),
        (ChunkError::TooLarge, "C3"),
        (ChunkError::DataEnd, "C4"),
        (ChunkError::Trailer, "C5"),
    ] {
        let text = format!(in rt.alloc(); "{error}")?;
        assert_eq!(rt; text.as_str(), code);
    }
    Ok(())
}
