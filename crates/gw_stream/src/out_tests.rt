//! What is on its way to a link, over a wire in memory.

ghost use Rattle.std.specs.Prelude.{◌≡◌, ◌≤◌, IfOk, false};

use crate::drawing::Pull;
use crate::inbox::Inbox;
use crate::outbox::Outbox;
use crate::tests::{NOW, half_a_minute};
use crate::waits::Sent;
use gw_body::BodyReader;
use gw_head::Framing;
use gw_wire::{Act, Bytes, ConnEvent, MemConn, MemWire, Moment, Script, Wire};
use std::alloc::{AllocError, Global};
use std::test::Fail;

fn wire(alloc: Global) -> Result<MemWire, AllocError>
    ensures { IfOk result (λ wire. wire.aged ≡ false) }
{
    MemWire::new(
        alloc,
        Script {
            accepts: Vec::new(alloc),
            dials: Vec::new(alloc),
            moments: vec![in alloc; Moment { from: 0, at: NOW }]?,
            acts: 32,
            bytes: 32_768,
        },
    )
}

// A link that sends so many letters `x` in one piece, and then ends.
fn link(alloc: Global, count: usize) -> Result<MemConn, AllocError> {
    let mut events = Vec::new(alloc);
    events.push(ConnEvent::Piece(Bytes::new(vec![in alloc; b'x'; count]?)))?;
    Ok(MemConn::new(7, events, Vec::new(alloc)))
}

// What another link took of a body with so many bytes, of which a piece at most is passed on; nothing where it didn't
// take it all at once.
fn passed(alloc: Global, count: usize, chunks: bool) -> Result<Option<Vec<u8>>, AllocError> {
    let mut wire = wire(alloc)?;
    let mut inbox = Inbox::new(alloc)?;
    let mut out = Outbox::new(alloc)?;
    let mut body = BodyReader::new(Framing::Length(count as u64));
    let mut source = link(alloc, count)?;
    let mut target = MemConn::new(8, Vec::new(alloc), Vec::new(alloc));
    out.restart(chunks);
    for _pull in 0..4 {
        let _ = wire.now();
        if !out.has_room() || out.is_whole() {
            break;
        }
        let mut guard = half_a_minute();
        match out.fill(
            &mut wire,
            &mut guard,
            &mut source,
            &mut body,
            &mut inbox,
            None,
        ) {
            Pull::Data(_) | Pull::More => {}
            Pull::Done | Pull::Bad(_) | Pull::Lost(_) => break,
        }
    }
    let _ = wire.now();
    if !out.has_room() {
        return Ok(None);
    }
    out.close_body();
    let sent = out.flush(&mut wire, &mut half_a_minute(), &mut target, None);
    match wire.acts() {
        [Act::Read(7, _), Act::Wrote(8, text)] if sent == Sent::All => {
            Ok(Some(text.as_slice().to_vec(alloc)?))
        }
        _ => Ok(None),
    }
}

fn is_text(text: &Option<Vec<u8>>, front: &[u8], count: usize, behind: &[u8]) -> bool {
    match text {
        None => false,
        Some(text) => {
            let rest = text.len().saturating_sub(front.len());
            text.starts_with(front)
                && text.ends_with(behind)
                && rest.saturating_sub(behind.len()) == count
        }
    }
}

/// A body's text in chunks and as it is: a short piece, a whole one, and one of no data.
#[test]
fn bodies_are_framed(rt: HostRuntime) -> Result<(), Fail> {
    let alloc = rt.alloc();
    let ends = b"\r\n0\r\n\r\n".as_slice();
    assert!(rt; is_text(&passed(alloc, 5, true)?, b"5\r\nxxxxx", 0, ends));
    assert!(rt; is_text(&passed(alloc, 255, true)?, b"ff\r\nx", 254, ends));
    assert!(rt; is_text(&passed(alloc, 8_192, true)?, b"2000\r\nx", 8_191, ends));
    assert!(rt; is_text(&passed(alloc, 5, false)?, b"xxxxx", 0, b""));
    assert!(rt; is_text(&passed(alloc, 8_192, false)?, b"x", 8_190, b"x"));
    Ok(())
}
