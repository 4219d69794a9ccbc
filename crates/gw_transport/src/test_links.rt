//! Links that play what tests of trips say, and what was done on them.

ghost use Rattle.std.specs.Prelude.{◌≡◌, ◌≤◌, ◌<◌, IfOk, false};

use crate::tests::NOW;
use gw_wire::{Act, Bytes, ConnEvent, DialEvent, MemConn, MemWire, Moment, Script};
use std::alloc::{AllocError, Global};

/// What a link plays: the pieces that come of it, whether it fails behind them or ends, and how many bytes each of its
/// writes takes, where 0 fails.
#[derive(Clone, Copy)]
pub(crate) struct Line {
    pub(crate) number: u64,
    pub(crate) sends: &'static [&'static [u8]],
    pub(crate) fails: bool,
    pub(crate) takes: &'static [u32],
}

pub(crate) fn link(alloc: Global, line: &Line) -> Result<MemConn, AllocError> {
    let mut events = Vec::new(alloc);
    for piece in line.sends {
        events.push(ConnEvent::Piece(Bytes::new(piece.to_vec(alloc)?)))?;
    }
    if line.fails {
        events.push(ConnEvent::Failed)?;
    }
    Ok(MemConn::new(line.number, events, line.takes.to_vec(alloc)?))
}

// The dial that gives a link.
fn dial(alloc: Global, line: &Line) -> Result<DialEvent, AllocError> {
    Ok(DialEvent::Conn(link(alloc, line)?))
}

/// A wire without clients whose dials give these two links, and then fail. From so many acts on its clock says `later`.
pub(crate) fn wire(
    alloc: Global,
    first: &Line,
    second: &Line,
    from: u64,
    later: u64,
) -> Result<MemWire, AllocError>
    requires after { 784_111_777_000 ≤ later }
    requires year { later < 253_402_300_800_000 }
    ensures { IfOk result (λ wire. wire.aged ≡ false) }
{
    let dials = vec![in alloc; dial(alloc, first)?, dial(alloc, second)?]?;
    MemWire::new(
        alloc,
        Script {
            accepts: Vec::new(alloc),
            dials,
            moments: vec![in alloc; Moment { from: 0, at: NOW }, Moment { from, at: later }]?,
            acts: 64,
            bytes: 524_288,
        },
    )
}

/// What a link took.
pub(crate) fn taken(alloc: Global, acts: &[Act], link: u64) -> Result<Vec<u8>, AllocError> {
    let mut text = Vec::new(alloc);
    for act in acts {
        if let Act::Wrote(number, piece) = act
            && *number == link
        {
            text.extend_from_slice(piece.as_slice())?;
        }
    }
    Ok(text)
}

/// How many writes a link took.
pub(crate) fn writes(acts: &[Act], link: u64) -> usize {
    acts.iter()
        .filter(|act| matches!(act, Act::Wrote(number, _) if *number == link))
        .count()
}

/// How many links were dialed.
fn dials(acts: &[Act]) -> usize {
    acts.iter()
        .filter(|act| matches!(act, Act::Dialed(..)))
        .count()
}

pub(crate) fn is_closed(acts: &[Act], link: u64) -> bool {
    acts.iter().any(|act| matches!(act, Act::Closed(number) if *number == link))
}

/// What a wire told of a trip: how many links were dialed, whether link 7 was closed, and what another link, or that one,
/// took.
#[derive(Clone, Copy)]
pub(crate) struct Log {
    pub(crate) dials: usize,
    pub(crate) closed: bool,
    pub(crate) link: u64,
    pub(crate) text: &'static [u8],
}

/// Whether that is so.
pub(crate) fn shows(alloc: Global, acts: &[Act], log: &Log) -> Result<bool, AllocError> {
    let text = taken(alloc, acts, log.link)?;
    Ok(text.as_slice() == log.text && dials(acts) == log.dials && is_closed(acts, 7) == log.closed)
}

/// The size of a chunk, as it is written and as a number.
pub(crate) type Chunk = (&'static [u8], usize);

/// A text behind which a body of letters `x` stands in chunks of these sizes.
pub(crate) fn in_chunks(
    alloc: Global,
    head: &[u8],
    chunks: &[Chunk],
) -> Result<Vec<u8>, AllocError> {
    let mut text = head.to_vec(alloc)?;
    for (size, count) in chunks {
        text.extend_from_slice(size)?;
        text.extend_from_slice(b"\r\n")?;
        text.extend_from_slice(&vec![in alloc; b'x'; *count]?)?;
        text.extend_from_slice(b"\r\n")?;
    }
    text.extend_from_slice(b"0\r\n\r\n")?;
    Ok(text)
}
