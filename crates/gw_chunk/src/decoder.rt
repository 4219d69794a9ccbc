//! The decoder, which takes a chunked text in any pieces.
ghost use Rattle.std.specs.Prelude.{◌≡◌, true, ◌+◌, ◌-◌, ◌≤◌, ◌↔◌, length, min};
ghost use Rattle.gw_chunk.specs.declared.decoder.ChunkStep.TheVariants.{More};
ghost use Rattle.gw_chunk.specs.Fed.{DecidesNothing, Feeds, Stays};
ghost use Rattle.gw_chunk.specs.Position.{first, is_undecided};

use crate::error::ChunkError;
use crate::position::Position;
use std::marker::Model;

/// What a piece brought.
#[derive(Clone, Copy, Debug, PartialEq, Eq)]
pub enum ChunkStep {
    /// The bytes of the piece from the first place up to the second are data; there is at least one.
    Data { from: usize, to: usize },
    /// Nothing is decided yet: more bytes are wanted.
    More,
    /// The text is whole.
    Done,
    /// The text is refused, now or before.
    Bad(ChunkError),
}

/// What a piece brought, and how many bytes of it were used.
#[derive(Clone, Copy, Debug, PartialEq, Eq)]
pub struct ChunkFed {
    /// The bytes at the front of the piece that were used. The others are to be fed again, or follow the text.
    pub used: usize,
    /// What they brought.
    pub step: ChunkStep,
}

/// A decoder of one chunked text (RFC 9112, section 7.1). It keeps its position in the text, which is what contracts
/// see of it, and takes no memory.
#[derive(Drop)]
pub struct Decoder {
    position: Position,
}

impl Model for Decoder {
    ghost use Rattle.gw_chunk.specs.declared.position.Position.{Position};

    ghost Value = { Position };

    ghost view = { λ d. d.position };
}

impl Decoder {
    /// A decoder before the first byte of a text.
    pub fn new() -> Decoder
        ensures { result ≡ first }
    {
        Decoder {
            position: Position::first(),
        }
    }

    /// Takes the next piece, and says what comes first in it. `Data` uses the piece up to the end of the data, which
    /// goes as far as the chunk and the piece do; the rest is to be fed again. `More` uses the whole piece, `Done` uses
    /// it up to the text's end, and `Bad` nothing of it. After `Done` the decoder uses nothing and says `Done`, and
    /// after `Bad` it says the same `Bad`.
    pub fn feed(&mut self, piece: &[u8]) -> ChunkFed
        ensures step { Feeds self.old piece.now result self.new }
        ensures within { result.used ≤ length piece.now }
        ensures more { (result.step ≡ More) ↔ DecidesNothing self.old piece.now }
        ensures stays { Stays self.old result self.new }
    {
        advance(&mut self.position, piece)
    }
}

/// The same at a position.
fn advance(position: &mut Position, piece: &[u8]) -> ChunkFed
    ensures { Feeds position.old piece.now result position.new }
{
    match *position {
        Position::Ended => ChunkFed {
            used: 0,
            step: ChunkStep::Done,
        },
        Position::Refused(error) => ChunkFed {
            used: 0,
            step: ChunkStep::Bad(error),
        },
        _ => walk(position, piece),
    }
}

/// The same at a position that is neither at the end nor behind a fault.
fn walk(position: &mut Position, piece: &[u8]) -> ChunkFed
    requires { is_undecided position.old ≡ true }
    ensures { Feeds position.old piece.now result position.new }
{
    let mut at = *position;
    for (i, byte) in piece.iter().enumerate() {
        let left = at.left();
        if left > 0 {
            let to = data_end(i, left, piece.len());
            *position = at.skip((to - i) as u64);
            return ChunkFed {
                used: to,
                step: ChunkStep::Data { from: i, to },
            };
        }
        at = at.after(*byte);
        match at {
            Position::Ended => {
                *position = at;
                return ChunkFed {
                    used: i + 1,
                    step: ChunkStep::Done,
                };
            }
            Position::Refused(error) => {
                *position = at;
                return ChunkFed {
                    used: 0,
                    step: ChunkStep::Bad(error),
                };
            }
            _ => {}
        }
    }
    *position = at;
    ChunkFed {
        used: piece.len(),
        step: ChunkStep::More,
    }
}

/// Where data that begins in a piece ends: with the chunk's data or with the piece.
fn data_end(from: usize, left: u64, len: usize) -> usize
    requires { from ≤ len }
    ensures { result ≡ from + min left (len - from) }
{
    let room = len - from;
    if left < room as u64 {
        from + left as usize
    } else {
        len
    }
}
