//! The reader's place in a body.
ghost use Rattle.std.specs.Prelude.{◌≡◌, true, ◌-◌, ◌↔◌, length, min};
ghost use Rattle.gw_chunk.specs.declared.decoder.ChunkStep.TheVariants.{More};
ghost use Rattle.gw_body.specs.Places.{begins, is_done, is_open};
ghost use Rattle.gw_body.specs.Taken.{front_step, DecidesNothing, Feeds, Stays};

use gw_chunk::{ChunkError, ChunkFed, ChunkStep, Decoder};
use gw_head::Framing;

/// The most bytes of data that a body up to the link's end has.
const DATA_LIMIT: u64 = 1 << 62;

/// Where a body is read on.
#[derive(Drop)]
pub(crate) enum Place {
    /// So many bytes are left; the body is whole where there are none.
    Counted { left: u64 },
    /// In a chunked text.
    Chunked(Decoder),
    /// In what goes up to the link's end, and has at most so many bytes more.
    ToEnd { left: u64 },
    /// Behind a fault.
    Refused(ChunkError),
}

impl Place {
    /// Before the first byte of a body.
    pub(crate) fn first(framing: Framing) -> Place
        ensures at { result ≡ begins framing }
        ensures open { is_open result ≡ true }
    {
        match framing {
            Framing::None => Place::Counted { left: 0 },
            Framing::Length(length) => Place::Counted { left: length },
            Framing::Chunked => Place::Chunked(Decoder::new()),
            Framing::ToEnd => Place::ToEnd { left: DATA_LIMIT },
        }
    }

    /// Whether the body is whole.
    pub(crate) fn is_done(&self) -> bool
        requires { is_open self.now ≡ true }
        ensures { result ≡ is_done self.now }
    {
        match self {
            Place::Counted { left } => *left == 0,
            Place::Chunked(_) | Place::ToEnd { .. } | Place::Refused(_) => false,
        }
    }
}

/// Takes the next piece of a body, as the reader does.
pub(crate) fn advance(place: &mut Place, piece: &[u8]) -> ChunkFed
    requires { is_open place.old ≡ true }
    ensures step { Feeds place.old piece.now result place.new }
    ensures more { (result.step ≡ More) ↔ DecidesNothing place.old piece.now }
    ensures stays { Stays place.old result place.new }
    ensures open { is_open place.new ≡ true }
{
    match place {
        Place::Counted { left } => {
            if *left == 0 {
                return ChunkFed {
                    used: 0,
                    step: ChunkStep::Done,
                };
            }
            take_front(left, piece)
        }
        Place::Chunked(decoder) => {
            let fed = decoder.feed(piece);
            match fed.step {
                ChunkStep::Done => *place = Place::Counted { left: 0 },
                ChunkStep::Bad(error) => *place = Place::Refused(error),
                ChunkStep::Data { .. } | ChunkStep::More => {}
            }
            fed
        }
        Place::ToEnd { left } => {
            if *left == 0 && !piece.is_empty() {
                *place = Place::Refused(ChunkError::TooLarge);
                return ChunkFed {
                    used: 0,
                    step: ChunkStep::Bad(ChunkError::TooLarge),
                };
            }
            take_front(left, piece)
        }
        Place::Refused(error) => ChunkFed {
            used: 0,
            step: ChunkStep::Bad(*error),
        },
    }
}

// Takes as data so much of a piece as is left.
fn take_front(left: &mut u64, piece: &[u8]) -> ChunkFed
    ensures used { result.used ≡ min left.old (length piece.now) }
    ensures left { left.new ≡ left.old - result.used }
    ensures step { result.step ≡ front_step result.used }
{
    let to = lesser(*left, piece.len());
    *left -= to as u64;
    if to == 0 {
        return ChunkFed {
            used: 0,
            step: ChunkStep::More,
        };
    }
    ChunkFed {
        used: to,
        step: ChunkStep::Data { from: 0, to },
    }
}

fn lesser(left: u64, len: usize) -> usize
    ensures { result ≡ min left len }
{
    if left < len as u64 {
        left as usize
    } else {
        len
    }
}
