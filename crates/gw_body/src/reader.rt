//! The reader of a body.
ghost use Rattle.std.specs.Prelude.{◌≡◌, true, ◌≤◌, ◌↔◌, [], length};
ghost use Rattle.gw_chunk.specs.declared.decoder.ChunkStep.TheVariants.{More};
ghost use Rattle.gw_body.specs.declared.reader.AtEnd.TheVariants.{Whole};
ghost use Rattle.gw_body.specs.Places.{begins, is_done, is_open, HasBody};
ghost use Rattle.gw_body.specs.Taken.{behind_link, DecidesNothing, Feeds, Stays};

use crate::place::{Place, advance};
use gw_chunk::ChunkFed;
use gw_head::Framing;
use std::marker::Model;

/// What the link's end makes of a body.
#[derive(Clone, Copy, Debug, PartialEq, Eq)]
pub enum AtEnd {
    /// The body is whole: it was done, or goes up to the link's end.
    Whole,
    /// Bytes of the body are missing, or it was refused.
    Short,
}

/// A reader of one body of any framing (RFC 9112, section 6). It keeps its place in the body, which is what contracts
/// see of it, and takes no memory.
#[derive(Drop)]
pub struct BodyReader {
    place: Place,
}

impl Model for BodyReader {
    ghost use Rattle.std.specs.Prelude.{◌≡◌, true};
    ghost use Rattle.gw_body.specs.declared.place.Place.{Place};
    ghost use Rattle.gw_body.specs.Places.{is_open};

    ghost Value = { Place };

    ghost view = { λ r. r.place };

    ghost invariant = { λ r. is_open r.place ≡ true };
}

impl BodyReader {
    /// A reader before the first byte of a body with this framing.
    pub fn new(framing: Framing) -> BodyReader
        ensures { result ≡ begins framing }
    {
        BodyReader {
            place: Place::first(framing),
        }
    }

    /// Takes the next piece, and says what comes first in it. `Data` uses the piece up to the end of the data, which
    /// goes as far as the body, its chunk and the piece do; the rest is to be fed again. `More` uses the whole piece,
    /// `Done` uses it up to the body's end, and `Bad` nothing of it. After `Done` the reader uses nothing and says
    /// `Done`, as it does at once of a body of no bytes; after `Bad` it says the same `Bad`. What goes up to the link's
    /// end is refused as too large with a byte after the first 2^62 bytes.
    pub fn take(&mut self, piece: &[u8]) -> ChunkFed
        ensures step { Feeds self.old piece.now result self.new }
        ensures within { result.used ≤ length piece.now }
        ensures more { (result.step ≡ More) ↔ DecidesNothing self.old piece.now }
        ensures stays { Stays self.old result self.new }
    {
        advance(&mut self.place, piece)
    }

    /// What the link's end makes of the body: it is whole where it was done, or goes up to the link's end and wasn't
    /// refused. Then the reader is done.
    pub fn link_ended(&mut self) -> AtEnd
        ensures whole { (result ≡ Whole) ↔ HasBody self.old [] [] [] }
        ensures after { self.new ≡ behind_link self.old }
    {
        end_link(&mut self.place)
    }

    /// Whether the body is whole, whatever follows.
    pub fn done(&self) -> bool
        ensures { result ≡ is_done self.now }
    {
        self.place.is_done()
    }
}

fn end_link(place: &mut Place) -> AtEnd
    requires { is_open place.old ≡ true }
    ensures whole { (result ≡ Whole) ↔ HasBody place.old [] [] [] }
    ensures after { place.new ≡ behind_link place.old }
    ensures open { is_open place.new ≡ true }
{
    match place {
        Place::Counted { left } if *left == 0 => AtEnd::Whole,
        Place::ToEnd { .. } => {
            *place = Place::Counted { left: 0 };
            AtEnd::Whole
        }
        _ => AtEnd::Short,
    }
}
