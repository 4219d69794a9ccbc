//! Bodies of every framing (RFC 9112, section 6): none, of a known length, in chunks, or up to the end of the link. One
//! reader takes a body in any pieces and hands its data on as ranges of them; one writer appends a body's text.
#![tactic(auto)]

mod error;
mod framing;
mod laws;
mod place;
mod plan;
mod reader;
mod rewindable;
mod writer;

pub use error::NoMemory;
pub use framing::reply_framing;
pub use laws::{
    bodies_follow_places, bodies_have_one_reading, done_is_whole, taken_in_turn,
    undecided_is_neither, written_is_read, written_piece_by_piece,
};
pub use reader::{AtEnd, BodyReader};
pub use rewindable::Rewindable;
pub use writer::{BodyWriter, write_body};

#[cfg(test)]
mod tests;
