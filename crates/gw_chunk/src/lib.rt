//! Chunked transfer coding (RFC 9112, section 7.1): a decoder that takes a text in any pieces, keeps only its
//! position in it and hands the data on as ranges of the pieces, and an encoder of chunks.
#![tactic(auto)]

mod decoder;
mod encoder;
mod error;
mod frame;
mod laws;
mod lines;
mod position;

pub use decoder::{ChunkFed, ChunkStep, Decoder};
pub use encoder::{END_LEN, FRAME_LIMIT, PIECE_LIMIT, encode_end, encode_piece, end_text};
pub use error::{ChunkError, NoMemory};
pub use frame::{FRAME_BEFORE, FRAME_BEHIND, frame_piece};
pub use laws::{
    coded_is_read_as_its_data, coded_piece_by_piece, faults_have_one_place, no_text_begins_another,
    positions_follow_grammar, undecided_is_neither,
};

#[cfg(test)]
mod tests;
