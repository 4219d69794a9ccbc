//! The head reader of the gateway: it finds the head of a request or of a reply in the pieces of a stream, and
//! judges it. A head is judged once, when the whole of it is there, so what is answered depends on the bytes alone
//! and not on how they were cut.
#![tactic(auto)]

mod checks;
mod copies;
mod error;
mod field_lines;
mod fields;
mod framing;
mod host;
mod judged;
mod laws;
mod lines;
mod mark;
mod pieces;
mod reader;
mod reply;
mod request;
mod target;

pub use error::{HeadError, NoMemory};
pub use framing::Framing;
pub use host::strip_port;
pub use laws::{
    grammar_ends_at_mark, heads_have_one_answer, no_head_begins_another, read_heads_are_writable,
    written_heads_are_read,
};
pub use reader::{Fed, HeadReader, Step};
pub use reply::ReplyHead;
pub use request::RequestHead;
pub use target::{has_bad_escape, split_target};

#[cfg(test)]
mod tests;
