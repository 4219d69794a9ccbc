//! What the gateway sends: the heads of requests to backends, the heads of replies to clients, and the replies that it
//! gives by itself. Each is a function of what came in, byte for byte.
#![tactic(auto)]

mod date;
mod error;
mod laws;
mod lines;
mod own;
mod reply;
mod request;
mod status;
mod target;

pub use error::NoMemory;
pub use laws::{
    one_date_at_a_moment, own_replies_are_read, passed_replies_are_read, passed_requests_are_read,
};
pub use own::{Own, own_reply};
pub use reply::{out_reply_head, sent_framing};
pub use request::{OutHead, out_request};

#[cfg(test)]
mod tests;
