//! Links beside a guard that says whether to go on: waits for bytes and for room, and bodies of any length that are
//! passed on from one link to another in bounded memory.
#![tactic(auto)]

mod beginning;
mod drawing;
mod framing;
mod guard;
mod inbox;
mod laws;
mod outbox;
mod relaying;
mod timer;
mod together;
mod waits;

pub use beginning::{Began, first_piece};
pub use drawing::{Pull, pull_piece};
pub use guard::{Guard, Sight};
pub use inbox::Inbox;
pub use laws::{
    drawn_is_body, front_of_text, pulls_follow, reads_are_taken, relays_follow, sides_are_own,
};
pub use outbox::Outbox;
pub use relaying::{Incoming, Relayed, Silences, relay, write_whole};
pub use timer::Timer;
pub use together::write_together;
pub use waits::{
    Heard, Limit, Loss, Sent, Stop, Taken, read_some, read_within, write_all, write_counted,
    write_within,
};

#[cfg(test)]
mod draw_tests;
#[cfg(test)]
mod out_tests;
#[cfg(test)]
mod relay_tests;
#[cfg(test)]
mod tests;
#[cfg(test)]
mod wait_tests;
