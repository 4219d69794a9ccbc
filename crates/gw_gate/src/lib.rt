//! A shutdown gate that threads share: one word, on which each call makes single atomic steps. After the step that
//! shuts it nothing begins, and once it is drained nobody is inside. No call waits, and none takes memory after
//! `Gate::new`.
//!
//! A lock round plain data can't stand in for the word: to take a lock is to wait, and no call here is given a `Wait`.
#![tactic(auto)]

mod gate;
mod laws;
mod steps;
mod view;

pub use gate::{Drained, Enter, Gate, GateSeat, Inside, Look, NoMemory, ShutAnswer};
pub use laws::{drained_is_empty, seen_is_shut, word_counts_seats};
pub use view::GateView;

#[cfg(test)]
mod tests;
