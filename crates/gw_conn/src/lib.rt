//! The states of a client's connection, as Go 1.22's `net/http` has them: New, Active, Idle and Closed. Each is a type,
//! and each change of state is a method that takes the old state. An active connection, and no other, holds an
//! `Inside` of the gate: so a request begins at a granted `enter`, and what is active has to be left.
//!
//! Each state has to be handed on or closed: a connection that is let go doesn't compile. No call takes memory.
#![tactic(auto)]

mod states;

pub use states::{Active, Idle, New};

#[cfg(test)]
mod tests;
