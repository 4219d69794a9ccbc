//! Cancel trees, as Go 1.22's `context` has them, for one thread. A node ends once, by a cancel or by a deadline,
//! and what is tied to it ends with it.
#![tactic(auto)]

mod contexts;
mod laws;
mod parts;
mod spread;

pub use contexts::{NoMemory, Tree, below_ended_is_ended, expired_under_due, live_before_deadline};
pub use laws::{first_cause_stays, later_moment_counts, others_stay};
pub use parts::{Cause, Node};

#[cfg(test)]
mod tests;
