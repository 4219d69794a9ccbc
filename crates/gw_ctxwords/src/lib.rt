//! Contexts that threads share: a word for each node, which says whether and why it ended. A cancel is one atomic step
//! on one word, and every thread that looks at the node or at what is tied below it then sees it. No call waits, and
//! none takes memory after `CtxTable::new`.
//!
//! A lock round plain data can't stand in for the words: to take a lock is to wait, and no call here is given a `Wait`.
#![tactic(auto)]

mod answers;
mod climb;
mod laws;
mod nodes;
mod steps;
mod table;
mod view;

pub use answers::{Cancelled, Looked};
pub use laws::{cause_was_set, ended_for_good, live_on_the_whole_way};
pub use nodes::NodeSpec;
pub use table::{CtxSeat, CtxTable, NoMemory};
pub use view::CtxView;

#[cfg(test)]
mod tests;
