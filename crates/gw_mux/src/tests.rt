//! What no clause says: worked tables, and the router beside the decision that is taken slowly.

mod answers;
mod beside;
mod slow;
mod tables;
