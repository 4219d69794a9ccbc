//! The fields of a message (RFC 9110, section 5): a list of names and values in the order in which they came.
#![tactic(auto)]

mod error;
mod fields;
mod hops;
mod laws;
mod lines;
mod lists;

pub use error::NoMemory;
pub use fields::Fields;
pub use laws::sorted_by_name;
pub use lines::Lines;

#[cfg(test)]
mod tests;
