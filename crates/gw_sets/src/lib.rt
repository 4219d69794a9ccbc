//! Patterns of Go 1.22's `ServeMux` (`net/http`, "Patterns") as sets of requests: what a pattern matches, how the
//! sets of two patterns lie to each other, and whether two patterns conflict.
#![tactic(auto)]

mod comparison;
mod conflicts;
mod matching;
mod relation;
mod shape;

pub use comparison::relate;
pub use conflicts::conflict;
pub use matching::matches;
pub use relation::Relation;
pub use shape::Shape;

#[cfg(test)]
mod tests;
