//! Go 1.22's pattern language (`net/http`, "Patterns") as a library: what pattern a text says, or its first
//! fault and its place, and what a path is once it is cleaned.
#![tactic(auto)]

mod cleaning;
mod error;
mod fault;
mod form;
mod laws;
mod reading;
mod segment;

pub use cleaning::{clean, is_clean};
pub use error::NoMemory;
pub use fault::{PCode, PatternError};
pub use form::{Pattern, Seg};
pub use laws::{clean_paths, cleaned_begins_with_slash, cleaned_is_clean, texts_spell_patterns};
pub use reading::parse;

#[cfg(test)]
mod tests;
