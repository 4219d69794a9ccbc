//! Routing (Go 1.22's `net/http`, `ServeMux`): which of a list of patterns answers a request, and what else a router
//! answers: a redirect, the methods that are allowed, or that nothing is found.
#![tactic(auto)]

mod allowed;
mod answer;
mod best;
mod conflicts;
mod error;
mod keys;
mod label;
mod laws;
mod location;
mod order;
mod routing;
mod sent;
mod served;
mod tree;
mod walk;

pub use answer::{Decision, Found, Hit, MuxError, Spans};
pub use error::NoMemory;
pub use laws::{
    best_is_there, candidates_are_ordered, decisions_are_unique, refusals_name_a_method,
    targets_are_visible, wildcards_have_spans,
};
pub use routing::Mux;

#[cfg(test)]
mod tests;
