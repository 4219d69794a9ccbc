//! The session of one client over trips to backends: request after request, each answered by the route of its most
//! specific pattern, by way of a backend or by the gateway itself. Its parts can be called by themselves: a request's head
//! is heard, what is done with it is decided, a reply of the gateway's own is written, a trip is made beside what a worker
//! watches, and a backend's reply is passed on.
#![tactic(auto)]

mod client;
mod door;
mod end;
mod errand;
mod gathering;
mod hearing;
mod laws;
mod looking;
mod passing;
mod patience;
mod plan;
mod replying;
mod saying;
mod session;
mod shared;
mod tripping;

pub use client::Client;
pub use end::{Ended, Served, Why};
pub use errand::Errand;
pub use hearing::{Request, hear_request};
pub use laws::connections_are_closed_once;
pub use looking::look_shut;
pub use plan::{Plan, make_plan};
pub use replying::{Answered, pass_back};
pub use saying::{lost_end, refusal_code, say_fault, say_own};
pub use session::serve_connection;
pub use shared::Shared;
pub use tripping::{make_trip, make_upload};

#[cfg(test)]
mod session_rows;
#[cfg(test)]
mod session_tests;
#[cfg(test)]
mod tests;
