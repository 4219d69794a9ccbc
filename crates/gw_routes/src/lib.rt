//! The route file: a JSON object (RFC 8259) that says where the gateway listens and which backend answers which pattern.
#![tactic(auto)]

mod address;
mod fault;
mod hosts;
mod kinds;
mod laws;
mod names;
mod placing;
mod pool_limits;
mod reading;
mod route;
mod table;
mod top;

pub use fault::{GCode, RouteError};
pub use laws::addresses_are_read;
pub use reading::read_routes;
pub use table::{Action, Route, Table};

#[cfg(test)]
mod tests;
