// The gateway's top call: it reads the route file, listens, and serves clients over any world.
#![tactic(auto)]

mod closing;
mod command;
mod crew;
mod house;
mod inspect;
mod laws;
mod load;
mod methods;
mod run;
mod setup;
mod worker;

pub use inspect::run_plain;
pub use laws::{one_worker_makes_the_journal, unbegun_take_nothing};
pub use run::{Report, run_gateway};
pub use worker::Worker;

#[cfg(test)]
mod tests;
