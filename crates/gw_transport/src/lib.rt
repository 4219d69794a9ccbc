//! Trips to backends: a connection for each attempt, and the attempts.
#![tactic(auto)]

mod attempts;
mod buffers;
mod ending;
mod laws;
mod leasing;
mod replying;
mod sending;
mod uploading;
mod watch;

pub use attempts::{Attempted, Order, Tried, Trip, round_trip, upload_trip};
pub use buffers::{Buffers, NoMemory};
pub use ending::{finish, pull};
pub use laws::{
    connections_are_closed_once, exchanges_are_text, exchanges_are_whole, uploads_are_apart,
};
pub use leasing::{Leased, close_expired, end_lease, lease};
pub use replying::{Begun, End};
pub use uploading::Upload;
pub use watch::{Watch, first_deadline_is_least};

#[cfg(test)]
mod attempt_tests;
#[cfg(test)]
mod ending_tests;
#[cfg(test)]
mod idle_tests;
#[cfg(test)]
mod lease_tests;
#[cfg(test)]
mod test_links;
#[cfg(test)]
mod test_rig;
#[cfg(test)]
mod test_uploads;
#[cfg(test)]
mod tests;
#[cfg(test)]
mod trip_tests;
#[cfg(test)]
mod upload_tests;
#[cfg(test)]
mod watch_tests;
