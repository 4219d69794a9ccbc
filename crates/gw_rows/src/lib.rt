//! Tests that cross crates: trips of several callers over one pool.
#![tactic(auto)]

#[cfg(test)]
mod cancel_tests;
#[cfg(test)]
mod late_tests;
#[cfg(test)]
mod losing_tests;
#[cfg(test)]
mod owed;
#[cfg(test)]
mod place_tests;
#[cfg(test)]
mod tests;
