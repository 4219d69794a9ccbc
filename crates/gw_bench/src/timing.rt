//! The time of a decision.

use gw_mux::{Decision, Mux};
use std::alloc::{AllocError, Global};
use std::rt::Clock;
use std::time::Instant;

/// What is asked for.
#[derive(Clone, Copy)]
pub(crate) struct Asked<'a> {
    pub(crate) method: &'a [u8],
    pub(crate) host: &'a [u8],
    pub(crate) path: &'a [u8],
}

// How many rounds are made, of which the best counts.
const ROUNDS: u32 = 7;

/// The nanoseconds that a decision takes, in the best of several rounds of so many decisions each.
pub(crate) fn best_time(
    rt: &HostRuntime,
    mux: &Mux,
    asked: Asked<'_>,
    times: u32,
) -> Result<u64, anyhow::Error> {
    let mut best = u64::MAX;
    for _ in 0..ROUNDS {
        let start = Instant::now(rt)?;
        let routed = decide_often(rt.alloc(), mux, asked, times)?;
        let time = start.elapsed(rt)?;
        if routed <= times {
            let nanos = u64::try_from(time.as_nanos()).unwrap_or(u64::MAX);
            best = best.min(nanos / u64::from(times.max(1)));
        }
    }
    Ok(best)
}

// How many of so many decisions find a route.
fn decide_often(alloc: Global, mux: &Mux, asked: Asked<'_>, times: u32) -> Result<u32, AllocError> {
    let mut routed: u32 = 0;
    for _ in 0..times {
        let decision = mux.decide(alloc, asked.method, asked.host, asked.path, None)?;
        if matches!(decision, Decision::Route(_)) {
            routed = routed.saturating_add(1);
        }
    }
    Ok(routed)
}
