//! The router.
ghost use Rattle.std.specs.Prelude.{◌≡◌, ◌<◌, ◌≤◌, IfOk, MatchOption, MatchResult, length};
ghost use Rattle.gw_pattern.specs.Path.{IsClean};
ghost use Rattle.gw_sets.specs.Comparison.{bytes_of};
ghost use Rattle.gw_mux.specs.Allow.{IsAllow};
ghost use Rattle.gw_mux.specs.Answer.{Decides, Finds, Refuses, RefusesMethod, TookSpans, adds_slash};
ghost use Rattle.gw_mux.specs.Order.{IsOrder};
ghost use Rattle.gw_mux.specs.Table.{ArePatterns, HasNoConflict, IsAt, IsTable};

use crate::allowed::allowed;
use crate::answer::{Decision, Found, Hit, MuxError};
use crate::best::{best, wants_slash};
use crate::conflicts::first_conflict;
use crate::error::NoMemory;
use crate::location::location;
use crate::order::order_of;
use crate::sent::{SentPath, lengths_of};
use crate::served::served;
use crate::walk::{cut_slash, spans};
use gw_pattern::{Pattern, clean, is_clean};
use http::Method;
use std::alloc::Global;
use std::marker::Model;

/// A list of patterns without conflicts, which decides what answers a request.
#[derive(Debug, Drop)]
pub struct Mux {
    patterns: Vec<Pattern>,
    order: Vec<u32>,
}

impl Model for Mux {
    ghost use Rattle.std.specs.Prelude.{List};
    ghost use Rattle.gw_pattern.specs.declared.form.Pattern.{Pattern};

    ghost Value = { List Pattern };

    ghost view = { λ m. m.patterns.items };

    ghost use Rattle.gw_mux.specs.Order.{IsOrder};
    ghost use Rattle.gw_mux.specs.Table.{IsTable};

    ghost invariant = { λ m. IsTable m.patterns.items × IsOrder m.patterns.items m.order.items };
}

impl Mux {
    /// A router over the patterns, in which each keeps its place in the list as its number, from 0. Where patterns
    /// conflict the first conflict is the error; want of memory is the only other one.
    pub fn build(alloc: Global, patterns: Vec<Pattern>) -> Result<Mux, MuxError>
        requires { ArePatterns patterns.items }
        ensures { MatchResult result (λ mux. (mux ≡ patterns.items) × HasNoConflict mux) (Refuses patterns.items) }
    {
        if let Some((first, second)) = first_conflict(&patterns) {
            return Err(MuxError::Conflict {
                first: first as u32,
                second: second as u32,
            });
        }
        let Ok(order) = order_of(alloc, &patterns) else {
            return Err(MuxError::NoMemory);
        };
        Ok(Mux { patterns, order })
    }

    /// The pattern of that number, counted from 0; `None` exactly where there are no more. Takes no memory.
    pub fn pattern(&self, number: u32) -> Option<&Pattern>
        ensures { MatchOption result (length self.now ≤ number) (λ p. IsAt self.now number p.now) }
    {
        self.patterns.get(number as usize)
    }

    /// The best pattern for a clean path, with what its named wildcards take; or that the path with a slash more has
    /// an exact best, and the path has none; or that there is no best. Method and host are compared byte for byte,
    /// and an escape of the path that is not whole stands for itself. Takes no memory.
    pub fn find(&self, method: &[u8], host: &[u8], path: &[u8]) -> Found
        requires { IsClean path.now }
        ensures { Finds self.now method.now host.now path.now result }
    {
        found_in(&self.patterns, &self.order, method, host, path)
    }

    /// The methods of the patterns that match the clean path, or this with a slash more where it ends in none, but for
    /// the method (RFC 9110, section 10.2.1): each once, sorted by its bytes, with HEAD beside GET. The error is want of
    /// memory.
    pub fn allow(&self, alloc: Global, host: &[u8], path: &[u8]) -> Result<Vec<Method>, NoMemory>
        requires { IsClean path.now }
        ensures { IfOk result (λ methods. IsAllow self.now host.now path.now methods.items) }
    {
        let served = served(alloc, &self.patterns, &self.order, host, path)?;
        Ok(allowed(alloc, &self.patterns, &served)?)
    }

    /// What answers a request: a redirect to the cleaned path with a slash more, a redirect to the cleaned path, the
    /// best pattern, the methods that are allowed, or nothing; the first of these that holds. Memory is taken only for
    /// a redirect or a list of methods, and want of it is the error.
    pub fn decide(
        &self,
        alloc: Global,
        method: &[u8],
        host: &[u8],
        path: &[u8],
        query: Option<&[u8]>,
    ) -> Result<Decision, NoMemory>
        ensures { IfOk result (Decides self.now method.now host.now path.now (bytes_of query.entry)) }
    {
        if is_clean(path) {
            decide_clean(
                alloc,
                &self.patterns,
                &self.order,
                method,
                host,
                path,
                query,
            )
        } else {
            redirect(
                alloc,
                &self.patterns,
                &self.order,
                method,
                host,
                path,
                query,
            )
        }
    }
}

// The decision for a clean path.
fn decide_clean(
    alloc: Global,
    patterns: &[Pattern],
    order: &[u32],
    method: &[u8],
    host: &[u8],
    path: &[u8],
    query: Option<&[u8]>,
) -> Result<Decision, NoMemory>
    requires table { IsTable patterns.now }
    requires order { IsOrder patterns.now order.now }
    requires clean { IsClean path.now }
    ensures { IfOk result (Decides patterns.now method.now host.now path.now (bytes_of query.entry)) }
{
    match found_in(patterns, order, method, host, path) {
        Found::Route(hit) => Ok(Decision::Route(hit)),
        Found::AddSlash => Ok(Decision::Redirect(location(alloc, path, true, query)?)),
        Found::Nothing => decide_unmatched(alloc, patterns, order, host, path),
    }
}

// The decision for a clean path that no pattern matches, as no other with a slash more does exactly.
fn decide_unmatched(
    alloc: Global,
    patterns: &[Pattern],
    order: &[u32],
    host: &[u8],
    path: &[u8],
) -> Result<Decision, NoMemory>
    requires table { IsTable patterns.now }
    requires order { IsOrder patterns.now order.now }
    requires clean { IsClean path.now }
    ensures { IfOk result (RefusesMethod patterns.now host.now path.now) }
{
    let served = served(alloc, patterns, order, host, path)?;
    if served.is_empty() {
        return Ok(Decision::NotFound);
    }
    Ok(Decision::NotAllowed(allowed(alloc, patterns, &served)?))
}

// The decision for a path that is not clean.
fn redirect(
    alloc: Global,
    patterns: &[Pattern],
    order: &[u32],
    method: &[u8],
    host: &[u8],
    path: &[u8],
    query: Option<&[u8]>,
) -> Result<Decision, NoMemory>
    requires table { IsTable patterns.now }
    requires order { IsOrder patterns.now order.now }
    requires unclean { IsClean path.now → ⊥ }
    ensures { IfOk result (Decides patterns.now method.now host.now path.now (bytes_of query.entry)) }
{
    let clean = clean(alloc, path)?;
    let adds_slash = adds_slash(&found_in(patterns, order, method, host, &clean));
    Ok(Decision::Redirect(location(alloc, &clean, adds_slash, query)?))
}

fn adds_slash(found: &Found) -> bool
    ensures { result ≡ adds_slash found.now }
{
    matches!(found, Found::AddSlash)
}

// What a clean path finds in a list of patterns.
fn found_in(patterns: &[Pattern], order: &[u32], method: &[u8], host: &[u8], path: &[u8]) -> Found
    requires table { IsTable patterns.now }
    requires order { IsOrder patterns.now order.now }
    requires clean { IsClean path.now }
    ensures { Finds patterns.now method.now host.now path.now result }
{
    let (body, slash) = cut_slash(path);
    let lengths = lengths_of(body);
    let sent = SentPath {
        body,
        lengths: lengths.as_slice(),
        slash,
    };
    let best = best(patterns, order, method, host, sent);
    if wants_slash(patterns, order, best, method, host, sent) {
        return Found::AddSlash;
    }
    match best {
        Some(route) => Found::Route(hit(patterns, route, path)),
        None => Found::Nothing,
    }
}

// The hit of that pattern.
fn hit(patterns: &[Pattern], route: u32, path: &[u8]) -> Hit
    requires table { IsTable patterns.now }
    requires within { route < length patterns.now }
    ensures route { result.route ≡ route }
    ensures spans { TookSpans patterns.now route path.now result.spans }
{
    Hit {
        route,
        spans: spans(&patterns[route as usize].segs, path),
    }
}
