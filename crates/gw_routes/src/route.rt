//! One route, as it is written.
ghost use Rattle.std.specs.Prelude.{◌≡◌, ◌≤◌, ◌<◌, Some, None, IfOk, IfSome, MatchOption, length, position};
ghost use Rattle.std.specs.List.{list_all};
ghost use Rattle.serde_json.specs.View.{view};
ghost use Rattle.gw_pattern.specs.Pattern.{IsWellFormed, spelled_of, wildcard_count};
ghost use Rattle.gw_routes.specs.Kinds.{Gives};
ghost use Rattle.gw_routes.specs.Routes.{backend_in, backend_of, backend_said, backend_work, is_base, is_base_byte, is_slash, route_pattern, route_said, route_text, slash_at, stop_work, work_by, work_said, work_text};

use crate::address::address_in;
use crate::fault::{GCode, RouteError};
use crate::kinds::{Bounds, flag_at, number_at, text_at};
use crate::names::{check_names, route_kind};
use gw_pattern::{Pattern, PatternError, parse};
use gw_wire::{Addr, Bytes};
use serde_json::Value;
use std::alloc::Global;

/// What the requests of a route go to, as it is written.
#[derive(Drop)]
pub(crate) enum Target {
    /// A backend's address, and the base that stands before each path.
    Address { addr: Addr, base: Bytes },
    /// The gate, which they shut.
    Gate,
}

// What a route does with its requests: their target, the milliseconds of each, and the bytes that are kept of its body.
#[derive(Drop)]
struct Work {
    target: Target,
    timeout: u32,
    buffer: u32,
}

/// A route as it is written: the pattern's text, the pattern, and what it does with its requests.
#[derive(Drop)]
pub(crate) struct Written {
    pub(crate) text: Bytes,
    pub(crate) pattern: Pattern,
    pub(crate) target: Target,
    pub(crate) timeout: u32,
    pub(crate) buffer: u32,
}

/// The route of a number.
#[tactic(auto, unfolding(crate::specs::Routes::route_said))]
pub(crate) fn read_route(alloc: Global, value: &Value, number: u32) -> Result<Written, RouteError>
    ensures route { Gives route_text result (route_said number (view value.now)) }
    ensures well_formed { IfOk result (λ w. IsWellFormed w.pattern) }
    ensures wildcards { IfOk result (λ w. wildcard_count w.pattern.segs.items ≤ 16) }
{
    check_names(value, route_kind(value), Some(number))?;
    let text = text_at(value, "pattern", Some(number))?;
    let pattern = read_pattern(alloc, text, number)?;
    let Work {
        target,
        timeout,
        buffer,
    } = read_work(alloc, value, number)?;
    let text = Bytes::new(Vec::from_slice(alloc, text.as_bytes())?);
    Ok(Written {
        text,
        pattern,
        target,
        timeout,
        buffer,
    })
}

// An hour at most.
const TIMEOUT: Bounds = Bounds {
    least: 1,
    most: 3_600_000,
    default: 30_000,
};

const BUFFER: Bounds = Bounds {
    least: 0,
    most: 1_048_576,
    default: 65_536,
};

#[tactic(auto, unfolding(crate::specs::Routes::work_said, crate::specs::Routes::work_by))]
fn read_work(alloc: Global, value: &Value, number: u32) -> Result<Work, RouteError>
    ensures { Gives work_text result (work_said number (view value.now)) }
{
    let stop = flag_at(value, "stop", false, Some(number))?;
    if stop {
        Ok(Work {
            target: Target::Gate,
            timeout: TIMEOUT.default,
            buffer: BUFFER.default,
        })
    } else {
        read_backend_work(alloc, value, number)
    }
}

#[tactic(auto, unfolding(crate::specs::Routes::backend_work))]
fn read_backend_work(alloc: Global, value: &Value, number: u32) -> Result<Work, RouteError>
    ensures { Gives work_text result (backend_work number (view value.now)) }
{
    let (addr, base) = read_backend(text_at(value, "backend", Some(number))?, number)?;
    let timeout = number_at(value, "timeout", TIMEOUT, Some(number))?;
    let buffer = number_at(value, "buffer", BUFFER, Some(number))?;
    let base = Bytes::new(Vec::from_slice(alloc, base)?);
    Ok(Work {
        target: Target::Address { addr, base },
        timeout,
        buffer,
    })
}

#[tactic(auto, unfolding(crate::specs::Routes::route_pattern))]
fn read_pattern(alloc: Global, text: &str, number: u32) -> Result<Pattern, RouteError>
    ensures pattern { Gives spelled_of result (route_pattern number text.now) }
    ensures well_formed { IfOk result IsWellFormed }
    ensures wildcards { IfOk result (λ p. wildcard_count p.segs.items ≤ 16) }
{
    match parse(alloc, text) {
        Ok(pattern) => Ok(pattern),
        Err(PatternError::Bad { code, at }) => Err(RouteError::Bad {
            code: GCode::Pattern,
            route: Some(number),
            pattern: Some((code, at)),
        }),
        Err(PatternError::NoMemory) => Err(RouteError::NoMemory),
    }
}

#[tactic(auto, unfolding(crate::specs::Routes::backend_said))]
fn read_backend(text: &str, number: u32) -> Result<(Addr, &[u8]), RouteError>
    ensures { Gives (λ backend. (backend.0, backend.1.now)) result (backend_said number text.now) }
{
    match backend_of(text.as_bytes()) {
        Some(backend) => Ok(backend),
        None => Err(RouteError::bad(GCode::BadAddress, Some(number))),
    }
}

// `http://`, an address and a base.
fn backend_of(text: &[u8]) -> Option<(Addr, &[u8])>
    ensures { MatchOption result (backend_of text.now ≡ None) (λ backend. backend_of text.now ≡ Some (backend.0, backend.1.now)) }
{
    let Some(rest) = text.strip_prefix(b"http://".as_slice()) else {
        return None;
    };
    backend_in(rest)
}

// An address, and the base that begins at the first slash.
fn backend_in(text: &[u8]) -> Option<(Addr, &[u8])>
    ensures { MatchOption result (backend_in text.now ≡ None) (λ backend. backend_in text.now ≡ Some (backend.0, backend.1.now)) }
{
    let slash = slash_in(text);
    let base = &text[slash..];
    if !is_base(base) {
        return None;
    }
    match address_in(&text[..slash]) {
        Some(addr) => Some((addr, base)),
        None => None,
    }
}

// Where the first slash stands, or the text's end.
fn slash_in(text: &[u8]) -> usize
    ensures place { result ≡ slash_at text.now }
    ensures within { result ≤ length text.now }
{
    match first_slash(text) {
        Some(place) => place,
        None => text.len(),
    }
}

fn first_slash(text: &[u8]) -> Option<usize>
    ensures place { result ≡ position is_slash text.now }
    ensures within { IfSome result (λ place. place < length text.now) }
{
    text.iter().position(|b| is_slash(*b))
}

// How many bytes a base has at most.
const MAX_BASE: usize = 1024;

fn is_base(base: &[u8]) -> bool
    ensures { result ≡ is_base base.now }
{
    base.len() <= MAX_BASE && are_base_bytes(base)
}

fn are_base_bytes(base: &[u8]) -> bool
    ensures { result ≡ list_all is_base_byte base.now }
{
    base.iter().all(|b| is_base_byte(*b))
}

fn is_base_byte(b: u8) -> bool
    ensures { result ≡ is_base_byte b }
{
    0x21 <= b && b <= 0x7e && b != b'?' && b != b'#' && b != b'%'
}

fn is_slash(b: u8) -> bool
    ensures { result ≡ is_slash b }
{
    b == b'/'
}
