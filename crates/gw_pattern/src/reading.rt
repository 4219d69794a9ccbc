//! Reading a pattern's text.
ghost use Rattle.std.specs.Prelude.{◌≡◌, ◌+◌, ◌^◌, ◌<◌, ◌≤◌, [], IfOk, length, position};
ghost use Rattle.gw_pattern.specs.Path.{is_slash, parts_of};
ghost use Rattle.gw_pattern.specs.Pattern.{IsWellFormed, spelled_of, wildcard_count};
ghost use Rattle.gw_pattern.specs.Text.{Gives, cut_said, front_of, host_said, is_open_brace, is_space, method_said, path_said, pattern_said, segs_said, target_place, target_said};

use crate::cleaning::{is_clean, place_of, split_part};
use crate::fault::{PCode, PatternError};
use crate::form::{Pattern, Seg};
use crate::segment::read_seg;
use gw_wire::Bytes;
use http::Method;
use http::method::MethodError;
use std::alloc::Global;

/// The pattern `[METHOD ][HOST]/[PATH]` that a text says, or its first fault and the fault's place.
#[tactic(auto, unfolding(crate::specs::Text::pattern_said))]
pub fn parse(alloc: Global, text: &str) -> Result<Pattern, PatternError>
    ensures pattern { Gives spelled_of result (pattern_said text.now) }
    ensures well_formed { IfOk result IsWellFormed }
    ensures segments { IfOk result (λ p. length p.segs.items ≤ 64) }
    ensures wildcards { IfOk result (λ p. wildcard_count p.segs.items ≤ 16) }
{
    let bytes = text.as_bytes();
    if bytes.is_empty() {
        return Err(PatternError::Bad {
            code: PCode::Empty,
            at: 0,
        });
    }
    read_cut(alloc, bytes)
}

#[tactic(auto, unfolding(crate::specs::Text::cut_said), using(crate::proofs::Parts::take_rest))]
fn read_cut(alloc: Global, text: &[u8]) -> Result<Pattern, PatternError>
    ensures { Gives spelled_of result (cut_said text.now (position is_space text.now)) }
{
    let (front, place) = cut_method(text);
    let method = read_method(alloc, front)?;
    let (host, segs) = read_target(alloc, place, &text[place..])?;
    Ok(Pattern { method, host, segs })
}

// What stands before the first space, and the place of what stands after it.
fn cut_method(text: &[u8]) -> (&[u8], usize)
    ensures front { result.0.now ≡ front_of text.now (position is_space text.now) }
    ensures place { result.1 ≡ target_place (position is_space text.now) }
    ensures within { result.1 ≤ length text.now }
{
    match place_of(text, b' ') {
        None => (&[], 0),
        Some(space) => (&text[..space], space + 1),
    }
}

#[tactic(auto, unfolding(crate::specs::Text::method_said))]
fn read_method(alloc: Global, name: &[u8]) -> Result<Option<Method>, PatternError>
    ensures { Gives (λ method. method) result (method_said name.now) }
{
    if name.is_empty() {
        return Ok(None);
    }
    let method = match Method::from_bytes(alloc, name) {
        Ok(method) => method,
        Err(MethodError::Invalid) => {
            return Err(PatternError::Bad {
                code: PCode::BadMethod,
                at: 0,
            });
        }
        Err(MethodError::OutOfMemory) => return Err(PatternError::NoMemory),
    };
    if name == b"CONNECT".as_slice() {
        return Err(PatternError::Bad {
            code: PCode::ConnectMethod,
            at: 0,
        });
    }
    Ok(Some(method))
}

// The host and the segments of what begins at a place.
#[tactic(auto, unfolding(crate::specs::Text::target_said), using(crate::proofs::Parts::take_rest))]
fn read_target(alloc: Global, at: usize, target: &[u8]) -> Result<(Bytes, Vec<Seg>), PatternError>
    requires { at + length target.now < 2 ^ 64 }
    ensures { Gives (λ t. (t.0, t.1.items)) result (target_said at target.now (position is_slash target.now)) }
{
    let Some(slash) = place_of(target, b'/') else {
        return Err(PatternError::Bad {
            code: PCode::NoSlash,
            at: at as u64,
        });
    };
    let host = read_host(alloc, at, &target[..slash])?;
    let segs = read_path(alloc, at + slash, &target[slash..])?;
    Ok((host, segs))
}

#[tactic(auto, unfolding(crate::specs::Text::host_said))]
fn read_host(alloc: Global, at: usize, host: &[u8]) -> Result<Bytes, PatternError>
    requires { at + length host.now < 2 ^ 64 }
    ensures { Gives (λ bytes. bytes) result (host_said at host.now (position is_open_brace host.now)) }
{
    match place_of(host, b'{') {
        None => Ok(Bytes::new(Vec::from_slice(alloc, host)?)),
        Some(brace) => Err(PatternError::Bad {
            code: PCode::BraceInHost,
            at: (at + brace) as u64,
        }),
    }
}

#[tactic(auto, unfolding(crate::specs::Text::path_said), using(crate::proofs::Parts::take_rest))]
fn read_path(alloc: Global, at: usize, path: &[u8]) -> Result<Vec<Seg>, PatternError>
    requires some { 0 < length path.now }
    requires fits { at + length path.now < 2 ^ 64 }
    ensures { Gives (λ segs. segs.items) result (path_said at path.now) }
{
    if !is_clean(path) {
        return Err(PatternError::Bad {
            code: PCode::Unclean,
            at: at as u64,
        });
    }
    read_segs(alloc, at + 1, &path[1..])
}

#[tactic(auto, unfolding(crate::specs::Text::segs_said))]
fn read_segs(alloc: Global, start: usize, tail: &[u8]) -> Result<Vec<Seg>, PatternError>
    requires { start + length tail.now < 2 ^ 64 }
    ensures { Gives (λ segs. segs.items) result (segs_said start [] (parts_of tail.now)) }
{
    let mut segs = Vec::new(alloc);
    let mut at = start;
    let mut left = tail;
    loop {
        let (part, after) = split_part(left);
        let seg = read_seg(alloc, at as u64, segs.as_slice(), after.is_none(), part)?;
        segs.push(seg)?;
        let Some(rest) = after else {
            return Ok(segs);
        };
        at += part.len() + 1;
        left = rest;
    }
}
