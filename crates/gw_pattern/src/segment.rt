//! Reading one segment of a pattern's path.
ghost use Rattle.std.specs.Prelude.{◌≡◌, IfOk, position};
ghost use Rattle.gw_pattern.specs.Pattern.{wildcard_count};
ghost use Rattle.gw_pattern.specs.Text.{Gives, begins_with_hex, braced_said, end_said, has_name, has_whole_escapes, is_name, is_name_byte, is_name_start, is_open_brace, literal_of, name_said, one_said, rest_said, seg_said, wildcard_said};
ghost use Rattle.std.specs.List.{list_all, list_any};

use crate::cleaning::place_of;
use crate::error::NoMemory;
use crate::fault::{PCode, PatternError};
use crate::form::Seg;
use gw_wire::Bytes;
use percent_encoding::percent_decode;
use std::alloc::Global;

const MAX_SEGMENTS: usize = 64;

const MAX_WILDCARDS: usize = 16;

/// One more segment, at this place behind these. An empty part is that behind a slash at the path's end.
#[tactic(auto, unfolding(crate::specs::Text::seg_said))]
pub(crate) fn read_seg(
    alloc: Global,
    at: u64,
    before: &[Seg],
    is_last: bool,
    part: &[u8],
) -> Result<Seg, PatternError>
    ensures { Gives (λ seg. seg) result (seg_said at before.now is_last part.now) }
{
    if before.len() >= MAX_SEGMENTS {
        return Err(PatternError::Bad {
            code: PCode::TooManySegments,
            at,
        });
    }
    if part.is_empty() {
        return Ok(Seg::Rest(Bytes::new(Vec::new(alloc))));
    }
    read_braced(alloc, at, before, is_last, part)
}

#[tactic(auto, unfolding(crate::specs::Text::braced_said))]
fn read_braced(
    alloc: Global,
    at: u64,
    before: &[Seg],
    is_last: bool,
    part: &[u8],
) -> Result<Seg, PatternError>
    ensures { Gives (λ seg. seg) result (braced_said at before.now is_last part.now (position is_open_brace part.now)) }
{
    let Some(brace) = place_of(part, b'{') else {
        return Ok(Seg::Literal(literal(alloc, part)?));
    };
    if brace != 0 {
        return Err(PatternError::Bad {
            code: PCode::BadWildcardStart,
            at,
        });
    }
    let [_, inner @ .., b'}'] = part else {
        return Err(PatternError::Bad {
            code: PCode::BadWildcardEnd,
            at,
        });
    };
    read_wildcard(alloc, at, before, is_last, inner)
}

// A wildcard, by what stands between its braces.
#[tactic(auto, unfolding(crate::specs::Text::wildcard_said))]
fn read_wildcard(
    alloc: Global,
    at: u64,
    before: &[Seg],
    is_last: bool,
    inner: &[u8],
) -> Result<Seg, PatternError>
    ensures { Gives (λ seg. seg) result (wildcard_said at before.now is_last inner.now) }
{
    if inner == b"$".as_slice() {
        return read_end(at, is_last);
    }
    match inner.strip_suffix(b"...".as_slice()) {
        Some(name) => read_rest(alloc, at, before, is_last, name),
        None => read_one(alloc, at, before, inner),
    }
}

#[tactic(auto, unfolding(crate::specs::Text::end_said))]
fn read_end(at: u64, is_last: bool) -> Result<Seg, PatternError>
    ensures { Gives (λ seg. seg) result (end_said at is_last) }
{
    if is_last {
        Ok(Seg::End)
    } else {
        Err(PatternError::Bad {
            code: PCode::EndNotLast,
            at,
        })
    }
}

#[tactic(auto, unfolding(crate::specs::Text::rest_said))]
fn read_rest(
    alloc: Global,
    at: u64,
    before: &[Seg],
    is_last: bool,
    name: &[u8],
) -> Result<Seg, PatternError>
    ensures { Gives (λ seg. seg) result (rest_said at before.now is_last name.now) }
{
    if !is_last {
        return Err(PatternError::Bad {
            code: PCode::RestNotLast,
            at,
        });
    }
    Ok(Seg::Rest(read_name(alloc, at, before, name)?))
}

#[tactic(auto, unfolding(crate::specs::Text::one_said))]
fn read_one(alloc: Global, at: u64, before: &[Seg], name: &[u8]) -> Result<Seg, PatternError>
    ensures { Gives (λ seg. seg) result (one_said at before.now name.now) }
{
    Ok(Seg::One(read_name(alloc, at, before, name)?))
}

// The name of one more wildcard.
#[tactic(auto, unfolding(crate::specs::Text::name_said))]
fn read_name(alloc: Global, at: u64, before: &[Seg], name: &[u8]) -> Result<Bytes, PatternError>
    ensures { Gives (λ own. own) result (name_said at before.now name.now) }
{
    if name.is_empty() {
        return Err(PatternError::Bad {
            code: PCode::EmptyName,
            at,
        });
    }
    if !is_name(name) {
        return Err(PatternError::Bad {
            code: PCode::BadName,
            at,
        });
    }
    if holds_name(before, name) {
        return Err(PatternError::Bad {
            code: PCode::DuplicateName,
            at,
        });
    }
    if count_wildcards(before) >= MAX_WILDCARDS {
        return Err(PatternError::Bad {
            code: PCode::TooManyWildcards,
            at,
        });
    }
    Ok(Bytes::new(Vec::from_slice(alloc, name)?))
}

fn holds_name(segs: &[Seg], name: &[u8]) -> bool
    ensures { result ≡ list_any (has_name name.now) segs.now }
{
    segs.iter().any(|seg| seg.has_name(name))
}

fn count_wildcards(segs: &[Seg]) -> usize
    ensures { result ≡ wildcard_count segs.now }
{
    segs.iter().filter(|seg| seg.is_named()).count()
}

// An ASCII letter or `_`, and then ASCII letters, digits or `_`.
fn is_name(name: &[u8]) -> bool
    ensures { result ≡ is_name name.now }
{
    match name {
        [first, rest @ ..] => is_name_start(*first) && has_name_bytes(rest),
        [] => false,
    }
}

fn has_name_bytes(bytes: &[u8]) -> bool
    ensures { result ≡ list_all is_name_byte bytes.now }
{
    bytes.iter().all(|b| is_name_byte(*b))
}

fn is_name_start(b: u8) -> bool
    ensures { result ≡ is_name_start b }
{
    b.is_ascii_alphabetic() || b == b'_'
}

fn is_name_byte(b: u8) -> bool
    ensures { result ≡ is_name_byte b }
{
    b.is_ascii_alphanumeric() || b == b'_'
}

// The bytes of a literal: decoded, or as written where an escape is not whole, since decoding leaves such a `%` alone.
#[tactic(auto, unfolding(crate::specs::Text::literal_of))]
fn literal(alloc: Global, part: &[u8]) -> Result<Bytes, NoMemory>
    ensures { IfOk result (λ bytes. bytes ≡ literal_of part.now) }
{
    if !has_whole_escapes(part) {
        return Ok(Bytes::new(Vec::from_slice(alloc, part)?));
    }
    let mut bytes = Vec::with_capacity(alloc, part.len())?;
    percent_decode(part).append_to(&mut bytes)?;
    Ok(Bytes::new(bytes))
}

fn has_whole_escapes(part: &[u8]) -> bool
    ensures { result ≡ has_whole_escapes part.now }
{
    let mut rest = part;
    while let [b, after @ ..] = rest {
        if *b == b'%' && !begins_with_hex(after) {
            return false;
        }
        rest = after;
    }
    true
}

fn begins_with_hex(bytes: &[u8]) -> bool
    ensures { result ≡ begins_with_hex bytes.now }
{
    match bytes {
        [high, low, ..] => high.is_ascii_hexdigit() && low.is_ascii_hexdigit(),
        _ => false,
    }
}
