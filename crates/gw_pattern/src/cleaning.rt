//! Cleaning a path (Go's `net/http`, `cleanPath`).
ghost use Rattle.std.specs.Prelude.{◌≡◌, ◌==◌, ◌↔◌, IsTrue, IfOk, IfSome, OnOk, ◌<◌, length, position};
ghost use Rattle.gw_pattern.specs.Path.{cleaned, ends_in_slash, is_idle, is_parent, parts_of, IsClean};
ghost use Rattle.gw_pattern.specs.Walk.{SplitsPart, closed_bytes, with_part_bytes, without_last_part};
ghost use Rattle.gw_pattern.specs.Path.{are_tidy, is_special};

use crate::error::NoMemory;
use std::alloc::Global;

/// The cleaned path: empty parts and `.` are left out, `..` takes the part before it away, and a slash at the end
/// stays where a part remains. Parts are compared as sent, so `%2e` is no dot. One allocation serves every path that
/// begins with a slash.
pub fn clean(alloc: Global, path: &[u8]) -> Result<Vec<u8>, NoMemory>
    ensures { IfOk result (λ clean. clean.items ≡ cleaned path.now) }
{
    let mut clean = Vec::with_capacity(alloc, path.len())?;
    let mut left = Some(path);
    while let Some(parts) = left {
        let (part, after) = split_part(parts);
        put_part(&mut clean, part)?;
        left = after;
    }
    close(clean, ends_in_slash(path))
}

/// Whether the path is its cleaned path. Takes no memory.
pub fn is_clean(path: &[u8]) -> bool
    ensures { IsTrue result ↔ IsClean path.now }
{
    match path {
        [b'/', parts @ ..] => has_tidy_parts(parts),
        _ => false,
    }
}

// Whether cleaning changes none of the parts. The last may be empty.
fn has_tidy_parts(parts: &[u8]) -> bool
    ensures { result ≡ are_tidy (parts_of parts.now) }
{
    let mut left = parts;
    loop {
        let (part, after) = split_part(left);
        let Some(rest) = after else {
            return part.is_empty() || !is_special(part);
        };
        if is_special(part) {
            return false;
        }
        left = rest;
    }
}

/// The first part, and what stands after its slash.
pub(crate) fn split_part(path: &[u8]) -> (&[u8], Option<&[u8]>)
    ensures { SplitsPart path.now result.0.now result.1 }
{
    match place_of(path, b'/') {
        None => (path, None),
        Some(end) => (&path[..end], Some(&path[end + 1..])),
    }
}

/// The place of the first such byte.
pub(crate) fn place_of(bytes: &[u8], byte: u8) -> Option<usize>
    ensures place { result ≡ position (λ b. b == byte) bytes.now }
    ensures within { IfSome result (λ at. at < length bytes.now) }
{
    bytes.iter().position(|b| *b == byte)
}

// Adds a part to the path so far, or takes the last one away.
fn put_part(clean: &mut Vec<u8>, part: &[u8]) -> Result<(), NoMemory>
    ensures { OnOk result (clean.new.items ≡ with_part_bytes clean.old.items part.now) }
{
    if is_idle(part) {
        return Ok(());
    }
    if is_parent(part) {
        drop_last_part(clean);
        return Ok(());
    }
    clean.push(b'/')?;
    clean.extend_from_slice(part)
}

// Adds the slash at the end, or the only one.
fn close(mut clean: Vec<u8>, is_slashed: bool) -> Result<Vec<u8>, NoMemory>
    ensures { IfOk result (λ closed. closed.items ≡ closed_bytes clean.items is_slashed) }
{
    if clean.is_empty() || is_slashed {
        clean.push(b'/')?;
    }
    Ok(clean)
}

// Takes the last part and its slash away.
fn drop_last_part(clean: &mut Vec<u8>)
    ensures { clean.new.items ≡ without_last_part clean.old.items }
{
    while let Some(b) = clean.pop() {
        if b == b'/' {
            return;
        }
    }
}

fn ends_in_slash(path: &[u8]) -> bool
    ensures { result ≡ ends_in_slash path.now }
{
    matches!(path, [.., b'/'])
}

fn is_idle(part: &[u8]) -> bool
    ensures { result ≡ is_idle part.now }
{
    part.is_empty() || part == b".".as_slice()
}

fn is_parent(part: &[u8]) -> bool
    ensures { result ≡ is_parent part.now }
{
    part == b"..".as_slice()
}

fn is_special(part: &[u8]) -> bool
    ensures { result ≡ is_special part.now }
{
    is_idle(part) || is_parent(part)
}
