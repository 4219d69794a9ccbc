//! The decision taken slowly, as its definition says it.
ghost use Rattle.std.specs.Prelude.{◌<◌, All, IfOk, IfSome, length};
ghost use Rattle.gw_pattern.specs.Pattern.{IsWellFormed};

use crate::NoMemory;
use gw_pattern::{Pattern, Seg, clean};
use gw_sets::{Relation, Shape, matches, relate};
use gw_wire::Bytes;
use std::alloc::Global;
use std::str;
use std::test::Fail;

fn bytes_of(alloc: Global, text: &str) -> Result<Bytes, NoMemory> {
    let mut bytes = Vec::new(alloc);
    bytes.extend_from_slice(text.as_bytes())?;
    Ok(Bytes::new(bytes))
}

// The segments of a path without escapes.
fn segs_of(alloc: Global, path: &str) -> Result<Vec<Bytes>, NoMemory>
    ensures { IfOk result (λ segs. All (λ part. 0 < length part) segs.items) }
{
    let mut segs = Vec::new(alloc);
    for part in path.split('/') {
        let bytes = bytes_of(alloc, part)?;
        if !bytes.as_slice().is_empty() {
            segs.push(bytes)?;
        }
    }
    Ok(segs)
}

fn shape_of(alloc: Global, method: &str, host: &str, path: &str) -> Result<Shape, NoMemory>
    ensures { IfOk result (λ shape. All (λ part. 0 < length part) shape.segs.items) }
{
    let method = bytes_of(alloc, method)?;
    let host = bytes_of(alloc, host)?;
    let segs = segs_of(alloc, path)?;
    let slash = path.ends_with('/');
    Ok(Shape {
        method,
        host,
        segs,
        slash,
    })
}

// The numbers of the patterns with these host bytes that match.
fn candidates(
    alloc: Global,
    patterns: &[Pattern],
    shape: &Shape,
    host: &str,
) -> Result<Vec<usize>, NoMemory>
    requires formed { All IsWellFormed patterns.now }
    requires segs { All (λ part. 0 < length part) shape.now.segs.items }
    ensures { IfOk result (λ numbers. All (λ i. i < length patterns.now) numbers.items) }
{
    let mut numbers = Vec::new(alloc);
    for i in 0..patterns.len() {
        let pattern = &patterns[i];
        if pattern.host.as_slice() == host.as_bytes() && matches(pattern, shape) {
            numbers.push(i)?;
        }
    }
    Ok(numbers)
}

// The candidate that is more specific than every other.
fn best_of(patterns: &[Pattern], numbers: &[usize]) -> Option<usize>
    requires formed { All IsWellFormed patterns.now }
    requires within { All (λ i. i < length patterns.now) numbers.now }
    ensures { IfSome result (λ i. i < length patterns.now) }
{
    for i in numbers {
        if is_below_all(patterns, *i, numbers) {
            return Some(*i);
        }
    }
    None
}

fn is_below_all(patterns: &[Pattern], i: usize, numbers: &[usize]) -> bool
    requires formed { All IsWellFormed patterns.now }
    requires here { i < length patterns.now }
    requires within { All (λ i. i < length patterns.now) numbers.now }
{
    for j in numbers {
        if *j != i && relate(&patterns[i], &patterns[*j]) != Relation::MoreSpecific {
            return false;
        }
    }
    true
}

// The best for a path, and whether it is exact, which is so where its last segment is no `Rest`, or the path has as
// many slashes as the pattern has segments and ends in one.
fn slow_best(
    alloc: Global,
    patterns: &[Pattern],
    method: &str,
    host: &str,
    path: &str,
) -> Result<Option<(usize, bool)>, NoMemory>
    requires { All IsWellFormed patterns.now }
{
    let shape = shape_of(alloc, method, host, path)?;
    let mut numbers = candidates(alloc, patterns, &shape, host)?;
    if numbers.is_empty() {
        numbers = candidates(alloc, patterns, &shape, "")?;
    }
    let Some(best) = best_of(patterns, &numbers) else {
        return Ok(None);
    };
    let segs = &patterns[best].segs;
    let is_exact = match segs.last() {
        Some(Seg::Rest(_)) => path.ends_with('/') && path.matches('/').count() == segs.len(),
        _ => true,
    };
    Ok(Some((best, is_exact)))
}

// Whether a pattern that names its method matches.
fn is_allowed(
    alloc: Global,
    patterns: &[Pattern],
    method: &str,
    host: &str,
    path: &str,
) -> Result<bool, NoMemory>
    requires { All IsWellFormed patterns.now }
{
    let shape = shape_of(alloc, method, host, path)?;
    for pattern in patterns {
        if pattern.method.is_some() && matches(pattern, &shape) {
            return Ok(true);
        }
    }
    Ok(false)
}

fn slow_methods(
    alloc: Global,
    patterns: &[Pattern],
    host: &str,
    path: &str,
    slashed: &str,
) -> Result<String, NoMemory>
    requires { All IsWellFormed patterns.now }
{
    let mut text = String::new(alloc);
    for method in ["DELETE", "GET", "HEAD", "POST", "PUT"] {
        if is_allowed(alloc, patterns, method, host, path)?
            || !path.ends_with('/') && is_allowed(alloc, patterns, method, host, slashed)?
        {
            text.push(' ')?;
            text.push_str(method)?;
        }
    }
    Ok(text)
}

// The five lines of the decision, in their order. A route stands without its spans.
pub(super) fn slowly(
    alloc: Global,
    patterns: &[Pattern],
    method: &str,
    host: &str,
    path: &str,
) -> Result<String, Fail>
    requires { All IsWellFormed patterns.now }
{
    let bytes = clean(alloc, path.as_bytes())?;
    let Ok(clean) = str::from_utf8(&bytes) else {
        return Err("no text".into());
    };
    let slashed = format!(in alloc; "{clean}/")?;
    let here = slow_best(alloc, patterns, method, host, clean)?;
    if !matches!(here, Some((_, true))) && !clean.ends_with('/') {
        let there = slow_best(alloc, patterns, method, host, slashed.as_str())?;
        if matches!(there, Some((_, true))) {
            return Ok(format!(in alloc; "redirect {slashed}")?);
        }
    }
    if clean != path {
        return Ok(format!(in alloc; "redirect {clean}")?);
    }
    if let Some((best, _)) = here {
        return Ok(format!(in alloc; "route {best}")?);
    }
    let methods = slow_methods(alloc, patterns, host, clean, slashed.as_str())?;
    if methods.is_empty() {
        return Ok(format!(in alloc; "not found")?);
    }
    Ok(format!(in alloc; "allow{methods}")?)
}
