//! Pairs of patterns with their relation, among them those of Go's documentation, and requests at the edges of a
//! pattern.
ghost use Rattle.std.specs.Prelude.{IfOk, All, ◌<◌, length};

use crate::{Relation, Shape, conflict, matches, relate};
use gw_pattern::{PatternError, parse};
use gw_wire::Bytes;
use std::alloc::{AllocError, Global};
use std::test::Fail;

// The relation of the patterns of two texts, and whether they conflict.
fn compared(alloc: Global, first: &str, second: &str) -> Result<(Relation, bool), PatternError> {
    let first = parse(alloc, first)?;
    let second = parse(alloc, second)?;
    Ok((relate(&first, &second), conflict(&first, &second)))
}

// Whether the pattern of the text matches what is asked for.
fn matched(
    alloc: Global,
    text: &str,
    method: &str,
    host: &str,
    path: &str,
) -> Result<bool, PatternError> {
    let pattern = parse(alloc, text)?;
    let shape = Shape {
        method: bytes_of(alloc, method)?,
        host: bytes_of(alloc, host)?,
        segs: segs_of(alloc, path)?,
        slash: path.ends_with('/'),
    };
    Ok(matches(&pattern, &shape))
}

fn bytes_of(alloc: Global, text: &str) -> Result<Bytes, AllocError> {
    let mut bytes = Vec::new(alloc);
    bytes.extend_from_slice(text.as_bytes())?;
    Ok(Bytes::new(bytes))
}

// The segments of a path.
fn segs_of(alloc: Global, path: &str) -> Result<Vec<Bytes>, AllocError>
    ensures { IfOk result (λ segs. All (λ part. 0 < length part) segs.items) }
{
    let mut segs = Vec::new(alloc);
    for part in path.split('/') {
        let bytes = bytes_of(alloc, part)?;
        if !bytes.as_slice().is_empty() {
            segs.push(bytes)?;
        }
    }
    Ok(segs)
}

#[test]
fn relations(rt: HostRuntime) -> Result<(), Fail> {
    for (first, second, relation, conflicts) in [
        ("/posts/{id}", "/{resource}/latest", Relation::Overlap, true),
        ("/items/{id}", "/items/latest", Relation::MoreGeneral, false),
        (
            "/items/latest",
            "/items/{id}",
            Relation::MoreSpecific,
            false,
        ),
        ("/b/", "/b/{$}", Relation::MoreGeneral, false),
        ("/b/{$}", "/b/", Relation::MoreSpecific, false),
        ("GET /", "/", Relation::MoreSpecific, false),
        ("/", "GET /", Relation::MoreGeneral, false),
        ("example.com/a", "/a", Relation::MoreSpecific, false),
        ("/a", "example.com/a", Relation::MoreGeneral, false),
        ("/a/{x}", "/a/{y}", Relation::Equal, true),
        ("/a/{rest...}", "/a/", Relation::Equal, true),
        ("/a/{rest...}", "/a/b/c", Relation::MoreGeneral, false),
        ("/a/{x}/b", "/{rest...}", Relation::MoreSpecific, false),
        ("/a", "/a/", Relation::Disjoint, false),
        ("/a/{$}", "/a/{x}", Relation::Disjoint, false),
        ("/a/b", "/a/b/c", Relation::Disjoint, false),
        ("GET /a", "HEAD /a", Relation::MoreGeneral, false),
        ("HEAD /a", "GET /a", Relation::MoreSpecific, false),
        ("GET /a", "POST /a", Relation::Disjoint, false),
        ("GET /posts/{id}", "/posts/latest", Relation::Overlap, true),
        ("HEAD /{x}", "GET /a", Relation::Overlap, true),
        ("h/posts/{id}", "/posts/latest", Relation::Overlap, false),
        (
            "h/posts/{id}",
            "h/{resource}/latest",
            Relation::Overlap,
            true,
        ),
        ("h/a", "g/a", Relation::Disjoint, false),
    ] {
        let Ok(answer) = compared(rt.alloc(), first, second) else {
            panic!(rt; "{first} or {second} is no pattern");
        };
        assert_eq!(rt; answer, (relation, conflicts), "{first} and {second}");
    }
    Ok(())
}

#[test]
fn requests(rt: HostRuntime) -> Result<(), Fail> {
    for (text, method, host, path, is_matched) in [
        ("GET /a", "GET", "h", "/a", true),
        ("GET /a", "HEAD", "h", "/a", true),
        ("HEAD /a", "GET", "h", "/a", false),
        ("/a", "DELETE", "", "/a", true),
        ("/a", "GET", "h", "/a/", false),
        ("/a", "GET", "h", "/a/b", false),
        ("h/a", "GET", "h", "/a", true),
        ("h/a", "GET", "g", "/a", false),
        ("/", "GET", "h", "/", true),
        ("/{$}", "GET", "h", "/", true),
        ("/{$}", "GET", "h", "/a/", false),
        ("/a/", "GET", "h", "/a/", true),
        ("/a/", "GET", "h", "/a", false),
        ("/a/", "GET", "h", "/a/b", true),
        ("/a/{x}", "GET", "h", "/a/b", true),
        ("/a/{x}", "GET", "h", "/a/", false),
        ("/{x}/b", "GET", "h", "/a/b", true),
    ] {
        let Ok(answer) = matched(rt.alloc(), text, method, host, path) else {
            panic!(rt; "{text} is no pattern");
        };
        assert_eq!(rt; answer, is_matched, "{text} and {method} {host}{path}");
    }
    Ok(())
}
