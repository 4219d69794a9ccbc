//! Rows of both tables of faults, patterns of Go's documentation, and texts at the limits.
use crate::{Pattern, PatternError, Seg, clean, is_clean, parse};
use gw_wire::Bytes;
use std::alloc::Global;
use std::str;
use std::test::Fail;

fn words(bytes: &Bytes) -> &str {
    str::from_utf8(bytes.as_slice()).unwrap_or("?")
}

// The parts of a pattern, one after another.
fn shown(alloc: Global, pattern: &Pattern) -> Result<String, Fail> {
    let mut text = String::new(alloc);
    if let Some(method) = &pattern.method {
        text.push_str(method.as_str())?;
    }
    text.push('|')?;
    text.push_str(words(&pattern.host))?;
    for seg in &pattern.segs {
        match seg {
            Seg::Literal(bytes) => {
                text.push_str("|=")?;
                text.push_str(words(bytes))?;
            }
            Seg::One(name) => {
                text.push_str("|one ")?;
                text.push_str(words(name))?;
            }
            Seg::Rest(name) => {
                text.push_str("|rest ")?;
                text.push_str(words(name))?;
            }
            Seg::End => text.push_str("|end")?,
        }
    }
    Ok(text)
}

// What is said of a text: the pattern, or the fault and its place.
fn said(alloc: Global, text: &str) -> Result<String, Fail> {
    match parse(alloc, text) {
        Ok(pattern) => shown(alloc, &pattern),
        Err(error) => Ok(format!(in alloc; "{error}")?),
    }
}

fn repeated(alloc: Global, piece: &str, count: usize) -> Result<String, Fail> {
    let mut text = String::new(alloc);
    for _ in 0..count {
        text.push_str(piece)?;
    }
    Ok(text)
}

#[test]
fn cleaned_paths(rt: HostRuntime) -> Result<(), Fail> {
    for (path, cleaned, is_same) in [
        ("/a//b/../c", "/a/c", false),
        ("/a/./", "/a/", false),
        ("/a/.", "/a", false),
        ("/..", "/", false),
        ("/", "/", true),
        ("/a/..", "/", false),
        ("/a/../", "/", false),
        ("/../../a", "/a", false),
        ("/a/b/", "/a/b/", true),
        ("/a/%2e/b", "/a/%2e/b", true),
        ("/a/...", "/a/...", true),
        ("/.a/b.", "/.a/b.", true),
    ] {
        let given = clean(rt.alloc(), path.as_bytes())?;
        assert_eq!(rt; given.as_slice(), cleaned.as_bytes(), "cleaning {path}");
        assert_eq!(rt; is_clean(path.as_bytes()), is_same, "is {path} clean");
        assert!(rt; is_clean(cleaned.as_bytes()), "is {cleaned} clean");
    }
    Ok(())
}

#[test]
fn bad_patterns(rt: HostRuntime) -> Result<(), Fail> {
    for (text, fault) in [
        ("", "P1 at 0"),
        ("G@T /", "P2 at 0"),
        ("G@T ", "P2 at 0"),
        ("/a b", "P2 at 0"),
        ("x", "P3 at 0"),
        ("GET x", "P3 at 4"),
        (" ", "P3 at 1"),
        ("GET a{b{c/", "P4 at 5"),
        ("a{b//", "P4 at 1"),
        ("GET a/b//c", "P5 at 5"),
        ("/a/./{", "P5 at 0"),
        ("CONNECT /", "P6 at 0"),
        ("CONNECT x", "P6 at 0"),
        ("/a/b{c}", "P7 at 3"),
        ("/a/{b}c", "P8 at 3"),
        ("/{", "P8 at 1"),
        ("/{$}/a", "P9 at 1"),
        ("/{$}/", "P9 at 1"),
        ("/{a...}/b", "P10 at 1"),
        ("/{...}/", "P10 at 1"),
        ("/a/{}", "P11 at 3"),
        ("/{...}", "P11 at 1"),
        ("/{1a}", "P12 at 1"),
        ("/{$...}", "P12 at 1"),
        ("/{a}{b}", "P12 at 1"),
        ("/a/{x}/{x}", "P13 at 7"),
        ("/{x}/{x...}", "P13 at 5"),
        ("/{x}/{y}}/{", "P12 at 5"),
    ] {
        let given = said(rt.alloc(), text)?;
        assert_eq!(rt; given.as_str(), fault, "reading {text}");
    }
    Ok(())
}

#[test]
fn good_patterns(rt: HostRuntime) -> Result<(), Fail> {
    for (text, parts) in [
        ("/", "||rest "),
        ("/items/{id}", "||=items|one id"),
        ("/items/latest", "||=items|=latest"),
        ("GET /a", "GET||=a"),
        ("PROPFIND /a", "PROPFIND||=a"),
        ("get /a", "get||=a"),
        (" /a", "||=a"),
        ("GET example.com/b/{$}", "GET|example.com|=b|end"),
        ("/b/", "||=b|rest "),
        ("/files/{path...}", "||=files|rest path"),
        ("/a%2Fb/%7e", "||=a/b|=~"),
        ("/a%2Fb%zz/%4", "||=a%2Fb%zz|=%4"),
        ("/%7B/_x1/{_x1}", "||={|=_x1|one _x1"),
        ("/\u{e9}", "||=\u{e9}"),
    ] {
        let given = said(rt.alloc(), text)?;
        assert_eq!(rt; given.as_str(), parts, "reading {text}");
    }
    Ok(())
}

#[test]
fn limits(rt: HostRuntime) -> Result<(), Fail> {
    let alloc = rt.alloc();
    let mut segments = repeated(alloc, "/a", 63)?;
    segments.push('/')?;
    let Ok(pattern) = parse(alloc, segments.as_str()) else {
        return Err("64 segments are refused".into());
    };
    assert_eq!(rt; pattern.segs.len(), 64);
    segments.push_str("a/")?;
    assert_eq!(rt; said(alloc, segments.as_str())?.as_str(), "P14 at 129");
    segments.push_str("{")?;
    assert_eq!(rt; said(alloc, segments.as_str())?.as_str(), "P14 at 129");

    let mut wildcards = String::new(alloc);
    for name in "abcdefghijklmnop".chars() {
        wildcards.push_str("/{")?;
        wildcards.push(name)?;
        wildcards.push('}')?;
    }
    let Ok(pattern) = parse(alloc, wildcards.as_str()) else {
        return Err("16 wildcards are refused".into());
    };
    assert_eq!(rt; pattern.segs.len(), 16);
    wildcards.push_str("/{q...}")?;
    assert_eq!(rt; said(alloc, wildcards.as_str())?.as_str(), "P15 at 65");
    wildcards.push_str("/{a}")?;
    assert_eq!(rt; said(alloc, wildcards.as_str())?.as_str(), "P10 at 65");
    Ok(())
}
