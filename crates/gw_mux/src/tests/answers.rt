//! Routers over texts, and what they answer as text.
ghost use Rattle.std.specs.Prelude.{◌<◌, ◌^◌, IfOk, length};
ghost use Rattle.gw_mux.specs.Table.{ArePatterns};

use crate::{Decision, Found, Hit, Mux, MuxError, NoMemory};
use gw_pattern::{Pattern, PatternError, is_clean, parse};
use http::Method;
use std::alloc::Global;
use std::str;
use std::test::Fail;

pub(super) fn patterns_of(alloc: Global, texts: &[&str]) -> Result<Vec<Pattern>, PatternError>
    requires { length texts.now < 2 ^ 32 }
    ensures { IfOk result (λ patterns. ArePatterns patterns.items) }
{
    let mut patterns = Vec::new(alloc);
    for text in texts {
        patterns.push(parse(alloc, text)?)?;
    }
    Ok(patterns)
}

// The router of these patterns; or the conflict, as text.
pub(super) fn routed(alloc: Global, texts: &[&str]) -> Result<Result<Mux, String>, Fail>
    requires { length texts.now < 2 ^ 32 }
{
    let Ok(patterns) = patterns_of(alloc, texts) else {
        return Err("no patterns".into());
    };
    match Mux::build(alloc, patterns) {
        Ok(mux) => Ok(Ok(mux)),
        Err(MuxError::Conflict { first, second }) => {
            Ok(Err(format!(in alloc; "route {first} and route {second}")?))
        }
        Err(MuxError::NoMemory) => Err("no memory".into()),
    }
}

pub(super) fn mux_of(alloc: Global, texts: &[&str]) -> Result<Mux, Fail>
    requires { length texts.now < 2 ^ 32 }
{
    match routed(alloc, texts)? {
        Ok(mux) => Ok(mux),
        Err(_) => Err("a conflict".into()),
    }
}

pub(super) fn push_route(text: &mut String, alloc: Global, hit: &Hit) -> Result<(), NoMemory> {
    let route = hit.route;
    text.push_str(format!(in alloc; "route {route}")?.as_str())
}

pub(super) fn push_hit(text: &mut String, alloc: Global, hit: &Hit) -> Result<(), NoMemory> {
    push_route(text, alloc, hit)?;
    for (from, to) in hit.spans.as_slice() {
        text.push_str(format!(in alloc; " {from}-{to}")?.as_str())?;
    }
    Ok(())
}

pub(super) fn push_methods(text: &mut String, methods: &[Method]) -> Result<(), NoMemory> {
    text.push_str("allow")?;
    for method in methods {
        text.push(' ')?;
        text.push_str(method.as_str())?;
    }
    Ok(())
}

pub(super) fn decided(
    alloc: Global,
    mux: &Mux,
    method: &str,
    host: &str,
    path: &str,
    query: Option<&str>,
) -> Result<String, Fail> {
    let query = query.map(|query| query.as_bytes());
    let decision = mux.decide(
        alloc,
        method.as_bytes(),
        host.as_bytes(),
        path.as_bytes(),
        query,
    )?;
    let mut text = String::new(alloc);
    match &decision {
        Decision::Route(hit) => push_hit(&mut text, alloc, hit)?,
        other => push_other(&mut text, other)?,
    }
    Ok(text)
}

// A decision without a route.
pub(super) fn push_other(text: &mut String, decision: &Decision) -> Result<(), NoMemory> {
    match decision {
        Decision::Redirect(location) => {
            text.push_str("redirect ")?;
            text.push_str(str::from_utf8(location).unwrap_or("?"))
        }
        Decision::NotAllowed(methods) => push_methods(text, methods),
        Decision::NotFound => text.push_str("not found"),
        Decision::Route(_) => Ok(()),
    }
}

// What a clean path finds.
pub(super) fn found(
    alloc: Global,
    mux: &Mux,
    method: &str,
    host: &str,
    path: &str,
) -> Result<String, Fail> {
    let mut text = String::new(alloc);
    if !is_clean(path.as_bytes()) {
        return Ok(text);
    }
    match mux.find(method.as_bytes(), host.as_bytes(), path.as_bytes()) {
        Found::Route(hit) => push_hit(&mut text, alloc, &hit)?,
        Found::AddSlash => text.push_str("add slash")?,
        Found::Nothing => text.push_str("nothing")?,
    }
    Ok(text)
}
