//! The routers that are measured.
use gw_mux::Mux;
use gw_pattern::parse;
use std::alloc::{AllocError, Global};

/// The router of these patterns, of which there are at most 1,024.
pub(crate) fn mux_of(alloc: Global, texts: &[String]) -> Result<Mux, anyhow::Error> {
    let mut patterns = Vec::new(alloc);
    for text in &texts[..texts.len().min(1024)] {
        patterns.push(parse(alloc, text.as_str())?)?;
    }
    Ok(Mux::build(alloc, patterns)?)
}

/// One route.
pub(crate) fn one(alloc: Global, text: &str) -> Result<Vec<String>, AllocError> {
    let mut texts = Vec::new(alloc);
    texts.push(String::from_str(alloc, text)?)?;
    Ok(texts)
}

/// 1,024 routes: eight for each of 128 first segments, with hosts, methods and wildcards.
pub(crate) fn numbered(alloc: Global) -> Result<Vec<String>, AllocError> {
    let mut texts = Vec::new(alloc);
    for k in 0..128 {
        texts.push(format!(in alloc; "GET /k{k}/a")?)?;
        texts.push(format!(in alloc; "GET /k{k}/{{x}}")?)?;
        texts.push(format!(in alloc; "HEAD /k{k}/a")?)?;
        texts.push(format!(in alloc; "PUT /k{k}/{{x}}/b/c")?)?;
        texts.push(format!(in alloc; "POST /k{k}/{{x}}/b")?)?;
        texts.push(format!(in alloc; "h/k{k}/{{x...}}")?)?;
        texts.push(format!(in alloc; "GET h/k{k}/{{x}}/{{y}}")?)?;
        texts.push(format!(in alloc; "DELETE /k{k}/{{$}}")?)?;
    }
    Ok(texts)
}

/// 1,024 routes of one segment each.
pub(crate) fn side_by_side(alloc: Global) -> Result<Vec<String>, AllocError> {
    let mut texts = Vec::new(alloc);
    for k in 0..1024 {
        texts.push(format!(in alloc; "/x{k}")?)?;
    }
    Ok(texts)
}

/// 512 routes that have a literal or a wildcard at each of nine levels, and an end of their own.
pub(crate) fn branching(alloc: Global) -> Result<Vec<String>, AllocError> {
    let mut texts = Vec::new(alloc);
    for k in 0..512 {
        texts.push(branch(alloc, k)?)?;
    }
    Ok(texts)
}

// The levels are the bits of the number.
fn branch(alloc: Global, number: u32) -> Result<String, AllocError> {
    let mut text = String::new(alloc);
    let mut bits = number;
    for level in 0..9 {
        if bits % 2 == 0 {
            text.push_str("/a")?;
        } else {
            text.push_str(format!(in alloc; "/{{w{level}}}")?.as_str())?;
        }
        bits /= 2;
    }
    text.push_str(format!(in alloc; "/x{number}")?.as_str())?;
    Ok(text)
}
