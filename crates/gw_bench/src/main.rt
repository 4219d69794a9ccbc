//! How long the router takes for a decision: over one route and over many, and for paths with a long segment. With the
//! word `decisions` the program prints a table. With the words `relay PORT BACKEND FORM LENGTH` it is a proxy between two
//! ports of this machine, over which bodies are measured that are relayed. Without words it ends at once.
#![tactic(auto)]

mod proxy;
mod tables;
mod timing;

use crate::proxy::{form_of, serve};
use crate::tables::{branching, mux_of, numbered, one, side_by_side};
use crate::timing::{Asked, best_time};
use anyhow::{Context, bail};
use gw_mux::Mux;
use std::env;

/// How often a short path is decided in a round.
const OFTEN: u32 = 200_000;

/// The same of a path with a long segment.
const SELDOM: u32 = 400;

/// How long the long segment is.
const LONG: usize = 65_400;

fn main(rt: HostRuntime) -> Result<(), anyhow::Error> {
    let mut words = Vec::new(rt.alloc());
    for word in env::args(&rt)?.skip(1) {
        words.push(word)?;
    }
    match words.as_slice() {
        [] => Ok(()),
        [word] if word.as_str() == "decisions" => decisions(&rt),
        [word, port, backend, form, length] if word.as_str() == "relay" => relayed(
            &rt,
            port.as_str(),
            backend.as_str(),
            form.as_str(),
            length.as_str(),
        ),
        _ => bail!("words that are no command"),
    }
}

fn decisions(rt: &HostRuntime) -> Result<(), anyhow::Error> {
    println!(rt; "| Decision | over one route, ns | over many, ns | ratio |")?;
    println!(rt; "|---|---|---|---|")?;
    short_paths(rt)?;
    long_paths(rt)
}

fn relayed(
    rt: &HostRuntime,
    port: &str,
    backend: &str,
    form: &str,
    length: &str,
) -> Result<(), anyhow::Error> {
    let port = port.parse::<u16>().context("the port")?;
    let backend = backend.parse::<u16>().context("the backend's port")?;
    let length = length.parse::<u64>().context("the length")?;
    let form = form_of(form, length).context("no such form")?;
    serve(rt, port, backend, form)
}

// 1,024 routes, each beside a router with the route that answers alone.
fn short_paths(rt: &HostRuntime) -> Result<(), anyhow::Error> {
    let alloc = rt.alloc();
    let many = mux_of(alloc, &numbered(alloc)?)?;
    for (method, host, path, route) in [
        ("GET", "", "/k57/a", "GET /k57/a"),
        ("GET", "", "/k57/z", "GET /k57/{x}"),
        ("HEAD", "", "/k57/z", "GET /k57/{x}"),
        ("POST", "", "/k127/z/b", "POST /k127/{x}/b"),
        ("PUT", "", "/k1/z/b/c", "PUT /k1/{x}/b/c"),
        ("DELETE", "", "/k58/", "DELETE /k58/{$}"),
        ("GET", "h", "/k58/y/z", "GET h/k58/{x}/{y}"),
        ("POST", "h", "/k58/y/z/q", "h/k58/{x...}"),
        ("GET", "", "/none/at/all", "GET /k57/a"),
    ] {
        let alone = mux_of(alloc, &one(alloc, route)?)?;
        let asked = Asked {
            method: method.as_bytes(),
            host: host.as_bytes(),
            path: path.as_bytes(),
        };
        row(rt, path, &alone, &many, asked, OFTEN)?;
    }
    Ok(())
}

// A path with a long segment, over routes side by side and over routes that branch.
fn long_paths(rt: &HostRuntime) -> Result<(), anyhow::Error> {
    let alloc = rt.alloc();
    let long = "x".repeat(alloc, LONG)?;
    let beside = mux_of(alloc, &side_by_side(alloc)?)?;
    let branched = mux_of(alloc, &branching(alloc)?)?;
    let path = format!(in alloc; "/{long}")?;
    long_row(rt, "long, side by side", &beside, path.as_str())?;
    let path = format!(in alloc; "/{long}/a/a/a/a/a/a/a/a/q")?;
    long_row(rt, "long first, branching", &branched, path.as_str())?;
    let path = format!(in alloc; "/a/a/a/a/a/a/a/a/a/{long}")?;
    long_row(rt, "long last, branching", &branched, path.as_str())
}

fn long_row(rt: &HostRuntime, name: &str, many: &Mux, path: &str) -> Result<(), anyhow::Error> {
    let alloc = rt.alloc();
    let alone = mux_of(alloc, &one(alloc, "/{x}/b")?)?;
    let asked = Asked {
        method: b"GET".as_slice(),
        host: b"".as_slice(),
        path: path.as_bytes(),
    };
    row(rt, name, &alone, many, asked, SELDOM)
}

fn row(
    rt: &HostRuntime,
    name: &str,
    alone: &Mux,
    many: &Mux,
    asked: Asked<'_>,
    times: u32,
) -> Result<(), anyhow::Error> {
    let first = best_time(rt, alone, asked, times)?;
    let second = best_time(rt, many, asked, times)?;
    let ratio = second.saturating_mul(100) / first.max(1);
    println!(rt;
        "| {name} | {first} | {second} | {}.{:02} |",
        ratio / 100,
        ratio % 100
    )?;
    Ok(())
}

#[cfg(test)]
mod tests;
