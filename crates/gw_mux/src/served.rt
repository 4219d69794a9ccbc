//! The walk through the tree to all patterns that match a path but for the method.
ghost use Rattle.std.specs.Prelude.{◌↔◌, ◌+◌, ◌<◌, ◌^◌, ℕ, Contains, IfOk, OnOk, [], length};
ghost use Rattle.gw_pattern.specs.Path.{IsClean};
ghost use Rattle.gw_mux.specs.Allow.{IsServed};
ghost use Rattle.gw_mux.specs.Found.{IsAdded, IsNode, Remains};
ghost use Rattle.gw_mux.specs.Order.{IsOrder};
ghost use Rattle.gw_mux.specs.Sent.{AreLengths};
ghost use Rattle.gw_mux.specs.Served.{Serves};
ghost use Rattle.gw_mux.specs.Table.{IsTable};
ghost use Rattle.gw_mux.specs.Walk.{segments_in};

use crate::error::NoMemory;
use crate::label::{Asked, Label};
use crate::order::run_of;
use crate::sent::{SentPath, first_part, lengths_of};
use crate::walk::cut_slash;
use gw_pattern::Pattern;
use std::alloc::Global;

/// The numbers of the patterns that match the clean path, or this with a slash more where it ends in none, but for the
/// method; some may stand twice. The error is want of memory.
pub(crate) fn served(
    alloc: Global,
    patterns: &[Pattern],
    order: &[u32],
    host: &[u8],
    path: &[u8],
) -> Result<Vec<u32>, NoMemory>
    requires table { IsTable patterns.now }
    requires order { IsOrder patterns.now order.now }
    requires clean { IsClean path.now }
    ensures { IfOk result (λ found. (i : ℕ) → Contains found.items i ↔ IsServed patterns.now host.now path.now i) }
{
    let (body, slash) = cut_slash(path);
    let lengths = lengths_of(body);
    let sent = SentPath {
        body,
        lengths: lengths.as_slice(),
        slash,
    };
    let mut found = Vec::new(alloc);
    add_of_host(&mut found, patterns, order, host, sent)?;
    if host.is_empty() {
        return Ok(found);
    }
    add_of_host(&mut found, patterns, order, &[], sent)?;
    Ok(found)
}

// Adds those of a host.
fn add_of_host(
    found: &mut Vec<u32>,
    patterns: &[Pattern],
    order: &[u32],
    host: &[u8],
    path: SentPath<'_>,
) -> Result<(), NoMemory>
    requires table { IsTable patterns.now }
    requires order { IsOrder patterns.now order.now }
    requires lengths { AreLengths path.lengths.now path.body.now }
    ensures { OnOk result (IsAdded (Serves patterns.now host.now (segments_in path.entry.body.now) path.entry.slash) found.old.items found.new.items) }
{
    let node = run_of(patterns, order, 0, &Asked::Label(Label::Host(host)));
    add_below(found, patterns, node, 0, path)?;
    if path.slash {
        return Ok(());
    }
    let slashed = SentPath {
        slash: true,
        ..path
    };
    add_below(found, patterns, node, 0, slashed)?;
    Ok(())
}

// Adds the numbers of the node behind that many segments whose patterns match what is left of the path.
fn add_below(
    found: &mut Vec<u32>,
    patterns: &[Pattern],
    numbers: &[u32],
    at: usize,
    path: SentPath<'_>,
) -> Result<(), NoMemory>
    requires table { IsTable patterns.now }
    requires node { IsNode patterns.now at numbers.now }
    requires lengths { AreLengths path.lengths.now path.body.now }
    requires deep { at + length path.body.now + 4 < 2 ^ 64 }
    ensures { OnOk result (IsAdded (Remains patterns.now numbers.now at (segments_in path.entry.body.now) path.entry.slash) found.old.items found.new.items) }
{
    if numbers.is_empty() {
        return Ok(());
    }
    let Some((part, left)) = first_part(path) else {
        return add_ended(found, patterns, numbers, at, path.slash);
    };
    let kids = run_of(patterns, numbers, at + 1, &Asked::Part(part));
    add_below(found, patterns, kids, at + 1, left)?;
    let ones = run_of(patterns, numbers, at + 1, &Asked::Label(Label::One));
    add_below(found, patterns, ones, at + 1, left)?;
    found.extend_from_slice(run_of(patterns, numbers, at + 1, &Asked::Label(Label::Rest)))?;
    Ok(())
}

// The same where nothing is left of the path but its last slash.
fn add_ended(
    found: &mut Vec<u32>,
    patterns: &[Pattern],
    numbers: &[u32],
    at: usize,
    slash: bool,
) -> Result<(), NoMemory>
    requires node { IsNode patterns.now at numbers.now }
    requires deep { at + 4 < 2 ^ 64 }
    ensures { OnOk result (IsAdded (Remains patterns.now numbers.now at [] slash) found.old.items found.new.items) }
{
    if !slash {
        found.extend_from_slice(run_of(patterns, numbers, at + 1, &Asked::Label(Label::Here)))?;
        return Ok(());
    }
    found.extend_from_slice(run_of(patterns, numbers, at + 1, &Asked::Label(Label::End)))?;
    found.extend_from_slice(run_of(patterns, numbers, at + 1, &Asked::Label(Label::Rest)))?;
    Ok(())
}
