//! The walk through the tree to the first pattern that fits a request: literals before wildcards before the rest of a
//! path, and a method before none.
ghost use Rattle.std.specs.Prelude.{◌+◌, ◌<◌, ◌^◌, [], All, length, true, false};
ghost use Rattle.gw_pattern.specs.Pattern.{IsWellFormed};
ghost use Rattle.gw_mux.specs.Found.{IsFirst, IsNode, IsWith};
ghost use Rattle.gw_mux.specs.Label.{key_of};
ghost use Rattle.gw_mux.specs.Order.{IsSortedFrom};
ghost use Rattle.gw_mux.specs.Sent.{AreLengths};
ghost use Rattle.gw_mux.specs.Walk.{segments_in};

use crate::label::{Asked, Label};
use crate::order::run_of;
use crate::sent::{SentPath, first_part};
use gw_pattern::Pattern;

/// The first of the numbers of the node behind that many segments whose patterns fit the method and what is left of
/// the path. Takes no memory.
pub(crate) fn first_of(
    patterns: &[Pattern],
    numbers: &[u32],
    at: usize,
    method: &[u8],
    path: SentPath<'_>,
) -> Option<u32>
    requires formed { All IsWellFormed patterns.now }
    requires node { IsNode patterns.now at numbers.now }
    requires lengths { AreLengths path.lengths.now path.body.now }
    requires deep { at + length path.body.now + 4 < 2 ^ 64 }
    ensures { IsFirst patterns.now numbers.now at method.now (segments_in path.entry.body.now) path.entry.slash result }
{
    if numbers.is_empty() {
        return None;
    }
    let Some((part, left)) = first_part(path) else {
        return first_ended(patterns, numbers, at, method, path.slash);
    };
    let kids = run_of(patterns, numbers, at + 1, &Asked::Part(part));
    if let Some(first) = first_of(patterns, kids, at + 1, method, left) {
        return Some(first);
    }
    let ones = run_of(patterns, numbers, at + 1, &Asked::Label(Label::One));
    if let Some(first) = first_of(patterns, ones, at + 1, method, left) {
        return Some(first);
    }
    let rests = run_of(patterns, numbers, at + 1, &Asked::Label(Label::Rest));
    first_stopped(patterns, rests, at + 1, method)
}

// The same where nothing is left of the path but its last slash.
fn first_ended(
    patterns: &[Pattern],
    numbers: &[u32],
    at: usize,
    method: &[u8],
    slash: bool,
) -> Option<u32>
    requires formed { All IsWellFormed patterns.now }
    requires node { IsNode patterns.now at numbers.now }
    requires deep { at + 4 < 2 ^ 64 }
    ensures { IsFirst patterns.now numbers.now at method.now [] slash result }
{
    if !slash {
        return first_stopped(patterns, numbers, at, method);
    }
    let ends = run_of(patterns, numbers, at + 1, &Asked::Label(Label::End));
    if let Some(first) = first_stopped(patterns, ends, at + 1, method) {
        return Some(first);
    }
    let all = run_of(patterns, numbers, at + 1, &Asked::Label(Label::Rest));
    first_stopped(patterns, all, at + 1, method)
}

// Of the patterns whose segments end there the first whose method fits: the method's own, before that of GET where HEAD
// is asked for, before one without a method.
fn first_stopped(patterns: &[Pattern], numbers: &[u32], at: usize, method: &[u8]) -> Option<u32>
    requires node { IsNode patterns.now at numbers.now }
    requires deep { at + 3 < 2 ^ 64 }
    ensures { IsFirst patterns.now numbers.now at method.now [] false result }
{
    let stopped = run_of(patterns, numbers, at + 1, &Asked::Label(Label::Here));
    if let Some(first) = first_with(patterns, stopped, at + 2, Label::Method(method)) {
        return Some(first);
    }
    if method == b"HEAD".as_slice() {
        if let Some(first) = first_with(patterns, stopped, at + 2, Label::Method(b"GET")) {
            return Some(first);
        }
    }
    first_with(patterns, stopped, at + 2, Label::AnyMethod)
}

// The first of the numbers whose branch at that depth is this one.
fn first_with(patterns: &[Pattern], numbers: &[u32], depth: usize, label: Label<'_>) -> Option<u32>
    requires { IsSortedFrom patterns.now depth numbers.now }
    ensures { IsWith patterns.now depth (key_of label.entry) numbers.now result }
{
    run_of(patterns, numbers, depth, &Asked::Label(label))
        .first()
        .copied()
}
