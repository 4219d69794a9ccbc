//! A pattern as the labels of the branches that lead to it, and the order of patterns by these.
ghost use Rattle.std.specs.Prelude.{◌≡◌, ◌∷◌, [], MatchOption, drop, suc};
ghost use Rattle.std.specs.Cmp.Lexicographic.{slice_cmp};
ghost use Rattle.std.specs.Ordering.{nat_cmp};
ghost use Rattle.gw_mux.specs.Label.{asked_key, key_of};
ghost use Rattle.gw_mux.specs.Keys.{first_key, first_label, keys_at, keys_cmp, keys_of, method_key, seg_key, tail_at};

use crate::label::{Asked, Label, compare, compare_asked};
use gw_pattern::{Pattern, Seg};
use http::Method;
use std::cmp::Ordering;

/// How the branch at that depth of the pattern of that number lies to the one that is looked for.
pub(crate) fn compare_branch(
    patterns: &[Pattern],
    number: u32,
    depth: usize,
    asked: &Asked<'_>,
) -> Ordering
    ensures { result ≡ slice_cmp nat_cmp (first_key (tail_at patterns.now depth number)) (asked_key asked.now) }
{
    let Some(pattern) = patterns.get(number as usize) else {
        return Ordering::Less;
    };
    match label_at(pattern, depth) {
        Some(label) => compare_asked(&label, asked),
        None => Ordering::Less,
    }
}

/// How the patterns of two numbers are ordered, by the labels of their branches.
pub(crate) fn compare_numbers(patterns: &[Pattern], first: u32, second: u32) -> Ordering
    ensures { result ≡ keys_cmp (keys_at patterns.now first) (keys_at patterns.now second) }
{
    match (patterns.get(first as usize), patterns.get(second as usize)) {
        (Some(first), Some(second)) => compare_patterns(first, second),
        (Some(_), None) => Ordering::Greater,
        (None, Some(_)) => Ordering::Less,
        (None, None) => Ordering::Equal,
    }
}

fn compare_patterns(first: &Pattern, second: &Pattern) -> Ordering
    ensures { result ≡ keys_cmp (keys_of first.now) (keys_of second.now) }
{
    let count = first.segs.len() + 3;
    for depth in 0..count {
        match compare_labels(&label_at(first, depth), &label_at(second, depth)) {
            Ordering::Equal => {}
            other => return other,
        }
    }
    compare_labels(&None, &label_at(second, count))
}

// A pattern whose labels end comes first.
fn compare_labels(first: &Option<Label<'_>>, second: &Option<Label<'_>>) -> Ordering
    ensures { result ≡ slice_cmp nat_cmp (first_label first.now) (first_label second.now) }
{
    match (first, second) {
        (Some(first), Some(second)) => compare(first, second),
        (Some(_), None) => Ordering::Greater,
        (None, Some(_)) => Ordering::Less,
        (None, None) => Ordering::Equal,
    }
}

// The label of the branch at that depth.
fn label_at(pattern: &Pattern, depth: usize) -> Option<Label<'_>>
    ensures { MatchOption result
        (drop depth (keys_of pattern.now) ≡ [])
        (λ label. drop depth (keys_of pattern.now) ≡ key_of label ∷ drop (suc depth) (keys_of pattern.now)) }
{
    if depth == 0 {
        return Some(Label::Host(pattern.host.as_slice()));
    }
    let at = depth - 1;
    if at < pattern.segs.len() {
        return Some(label_of(&pattern.segs[at]));
    }
    match at - pattern.segs.len() {
        0 => Some(Label::Here),
        1 => Some(label_of_method(&pattern.method)),
        _ => None,
    }
}

fn label_of(seg: &Seg) -> Label<'_>
    ensures { key_of result ≡ seg_key seg.now }
{
    match seg {
        Seg::Literal(bytes) => Label::Literal(bytes.as_slice()),
        Seg::One(_) => Label::One,
        Seg::Rest(_) => Label::Rest,
        Seg::End => Label::End,
    }
}

fn label_of_method(method: &Option<Method>) -> Label<'_>
    ensures { key_of result ≡ method_key method.now }
{
    match method {
        Some(method) => Label::Method(method.as_str().as_bytes()),
        None => Label::AnyMethod,
    }
}
