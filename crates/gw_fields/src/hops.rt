//! Which fields belong to one connection alone (RFC 9110, section 7.6.1). The names are sorted once, and each token of
//! `Connection` is looked up among them, so that the cost is that of a sort and of one walk.
ghost use Rattle.std.specs.Prelude.{◌≡◌, ◌≤◌, ℕ, slice_index_or, true, false, length, map, take, codes, MatchOption};
ghost use Rattle.std.specs.Cmp.Lexicographic.{slice_cmp};
ghost use Rattle.std.specs.List.Sorted.{IsPartitionPoint};
ghost use Rattle.std.specs.Ordering.{nat_cmp};
ghost use Rattle.std.specs.Str.{str_eq_ignore_ascii_case, str_to_ascii_lowercase};
ghost use Rattle.gw_fields.specs.Fields.{has_token, names_token, pair_of};
ghost use Rattle.gw_fields.specs.Hops.{is_hop, is_hop_name};
ghost use Rattle.gw_fields.specs.Lists.{is_element, lists_token};
ghost use Rattle.gw_fields.specs.Names.{AreInOrder, IsFirst, Knows, Marks, comes_before, IsUnlike};

use crate::fields::has_token;
use crate::lists::{split_element, trim};
use arrayvec::ArrayVec;
use http_header::{HeaderName, HeaderValue};
use std::cmp::Ordering;

/// How many names are sorted: as many as a head has fields at most. Those behind them are looked up one by one.
pub(crate) const TABLE_LEN: usize = 128;

/// Whether the name always belongs to one connection.
pub(crate) fn is_hop_name(name: &[u8]) -> bool
    ensures { result ≡ is_hop_name name.now }
{
    name.eq_ignore_ascii_case(b"connection")
        || name.eq_ignore_ascii_case(b"proxy-connection")
        || name.eq_ignore_ascii_case(b"keep-alive")
        || name.eq_ignore_ascii_case(b"proxy-authenticate")
        || name.eq_ignore_ascii_case(b"proxy-authorization")
        || name.eq_ignore_ascii_case(b"te")
        || name.eq_ignore_ascii_case(b"trailer")
        || name.eq_ignore_ascii_case(b"transfer-encoding")
        || name.eq_ignore_ascii_case(b"upgrade")
}

/// Puts the names of the fields into their order without case.
pub(crate) fn sort_names<'n>(items: &'n [(HeaderName, HeaderValue)], names: &mut [&'n [u8]])
    ensures { AreInOrder names.new }
{
    for (name, item) in names.iter_mut().zip(items) {
        *name = item.0.as_bytes();
    }
    names.sort_unstable_by(|name, other| compare_names(name, other));
}

/// For each of the names, which are in order, whether `Connection` lists it: at the place of the first that is alike.
pub(crate) fn listed_names(
    names: &[&[u8]],
    items: &[(HeaderName, HeaderValue)],
) -> [bool; TABLE_LEN]
    requires order { AreInOrder names.now }
    requires room { length names.now ≤ TABLE_LEN }
    ensures { Knows names.now result (λ name. has_token (codes "connection") name (map pair_of items.now)) }
{
    let mut marks = no_marks();
    for item in items {
        mark_field(names, item, &mut marks);
    }
    marks
}

fn no_marks() -> [bool; TABLE_LEN]
    ensures { (at : ℕ) → slice_index_or result at false ≡ false }
{
    [false; TABLE_LEN]
}

/// Whether fields of that name belong to one connection, by what is known of the names.
pub(crate) fn is_hop_among(
    names: &[&[u8]],
    listed: &[bool; TABLE_LEN],
    items: &[(HeaderName, HeaderValue)],
    name: &[u8],
) -> bool
    requires order { AreInOrder names.now }
    requires room { length names.now ≤ TABLE_LEN }
    requires known { Knows names.now listed.now (λ name. has_token (codes "connection") name (map pair_of items.now)) }
    ensures { result ≡ is_hop (map pair_of items.now) name.now }
{
    if is_hop_name(name) {
        return true;
    }
    match find_name(names, name) {
        Some(at) => listed[at],
        None => has_token(items, b"connection", name),
    }
}

/// The same of one name alone.
pub(crate) fn is_hop(items: &[(HeaderName, HeaderValue)], name: &[u8]) -> bool
    ensures { result ≡ is_hop (map pair_of items.now) name.now }
{
    is_hop_name(name) || has_token(items, b"connection", name)
}

/// For each of the fields, up to the first 128, whether it belongs to one connection.
pub(crate) fn first_hops(items: &[(HeaderName, HeaderValue)]) -> ArrayVec<bool, TABLE_LEN>
    ensures { result.items ≡ map (λ field. is_hop (map pair_of items.now) field.0) (take TABLE_LEN (map pair_of items.now)) }
{
    let first = &items[..items.len().min(TABLE_LEN)];
    let mut table: [&[u8]; TABLE_LEN] = [b""; TABLE_LEN];
    let names = &mut table[..first.len()];
    sort_names(first, names);
    let listed = listed_names(names, items);
    let mut hops = ArrayVec::new();
    for (name, _) in first {
        hops.push(is_hop_among(names, &listed, items, name.as_bytes()));
    }
    hops
}

// Marks the names that the field lists, if it is `Connection`.
fn mark_field(names: &[&[u8]], item: &(HeaderName, HeaderValue), marks: &mut [bool])
    requires order { AreInOrder names.now }
    requires room { length names.now ≤ length marks.old }
    ensures { Marks names.now marks.old marks.new (λ name. names_token (codes "connection") name (pair_of item.now)) }
{
    if item.0.as_bytes().eq_ignore_ascii_case(b"connection") {
        mark_value(names, item.1.as_bytes(), marks);
    }
}

// Marks the names that the value lists.
fn mark_value(names: &[&[u8]], value: &[u8], marks: &mut [bool])
    requires order { AreInOrder names.now }
    requires room { length names.now ≤ length marks.old }
    ensures { Marks names.now marks.old marks.new (λ name. lists_token name value.now) }
{
    let mut left = value;
    loop {
        let (element, after) = split_element(left);
        mark_element(names, element, marks);
        let Some(rest) = after else {
            return;
        };
        left = rest;
    }
}

// Marks the name that the element is, if it is one of them.
fn mark_element(names: &[&[u8]], element: &[u8], marks: &mut [bool])
    requires order { AreInOrder names.now }
    requires room { length names.now ≤ length marks.old }
    ensures { Marks names.now marks.old marks.new (λ name. is_element name element.now) }
{
    if let Some(at) = find_name(names, trim(element)) {
        marks[at] = true;
    }
}

// The place of the first name that is alike but for case.
fn find_name(names: &[&[u8]], name: &[u8]) -> Option<usize>
    requires { AreInOrder names.now }
    ensures { MatchOption result (IsUnlike names.now name.now) (λ at. IsFirst names.now name.now at) }
{
    let at = place_of(names, name);
    if at < names.len() && names[at].eq_ignore_ascii_case(name) {
        Some(at)
    } else {
        None
    }
}

// How many of the names come before the name.
fn place_of(names: &[&[u8]], name: &[u8]) -> usize
    requires { AreInOrder names.now }
    ensures { IsPartitionPoint (λ own. comes_before own.now name.now ≡ true) (λ own. comes_before own.now name.now ≡ false) names.now result }
{
    names.partition_point(|own| compare_names(own, name).is_lt())
}

// Compares names without case.
fn compare_names(name: &[u8], other: &[u8]) -> Ordering
    ensures { result ≡ slice_cmp nat_cmp (str_to_ascii_lowercase name.now) (str_to_ascii_lowercase other.now) }
{
    let mut left = name;
    let mut right = other;
    while let [first, rest @ ..] = left {
        let [second, more @ ..] = right else {
            return Ordering::Greater;
        };
        let order = first.to_ascii_lowercase().cmp(&second.to_ascii_lowercase());
        if order.is_ne() {
            return order;
        }
        left = rest;
        right = more;
    }
    if right.is_empty() {
        Ordering::Equal
    } else {
        Ordering::Less
    }
}
