//! The list of fields.
ghost use Rattle.std.specs.Prelude.{◌≡◌, ◌≤◌, ◌<◌, [], ◌∷◌, ◌++◌, false, length, map, take, slice_index_or, MatchOption, IfOk, OnOk, OnErr, Some, slice_get, ◌==◌};
ghost use Rattle.std.specs.Str.{str_eq_ignore_ascii_case};
ghost use Rattle.gw_fields.specs.Fields.{has_token, names_token, pair_of};
ghost use Rattle.gw_fields.specs.Hops.{is_hop, without_hops};
ghost use Rattle.std.specs.List.{HoldsAt};
ghost use Rattle.gw_fields.specs.Order.{lines_of, sorted};

use crate::error::NoMemory;
use crate::hops::{TABLE_LEN, first_hops, is_hop, is_hop_among, listed_names, sort_names};
use crate::lines::Lines;
use crate::lists::lists_token;
use arrayvec::ArrayVec;
use http_header::{HeaderName, HeaderValue};
use std::alloc::Global;
use std::marker::Model;

/// Fields in the order in which they came. Contracts see the list of their names, which are in lower case, and
/// values.
#[derive(Debug, Drop)]
pub struct Fields {
    items: Vec<(HeaderName, HeaderValue)>,
}

impl Model for Fields {
    ghost use Rattle.std.specs.Prelude.{ℕ, List, map};
    ghost use Rattle.gw_fields.specs.Fields.{pair_of};

    ghost Value = { List (List ℕ × List ℕ) };

    ghost view = { λ f. map pair_of f.items.items };
}

impl Fields {
    /// No fields; it takes no memory yet.
    pub fn new(alloc: Global) -> Fields
        ensures { result ≡ [] }
    {
        Fields {
            items: Vec::new(alloc),
        }
    }

    /// No fields, with room for so many.
    pub fn with_capacity(alloc: Global, count: usize) -> Result<Fields, NoMemory>
        ensures { IfOk result (λ fields. fields ≡ []) }
    {
        Ok(Fields {
            items: Vec::with_capacity(alloc, count)?,
        })
    }

    /// Adds a field behind the others. Where there is no memory, nothing is added.
    pub fn push(&mut self, name: HeaderName, value: HeaderValue) -> Result<(), NoMemory>
        ensures ok { OnOk result (self.new ≡ self.old ++ (name, value.bytes) ∷ []) }
        ensures err { OnErr result (self.new ≡ self.old) }
    {
        self.items.push((name, value))?;
        Ok(())
    }

    /// How many fields there are.
    pub fn len(&self) -> usize
        ensures { result ≡ length self.now }
    {
        self.items.len()
    }

    /// Whether there is no field.
    pub fn is_empty(&self) -> bool
        ensures { result ≡ (length self.now == 0) }
    {
        self.items.is_empty()
    }

    /// The name and the value of the field at `i`, counted from 0; `None` exactly behind the last.
    pub fn get(&self, i: usize) -> Option<(&HeaderName, &HeaderValue)>
        ensures { MatchOption result (length self.now ≤ i)
            (λ field. slice_get self.now i ≡ Some (field.0.now, field.1.now.bytes)) }
    {
        let (name, value) = self.items.get(i)?;
        Some((name, value))
    }

    /// Whether a field of that name lists the token (RFC 9110, section 5.6.1): the value is split at commas, and
    /// spaces and tabs around an element don't count. Name and token are compared without case. It takes no memory.
    pub fn has_token(&self, name: &[u8], token: &[u8]) -> bool
        ensures { result ≡ has_token name.now token.now self.now }
    {
        has_token(&self.items, name, token)
    }

    /// Removes the fields that belong to this connection alone (RFC 9110, section 7.6.1): those with a name that always
    /// says so, and those that a `Connection` field lists; the others stay in their order. It takes no memory.
    pub fn strip_hops(&mut self)
        ensures { self.new ≡ without_hops self.old }
    {
        let hops = self.first_hops();
        self.keep_others(&hops);
    }

    // For each of the fields, up to the first 128, whether it belongs to this connection alone.
    fn first_hops(&self) -> ArrayVec<bool, TABLE_LEN>
        ensures { result.items ≡ map (λ field. is_hop self.now field.0) (take TABLE_LEN self.now) }
    {
        first_hops(&self.items)
    }

    // Removes the fields that belong to this connection alone, by what is known of the first ones.
    fn keep_others(&mut self, hops: &[bool])
        requires { hops.now ≡ map (λ field. is_hop self.old field.0) (take TABLE_LEN self.old) }
        ensures { self.new ≡ without_hops self.old }
    {
        // What is passed over stays behind the kept ones until the end, since a `Connection` among it is still asked.
        let mut kept = 0;
        for i in 0..self.items.len() {
            if !self.is_hop_at(hops, i) {
                self.items.swap(kept, i);
                kept += 1;
            }
        }
        self.items.truncate(kept);
    }

    // What is known of the field at `i`, or else whether it belongs to this connection alone.
    fn is_hop_at(&self, hops: &[bool], i: usize) -> bool
        requires { i < length self.now }
        ensures known { i < length hops.now → result ≡ slice_index_or hops.now i false }
        ensures asked { length hops.now ≤ i → HoldsAt (λ field. result ≡ is_hop self.now field.0) self.now i }
    {
        if i < hops.len() {
            hops[i]
        } else {
            is_hop(&self.items, self.items[i].0.as_bytes())
        }
    }

    /// The lines of all fields in their order.
    pub fn lines(&self, alloc: Global) -> Result<Lines<'_>, NoMemory>
        ensures { IfOk result (λ lines. lines ≡ self.now) }
    {
        let mut lines = Lines::with_capacity(alloc, self.items.len())?;
        for (name, value) in &self.items {
            lines.push(name.as_bytes(), value.as_bytes())?;
        }
        Ok(lines)
    }

    /// The lines of the fields that don't belong to this connection alone, in their order.
    pub fn lines_without_hops(&self, alloc: Global) -> Result<Lines<'_>, NoMemory>
        ensures { IfOk result (λ lines. lines ≡ without_hops self.now) }
    {
        let first = &self.items[..self.items.len().min(TABLE_LEN)];
        let mut table: [&[u8]; TABLE_LEN] = [b""; TABLE_LEN];
        let names = &mut table[..first.len()];
        sort_names(first, names);
        let listed = listed_names(names, &self.items);
        let mut lines = Lines::with_capacity(alloc, self.items.len())?;
        for (name, value) in &self.items {
            if !is_hop_among(names, &listed, &self.items, name.as_bytes()) {
                lines.push(name.as_bytes(), value.as_bytes())?;
            }
        }
        Ok(lines)
    }

    /// The text of the field lines as they are sent: in the byte order of their names in lower case, where equal names
    /// keep their order; the first letter of a name and each letter behind a `-` is in upper case.
    pub fn sorted(&self, alloc: Global) -> Result<Vec<u8>, NoMemory>
        ensures { IfOk result (λ text. text.items ≡ lines_of (sorted self.now)) }
    {
        let mut lines = self.lines(alloc)?;
        lines.sort()?;
        let mut text = Vec::with_capacity(alloc, lines.text_len())?;
        lines.write(&mut text)?;
        Ok(text)
    }
}

/// Whether one of the fields has that name and lists the token.
pub(crate) fn has_token(items: &[(HeaderName, HeaderValue)], name: &[u8], token: &[u8]) -> bool
    ensures { result ≡ has_token name.now token.now (map pair_of items.now) }
{
    for (own, value) in items {
        if names_token(own, value, name, token) {
            return true;
        }
    }
    false
}

// Whether the field has that name, without case.
fn is_named(own: &HeaderName, name: &[u8]) -> bool
    ensures { result ≡ str_eq_ignore_ascii_case own.now name.now }
{
    own.as_bytes().eq_ignore_ascii_case(name)
}

// Whether the field has that name, and its value lists the token.
fn names_token(own: &HeaderName, value: &HeaderValue, name: &[u8], token: &[u8]) -> bool
    ensures { result ≡ names_token name.now token.now (own.now, value.now.bytes) }
{
    own.as_bytes().eq_ignore_ascii_case(name) && lists_token(value.as_bytes(), token)
}
