//! The fields of a head that was parsed, as its bytes have them.
ghost use Rattle.std.specs.Prelude.{◌≡◌, [], ◌∷◌, ℕ, List, All, IfOk, MatchOption, bytes_eq, length, map};
ghost use Rattle.std.specs.List.{list_all};
ghost use Rattle.httparse.specs.Spans.{IsHeaderWithin, header_bytes};
ghost use Rattle.gw_head.specs.Copies.{IsCopyable};
ghost use Rattle.gw_head.specs.Fields.{values_named, count_named};
ghost use Rattle.gw_head.specs.Checks.{is_only_token};
ghost use Rattle.gw_head.specs.Head.{lowered_fields};

use crate::copies::copy_fields;
use crate::error::NoMemory;
use crate::fields::{count_named, first_value, only_value, values_agree};
use gw_fields::Fields;
use httparse::spans::HeaderSpan;
use std::alloc::Global;
use std::marker::Model;

/// The fields of a head in their order. Contracts see their names and their values, without the blanks around them.
#[derive(Drop)]
pub(crate) struct FieldLines<'b> {
    bytes: &'b [u8],
    spans: &'b [HeaderSpan],
}

impl<'b> Model for FieldLines<'b> {
    ghost use Rattle.std.specs.Prelude.{ℕ, List, All, length, map};
    ghost use Rattle.httparse.specs.Spans.{IsHeaderWithin, header_bytes};
    ghost use Rattle.gw_head.specs.Copies.{IsCopyable};

    ghost Value = { List (List ℕ × List ℕ) };

    ghost view = { λ f. map (header_bytes f.bytes.now) f.spans.now };

    ghost invariant = { λ f. All (IsHeaderWithin (length f.bytes.now)) f.spans.now
        × All (λ span. IsCopyable (header_bytes f.bytes.now span)) f.spans.now };
}

impl<'b> FieldLines<'b> {
    /// The fields that the spans cover in the bytes.
    pub(crate) fn new(bytes: &'b [u8], spans: &'b [HeaderSpan]) -> FieldLines<'b>
        requires within { All (IsHeaderWithin (length bytes.now)) spans.now }
        requires copyable { All (λ span. IsCopyable (header_bytes bytes.now span)) spans.now }
        ensures { result ≡ map (header_bytes bytes.now) spans.now }
    {
        FieldLines { bytes, spans }
    }

    /// How many fields have the name, without case.
    pub(crate) fn count_named(&self, name: &[u8]) -> usize
        ensures { result ≡ count_named name.now self.now }
    {
        count_named(self.bytes, self.spans, name)
    }

    /// The value of the first field of that name.
    pub(crate) fn first_value(&self, name: &[u8]) -> Option<&'b [u8]>
        ensures { MatchOption result (values_named name.now self.now ≡ [])
            (λ value. (rest : List (List ℕ)) × (values_named name.now self.now ≡ value.now ∷ rest)) }
    {
        first_value(self.bytes, self.spans, name)
    }

    /// Whether there is one field of that name, and its value is the token, without case.
    pub(crate) fn has_only_token(&self, name: &[u8], token: &[u8]) -> bool
        ensures { result ≡ is_only_token token.now (values_named name.now self.now) }
    {
        match only_value(self.bytes, self.spans, name) {
            Some(value) => value.eq_ignore_ascii_case(token),
            None => false,
        }
    }

    /// Whether each field of that name has this value.
    pub(crate) fn values_agree(&self, name: &[u8], value: &[u8]) -> bool
        ensures { result ≡ list_all (bytes_eq value.now) (values_named name.now self.now) }
    {
        values_agree(self.bytes, self.spans, name, value)
    }

    /// A copy of the fields, their names in lower case.
    pub(crate) fn copy(&self, alloc: Global) -> Result<Fields, NoMemory>
        ensures { IfOk result (λ fields. fields ≡ lowered_fields self.now) }
    {
        copy_fields(alloc, self.bytes, self.spans)
    }
}
