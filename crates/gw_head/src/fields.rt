//! The fields of a head, by their names.
ghost use Rattle.std.specs.Prelude.{◌≡◌, ◌≢◌, true, false, [], ◌∷◌, ℕ, List, All, MatchOption, map, length};
ghost use Rattle.std.specs.List.{list_all};
ghost use Rattle.std.specs.Str.Parse.{digits_value};
ghost use Rattle.httparse.specs.Spans.{IsHeaderWithin, header_bytes};
ghost use Rattle.gw_head.specs.Fields.{values_named, agrees, is_length};

use httparse::spans::HeaderSpan;

/// The most fields that a head may have.
pub(crate) const FIELD_LIMIT: usize = 128;

/// The greatest value of a Content-Length: 2^63 - 1.
const LENGTH_LIMIT: u64 = 9_223_372_036_854_775_807;

/// How many of the fields have the name, without case.
pub(crate) fn count_named(bytes: &[u8], fields: &[HeaderSpan], name: &[u8]) -> usize
    requires { All (IsHeaderWithin (length bytes.now)) fields.now }
    ensures { result ≡ length (values_named name.now (map (header_bytes bytes.now) fields.now)) }
{
    let mut count = 0;
    for field in fields {
        if field.name.of(bytes).eq_ignore_ascii_case(name) {
            count += 1;
        }
    }
    count
}

/// The value of the field of that name; None where there isn't exactly one.
pub(crate) fn only_value<'b>(
    bytes: &'b [u8],
    fields: &[HeaderSpan],
    name: &[u8],
) -> Option<&'b [u8]>
    requires { All (IsHeaderWithin (length bytes.now)) fields.now }
    ensures { MatchOption result
        (length (values_named name.now (map (header_bytes bytes.now) fields.now)) ≢ 1)
        (λ value. values_named name.now (map (header_bytes bytes.now) fields.now) ≡ value.now ∷ []) }
{
    if count_named(bytes, fields, name) != 1 {
        return None;
    }
    for field in fields {
        if field.name.of(bytes).eq_ignore_ascii_case(name) {
            return Some(field.value.of(bytes));
        }
    }
    None
}

/// The value of the first field of that name.
pub(crate) fn first_value<'b>(
    bytes: &'b [u8],
    fields: &[HeaderSpan],
    name: &[u8],
) -> Option<&'b [u8]>
    requires { All (IsHeaderWithin (length bytes.now)) fields.now }
    ensures { MatchOption result
        (values_named name.now (map (header_bytes bytes.now) fields.now) ≡ [])
        (λ value. (rest : List (List ℕ))
        × (values_named name.now (map (header_bytes bytes.now) fields.now) ≡ value.now ∷ rest)) }
{
    for field in fields {
        if field.name.of(bytes).eq_ignore_ascii_case(name) {
            return Some(field.value.of(bytes));
        }
    }
    None
}

/// Whether each field of that name has this value.
pub(crate) fn values_agree(bytes: &[u8], fields: &[HeaderSpan], name: &[u8], value: &[u8]) -> bool
    requires { All (IsHeaderWithin (length bytes.now)) fields.now }
    ensures { result ≡ list_all (agrees name.now value.now) (map (header_bytes bytes.now) fields.now) }
{
    for field in fields {
        if !agrees(bytes, field, name, value) {
            return false;
        }
    }
    true
}

// Whether the field has another name, or this value.
fn agrees(bytes: &[u8], field: &HeaderSpan, name: &[u8], value: &[u8]) -> bool
    requires { IsHeaderWithin (length bytes.now) field.now }
    ensures { result ≡ agrees name.now value.now (header_bytes bytes.now field.now) }
{
    if field.name.of(bytes).eq_ignore_ascii_case(name) {
        field.value.of(bytes) == value
    } else {
        true
    }
}

/// The number that the value of a Content-Length writes; None where it is none.
#[tactic(auto, using(crate::proofs::CheckLemmas::length_no))]
pub(crate) fn read_length(value: &[u8]) -> Option<u64>
    ensures { MatchOption result (is_length value.now ≡ false) (λ n. (is_length value.now ≡ true) × (n ≡ digits_value 10 value.now)) }
{
    let mut number: u64 = 0;
    for digit in value {
        if !digit.is_ascii_digit() {
            return None;
        }
        number = number
            .saturating_mul(10)
            .saturating_add(u64::from(*digit - b'0'));
    }
    if value.is_empty() || number > LENGTH_LIMIT {
        return None;
    }
    Some(number)
}
