//! Values that are lists of tokens (RFC 9110, section 5.6.1).
ghost use Rattle.std.specs.Prelude.{◌≡◌, ◌<◌, IfSome, length, position, reverse};
ghost use Rattle.gw_fields.specs.Lists.{is_blank, skip_blanks, trimmed, is_comma, is_element, lists_token, SplitsElement};

use memchr::memchr;

/// Whether some element of the value is the token, without case.
pub(crate) fn lists_token(value: &[u8], token: &[u8]) -> bool
    ensures { result ≡ lists_token token.now value.now }
{
    let mut left = value;
    loop {
        let (element, after) = split_element(left);
        if is_element(element, token) {
            return true;
        }
        let Some(rest) = after else {
            return false;
        };
        left = rest;
    }
}

/// The first element, and what stands after its comma.
pub(crate) fn split_element(value: &[u8]) -> (&[u8], Option<&[u8]>)
    ensures { SplitsElement value.now result.0.now result.1 }
{
    match place_of_comma(value) {
        None => (value, None),
        Some(end) => (&value[..end], Some(&value[end + 1..])),
    }
}

fn place_of_comma(bytes: &[u8]) -> Option<usize>
    ensures place { result ≡ position is_comma bytes.now }
    ensures within { IfSome result (λ at. at < length bytes.now) }
{
    memchr(b',', bytes)
}

// Whether the element is the token, but for case and the blanks around it.
fn is_element(element: &[u8], token: &[u8]) -> bool
    ensures { result ≡ is_element token.now element.now }
{
    trim(element).eq_ignore_ascii_case(token)
}

/// The bytes without the blanks at both ends.
pub(crate) fn trim(bytes: &[u8]) -> &[u8]
    ensures { result.now ≡ trimmed bytes.now }
{
    trim_end(trim_start(bytes))
}

fn trim_start(bytes: &[u8]) -> &[u8]
    ensures { result.now ≡ skip_blanks bytes.now }
{
    let mut left = bytes;
    while let [first, rest @ ..] = left {
        if !is_blank(*first) {
            return left;
        }
        left = rest;
    }
    left
}

fn trim_end(bytes: &[u8]) -> &[u8]
    ensures { result.now ≡ reverse (skip_blanks (reverse bytes.now)) }
{
    let mut left = bytes;
    while let [rest @ .., last] = left {
        if !is_blank(*last) {
            return left;
        }
        left = rest;
    }
    left
}

fn is_blank(byte: u8) -> bool
    ensures { result ≡ is_blank byte }
{
    byte == b' ' || byte == b'\t'
}
