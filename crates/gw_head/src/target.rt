//! The target of a request and its parts.
ghost use Rattle.std.specs.Prelude.{◌≡◌};
ghost use Rattle.std.specs.List.{position, position_or_len};
ghost use Rattle.gw_head.specs.Pieces.{before, has_byte};
ghost use Rattle.gw_head.specs.Target.{begins_with, scheme_length, is_authority_end, authority_of, behind_authority, is_plain_authority, is_origin, is_absolute, is_asterisk, form_of, authority_in, path_in, resource_in, slash_for_none, begins_with_pair, has_bad_escape, IsQuery};

use crate::pieces::{after, before, byte_at, front, skip};
use memchr::memchr2;

/// The form of a request's target (RFC 9112, section 3.2).
#[derive(Clone, Copy)]
pub(crate) enum Form {
    /// A path, perhaps with a query.
    Origin,
    /// A whole URI of `http` or `https`.
    Absolute,
    /// `*`, with the method OPTIONS.
    Asterisk,
    /// None of these.
    Other,
}

/// The form of a target (RFC 9112, section 3.2).
#[tactic(auto, unfolding(crate::specs::Target::form_of))]
pub(crate) fn form_of(method: &[u8], target: &[u8]) -> Form
    ensures { result ≡ form_of method.now target.now }
{
    if has_byte(target, b'#') {
        Form::Other
    } else if is_origin(target) {
        Form::Origin
    } else if is_absolute(target) {
        Form::Absolute
    } else if is_asterisk(method, target) {
        Form::Asterisk
    } else {
        Form::Other
    }
}

fn is_origin(target: &[u8]) -> bool
    ensures { result ≡ is_origin target.now }
{
    byte_at(target, 0) == b'/'
}

fn is_absolute(target: &[u8]) -> bool
    ensures { result ≡ is_absolute target.now }
{
    scheme_length(target) != 0 && is_plain_authority(authority_of(target))
}

fn is_asterisk(method: &[u8], target: &[u8]) -> bool
    ensures { result ≡ is_asterisk method.now target.now }
{
    target == b"*".as_slice() && method == b"OPTIONS".as_slice()
}

fn has_byte(bytes: &[u8], byte: u8) -> bool
    ensures { result ≡ has_byte byte bytes.now }
{
    bytes.contains(&byte)
}

// How many bytes the scheme and what follows it up to the authority have, or 0.
fn scheme_length(target: &[u8]) -> usize
    ensures { result ≡ scheme_length target.now }
{
    if begins_with(target, b"http://") {
        7
    } else if begins_with(target, b"https://") {
        8
    } else {
        0
    }
}

// Whether the word stands at the front, without case.
fn begins_with(target: &[u8], word: &[u8]) -> bool
    ensures { result ≡ begins_with word.now target.now }
{
    front(target, word.len()).eq_ignore_ascii_case(word)
}

fn is_plain_authority(authority: &[u8]) -> bool
    ensures { result ≡ is_plain_authority authority.now }
{
    !authority.is_empty() && !has_byte(authority, b'@')
}

// How many bytes stand before '/' or '?'.
fn authority_length(text: &[u8]) -> usize
    ensures { result ≡ position_or_len is_authority_end text.now }
{
    match place_of_authority_end(text) {
        Some(at) => at,
        None => text.len(),
    }
}

fn place_of_authority_end(text: &[u8]) -> Option<usize>
    ensures { result ≡ position is_authority_end text.now }
{
    memchr2(b'/', b'?', text)
}

fn authority_of(target: &[u8]) -> &[u8]
    ensures { result.now ≡ authority_of target.now }
{
    let text = skip(target, scheme_length(target));
    front(text, authority_length(text))
}

fn behind_authority(target: &[u8]) -> &[u8]
    ensures { result.now ≡ behind_authority target.now }
{
    let text = skip(target, scheme_length(target));
    skip(text, authority_length(text))
}

/// The host that the target names; only the absolute form names one.
pub(crate) fn authority_in(form: Form, target: &[u8]) -> &[u8]
    ensures { result.now ≡ authority_in form target.now }
{
    match form {
        Form::Absolute => authority_of(target),
        Form::Origin | Form::Asterisk | Form::Other => b"",
    }
}

fn resource_in(form: Form, target: &[u8]) -> &[u8]
    ensures { result.now ≡ resource_in form target.now }
{
    match form {
        Form::Origin => target,
        Form::Absolute => behind_authority(target),
        Form::Asterisk | Form::Other => b"",
    }
}

/// The path of the target: it is empty in the asterisk form alone.
pub(crate) fn path_in(form: Form, target: &[u8]) -> &[u8]
    ensures { result.now ≡ path_in form target.now }
{
    match form {
        Form::Origin => before(target, b'?'),
        Form::Absolute => slash_for_none(before(behind_authority(target), b'?')),
        Form::Asterisk | Form::Other => b"",
    }
}

fn slash_for_none(path: &[u8]) -> &[u8]
    ensures { result.now ≡ slash_for_none path.now }
{
    if path.is_empty() { b"/" } else { path }
}

/// The query of the target, if it has one.
pub(crate) fn query_in(form: Form, target: &[u8]) -> Option<&[u8]>
    ensures { IsQuery (resource_in form target.now) result }
{
    let resource = resource_in(form, target);
    if has_byte(resource, b'?') {
        Some(after(resource, b'?'))
    } else {
        None
    }
}

/// The path of a target in origin form, and behind its first `?` the query (RFC 9112, section 3.2.1). It takes no memory.
pub fn split_target(target: &[u8]) -> (&[u8], Option<&[u8]>)
    ensures path { result.0.now ≡ before 63 target.now }
    ensures query { IsQuery target.now result.1 }
{
    (
        path_in(Form::Origin, target),
        query_in(Form::Origin, target),
    )
}

/// Whether a `%` in the path isn't followed by two hexadecimal digits (RFC 3986, section 2.1). It takes no memory.
pub fn has_bad_escape(path: &[u8]) -> bool
    ensures { result ≡ has_bad_escape path.now }
{
    let mut left = path;
    while let [first, rest @ ..] = left {
        if *first == b'%' && !begins_with_pair(rest) {
            return true;
        }
        left = rest;
    }
    false
}

fn begins_with_pair(bytes: &[u8]) -> bool
    ensures { result ≡ begins_with_pair bytes.now }
{
    byte_at(bytes, 0).is_ascii_hexdigit() && byte_at(bytes, 1).is_ascii_hexdigit()
}
