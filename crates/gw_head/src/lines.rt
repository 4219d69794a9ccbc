//! The checks of a head's lines, before any of them is read further.
ghost use Rattle.std.specs.Prelude.{◌≡◌};
ghost use Rattle.gw_head.specs.Lines.{skip_newlines, without_return, first_line, line_count, begins_with_version, is_spoken, begins_with_other_version, ends_with_other_version};
ghost use Rattle.gw_head.specs.Checks.{has_other_request_version, has_other_reply_version, has_too_many_fields, request_lines_fault, reply_lines_fault};

use crate::error::HeadError;
use crate::fields::FIELD_LIMIT;
use crate::pieces::{before, byte_at, count_of, front, skip};

/// The first check that the lines of a request's head fail.
pub(crate) fn request_lines_fault(bytes: &[u8]) -> Option<HeadError>
    ensures { result ≡ request_lines_fault bytes.now }
{
    if has_other_request_version(bytes) {
        Some(HeadError::Version)
    } else if has_too_many_fields(bytes) {
        Some(HeadError::TooManyFields)
    } else {
        None
    }
}

/// The first check that the lines of a reply's head fail.
pub(crate) fn reply_lines_fault(bytes: &[u8]) -> Option<HeadError>
    ensures { result ≡ reply_lines_fault bytes.now }
{
    if has_other_reply_version(bytes) {
        Some(HeadError::Version)
    } else if has_too_many_fields(bytes) {
        Some(HeadError::TooManyFields)
    } else {
        None
    }
}

#[tactic(auto, unfolding(crate::specs::Checks::has_other_request_version))]
fn has_other_request_version(bytes: &[u8]) -> bool
    ensures { result ≡ has_other_request_version bytes.now }
{
    ends_with_other_version(first_line(bytes))
}

#[tactic(auto, unfolding(crate::specs::Checks::has_other_reply_version))]
fn has_other_reply_version(bytes: &[u8]) -> bool
    ensures { result ≡ has_other_reply_version bytes.now }
{
    begins_with_other_version(first_line(bytes))
}

#[tactic(auto, unfolding(crate::specs::Checks::has_too_many_fields))]
fn has_too_many_fields(bytes: &[u8]) -> bool
    ensures { result ≡ has_too_many_fields bytes.now }
{
    line_count(bytes) > FIELD_LIMIT
}

fn line_count(bytes: &[u8]) -> usize
    ensures { result ≡ line_count bytes.now }
{
    count_of(skip_newlines(bytes), b'\n').saturating_sub(2)
}

fn first_line(bytes: &[u8]) -> &[u8]
    ensures { result.now ≡ first_line bytes.now }
{
    without_return(before(skip_newlines(bytes), b'\n'))
}

fn without_return(line: &[u8]) -> &[u8]
    ensures { result.now ≡ without_return line.now }
{
    let last = line.len().saturating_sub(1);
    if byte_at(line, last) == b'\r' {
        front(line, last)
    } else {
        line
    }
}

fn skip_newlines(bytes: &[u8]) -> &[u8]
    ensures { result.now ≡ skip_newlines bytes.now }
{
    let mut left = bytes;
    while let [first, rest @ ..] = left {
        if *first != b'\r' && *first != b'\n' {
            return left;
        }
        left = rest;
    }
    left
}

fn ends_with_other_version(line: &[u8]) -> bool
    ensures { result ≡ ends_with_other_version line.now }
{
    let tail = skip(line, line.len().saturating_sub(9));
    byte_at(tail, 0) == b' ' && begins_with_other_version(skip(tail, 1))
}

fn begins_with_other_version(text: &[u8]) -> bool
    ensures { result ≡ begins_with_other_version text.now }
{
    begins_with_version(text) && !is_spoken(text)
}

fn begins_with_version(text: &[u8]) -> bool
    ensures { result ≡ begins_with_version text.now }
{
    text.starts_with(b"HTTP/")
        && byte_at(text, 5).is_ascii_digit()
        && byte_at(text, 6) == b'.'
        && byte_at(text, 7).is_ascii_digit()
}

fn is_spoken(text: &[u8]) -> bool
    ensures { result ≡ is_spoken text.now }
{
    byte_at(text, 5) == b'1' && (byte_at(text, 7) == b'0' || byte_at(text, 7) == b'1')
}
