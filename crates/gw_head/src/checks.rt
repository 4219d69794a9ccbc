//! The checks of the parts of a head, in their order.
ghost use Rattle.std.specs.Prelude.{◌≡◌};
ghost use Rattle.gw_head.specs.Checks.{is_connect, is_no_form, has_bad_target, has_bad_coding, has_length_and_coding, has_bad_length, is_bad_host_byte, is_bad_host, first_value, is_wrong_count, has_bad_host, has_bad_path, has_bad_expectation, request_fault, has_bad_code, reply_fault, hosts_of};
ghost use Rattle.gw_head.specs.Fields.{is_length};

use crate::error::HeadError;
use crate::field_lines::FieldLines;
use crate::fields::read_length;
use crate::target::{Form, authority_in, form_of, has_bad_escape, path_in};

/// The first check that the parts of a request fail.
pub(crate) fn request_fault(
    method: &[u8],
    target: &[u8],
    minor: u8,
    fields: &FieldLines<'_>,
) -> Option<HeadError>
    ensures { result ≡ request_fault method.now target.now minor fields.now }
{
    if is_connect(method) {
        Some(HeadError::Connect)
    } else if has_bad_target(method, target) {
        Some(HeadError::Malformed)
    } else if has_bad_coding(minor, fields) {
        Some(HeadError::Coding)
    } else if has_length_and_coding(fields) {
        Some(HeadError::LengthAndCoding)
    } else if has_bad_length(fields) {
        Some(HeadError::BadLength)
    } else if has_bad_host(method, target, minor, fields) {
        Some(HeadError::HostCount)
    } else if has_bad_path(method, target) {
        Some(HeadError::BadEscape)
    } else if has_bad_expectation(fields) {
        Some(HeadError::Expectation)
    } else {
        None
    }
}

/// The first check that the parts of a reply fail.
pub(crate) fn reply_fault(minor: u8, code: u16, fields: &FieldLines<'_>) -> Option<HeadError>
    ensures { result ≡ reply_fault minor code fields.now }
{
    if has_bad_code(code) {
        Some(HeadError::Malformed)
    } else if has_bad_coding(minor, fields) {
        Some(HeadError::Coding)
    } else if has_length_and_coding(fields) {
        Some(HeadError::LengthAndCoding)
    } else if has_bad_length(fields) {
        Some(HeadError::BadLength)
    } else {
        None
    }
}

#[tactic(auto, unfolding(crate::specs::Checks::is_connect))]
fn is_connect(method: &[u8]) -> bool
    ensures { result ≡ is_connect method.now }
{
    method == b"CONNECT".as_slice()
}

#[tactic(auto, unfolding(crate::specs::Checks::has_bad_target))]
fn has_bad_target(method: &[u8], target: &[u8]) -> bool
    ensures { result ≡ has_bad_target method.now target.now }
{
    is_no_form(form_of(method, target))
}

fn is_no_form(form: Form) -> bool
    ensures { result ≡ is_no_form form }
{
    match form {
        Form::Other => true,
        Form::Origin | Form::Absolute | Form::Asterisk => false,
    }
}

#[tactic(auto, unfolding(crate::specs::Checks::has_bad_coding))]
fn has_bad_coding(minor: u8, fields: &FieldLines<'_>) -> bool
    ensures { result ≡ has_bad_coding minor fields.now }
{
    fields.count_named(b"transfer-encoding") != 0
        && (minor == 0 || !fields.has_only_token(b"transfer-encoding", b"chunked"))
}

#[tactic(auto, unfolding(crate::specs::Checks::has_length_and_coding))]
fn has_length_and_coding(fields: &FieldLines<'_>) -> bool
    ensures { result ≡ has_length_and_coding fields.now }
{
    fields.count_named(b"transfer-encoding") != 0 && fields.count_named(b"content-length") != 0
}

#[tactic(auto, unfolding(crate::specs::Checks::has_bad_length))]
fn has_bad_length(fields: &FieldLines<'_>) -> bool
    ensures { result ≡ has_bad_length fields.now }
{
    match fields.first_value(b"content-length") {
        Some(value) => !is_length(value) || !fields.values_agree(b"content-length", value),
        None => false,
    }
}

fn is_length(value: &[u8]) -> bool
    ensures { result ≡ is_length value.now }
{
    match read_length(value) {
        Some(_) => true,
        None => false,
    }
}

#[tactic(auto, unfolding(crate::specs::Checks::has_bad_host))]
fn has_bad_host(method: &[u8], target: &[u8], minor: u8, fields: &FieldLines<'_>) -> bool
    ensures { result ≡ has_bad_host method.now target.now minor fields.now }
{
    is_wrong_count(minor, fields.count_named(b"host"))
        || is_bad_host(host_value(fields))
        || is_bad_host(authority_in(form_of(method, target), target))
}

// Whether there are other than one Host, or in HTTP/1.0 more than one.
fn is_wrong_count(minor: u8, count: usize) -> bool
    ensures { result ≡ is_wrong_count minor count }
{
    if minor == 0 { count > 1 } else { count != 1 }
}

/// The value of the first Host, or nothing.
pub(crate) fn host_value<'b>(fields: &FieldLines<'b>) -> &'b [u8]
    ensures { result.now ≡ first_value (hosts_of fields.now) }
{
    match fields.first_value(b"host") {
        Some(value) => value,
        None => b"",
    }
}

fn is_bad_host(host: &[u8]) -> bool
    ensures { result ≡ is_bad_host host.now }
{
    for byte in host {
        if is_bad_host_byte(*byte) {
            return true;
        }
    }
    false
}

fn is_bad_host_byte(byte: u8) -> bool
    ensures { result ≡ is_bad_host_byte byte }
{
    !(0x21..=0x7e).contains(&byte)
        || matches!(byte, b'/' | b'?' | b'#' | b'@' | b'\\' | b'"' | b'<' | b'>')
}

#[tactic(auto, unfolding(crate::specs::Checks::has_bad_path))]
fn has_bad_path(method: &[u8], target: &[u8]) -> bool
    ensures { result ≡ has_bad_path method.now target.now }
{
    has_bad_escape(path_in(form_of(method, target), target))
}

#[tactic(auto, unfolding(crate::specs::Checks::has_bad_expectation))]
fn has_bad_expectation(fields: &FieldLines<'_>) -> bool
    ensures { result ≡ has_bad_expectation fields.now }
{
    fields.count_named(b"expect") != 0 && !fields.has_only_token(b"expect", b"100-continue")
}

#[tactic(auto, unfolding(crate::specs::Checks::has_bad_code))]
fn has_bad_code(code: u16) -> bool
    ensures { result ≡ has_bad_code code }
{
    code < 100 || code > 999
}
