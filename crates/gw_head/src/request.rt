//! The heads of requests.
ghost use Rattle.std.specs.Prelude.{◌≡◌, None, IfOk};
ghost use Rattle.http_header.specs.Token.{IsToken};
ghost use Rattle.gw_head.specs.Mark.{IsWhole};
ghost use Rattle.gw_head.specs.Checks.{request_fault, hosts_of};
ghost use Rattle.gw_head.specs.Head.{host_in, is_star, request_head_of, RequestHeadOf, BadRequestHead, Judges, JudgesParts};

use crate::checks::{host_value, request_fault};
use crate::copies::{copy_bytes, copy_method, copy_query};
use crate::error::{HeadError, NoMemory, Refusal};
use crate::field_lines::FieldLines;
use crate::fields::FIELD_LIMIT;
use crate::framing::{Framing, framing_of};
use crate::lines::request_lines_fault;
use crate::target::{Form, authority_in, form_of, path_in, query_in};
use gw_fields::Fields;
use gw_wire::Bytes;
use http::Method;
use httparse::Status;
use httparse::spans::{EMPTY_HEADER_SPAN, parse_request};
use std::alloc::Global;

/// The head of a request (RFC 9112, section 3).
#[derive(Debug, Drop)]
pub struct RequestHead {
    pub method: Method,
    /// The authority of the target, or else the value of Host, with its port; empty where neither was sent.
    pub host: Bytes,
    /// The path as it was sent; empty for `*` alone.
    pub path: Bytes,
    /// What stands behind the first `?`.
    pub query: Option<Bytes>,
    /// Whether the target is `*`.
    pub star: bool,
    /// Whether the version is HTTP/1.0.
    pub old: bool,
    /// The fields in their order, their values without the blanks around them.
    pub fields: Fields,
    /// How the body is framed.
    pub framing: Framing,
    /// Whether `100-continue` is expected (RFC 9110, section 10.1.1).
    pub expect: bool,
    /// Whether `Connection` has the token `close`.
    pub close: bool,
}

/// Judges the bytes of one head up to and with its end mark: the request's head, or the first check that fails, or
/// that there was no memory for a good head.
pub(crate) fn judge_request(alloc: Global, head: &[u8]) -> Result<RequestHead, Refusal>
    requires { IsWhole head.now }
    ensures { Judges RequestHeadOf BadRequestHead head.now result }
{
    if let Some(fault) = request_lines_fault(head) {
        return Err(Refusal::Bad(fault));
    }
    let mut spans = [EMPTY_HEADER_SPAN; FIELD_LIMIT];
    match parse_request(head, &mut spans) {
        Ok(Status::Complete(found)) => {
            let fields = FieldLines::new(head, &spans[..found.headers]);
            judge_parts(
                alloc,
                found.method.of(head),
                found.path.of(head),
                found.version,
                &fields,
            )
        }
        Ok(Status::Partial) => Err(Refusal::Bad(HeadError::Malformed)),
        Err(_) => Err(Refusal::Bad(HeadError::Malformed)),
    }
}

fn judge_parts(
    alloc: Global,
    method: &[u8],
    target: &[u8],
    minor: u8,
    fields: &FieldLines<'_>,
) -> Result<RequestHead, Refusal>
    requires { IsToken method.now }
    ensures { JudgesParts (request_fault method.now target.now minor fields.now)
        (request_head_of method.now target.now minor fields.now) result }
{
    if let Some(fault) = request_fault(method, target, minor, fields) {
        return Err(Refusal::Bad(fault));
    }
    match copy_head(alloc, method, target, minor, fields) {
        Ok(head) => Ok(head),
        Err(_) => Err(Refusal::NoMemory),
    }
}

// The head that these parts make.
fn copy_head(
    alloc: Global,
    method: &[u8],
    target: &[u8],
    minor: u8,
    fields: &FieldLines<'_>,
) -> Result<RequestHead, NoMemory>
    requires token { IsToken method.now }
    requires good { request_fault method.now target.now minor fields.now ≡ None }
    ensures { IfOk result (λ head. head ≡ request_head_of method.now target.now minor fields.now) }
{
    let form = form_of(method, target);
    let copied = fields.copy(alloc)?;
    let close = copied.has_token(b"connection", b"close");
    Ok(RequestHead {
        method: copy_method(alloc, method)?,
        host: copy_bytes(alloc, host_in(form, target, fields))?,
        path: copy_bytes(alloc, path_in(form, target))?,
        query: copy_query(alloc, form, target)?,
        star: is_star(form),
        old: minor == 0,
        fields: copied,
        framing: framing_of(fields),
        expect: fields.count_named(b"expect") != 0,
        close,
    })
}

fn host_in<'b>(form: Form, target: &'b [u8], fields: &FieldLines<'b>) -> &'b [u8]
    ensures { result.now ≡ host_in form target.now (hosts_of fields.now) }
{
    match form {
        Form::Absolute => authority_in(form, target),
        Form::Origin | Form::Asterisk | Form::Other => host_value(fields),
    }
}

fn is_star(form: Form) -> bool
    ensures { result ≡ is_star form }
{
    match form {
        Form::Asterisk => true,
        Form::Origin | Form::Absolute | Form::Other => false,
    }
}
