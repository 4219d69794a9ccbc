//! The heads of replies.
ghost use Rattle.std.specs.Prelude.{◌≡◌, None, IfOk};
ghost use Rattle.gw_head.specs.Mark.{IsWhole};
ghost use Rattle.gw_head.specs.Checks.{reply_fault};
ghost use Rattle.gw_head.specs.Head.{reply_head_of, ReplyHeadOf, BadReplyHead, Judges, JudgesParts};

use crate::checks::reply_fault;
use crate::error::{HeadError, NoMemory, Refusal};
use crate::field_lines::FieldLines;
use crate::fields::FIELD_LIMIT;
use crate::framing::length_of;
use crate::lines::reply_lines_fault;
use gw_fields::Fields;
use httparse::Status;
use httparse::spans::{EMPTY_HEADER_SPAN, parse_response};
use std::alloc::Global;

/// The head of a reply (RFC 9112, section 4).
#[derive(Debug, Drop)]
pub struct ReplyHead {
    /// The status code: 100 to 999.
    pub code: u16,
    /// Whether the version is HTTP/1.0.
    pub old: bool,
    /// The fields in their order, their values without the blanks around them.
    pub fields: Fields,
    /// Whether `Connection` has the token `close`.
    pub close: bool,
    /// The number that Content-Length writes: at most 2^63 - 1.
    pub length: Option<u64>,
    /// Whether the body is in chunks.
    pub chunked: bool,
}

/// Judges the bytes of one head up to and with its end mark: the reply's head, or the first check that fails, or that
/// there was no memory for a good head.
pub(crate) fn judge_reply(alloc: Global, head: &[u8]) -> Result<ReplyHead, Refusal>
    requires { IsWhole head.now }
    ensures { Judges ReplyHeadOf BadReplyHead head.now result }
{
    if let Some(fault) = reply_lines_fault(head) {
        return Err(Refusal::Bad(fault));
    }
    let mut spans = [EMPTY_HEADER_SPAN; FIELD_LIMIT];
    match parse_response(head, &mut spans) {
        Ok(Status::Complete(found)) => {
            let fields = FieldLines::new(head, &spans[..found.headers]);
            judge_parts(alloc, found.version, found.code, &fields)
        }
        Ok(Status::Partial) => Err(Refusal::Bad(HeadError::Malformed)),
        Err(_) => Err(Refusal::Bad(HeadError::Malformed)),
    }
}

fn judge_parts(
    alloc: Global,
    minor: u8,
    code: u16,
    fields: &FieldLines<'_>,
) -> Result<ReplyHead, Refusal>
    ensures { JudgesParts (reply_fault minor code fields.now) (reply_head_of minor code fields.now) result }
{
    if let Some(fault) = reply_fault(minor, code, fields) {
        return Err(Refusal::Bad(fault));
    }
    match copy_head(alloc, minor, code, fields) {
        Ok(head) => Ok(head),
        Err(_) => Err(Refusal::NoMemory),
    }
}

// The head that these parts make.
fn copy_head(
    alloc: Global,
    minor: u8,
    code: u16,
    fields: &FieldLines<'_>,
) -> Result<ReplyHead, NoMemory>
    requires { reply_fault minor code fields.now ≡ None }
    ensures { IfOk result (λ head. head ≡ reply_head_of minor code fields.now) }
{
    let copied = fields.copy(alloc)?;
    let close = copied.has_token(b"connection", b"close");
    Ok(ReplyHead {
        code,
        old: minor == 0,
        fields: copied,
        close,
        length: length_of(fields),
        chunked: fields.count_named(b"transfer-encoding") != 0,
    })
}
