//! Status lines and whole texts of replies.
ghost use Rattle.std.specs.Prelude.{◌≡◌, ◌++◌, IfOk, OnOk};
ghost use Rattle.gw_proxy.specs.Lines.{field_section};
ghost use Rattle.gw_proxy.specs.OutReply.{close_fields, code_line, code_text, phrase_of, status_line_of, version_of};

use crate::error::NoMemory;
use crate::lines::push_section;
use gw_fields::Lines;
use http::StatusCode;
use itoa::Buffer;
use std::alloc::Global;

// The status line and the empty line.
const FRAME_ROOM: usize = 64;

/// The text of a reply: the status line in the client's version, the lines, which are put into their order, the empty
/// line, and the body.
pub(crate) fn reply_text(
    alloc: Global,
    old: bool,
    code: u16,
    lines: Lines<'_>,
    body: &[u8],
) -> Result<Vec<u8>, NoMemory>
    ensures { IfOk result (λ text. text.items ≡ (status_line_of old code ++ field_section lines.entry) ++ body.now) }
{
    let mut lines = lines;
    lines.sort()?;
    let room = lines
        .text_len()
        .saturating_add(body.len())
        .saturating_add(FRAME_ROOM);
    let mut out = Vec::with_capacity(alloc, room)?;
    push_status_line(old, code, &mut out)?;
    push_section(&lines, &mut out)?;
    out.extend_from_slice(body)?;
    Ok(out)
}

// The version, the code and its phrase (RFC 9112, section 4).
fn push_status_line(old: bool, code: u16, out: &mut Vec<u8>) -> Result<(), NoMemory>
    ensures { OnOk result (out.new.items ≡ out.old.items ++ status_line_of old code) }
{
    out.extend_from_slice(version_of(old).as_bytes())?;
    out.extend_from_slice(b" ")?;
    push_code(code, out)?;
    out.extend_from_slice(b"\r\n")
}

fn version_of(old: bool) -> &'static str
    ensures { result.now ≡ version_of old }
{
    if old { "HTTP/1.0" } else { "HTTP/1.1" }
}

/// A line with the code and its phrase.
pub(crate) fn code_line(alloc: Global, code: u16) -> Result<Vec<u8>, NoMemory>
    ensures { IfOk result (λ line. line.items ≡ code_line code) }
{
    let mut line = Vec::with_capacity(alloc, FRAME_ROOM)?;
    push_code(code, &mut line)?;
    line.extend_from_slice(b"\n")?;
    Ok(line)
}

// Appends the code and its phrase.
fn push_code(code: u16, out: &mut Vec<u8>) -> Result<(), NoMemory>
    ensures { OnOk result (out.new.items ≡ out.old.items ++ code_text code) }
{
    let mut digits = Buffer::new();
    out.extend_from_slice(digits.format(code).as_bytes())?;
    out.extend_from_slice(b" ")?;
    out.extend_from_slice(phrase_of(code).as_bytes())
}

// The phrase of the code, or nothing.
#[tactic(auto, unfolding(crate::specs::OutReply::phrase_of))]
fn phrase_of(code: u16) -> &'static str
    ensures { result.now ≡ phrase_of code }
{
    let Ok(status) = StatusCode::from_u16(code) else {
        return "";
    };
    match status.canonical_reason() {
        Some(phrase) => phrase,
        None => "",
    }
}

/// Says that the link closes behind the reply, where it does (RFC 9112, section 9.6).
pub(crate) fn push_close(lines: &mut Lines<'_>, close: bool) -> Result<(), NoMemory>
    ensures { OnOk result (lines.new ≡ lines.old ++ close_fields close) }
{
    if close {
        lines.push(b"connection", b"close")
    } else {
        Ok(())
    }
}
