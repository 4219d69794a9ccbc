//! The heads of replies to clients.
ghost use Rattle.std.specs.Prelude.{◌≡◌, ◌<◌, ◌++◌, IfOk, OnOk};
ghost use Rattle.gw_proxy.specs.OutReply.{date_fields, out_reply_of, reply_length, sent_framing_of, OutReply};

use crate::date::date_at;
use crate::error::NoMemory;
use crate::lines::{length_text, push_coding, push_length};
use crate::status::{push_close, reply_text};
use gw_fields::Lines;
use gw_head::{Framing, ReplyHead};
use http::Method;
use std::alloc::Global;

/// The head of a backend's reply as it goes to the client (RFC 9110, section 7.6), whose request had this method.
/// `framing` is how the reply's body is framed, `old` says that the client speaks HTTP/1.0, and `close` that its link
/// closes behind the reply. `now` is a moment in milliseconds since 1970, before the year 10000: it dates a reply that
/// has no date.
pub fn out_reply_head(
    alloc: Global,
    reply: &ReplyHead,
    framing: Framing,
    method: &Method,
    old: bool,
    close: bool,
    now: u64,
) -> Result<Vec<u8>, NoMemory>
    requires { now < 253_402_300_800_000 }
    ensures { IfOk result (λ head. OutReply reply.now framing method.now old close now head.items) }
{
    head_text(alloc, reply, framing, method, old, close, &date_at(now))
}

// The same with the text of the date.
fn head_text(
    alloc: Global,
    reply: &ReplyHead,
    framing: Framing,
    method: &Method,
    old: bool,
    close: bool,
    date: &[u8],
) -> Result<Vec<u8>, NoMemory>
    ensures { IfOk result (λ head. head.items ≡ out_reply_of reply.now framing method.now old close date.now) }
{
    let length = length_text(alloc, reply_length(framing, reply, method))?;
    let mut lines = reply.fields.lines_without_hops(alloc)?;
    lines.remove(b"content-length");
    push_date(&mut lines, date)?;
    push_length(&mut lines, &length)?;
    push_coding(&mut lines, sent_framing(framing, old))?;
    push_close(&mut lines, close)?;
    reply_text(alloc, old, reply.code, lines, &[])
}

// Adds the date where there is none.
fn push_date<'a>(lines: &mut Lines<'a>, date: &'a [u8]) -> Result<(), NoMemory>
    ensures { OnOk result (lines.new ≡ lines.old ++ date_fields date.now lines.old) }
{
    if lines.has(b"date") {
        Ok(())
    } else {
        lines.push(b"date", date)
    }
}

// The length that is said.
fn reply_length(framing: Framing, reply: &ReplyHead, method: &Method) -> Option<u64>
    ensures { result ≡ reply_length framing reply.now method.now }
{
    match framing {
        Framing::Length(length) => Some(length),
        Framing::Chunked | Framing::ToEnd => None,
        Framing::None => {
            if *method == Method::HEAD || reply.code == 304 {
                reply.length
            } else {
                None
            }
        }
    }
}

/// How the body of a reply that came with this framing goes on to the client, `old` where it speaks HTTP/1.0: of
/// unknown length it is in chunks, and to such a client plain, up to the end of its link.
pub fn sent_framing(framing: Framing, old: bool) -> Framing
    ensures { result ≡ sent_framing_of framing old }
{
    match framing {
        Framing::None => Framing::None,
        Framing::Length(length) => Framing::Length(length),
        Framing::Chunked | Framing::ToEnd => {
            if old {
                Framing::ToEnd
            } else {
                Framing::Chunked
            }
        }
    }
}
