//! Replies that the gateway gives by itself.
ghost use Rattle.std.specs.Prelude.{◌≡◌, ◌<◌, ◌++◌, IfOk, OnOk, IsTrue};
ghost use Rattle.gw_proxy.specs.OutReply.{allowed_text, is_own, method_list, own_body, own_code, own_line, own_reply_of, sent_body, OwnReply};

use crate::date::date_at;
use crate::error::NoMemory;
use crate::lines::{length_text, push_length};
use crate::status::{code_line, push_close, reply_text};
use gw_fields::Lines;
use gw_wire::Bytes;
use http::Method;
use std::alloc::Global;

/// A reply that the gateway gives by itself.
#[derive(Drop)]
pub enum Own {
    /// To `OPTIONS *`: 200 without a body.
    Options,
    /// To the request that stops the gateway: 200.
    Stopped,
    /// 301 to this location, without a body.
    Moved(Bytes),
    /// 405 with the methods that are allowed, in this order.
    NotAllowed(Vec<Method>),
    /// This code and no more: 200, 400, 404, 405, 417, 431 or 501 to 505. A 405 that names its methods, as
    /// RFC 9110, section 15.5.6 wants it, is `NotAllowed`.
    Plain(u16),
}

/// The whole text of a reply that the gateway gives by itself, to a request with this method. Its body is a line with
/// the code and its phrase, which an answer to HEAD doesn't have, though it says its length. `old` says that the client
/// speaks HTTP/1.0, and `close` that its link closes behind the reply. `now` is a moment in milliseconds since 1970,
/// before the year 10000.
pub fn own_reply(
    alloc: Global,
    own: &Own,
    method: &Method,
    old: bool,
    close: bool,
    now: u64,
) -> Result<Vec<u8>, NoMemory>
    requires known { IsTrue (is_own own.now) }
    requires dated { now < 253_402_300_800_000 }
    ensures { IfOk result (λ text. OwnReply own.now method.now old close now text.items) }
{
    own_text(alloc, own, method, old, close, &date_at(now))
}

// The same with the text of the date.
fn own_text(
    alloc: Global,
    own: &Own,
    method: &Method,
    old: bool,
    close: bool,
    date: &[u8],
) -> Result<Vec<u8>, NoMemory>
    ensures { IfOk result (λ text. text.items ≡ own_reply_of own.now method.now old close date.now) }
{
    let body = own_body(alloc, own)?;
    let allowed = allowed_text(alloc, own)?;
    let length = length_text(alloc, Some(body.len() as u64))?;
    let mut lines = Lines::new(alloc);
    push_own_line(&mut lines, own, &allowed)?;
    push_length(&mut lines, &length)?;
    lines.push(b"date", date)?;
    push_close(&mut lines, close)?;
    reply_text(alloc, old, own_code(own), lines, sent_body(method, &body))
}

// What is sent of a body: nothing to HEAD (RFC 9110, section 9.3.2).
fn sent_body<'b>(method: &Method, body: &'b [u8]) -> &'b [u8]
    ensures { result.now ≡ sent_body method.now body.now }
{
    if *method == Method::HEAD {
        &body[..0]
    } else {
        body
    }
}

fn own_code(own: &Own) -> u16
    ensures { result ≡ own_code own.now }
{
    match own {
        Own::Options | Own::Stopped => 200,
        Own::Moved(_) => 301,
        Own::NotAllowed(_) => 405,
        Own::Plain(code) => *code,
    }
}

fn own_body(alloc: Global, own: &Own) -> Result<Vec<u8>, NoMemory>
    ensures { IfOk result (λ body. body.items ≡ own_body own.now) }
{
    match own {
        Own::Options | Own::Moved(_) => Ok(Vec::new(alloc)),
        Own::Stopped => code_line(alloc, 200),
        Own::NotAllowed(_) => code_line(alloc, 405),
        Own::Plain(code) => code_line(alloc, *code),
    }
}

// The methods that the reply allows; nothing where it isn't 405 with its methods.
fn allowed_text(alloc: Global, own: &Own) -> Result<Vec<u8>, NoMemory>
    ensures { IfOk result (λ text. text.items ≡ allowed_text own.now) }
{
    match own {
        Own::NotAllowed(methods) => method_list(alloc, methods),
        Own::Options | Own::Stopped | Own::Moved(_) | Own::Plain(_) => Ok(Vec::new(alloc)),
    }
}

// The methods with a comma and a space between them.
fn method_list(alloc: Global, methods: &[Method]) -> Result<Vec<u8>, NoMemory>
    ensures { IfOk result (λ text. text.items ≡ method_list methods.now) }
{
    let mut text = Vec::new(alloc);
    if let [first, others @ ..] = methods {
        text.extend_from_slice(first.as_str().as_bytes())?;
        for other in others {
            text.extend_from_slice(b", ")?;
            text.extend_from_slice(other.as_str().as_bytes())?;
        }
    }
    Ok(text)
}

// Adds the place to go to, or the methods that are allowed.
fn push_own_line<'a>(lines: &mut Lines<'a>, own: &'a Own, allowed: &'a [u8]) -> Result<(), NoMemory>
    requires { allowed.now ≡ allowed_text own.now }
    ensures { OnOk result (lines.new ≡ lines.old ++ own_line own.now) }
{
    match own {
        Own::Moved(location) => lines.push(b"location", location.as_slice()),
        Own::NotAllowed(_) => lines.push(b"allow", allowed),
        Own::Options | Own::Stopped | Own::Plain(_) => Ok(()),
    }
}
