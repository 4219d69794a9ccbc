//! The heads of requests to backends.
ghost use Rattle.std.specs.Prelude.{◌≡◌, ◌++◌, ◌∷◌, [], IfOk, OnOk, codes};
ghost use Rattle.gw_fields.specs.Lines.{values_text};
ghost use Rattle.gw_fields.specs.Order.{line_of};
ghost use Rattle.gw_proxy.specs.OutRequest.{has_key_of, host_of, host_or, out_head_of, request_length, request_line_of, trailers_fields, without_rewritten};
ghost use Rattle.gw_proxy.specs.Lines.{coding_fields, field_section};
ghost use Rattle.gw_proxy.specs.Texts.{text_fields};

use crate::error::NoMemory;
use crate::lines::{length_text, push_coding, push_length, push_section};
use crate::target::push_target;
use gw_fields::{Fields, Lines};
use gw_head::{Framing, RequestHead};
use gw_wire::{Addr, Bytes, PeerText};
use http::Method;
use std::alloc::Global;

// The spaces and line ends, the version, `Host: ` and an address.
const FRAME_ROOM: usize = 64;

/// The head of a request to a backend, and what is asked of it later.
#[derive(Drop)]
pub struct OutHead {
    /// The head's text, up to and with the empty line.
    pub bytes: Bytes,
    /// The request's method, as it came.
    pub method: Method,
    /// Whether it has an `Idempotency-Key` or `X-Idempotency-Key`, by which a backend tells a request that is sent
    /// again.
    pub has_key: bool,
    /// How the body behind it is framed.
    pub framing: Framing,
}

/// The head of a request as it goes to a backend (RFC 9110, section 7.6): the target behind the base, the host as it
/// was sent or else the backend's address, and the fields that may be handed on, with `X-Forwarded-For` going on to the
/// peer.
pub fn out_request(
    alloc: Global,
    head: &RequestHead,
    base: &[u8],
    addr: &Addr,
    peer: &PeerText,
) -> Result<OutHead, NoMemory>
    ensures { IfOk result (λ out. out ≡ out_head_of head.now base.now addr.now peer.now) }
{
    let kept = head.fields.lines_without_hops(alloc)?;
    let forwarded = forwarded_text(alloc, &kept, peer)?;
    let length = length_text(alloc, request_length(head.framing))?;
    let lines = request_lines(kept, head, &length, &forwarded)?;
    let has_key = has_key(&lines);
    let bytes = head_text(alloc, head, base, addr, lines)?;
    Ok(OutHead {
        bytes: Bytes::new(bytes),
        method: head.method.clone()?,
        has_key,
        framing: head.framing,
    })
}

// The lines behind Host, of those that may be handed on.
fn request_lines<'a>(
    kept: Lines<'a>,
    head: &RequestHead,
    length: &'a Option<String>,
    forwarded: &'a [u8],
) -> Result<Lines<'a>, NoMemory>
    ensures { IfOk result (λ lines. lines ≡ (((without_rewritten kept.entry ++ trailers_fields head.now.fields)
        ++ text_fields length.now) ++ coding_fields head.now.framing)
        ++ (codes "x-forwarded-for", forwarded.now) ∷ []) }
{
    let mut lines = kept;
    remove_rewritten(&mut lines);
    push_trailers(&mut lines, &head.fields)?;
    push_length(&mut lines, length)?;
    push_coding(&mut lines, head.framing)?;
    lines.push(b"x-forwarded-for", forwarded)?;
    Ok(lines)
}

// The values of the X-Forwarded-For among the lines, and the peer.
fn forwarded_text(alloc: Global, lines: &Lines<'_>, peer: &PeerText) -> Result<Vec<u8>, NoMemory>
    ensures { IfOk result (λ text. text.items ≡ values_text (codes "x-forwarded-for") lines.now ++ peer.now) }
{
    let mut text = Vec::new(alloc);
    lines.write_values(b"x-forwarded-for", &mut text)?;
    text.extend_from_slice(peer.as_slice())?;
    Ok(text)
}

// Removes the lines that are made anew.
fn remove_rewritten(lines: &mut Lines<'_>)
    ensures { lines.new ≡ without_rewritten lines.old }
{
    lines.remove(b"host");
    lines.remove(b"content-length");
    lines.remove(b"expect");
    lines.remove(b"x-forwarded-for");
}

// Says that trailers are understood, where the client did (RFC 9110, section 10.1.4).
fn push_trailers(lines: &mut Lines<'_>, fields: &Fields) -> Result<(), NoMemory>
    ensures { OnOk result (lines.new ≡ lines.old ++ trailers_fields fields.now) }
{
    if fields.has_token(b"te", b"trailers") {
        lines.push(b"te", b"trailers")
    } else {
        Ok(())
    }
}

fn request_length(framing: Framing) -> Option<u64>
    ensures { result ≡ request_length framing }
{
    match framing {
        Framing::Length(length) => Some(length),
        Framing::None | Framing::Chunked | Framing::ToEnd => None,
    }
}

fn has_key(lines: &Lines<'_>) -> bool
    ensures { result ≡ has_key_of lines.now }
{
    lines.has(b"idempotency-key") || lines.has(b"x-idempotency-key")
}

// The request line and the lines, with Host before the others, which are put into their order.
fn head_text(
    alloc: Global,
    head: &RequestHead,
    base: &[u8],
    addr: &Addr,
    lines: Lines<'_>,
) -> Result<Vec<u8>, NoMemory>
    ensures { IfOk result (λ text. text.items ≡ (request_line_of head.now base.now
        ++ line_of (codes "host", host_of head.now addr.now)) ++ field_section lines.entry) }
{
    let mut lines = lines;
    lines.sort()?;
    let mut out = Vec::with_capacity(alloc, room_for(head, base, &lines))?;
    push_request_line(head, base, &mut out)?;
    push_host(alloc, head.host.as_slice(), addr, &mut out)?;
    push_section(&lines, &mut out)?;
    Ok(out)
}

fn push_request_line(head: &RequestHead, base: &[u8], out: &mut Vec<u8>) -> Result<(), NoMemory>
    ensures { OnOk result (out.new.items ≡ out.old.items ++ request_line_of head.now base.now) }
{
    out.extend_from_slice(head.method.as_str().as_bytes())?;
    out.extend_from_slice(b" ")?;
    push_target(head, base, out)?;
    out.extend_from_slice(b" HTTP/1.1\r\n")?;
    Ok(())
}

// Enough for the head, so that its text is moved once at most.
fn room_for(head: &RequestHead, base: &[u8], lines: &Lines<'_>) -> usize {
    let query = match &head.query {
        Some(query) => query.as_slice().len(),
        None => 0,
    };
    lines
        .text_len()
        .saturating_add(head.method.as_str().len())
        .saturating_add(base.len())
        .saturating_add(head.path.as_slice().len())
        .saturating_add(query)
        .saturating_add(head.host.as_slice().len())
        .saturating_add(FRAME_ROOM)
}

fn push_host(alloc: Global, host: &[u8], addr: &Addr, out: &mut Vec<u8>) -> Result<(), NoMemory>
    ensures { OnOk result (out.new.items ≡ out.old.items ++ line_of (codes "host", host_or host.now addr.now)) }
{
    out.extend_from_slice(b"Host: ")?;
    push_host_text(alloc, host, addr, out)?;
    out.extend_from_slice(b"\r\n")
}

// Appends the host, or the address where it is empty.
fn push_host_text(
    alloc: Global,
    host: &[u8],
    addr: &Addr,
    out: &mut Vec<u8>,
) -> Result<(), NoMemory>
    ensures { OnOk result (out.new.items ≡ out.old.items ++ host_or host.now addr.now) }
{
    if host.is_empty() {
        out.extend_from_slice(addr.to_string(alloc)?.as_bytes())
    } else {
        out.extend_from_slice(host)
    }
}
