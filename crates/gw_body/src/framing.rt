//! How the body behind a reply's head is framed.
ghost use Rattle.std.specs.Prelude.{◌≡◌};
ghost use Rattle.gw_body.specs.Framing.{is_bodiless, reply_framing_of};

use gw_head::{Framing, ReplyHead};
use http::Method;

/// How the body of a reply to a request with this method is framed (RFC 9112, section 6.3): there is none for HEAD and
/// with the codes 1xx, 204 and 304; else it is in chunks where they are said, or of the length that is said, or goes up
/// to the end of the link.
pub fn reply_framing(head: &ReplyHead, method: &Method) -> Framing
    ensures { result ≡ reply_framing_of head.now method.now }
{
    if *method == Method::HEAD || is_bodiless(head.code) {
        return Framing::None;
    }
    if head.chunked {
        return Framing::Chunked;
    }
    match head.length {
        Some(length) => Framing::Length(length),
        None => Framing::ToEnd,
    }
}

fn is_bodiless(code: u16) -> bool
    ensures { result ≡ is_bodiless code }
{
    matches!(code, 100..=199 | 204 | 304)
}
