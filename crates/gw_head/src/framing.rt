//! How the body behind a head is framed.
ghost use Rattle.std.specs.Prelude.{◌≡◌, false};
ghost use Rattle.gw_head.specs.Checks.{has_bad_length, codings_of, lengths_of};
ghost use Rattle.gw_head.specs.Head.{framing_of, length_of};

use crate::field_lines::FieldLines;
use crate::fields::read_length;

/// How a body is framed (RFC 9112, section 6.3).
#[derive(Clone, Copy, Debug, PartialEq, Eq)]
pub enum Framing {
    /// There is none.
    None,
    /// So many bytes: at most 2^63 - 1.
    Length(u64),
    /// In chunks.
    Chunked,
    /// All up to the end of the link.
    ToEnd,
}

/// How a request's body is framed.
pub(crate) fn framing_of(fields: &FieldLines<'_>) -> Framing
    requires { has_bad_length fields.now ≡ false }
    ensures { result ≡ framing_of (codings_of fields.now) (lengths_of fields.now) }
{
    if fields.count_named(b"transfer-encoding") != 0 {
        return Framing::Chunked;
    }
    match length_of(fields) {
        Some(length) => Framing::Length(length),
        None => Framing::None,
    }
}

/// The number that Content-Length writes, if there is one.
#[tactic(auto, unfolding(crate::specs::Checks::has_bad_length))]
pub(crate) fn length_of(fields: &FieldLines<'_>) -> Option<u64>
    requires { has_bad_length fields.now ≡ false }
    ensures { result ≡ length_of (lengths_of fields.now) }
{
    read_length(fields.first_value(b"content-length")?)
}
