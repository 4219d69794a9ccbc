//! The targets of requests to backends.
ghost use Rattle.std.specs.Prelude.{◌≡◌, ◌++◌, OnOk};
ghost use Rattle.gw_proxy.specs.OutRequest.{joined, query_text, target_of, without_first_slash, without_last_slash};

use crate::error::NoMemory;
use gw_head::RequestHead;
use gw_wire::Bytes;

/// Appends the target (RFC 9112, section 3.2): `*`, or the path behind the base with one slash between them, and the
/// query.
#[tactic(auto, unfolding(crate::specs::OutRequest::target_of))]
pub(crate) fn push_target(
    head: &RequestHead,
    base: &[u8],
    out: &mut Vec<u8>,
) -> Result<(), NoMemory>
    ensures { OnOk result (out.new.items ≡ out.old.items ++ target_of head.now base.now) }
{
    if head.star {
        return out.extend_from_slice(b"*");
    }
    push_joined(base, head.path.as_slice(), out)?;
    push_query(&head.query, out)
}

fn push_joined(base: &[u8], path: &[u8], out: &mut Vec<u8>) -> Result<(), NoMemory>
    ensures { OnOk result (out.new.items ≡ out.old.items ++ joined base.now path.now) }
{
    if base.is_empty() {
        return out.extend_from_slice(path);
    }
    out.extend_from_slice(without_last_slash(base))?;
    out.extend_from_slice(b"/")?;
    out.extend_from_slice(without_first_slash(path))
}

fn without_last_slash(base: &[u8]) -> &[u8]
    ensures { result.now ≡ without_last_slash base.now }
{
    match base {
        [front @ .., last] if *last == b'/' => front,
        _ => base,
    }
}

fn without_first_slash(path: &[u8]) -> &[u8]
    ensures { result.now ≡ without_first_slash path.now }
{
    match path {
        [first, rest @ ..] if *first == b'/' => rest,
        _ => path,
    }
}

fn push_query(query: &Option<Bytes>, out: &mut Vec<u8>) -> Result<(), NoMemory>
    ensures { OnOk result (out.new.items ≡ out.old.items ++ query_text query.now) }
{
    match query {
        Some(query) => {
            out.extend_from_slice(b"?")?;
            out.extend_from_slice(query.as_slice())
        }
        None => Ok(()),
    }
}
