//! The host of a request, without its port.
ghost use Rattle.std.specs.Prelude.{◌≡◌};
ghost use Rattle.gw_head.specs.Host.{is_name_with_port, is_port_part, is_literal_with_port, host_without_port};

use crate::pieces::{after, before, byte_at, count_of, skip};

/// The host without its port: what stands before a lone `:` where there are no brackets, and what stands between the
/// brackets where `[`..`]` is followed by `:` and a port. Any other text stays as it is. It takes no memory.
#[tactic(auto, unfolding(crate::specs::Host::host_without_port))]
pub fn strip_port(host: &[u8]) -> &[u8]
    ensures { result.now ≡ host_without_port host.now }
{
    if is_name_with_port(host) {
        before(host, b':')
    } else if is_literal_with_port(host) {
        skip(before(host, b']'), 1)
    } else {
        host
    }
}

fn is_name_with_port(host: &[u8]) -> bool
    ensures { result ≡ is_name_with_port host.now }
{
    count_of(host, b':') == 1 && (count_of(host, b'[') == 0 && count_of(host, b']') == 0)
}

fn is_literal_with_port(host: &[u8]) -> bool
    ensures { result ≡ is_literal_with_port host.now }
{
    byte_at(host, 0) == b'['
        && count_of(host, b'[') == 1
        && count_of(host, b']') == 1
        && is_port_part(after(host, b']'))
}

// Whether the text is ':' and a port, in which no other ':' stands.
fn is_port_part(tail: &[u8]) -> bool
    ensures { result ≡ is_port_part tail.now }
{
    byte_at(tail, 0) == b':' && count_of(tail, b':') == 1
}
