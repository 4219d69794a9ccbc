//! Addresses as they are written: each has one text.

ghost use Rattle.std.specs.Prelude.{◌≡◌, ◌≢◌, ℕ, Bool, List, All, MatchOption};
ghost use Rattle.gw_wire.specs.declared.values.Addr.{Addr};
ghost use Rattle.gw_wire.specs.AddressText.{address_text};
ghost use Rattle.gw_routes.specs.Addresses.{IsAddress, IsHostText, IsPortText, SplitsAt, address_of};

use gw_wire::Addr;
use std::net::Ipv4Addr;
use std::str;

// What stands before the first byte of this value, and what stands behind it.
fn split_at_byte(text: &[u8], byte: u8) -> Option<(&[u8], &[u8])>
    ensures { MatchOption result (All (λ b. b ≢ byte) text.now) (λ parts. SplitsAt byte text.now parts.0.now parts.1.now) }
{
    for i in 0..text.len() {
        if text[i] == byte {
            return Some((&text[..i], &text[i + 1..]));
        }
    }
    None
}

/// The address that a text is: `localhost` or a dotted IPv4 address, a colon, and a port from 1 to 65,535.
pub(crate) fn address_in(text: &[u8]) -> Option<Addr>
    ensures { result ≡ address_of text.now }
{
    read_address(text)
}

// The same, by the one text that each address has.
fn read_address(text: &[u8]) -> Option<Addr>
    ensures { MatchOption result ((a : Addr) → IsAddress a → text.now ≡ address_text a → ⊥) (λ a. IsAddress a × (text.now ≡ address_text a)) }
{
    let Some((host_text, port_text)) = split_at_byte(text, b':') else {
        return None;
    };
    let Some(host) = read_host(host_text) else {
        return None;
    };
    let Some(port) = read_port(port_text) else {
        return None;
    };
    let (local, ip) = host;
    let addr = Addr { local, ip, port };
    Some(addr)
}

// `localhost`, or four numbers from 0 to 255 joined by points, without leading zeros.
fn read_host(text: &[u8]) -> Option<(bool, [u8; 4])>
    ensures { MatchOption result ((local : Bool) (ip : List ℕ) → IsHostText local ip text.now → ⊥) (λ host. IsHostText host.0 host.1 text.now) }
{
    if text == b"localhost".as_slice() {
        return Some((true, [127, 0, 0, 1]));
    }
    match Ipv4Addr::parse_ascii(text) {
        Ok(ip) => Some((false, ip.octets())),
        Err(_) => None,
    }
}

// A number from 1 to 65,535 without leading zeros.
fn read_port(text: &[u8]) -> Option<u16>
    ensures { MatchOption result ((port : ℕ) → IsPortText port text.now → ⊥) (λ port. IsPortText port text.now) }
{
    if text.is_empty() {
        return None;
    }
    if text[0] <= b'0' {
        return None;
    }
    let Ok(digits) = str::from_utf8(text) else {
        return None;
    };
    match digits.parse::<u16>() {
        Ok(port) => Some(port),
        Err(_) => None,
    }
}
