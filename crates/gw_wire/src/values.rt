// Plain values that the traits of the outside speak of.

ghost use Rattle.std.specs.Prelude.{◌≡◌, ◌≤◌, ◌<◌, length, IfSome, IsSome, ◌↔◌};

use std::fmt;
use std::marker::Model;
use std::net::Ipv4Addr;

/// A list of bytes that is kept as a value of its own. Contracts see the list.
#[derive(Debug, Drop)]
pub struct Bytes {
    bytes: Vec<u8>,
}

impl Model for Bytes {
    ghost use Rattle.std.specs.Prelude.{ℕ, List};

    ghost Value = { List ℕ };

    ghost view = { λ b. b.bytes.items };
}

impl Bytes {
    /// Keeps the bytes; it takes no memory.
    pub fn new(bytes: Vec<u8>) -> Bytes
        ensures { result ≡ bytes.items }
    {
        Bytes { bytes }
    }

    /// The bytes that it was made of.
    pub fn as_slice(&self) -> &[u8]
        ensures { result.now ≡ self.now }
    {
        self.bytes.as_slice()
    }

    /// Gives the bytes back; it takes no memory.
    pub fn into_vec(self) -> Vec<u8>
        ensures { result.items ≡ self }
    {
        let Bytes { bytes } = self;
        bytes
    }
}

const PEER_TEXT_MAX: usize = 15;

/// The text of a peer's address: at most 15 bytes, as dotted IPv4 needs. Contracts see the list of its bytes.
#[derive(Debug, Drop)]
pub struct PeerText {
    bytes: [u8; 15],
    len: usize,
}

impl Model for PeerText {
    ghost use Rattle.std.specs.Prelude.{ℕ, List, ◌≤◌, take};

    ghost Value = { List ℕ };

    ghost view = { λ p. take p.len p.bytes };

    ghost invariant = { λ p. p.len ≤ 15 };
}

impl PeerText {
    /// The text of these bytes: `None` exactly where there are more than 15. It takes no memory.
    pub fn new(bytes: &[u8]) -> Option<PeerText>
        ensures fits { IsSome result ↔ (length bytes.now ≤ 15) }
        ensures text { IfSome result (λ text. text ≡ bytes.now) }
    {
        if bytes.len() > PEER_TEXT_MAX {
            return None;
        }
        let mut text = [0; 15];
        text[..bytes.len()].copy_from_slice(bytes);
        Some(PeerText {
            bytes: text,
            len: bytes.len(),
        })
    }

    /// The bytes that it was made of: at most 15.
    pub fn as_slice(&self) -> &[u8]
        ensures text { result.now ≡ self.now }
        ensures short { length self.now ≤ 15 }
    {
        &self.bytes[..self.len]
    }

    /// Another text of the same bytes; it takes no memory.
    pub fn copy(&self) -> PeerText
        ensures { result ≡ self.now }
    {
        PeerText {
            bytes: self.bytes,
            len: self.len,
        }
    }
}

/// An IPv4 address and a port. `local` holds exactly for an address that was written as `localhost`, whose `ip` is
/// then 127.0.0.1.
#[derive(Clone, Copy, Debug, PartialEq, Eq)]
pub struct Addr {
    pub local: bool,
    pub ip: [u8; 4],
    pub port: u16,
}

/// `localhost:PORT`, or the dotted address and the port.
impl fmt::Display for Addr {
    ghost use Rattle.std.specs.Prelude.{Some};
    ghost use Rattle.gw_wire.specs.AddressText.{address_text};

    ghost output = { λ address. Some (address_text address) };

    fn fmt<W: fmt::Write>(&self, f: &mut fmt::Formatter<W>) -> fmt::Result {
        let port = self.port;
        if self.local {
            return write!(f, "localhost:{port}");
        }
        let ip = Ipv4Addr::from_octets(self.ip);
        write!(f, "{ip}:{port}")
    }
}

/// What a wire did, with the number of its link. Ticks, rests and readings of the clock are no acts.
#[derive(Debug, Drop)]
pub enum Act {
    /// A client's link was accepted, with its peer's address.
    Accepted(u64, PeerText),
    /// A link was dialed to a host, at the address that was reached.
    Dialed(u32, Addr, u64),
    /// A dial to a host failed, with the address that was tried.
    DialFailed(u32, Addr),
    /// These bytes were read from a link.
    Read(u64, Bytes),
    /// A link ended.
    End(u64),
    /// These bytes were taken by a link.
    Wrote(u64, Bytes),
    /// A read of a link failed.
    ReadFailed(u64),
    /// A write to a link failed.
    WriteFailed(u64),
    /// A link was closed.
    Closed(u64),
    /// An accept failed.
    AcceptFailed,
    /// The listener ended.
    Ended,
}
