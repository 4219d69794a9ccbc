//! What a request asks for.
use gw_wire::Bytes;

/// What a request asks for, as patterns see it.
#[derive(Debug, Drop)]
pub struct Shape {
    /// The method, as sent.
    pub method: Bytes,
    /// The host, without its port.
    pub host: Bytes,
    /// The segments of the cleaned path, with their escapes decoded. None is empty.
    pub segs: Vec<Bytes>,
    /// Whether the path ends in a slash. That of `/` does, and it has no segments.
    pub slash: bool,
}
