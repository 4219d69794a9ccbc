//! A pattern, as its text says it.
ghost use Rattle.std.specs.Prelude.{◌≡◌};

use gw_wire::Bytes;
use http::Method;

/// A pattern: which methods, hosts and paths it speaks of.
#[derive(Debug, Drop)]
pub struct Pattern {
    /// The method; none stands for each.
    pub method: Option<Method>,
    /// The host's bytes; an empty host stands for each.
    pub host: Bytes,
    /// The segments of the path, from the left.
    pub segs: Vec<Seg>,
}

/// A segment of a pattern's path.
#[derive(Debug, Drop)]
pub enum Seg {
    /// These bytes, with their escapes decoded.
    Literal(Bytes),
    /// `{name}`: any one segment.
    One(Bytes),
    /// `{name...}`: the rest of the path. A slash at the path's end gives an empty name.
    Rest(Bytes),
    /// `{$}`: the end of the path, behind a slash.
    End,
}

impl Seg {
    ghost use Rattle.gw_pattern.specs.Pattern.{is_named};
    ghost use Rattle.gw_pattern.specs.Text.{has_name};

    /// A wildcard with a name; the one behind a slash at the path's end has none.
    pub(crate) fn is_named(&self) -> bool
        ensures { result ≡ is_named self.now }
    {
        match self {
            Seg::One(_) => true,
            Seg::Rest(name) => !name.as_slice().is_empty(),
            Seg::Literal(_) | Seg::End => false,
        }
    }

    /// A wildcard of this name.
    pub(crate) fn has_name(&self, name: &[u8]) -> bool
        ensures { result ≡ has_name name.now self.now }
    {
        match self {
            Seg::One(own) | Seg::Rest(own) => own.as_slice() == name,
            Seg::Literal(_) | Seg::End => false,
        }
    }
}
