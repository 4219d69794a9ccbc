//! What the router answers.
ghost use Rattle.std.specs.Prelude.{◌≡◌, [], ◌∷◌, ◌++◌, ◌<◌, ◌≤◌, length};

use arrayvec::ArrayVec;
use http::Method;
use std::marker::Model;
use thiserror::Error;

/// Which pattern answers, and what its wildcards took.
#[derive(Debug, Drop)]
pub struct Hit {
    /// The number of the pattern in the list, from 0.
    pub route: u32,
    /// What its named wildcards took.
    pub spans: Spans,
}

/// The places in a path, from and to, of what the named wildcards of a pattern took, in their order: at most 16.
#[derive(Debug, Drop)]
pub struct Spans {
    places: ArrayVec<(usize, usize), 16>,
}

impl Model for Spans {
    ghost use Rattle.std.specs.Prelude.{ℕ, List};

    ghost Value = { List (ℕ × ℕ) };

    ghost view = { λ s. s.places.items };
}

impl Spans {
    /// No place.
    pub(crate) fn new() -> Spans
        ensures { result ≡ [] }
    {
        Spans {
            places: ArrayVec::new(),
        }
    }

    /// One place more.
    pub(crate) fn push(&mut self, from: usize, to: usize)
        requires { length self.old < 16 }
        ensures { self.new ≡ self.old ++ (from, to) ∷ [] }
    {
        self.places.push((from, to));
    }

    /// The places, from the first wildcard on. Takes no memory.
    pub fn as_slice(&self) -> &[(usize, usize)]
        ensures places { result.now ≡ self.now }
        ensures few { length result.now ≤ 16 }
    {
        self.places.as_slice()
    }
}

/// What answers a request for a clean path.
#[derive(Debug, Drop)]
pub enum Found {
    /// This pattern does.
    Route(Hit),
    /// A redirect to the path with a slash more.
    AddSlash,
    /// No pattern does.
    Nothing,
}

/// What answers a request.
#[derive(Debug, Drop)]
pub enum Decision {
    /// This pattern does.
    Route(Hit),
    /// A redirect to this `Location` (RFC 9110, section 10.2.2).
    Redirect(Vec<u8>),
    /// Only these methods are allowed (RFC 9110, section 15.5.6).
    NotAllowed(Vec<Method>),
    /// Nothing does.
    NotFound,
}

/// Why a list of patterns is refused.
#[derive(Debug, Drop, Error)]
pub enum MuxError {
    /// Two patterns conflict. `second` is the least number of a pattern that conflicts with one of a lower
    /// number, and `first` the least such lower number.
    #[error("route {first} and route {second}")]
    Conflict { first: u32, second: u32 },
    /// The allocator had no memory.
    #[error("out of memory")]
    NoMemory,
}
