//! What is wrong with a route file, and where.
ghost use Rattle.std.specs.Prelude.{◌≡◌, Some, None};
ghost use Rattle.gw_routes.specs.Codes.{code_text};

use gw_pattern::PCode;
use std::alloc::{AllocError, AllocFailed};
use std::fmt;
use thiserror::Error;

/// What is wrong with a route file. It is printed as `G1` to `G8`; `G7`, a conflict, is an error of its own.
#[derive(Clone, Copy, Debug, PartialEq, Eq)]
pub enum GCode {
    /// G1: the file is no JSON text (RFC 8259).
    NotJson,
    /// G2: an object has a member whose name is not known there.
    UnknownName,
    /// G3: a member that must be there is missing.
    Missing,
    /// G4: a value is of another kind, such as a text where a number is due.
    WrongKind,
    /// G5: a number is out of its range, or a list too short or too long.
    OutOfRange,
    /// G6: a text is no pattern.
    Pattern,
    /// G8: a text is no address.
    BadAddress,
}

impl GCode {
    fn as_str(self) -> &'static str
        ensures { result.now ≡ code_text self }
    {
        match self {
            GCode::NotJson => "G1",
            GCode::UnknownName => "G2",
            GCode::Missing => "G3",
            GCode::WrongKind => "G4",
            GCode::OutOfRange => "G5",
            GCode::Pattern => "G6",
            GCode::BadAddress => "G8",
        }
    }
}

impl fmt::Display for GCode {
    ghost output = { λ code. Some (code_text code) };

    fn fmt<W: fmt::Write>(&self, f: &mut fmt::Formatter<W>) -> fmt::Result {
        f.write_str(self.as_str())
    }
}

/// Why a route file is refused.
#[derive(Debug, Drop, Error)]
pub enum RouteError {
    /// The first fault; the number of the route that it is in, from 0; and of a pattern's text its own fault with
    /// the place in the text, in bytes from 0.
    #[error("bad route file: {code}")]
    Bad {
        code: GCode,
        route: Option<u32>,
        pattern: Option<(PCode, u64)>,
    },
    /// The patterns of two routes conflict. `second` is the least number of a route that conflicts with one of a
    /// lower number, and `first` the least such lower number.
    #[error("route {first} and route {second} conflict")]
    Conflict {
        first: u32,
        second: u32,
    },
    /// The allocator had no memory.
    #[error("out of memory")]
    NoMemory,
}

impl RouteError {
    /// A fault that no pattern's text has.
    pub(crate) fn bad(code: GCode, route: Option<u32>) -> RouteError
        ensures { result ≡ RouteError.Bad code route None }
    {
        RouteError::Bad {
            code,
            route,
            pattern: None,
        }
    }
}

impl From<AllocError> for RouteError {
    ghost use Rattle.std.specs.Prelude.{◌≡◌};
    ghost use Rattle.gw_routes.specs.declared.fault.RouteError.TheVariants.{NoMemory};

    ghost from_gives = { λ _ e. e ≡ NoMemory };

    fn from(_error: AllocError) -> RouteError {
        RouteError::NoMemory
    }
}

impl<T: Drop> From<AllocFailed<T>> for RouteError {
    ghost use Rattle.std.specs.Prelude.{◌≡◌};
    ghost use Rattle.gw_routes.specs.declared.fault.RouteError.TheVariants.{NoMemory};

    ghost from_gives = { λ _ e. e ≡ NoMemory };

    fn from(_error: AllocFailed<T>) -> RouteError {
        RouteError::NoMemory
    }
}
