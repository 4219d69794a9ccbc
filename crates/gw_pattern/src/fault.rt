//! What is wrong with a pattern's text, and where.
ghost use Rattle.std.specs.Prelude.{◌≡◌, Some};
ghost use Rattle.gw_pattern.specs.Fault.{code_text};

use std::alloc::{AllocError, AllocFailed};
use std::fmt;
use thiserror::Error;

/// What is wrong with a pattern's text. It is printed as `P1` to `P15`.
#[derive(Clone, Copy, Debug, PartialEq, Eq)]
pub enum PCode {
    /// P1: the text is empty.
    Empty,
    /// P2: what stands before the first space is neither empty nor a token (RFC 9110, section 9.1).
    BadMethod,
    /// P3: there is no slash.
    NoSlash,
    /// P4: the host holds `{`.
    BraceInHost,
    /// P5: the path is not its cleaned path.
    Unclean,
    /// P6: the method is `CONNECT`.
    ConnectMethod,
    /// P7: a segment holds `{`, but not first.
    BadWildcardStart,
    /// P8: a segment begins with `{` and does not end with `}`.
    BadWildcardEnd,
    /// P9: `{$}` is not last.
    EndNotLast,
    /// P10: a wildcard whose name ends in `...` is not last.
    RestNotLast,
    /// P11: a wildcard has no name.
    EmptyName,
    /// P12: a wildcard's name is not an ASCII letter or `_` followed by ASCII letters, digits or `_`.
    BadName,
    /// P13: a wildcard's name stood before.
    DuplicateName,
    /// P14: this is the 65th segment.
    TooManySegments,
    /// P15: this is the 17th named wildcard.
    TooManyWildcards,
}

impl PCode {
    fn as_str(self) -> &'static str
        ensures { result.now ≡ code_text self }
    {
        match self {
            PCode::Empty => "P1",
            PCode::BadMethod => "P2",
            PCode::NoSlash => "P3",
            PCode::BraceInHost => "P4",
            PCode::Unclean => "P5",
            PCode::ConnectMethod => "P6",
            PCode::BadWildcardStart => "P7",
            PCode::BadWildcardEnd => "P8",
            PCode::EndNotLast => "P9",
            PCode::RestNotLast => "P10",
            PCode::EmptyName => "P11",
            PCode::BadName => "P12",
            PCode::DuplicateName => "P13",
            PCode::TooManySegments => "P14",
            PCode::TooManyWildcards => "P15",
        }
    }
}

impl fmt::Display for PCode {
    ghost output = { λ code. Some (code_text code) };

    fn fmt<W: fmt::Write>(&self, f: &mut fmt::Formatter<W>) -> fmt::Result {
        f.write_str(self.as_str())
    }
}

/// Why a text is no pattern.
#[derive(Debug, Drop, Error)]
pub enum PatternError {
    /// The first fault, and its place in the text, in bytes from 0.
    #[error("{code} at {at}")]
    Bad { code: PCode, at: u64 },
    /// The allocator had no memory.
    #[error("out of memory")]
    NoMemory,
}

impl From<AllocError> for PatternError {
    ghost use Rattle.std.specs.Prelude.{◌≡◌};
    ghost use Rattle.gw_pattern.specs.declared.fault.PatternError.TheVariants.{NoMemory};

    ghost from_gives = { λ _ e. e ≡ NoMemory };

    fn from(_error: AllocError) -> PatternError {
        PatternError::NoMemory
    }
}

impl<T: Drop> From<AllocFailed<T>> for PatternError {
    ghost use Rattle.std.specs.Prelude.{◌≡◌};
    ghost use Rattle.gw_pattern.specs.declared.fault.PatternError.TheVariants.{NoMemory};

    ghost from_gives = { λ _ e. e ≡ NoMemory };

    fn from(_error: AllocFailed<T>) -> PatternError {
        PatternError::NoMemory
    }
}
