//! Why a chunked text is refused, and the want of memory.
ghost use Rattle.std.specs.Prelude.{◌≡◌, Some};
ghost use Rattle.gw_chunk.specs.ErrorText.{code_text};

use std::fmt;

/// The want of memory.
pub type NoMemory = std::alloc::AllocError;

/// Why a chunked text is refused. It is printed as `C1` to `C5`.
#[derive(Clone, Copy, Debug, PartialEq, Eq)]
pub enum ChunkError {
    /// C1: a chunk line, up to its LF, isn't of the form (RFC 9112, section 7.1).
    BadLine,
    /// C2: the first 4,096 bytes of a chunk line have no LF.
    LineTooLong,
    /// C3: a chunk's size is above 2^48 - 1, or with it the sizes add up to more than 2^62.
    TooLarge,
    /// C4: the two bytes after a chunk's data aren't CRLF.
    DataEnd,
    /// C5: a trailer line, up to its LF, isn't of the form, or the trailer section doesn't end within 65,536 bytes
    /// (RFC 9112, section 7.1.2).
    Trailer,
}

impl ChunkError {
    fn as_str(self) -> &'static str
        ensures { result.now ≡ code_text self }
    {
        match self {
            ChunkError::BadLine => "C1",
            ChunkError::LineTooLong => "C2",
            ChunkError::TooLarge => "C3",
            ChunkError::DataEnd => "C4",
            ChunkError::Trailer => "C5",
        }
    }
}

impl fmt::Display for ChunkError {
    ghost output = { λ code. Some (code_text code) };

    fn fmt<W: fmt::Write>(&self, f: &mut fmt::Formatter<W>) -> fmt::Result {
        f.write_str(self.as_str())
    }
}
