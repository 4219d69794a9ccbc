//! Why a reader gives no head.

/// The want of memory.
pub type NoMemory = std::alloc::AllocError;

/// The check that a head fails, H1 to H11.
#[derive(Clone, Copy, Debug, PartialEq, Eq)]
pub enum HeadError {
    /// H1: the bytes are no head of HTTP/1.x, the target has no form that is served, or a reply's code is outside
    /// 100 to 999.
    Malformed,
    /// H2: the head has more than 65,536 bytes.
    TooLong,
    /// H3: more than 128 lines stand behind the first.
    TooManyFields,
    /// H4: a version other than HTTP/1.0 and HTTP/1.1.
    Version,
    /// H5: Host is missing or stands twice, or the host has a byte that no host has.
    HostCount,
    /// H6: Content-Length is no number up to 2^63 - 1, or two of them differ.
    BadLength,
    /// H7: Transfer-Encoding and Content-Length stand together.
    LengthAndCoding,
    /// H8: a transfer coding other than `chunked`, or one in HTTP/1.0.
    Coding,
    /// H9: a `%` in the path that begins no escape.
    BadEscape,
    /// H10: the method is CONNECT.
    Connect,
    /// H11: an expectation other than `100-continue`.
    Expectation,
}

/// Why the bytes of a whole head give none.
#[derive(Clone, Copy, Debug)]
pub(crate) enum Refusal {
    /// The first check that they fail.
    Bad(HeadError),
    /// The head is good, and there was no memory for it.
    NoMemory,
}
