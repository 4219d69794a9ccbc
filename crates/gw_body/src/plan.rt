//! What a writer may still write.
ghost use Rattle.std.specs.Prelude.{◌≡◌, ◌≤◌, ℕ, List, length};
ghost use Rattle.gw_body.specs.Written.{behind_piece, plan_of, Accepts};

use gw_chunk::PIECE_LIMIT;
use gw_head::Framing;

/// What is left to write of a body.
#[derive(Clone, Copy)]
pub(crate) enum Plan {
    /// So many bytes.
    Counted { left: u64 },
    /// Chunks; `short` says that the last piece was short of a whole one, so that no piece may follow it.
    Chunked { short: bool },
    /// Any bytes.
    ToEnd,
}

impl Plan {
    /// Before the first piece.
    pub(crate) fn first(framing: Framing) -> Plan
        ensures { result ≡ plan_of framing }
    {
        match framing {
            Framing::None => Plan::Counted { left: 0 },
            Framing::Length(length) => Plan::Counted { left: length },
            Framing::Chunked => Plan::Chunked { short: false },
            Framing::ToEnd => Plan::ToEnd,
        }
    }

    /// Goes on behind a piece of so many bytes.
    pub(crate) fn pass(&mut self, len: usize)
        ensures { (piece : List ℕ) → length piece ≡ len → Accepts self.old piece → self.new ≡ behind_piece self.old piece }
    {
        *self = match *self {
            Plan::Counted { left } => Plan::Counted {
                left: left.saturating_sub(len as u64),
            },
            Plan::Chunked { .. } => Plan::Chunked {
                short: len < PIECE_LIMIT,
            },
            Plan::ToEnd => Plan::ToEnd,
        };
    }
}
