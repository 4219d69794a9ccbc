//! Bodies that are kept.
ghost use Rattle.std.specs.Prelude.{◌≡◌};

use std::marker::Model;

/// A body's data that is kept, so that it can be sent again. Contracts see its bytes.
#[derive(Debug, Drop)]
pub struct Rewindable {
    bytes: Vec<u8>,
}

impl Model for Rewindable {
    ghost use Rattle.std.specs.Prelude.{ℕ, List};

    ghost Value = { List ℕ };

    ghost view = { λ r. r.bytes.items };
}

impl Rewindable {
    /// Keeps these bytes; it takes no memory.
    pub fn new(bytes: Vec<u8>) -> Rewindable
        ensures { result ≡ bytes.items }
    {
        Rewindable { bytes }
    }

    /// The bytes, from the first on, as often as it is asked. It takes no memory.
    pub fn again(&self) -> &[u8]
        ensures { result.now ≡ self.now }
    {
        self.bytes.as_slice()
    }
}
