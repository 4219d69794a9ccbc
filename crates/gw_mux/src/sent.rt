//! A path as it is sent, and the parts that the walk takes from it one by one.
ghost use Rattle.std.specs.Prelude.{◌≡◌, [], ◌∷◌, MatchOption};
ghost use Rattle.gw_mux.specs.Sent.{AreLengths, GoesOn};

use crate::walk::next_part;
use arrayvec::ArrayVec;

/// What is left of a path, without its last slash.
#[derive(Clone, Copy)]
pub(crate) struct SentPath<'p> {
    /// What is left, which begins with a slash, if it isn't empty.
    pub(crate) body: &'p [u8],
    /// How long its first parts are, as far as that is known: so the walk searches no slash.
    pub(crate) lengths: &'p [usize],
    /// The path ends in a slash.
    pub(crate) slash: bool,
}

/// How long the first parts of a path are.
pub(crate) fn lengths_of(body: &[u8]) -> ArrayVec<usize, 65>
    ensures { AreLengths result.items body.now }
{
    let mut lengths = ArrayVec::new();
    let mut left = body;
    while !lengths.is_full() {
        let Some((part, after)) = next_part(left) else {
            return lengths;
        };
        lengths.push(part.len());
        left = after;
    }
    lengths
}

/// The first part, and what is left behind it.
pub(crate) fn first_part<'p>(path: SentPath<'p>) -> Option<(&'p [u8], SentPath<'p>)>
    requires { AreLengths path.lengths.now path.body.now }
    ensures { MatchOption result (path.entry.body.now ≡ []) (λ x. GoesOn path.entry x.0.now x.1) }
{
    match path.lengths {
        [length, lengths @ ..] => Some(known_part(path, *length, lengths)),
        [] => searched_part(path),
    }
}

// The first part, of that length.
fn known_part<'p>(
    path: SentPath<'p>,
    length: usize,
    lengths: &'p [usize],
) -> (&'p [u8], SentPath<'p>)
    requires { AreLengths (length ∷ lengths.now) path.body.now }
    ensures { GoesOn path.entry result.0.now result.1 }
{
    let tail = &path.body[1..];
    let (part, body) = tail.split_at(length);
    let left = SentPath {
        body,
        lengths,
        slash: path.slash,
    };
    (part, left)
}

// The first part, of which no length is known.
fn searched_part<'p>(path: SentPath<'p>) -> Option<(&'p [u8], SentPath<'p>)>
    requires { path.lengths.now ≡ [] }
    ensures { MatchOption result (path.entry.body.now ≡ []) (λ x. GoesOn path.entry x.0.now x.1) }
{
    let (part, body) = next_part(path.body)?;
    let left = SentPath {
        body,
        lengths: path.lengths,
        slash: path.slash,
    };
    Some((part, left))
}
