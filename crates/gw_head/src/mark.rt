//! The search for the end of a head, which goes on where the last piece ended.
ghost use Rattle.std.specs.Prelude.{◌≡◌, ◌≤◌, length, IfSome};
ghost use Rattle.gw_head.specs.Scan.{scan_end, place_after};

/// What the bytes so far say of where the head ends.
#[derive(Clone, Copy)]
pub(crate) enum Place {
    /// Only empty lines have come.
    Blank,
    /// Inside the start line or a later line.
    Inside,
    /// Behind the LF of such a line.
    LineFeed,
    /// Behind that LF and a CR.
    Return,
}

impl Place {
    ghost use Rattle.gw_head.specs.Scan.{place_after_byte};

    /// The place behind one more byte; None where the head ends with it.
    fn after(self, byte: u8) -> Option<Place>
        ensures { result ≡ place_after_byte self byte }
    {
        match (self, byte) {
            (Place::LineFeed | Place::Return, b'\n') => None,
            (Place::LineFeed, b'\r') => Some(Place::Return),
            (Place::Blank, b'\r' | b'\n') => Some(Place::Blank),
            (Place::Inside, b'\n') => Some(Place::LineFeed),
            _ => Some(Place::Inside),
        }
    }
}

/// Goes on from `place` through the bytes, up to the head's end: how many of them there are then.
pub(crate) fn scan(place: &mut Place, bytes: &[u8]) -> Option<usize>
    ensures within { IfSome result (λ used. used ≤ length bytes.now) }
    ensures end { result ≡ scan_end place.old bytes.now }
    ensures place { result ≡ None → place_after place.old bytes.now ≡ Some place.new }
{
    let mut at = *place;
    for (i, byte) in bytes.iter().enumerate() {
        match at.after(*byte) {
            None => return Some(i + 1),
            Some(next) => at = next,
        }
    }
    *place = at;
    None
}
