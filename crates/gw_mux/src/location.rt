//! How a redirect's target is written.
ghost use Rattle.std.specs.Prelude.{◌≡◌, ◌++◌, [], ◌∷◌, IfOk, OnOk, if◌then◌else◌};
ghost use Rattle.gw_pattern.specs.Path.{slash};
ghost use Rattle.gw_sets.specs.Comparison.{bytes_of};
ghost use Rattle.gw_mux.specs.Location.{is_plain, location_of, written, written_byte};

use crate::error::NoMemory;
use percent_encoding::percent_encode_byte;
use std::alloc::Global;

/// The `Location` (RFC 9110, section 10.2.2) of a path, to which a slash may be added, and of the query, if there is
/// one. What may not stand in a URI is written as an escape.
pub(crate) fn location(
    alloc: Global,
    path: &[u8],
    adds_slash: bool,
    query: Option<&[u8]>,
) -> Result<Vec<u8>, NoMemory>
    ensures { IfOk result (λ bytes. bytes.items ≡ location_of (if adds_slash then path.now ++ slash ∷ [] else path.now) (bytes_of query.entry)) }
{
    let room = room_for(path).saturating_add(room_for(query.unwrap_or(&[])));
    let mut location = Vec::with_capacity(alloc, room.saturating_add(2))?;
    write(&mut location, path)?;
    if adds_slash {
        location.push(b'/')?;
    }
    if let Some(query) = query {
        location.push(b'?')?;
        write(&mut location, query)?;
    }
    Ok(location)
}

// How many bytes are written for these, so that all room is taken at once.
fn room_for(bytes: &[u8]) -> usize {
    let mut room: usize = 0;
    for b in bytes {
        room = room.saturating_add(if is_plain(*b) { 1 } else { 3 });
    }
    room
}

fn write(location: &mut Vec<u8>, bytes: &[u8]) -> Result<(), NoMemory>
    ensures { OnOk result (location.new.items ≡ location.old.items ++ written bytes.now) }
{
    for b in bytes {
        write_byte(location, *b)?;
    }
    Ok(())
}

fn write_byte(location: &mut Vec<u8>, b: u8) -> Result<(), NoMemory>
    ensures { OnOk result (location.new.items ≡ location.old.items ++ written_byte b) }
{
    if is_plain(b) {
        location.push(b)?;
        Ok(())
    } else {
        location.extend_from_slice(percent_encode_byte(b).as_bytes())
    }
}

// Printable ASCII that may stand in a URI, or `%`.
fn is_plain(b: u8) -> bool
    ensures { result ≡ is_plain b }
{
    33 <= b
        && b <= 126
        && !(b == b'"'
            || b == b'<'
            || b == b'>'
            || b == b'\\'
            || b == b'^'
            || b == b'`'
            || b == b'{'
            || b == b'|'
            || b == b'}')
}
