//! Reads of the rows of connections.

ghost use Rattle.std.specs.Prelude.{◌≡◌, find, map, filter, position, count_by};
ghost use Rattle.gw_pool.specs.Places.{stamp_of};
ghost use Rattle.gw_pool.specs.State.{is_with, has_number, leads_to, rests, rests_for, rests_since_stamp, rests_for_since_stamp, least, greatest, lesser, greater};

use crate::edit::row_at;
use crate::rows::ConnRow;

/// The place of the row of the connection that is out to a want.
pub fn conn_with_at(rows: &[ConnRow], want: u64) -> Option<usize>
    ensures { result ≡ position (is_with want) rows.now }
{
    rows.iter().position(|row| row.place.is_out_to(want))
}

/// The row of the connection that is out to a want.
pub fn find_conn_with(rows: &[ConnRow], want: u64) -> Option<ConnRow>
    ensures { result ≡ find (is_with want) rows.now }
{
    let at = conn_with_at(rows, want);
    row_at(rows, at)
}

/// The place of the row of a connection.
pub fn conn_at(rows: &[ConnRow], conn: u64) -> Option<usize>
    ensures { result ≡ position (has_number conn) rows.now }
{
    rows.iter().position(|row| row.conn == conn)
}

/// The row of a connection.
pub fn find_conn(rows: &[ConnRow], conn: u64) -> Option<ConnRow>
    ensures { result ≡ find (has_number conn) rows.now }
{
    let at = conn_at(rows, conn);
    row_at(rows, at)
}

/// The place of the row of the connection that is idle with a stamp.
pub fn stamped_at(rows: &[ConnRow], stamp: u64) -> Option<usize>
    ensures { result ≡ position (rests_since_stamp stamp) rows.now }
{
    rows.iter().position(|row| row.place.has_stamp(stamp))
}

/// The row of the connection that is idle with a stamp.
pub fn find_stamped(rows: &[ConnRow], stamp: u64) -> Option<ConnRow>
    ensures { result ≡ find (rests_since_stamp stamp) rows.now }
{
    let at = stamped_at(rows, stamp);
    row_at(rows, at)
}

/// The place of the row of a host's connection that is idle with a stamp.
pub fn stamped_for_at(rows: &[ConnRow], host: u32, stamp: u64) -> Option<usize>
    ensures { result ≡ position (rests_for_since_stamp host stamp) rows.now }
{
    rows.iter()
        .position(|row| row.host == host && row.place.has_stamp(stamp))
}

fn lesser_of(best: Option<u64>, n: u64) -> Option<u64>
    ensures { result ≡ lesser best n }
{
    match best {
        None => Some(n),
        Some(m) => { if n < m { Some(n) } else { Some(m) } }
    }
}

fn greater_of(best: Option<u64>, n: u64) -> Option<u64>
    ensures { result ≡ greater best n }
{
    match best {
        None => Some(n),
        Some(m) => { if m < n { Some(n) } else { Some(m) } }
    }
}

/// The stamp of the least recently idle connection.
pub fn oldest(rows: &[ConnRow]) -> Option<u64>
    ensures { result ≡ least (map (λ row. stamp_of row.place) (filter rests rows.now)) }
{
    rows.iter()
        .filter(|row| row.place.is_idle())
        .map(|row| row.place.stamp())
        .fold(None, lesser_of)
}

/// The stamp of a host's most recently idle connection.
pub fn newest(rows: &[ConnRow], host: u32) -> Option<u64>
    ensures { result ≡ greatest (map (λ row. stamp_of row.place) (filter (rests_for host) rows.now)) }
{
    rows.iter()
        .filter(|row| row.host == host && row.place.is_idle())
        .map(|row| row.place.stamp())
        .fold(None, greater_of)
}

/// How many connections lead to a host.
pub fn count_conns(rows: &[ConnRow], host: u32) -> usize
    ensures { result ≡ count_by (leads_to host) rows.now }
{
    rows.iter().filter(|row| row.host == host).count()
}

/// How many connections are idle.
pub fn count_idle(rows: &[ConnRow]) -> usize
    ensures { result ≡ count_by rests rows.now }
{
    rows.iter().filter(|row| row.place.is_idle()).count()
}

/// How many connections to a host are idle.
pub fn count_idle_for(rows: &[ConnRow], host: u32) -> usize
    ensures { result ≡ count_by (rests_for host) rows.now }
{
    rows.iter()
        .filter(|row| row.host == host && row.place.is_idle())
        .count()
}
