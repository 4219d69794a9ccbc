//! Reads and edits of the rows of wants and dials.

ghost use Rattle.std.specs.Prelude.{◌≡◌, None, find, fold, filter, position, count_by, vec_capacity, ◌≤◌, vec_len};
ghost use Rattle.gw_pool.specs.State.{remove_first, wants_it, wants_host, waits_for, waits_as, wants_as, may_dial, dials_for, dials_host, earlier};

use crate::edit::{row_at, take_at};
use crate::rows::{DialRow, WantRow};

fn want_at(rows: &[WantRow], want: u64) -> Option<usize>
    ensures { result ≡ position (wants_it want) rows.now }
{
    rows.iter().position(|row| row.want == want)
}

/// The row of a want.
pub fn find_want(rows: &[WantRow], want: u64) -> Option<WantRow>
    ensures { result ≡ find (wants_it want) rows.now }
{
    let at = want_at(rows, want);
    row_at(rows, at)
}

/// Takes out the row of a want.
pub fn take_want(rows: &mut Vec<WantRow>, want: u64) -> Option<WantRow>
    ensures found { result ≡ find (wants_it want) rows.old.items }
    ensures left { rows.new.items ≡ remove_first (wants_it want) rows.old.items }
    ensures capacity { vec_capacity rows.new ≡ vec_capacity rows.old }
{
    let at = want_at(rows, want);
    take_at(rows, at)
}

fn want_as_at(rows: &[WantRow], host: u32, want: u64) -> Option<usize>
    ensures { result ≡ position (wants_as host want) rows.now }
{
    rows.iter()
        .position(|row| row.host == host && row.want == want)
}

/// Takes out the row of a want of a host.
pub fn take_want_as(rows: &mut Vec<WantRow>, host: u32, want: u64)
    ensures left { rows.new.items ≡ remove_first (wants_as host want) rows.old.items }
    ensures capacity { vec_capacity rows.new ≡ vec_capacity rows.old }
{
    let at = want_as_at(rows, host, want);
    let _ = take_at(rows, at);
}

fn waiting_at(rows: &[WantRow], host: u32, want: u64) -> Option<usize>
    ensures { result ≡ position (waits_as host want) rows.now }
{
    rows.iter().position(|row| row.host == host && row.stage.is_waiting() && row.want == want)
}

/// Takes out the row of a waiting want of a host.
pub fn take_waiting(rows: &mut Vec<WantRow>, host: u32, want: u64)
    ensures left { rows.new.items ≡ remove_first (waits_as host want) rows.old.items }
    ensures capacity { vec_capacity rows.new ≡ vec_capacity rows.old }
{
    let at = waiting_at(rows, host, want);
    let _ = take_at(rows, at);
}

fn earlier_row(best: Option<WantRow>, row: WantRow) -> Option<WantRow>
    ensures { result ≡ earlier best row }
{
    match best {
        None => Some(row),
        Some(first) => {
            if row.want < first.want {
                Some(row)
            } else {
                Some(first)
            }
        }
    }
}

/// The row of a host with the least want.
pub fn least_want_of(rows: &[WantRow], host: u32) -> Option<WantRow>
    ensures { result ≡ fold earlier None (filter (wants_host host) rows.now) }
{
    rows.iter()
        .filter(|row| row.host == host)
        .fold(None, |best, row| earlier_row(best, *row))
}

/// The row of a host with the least want of those that wait.
pub fn least_waiting_of(rows: &[WantRow], host: u32) -> Option<WantRow>
    ensures { result ≡ fold earlier None (filter (waits_for host) rows.now) }
{
    rows.iter()
        .filter(|row| row.host == host && row.stage.is_waiting())
        .fold(None, |best, row| earlier_row(best, *row))
}

/// How many wants of a host may dial.
pub fn count_granted(rows: &[WantRow], host: u32) -> usize
    ensures { result ≡ count_by (may_dial host) rows.now }
{
    rows.iter()
        .filter(|row| row.host == host && row.stage.is_granted())
        .count()
}

fn dial_at(rows: &[DialRow], want: u64) -> Option<usize>
    ensures { result ≡ position (dials_for want) rows.now }
{
    rows.iter().position(|row| row.want == want)
}

/// The row of a want's dial.
pub fn find_dial(rows: &[DialRow], want: u64) -> Option<DialRow>
    ensures { result ≡ find (dials_for want) rows.now }
{
    let at = dial_at(rows, want);
    row_at(rows, at)
}

/// Takes out the row of a want's dial.
pub fn take_dial(rows: &mut Vec<DialRow>, want: u64) -> Option<DialRow>
    ensures found { result ≡ find (dials_for want) rows.old.items }
    ensures left { rows.new.items ≡ remove_first (dials_for want) rows.old.items }
    ensures capacity { vec_capacity rows.new ≡ vec_capacity rows.old }
{
    let at = dial_at(rows, want);
    take_at(rows, at)
}

/// How many dials to a host run.
pub fn count_dials(rows: &[DialRow], host: u32) -> usize
    ensures { result ≡ count_by (dials_host host) rows.now }
{
    rows.iter().filter(|row| row.host == host).count()
}
