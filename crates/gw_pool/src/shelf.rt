//! The connections of the pool, each beside its row.

ghost use Rattle.std.specs.Prelude.{◌≡◌, ◌<◌, ◌≤◌, ◌++◌, ◌∷◌, [], ℕ, Bool, false, length, find, position, IfOk, IfNone, IfSome};
ghost use Rattle.std.specs.Option.{ForSome};
ghost use Rattle.gw_pool.specs.State.{remove_first, is_with};
ghost use Rattle.gw_pool.specs.declared.rows.ConnRow.{ConnRow};
ghost use Rattle.gw_pool.specs.Shelf.{row_of, resting_row, HasConn, IsKept, LeavesTaken, LeavesOthers};

use crate::conns::conn_with_at;
use crate::rows::ConnRow;
use gw_wire::Link;
use std::alloc::{AllocError, Global};
use std::marker::Model;

/// A row that was taken out, with its connection, unless that was handed out.
#[derive(Drop)]
pub struct Shelved<C> {
    /// The row.
    pub row: ConnRow,
    /// Its connection.
    pub conn: Option<C>,
}

/// A row that was taken out, with its connection.
#[derive(Drop)]
pub struct Resting<C> {
    /// The row.
    pub row: ConnRow,
    /// Its connection.
    pub conn: C,
}

/// What was taken out, where its connection wasn't handed out.
pub fn with_conn<C: Link>(shelved: Option<Shelved<C>>) -> Option<Resting<C>>
    requires { ForSome shelved (λ s. HasConn C.link s.row s.conn) }
    ensures row { resting_row result ≡ row_of shelved }
    ensures number { IfSome result (λ r. (C.link r.conn).number ≡ r.row.link) }
{
    match shelved {
        Some(Shelved { row, conn }) => match conn {
            Some(conn) => Some(Resting { row, conn }),
            None => unreachable!(),
        },
        None => None,
    }
}

/// The rows of the connections, and the connections that weren't handed out. Contracts see the rows, the wants whose
/// connection was handed out, and how many rows there is room for.
#[derive(Drop)]
pub struct Shelf<C: Link> {
    rows: Vec<ConnRow>,
    held: Vec<Option<C>>,
}

impl<C: Link> Model for Shelf<C> {
    ghost use Rattle.std.specs.Prelude.{min};
    ghost use Rattle.std.specs.Vec.{vec_capacity};
    ghost use Rattle.gw_pool.specs.Shelf.{ShelfView, taken_of, AreKept};

    ghost Value = { ShelfView };

    ghost view = { λ s. record { rows = s.rows.items; taken = taken_of s.rows.items s.held.items; room = min (vec_capacity s.rows) (vec_capacity s.held) } };

    ghost invariant = { λ s. AreKept C.link s.rows.items s.held.items };
}

impl<C: Link> Shelf<C> {
    /// An empty shelf for so many connections.
    pub fn new(alloc: Global, room: usize) -> Result<Shelf<C>, AllocError>
        ensures rows { IfOk result (λ s. s.rows ≡ []) }
        ensures taken { IfOk result (λ s. s.taken ≡ []) }
        ensures room { IfOk result (λ s. room ≤ s.room) }
    {
        Ok(Shelf {
            rows: Vec::with_capacity(alloc, room)?,
            held: Vec::with_capacity(alloc, room)?,
        })
    }

    /// The rows.
    pub fn rows(&self) -> &[ConnRow]
        ensures { result.now ≡ self.now.rows }
    {
        self.rows.as_slice()
    }

    /// Puts a connection with its row behind the others.
    pub fn put(&mut self, row: ConnRow, conn: C)
        requires room { length self.old.rows < self.old.room }
        requires number { (C.link conn).number ≡ row.link }
        ensures rows { self.new.rows ≡ self.old.rows ++ row ∷ [] }
        ensures taken { self.new.taken ≡ self.old.taken }
        ensures room { self.new.room ≡ self.old.room }
    {
        self.rows.push_reserved(row);
        self.held.push_reserved(Some(conn));
    }

    /// Takes out the row at a place with its connection, if there is one.
    pub fn take(&mut self, at: Option<usize>) -> Option<Shelved<C>>
        requires { ForSome at (λ i. i < length self.old.rows) }
        ensures found { (test : ConnRow → Bool) → at ≡ position test self.old.rows → row_of result ≡ find test self.old.rows }
        ensures left { (test : ConnRow → Bool) → at ≡ position test self.old.rows → self.new.rows ≡ remove_first test self.old.rows }
        ensures kept { IfSome result (λ s. IsKept C.link self.old.taken s.row s.conn) }
        ensures taken { LeavesTaken self.old.taken self.new.taken }
        ensures none { IfNone result (self.new ≡ self.old) }
        ensures room { self.new.room ≡ self.old.room }
    {
        match at {
            Some(at) => {
                let row = self.rows.remove(at);
                let conn = self.held.remove(at);
                Some(Shelved { row, conn })
            }
            None => None,
        }
    }

    /// Hands out the connection that is out to a want, whose row stays.
    pub fn lend(&mut self, want: u64) -> Option<Shelved<C>>
        ensures rows { self.new.rows ≡ self.old.rows }
        ensures found { row_of result ≡ find (is_with want) self.old.rows }
        ensures kept { IfSome result (λ s. IsKept C.link self.old.taken s.row s.conn) }
        ensures taken { LeavesOthers want self.old.taken self.new.taken }
        ensures none { IfNone result (self.new ≡ self.old) }
        ensures room { self.new.room ≡ self.old.room }
    {
        match conn_with_at(self.rows.as_slice(), want) {
            Some(at) => {
                let row = self.rows[at];
                let slot = &mut self.held[at];
                let conn = slot.take();
                Some(Shelved { row, conn })
            }
            None => None,
        }
    }
}
