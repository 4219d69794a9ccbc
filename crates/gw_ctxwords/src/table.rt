//! The table, its seats and its calls.
ghost use Rattle.std.specs.Prelude.{◌≡◌, ◌<◌, ◌^◌, length, IfOk, IsOkAnd, IsTrue};
ghost use Rattle.std.specs.List.{Contains};
ghost use Rattle.gw_context.specs.declared.parts.Cause.{Cause};
ghost use Rattle.gw_ctxwords.specs.Nodes.{is_forest};
ghost use Rattle.gw_ctxwords.specs.Rule.{first_view, most_seats};
ghost use Rattle.gw_ctxwords.specs.Steps.{split_left, split_right, joined};
ghost use Rattle.gw_ctxwords.specs.Calls.{with_view, CancelledBy, LookedAt, Learns, Closes};

use crate::answers::{Cancelled, Looked};
use crate::climb::{climb, settled};
use crate::nodes::{LIVE, NodeSpec, cause_of};
use crate::steps;
use crate::steps::{CtxRule, Place};
use crate::view::CtxView;
use atomic_table::Table;
use gw_context::Cause;
use std::alloc::{AllocError, Global};
use std::marker::Model;

/// There was no memory.
pub type NoMemory = AllocError;

/// The words of some nodes. Contracts see which table it is and its nodes.
#[derive(Drop)]
pub struct CtxTable {
    table: Table<(), CtxView, Vec<NodeSpec>, CtxRule, Global>,
    nodes: Vec<NodeSpec>,
}

impl Model for CtxTable {
    ghost use Rattle.std.specs.Prelude.{◌≡◌, length, IsTrue};
    ghost use Rattle.gw_ctxwords.specs.Nodes.{is_forest};
    ghost use Rattle.gw_ctxwords.specs.Calls.{TableState};

    ghost Value = { TableState };

    ghost view = { λ t. record { id = t.table.shared.table_id; nodes = t.nodes.items } };

    ghost invariant = { λ t. (t.table.shared.table_id.words ≡ length t.nodes.items) × (t.table.shared.table_id.slots ≡ 0) × (t.table.shared.key.items ≡ t.nodes.items) × IsTrue (is_forest t.nodes.items) };
}

/// One thread's seat. Contracts see its table and what it knows (`CtxView`). It has no bytes.
#[derive(Drop)]
pub struct CtxSeat {
    seat: Place,
}

impl Model for CtxSeat {
    ghost use Rattle.std.specs.Prelude.{◌≡◌, ◌<◌, []};
    ghost use Rattle.gw_ctxwords.specs.Calls.{SeatState};

    ghost Value = { SeatState };

    ghost view = { λ s. record { table = s.seat.table_id; view = s.seat.me.0 } };

    ghost invariant = { λ s. (s.seat.me.1 ≡ []) × (0 < s.seat.me.0.room) };
}

impl CtxTable {
    /// A word for each node, all live, and the first seat, of which 64 seats may come. Node 0 is its own parent, the
    /// parent of each other node has a lower number, and at most 16 tied steps lead up from a node.
    pub fn new(alloc: Global, nodes: &[NodeSpec]) -> Result<(CtxTable, CtxSeat), NoMemory>
        requires forest { IsTrue (is_forest nodes.now) }
        requires few { length nodes.now < 2 ^ 32 }
        ensures { IfOk result (λ made. (made.0.nodes ≡ nodes.now) × (made.1 ≡ record { table = made.0.id; view = first_view })) }
    {
        let nodes = nodes.to_vec(alloc)?;
        let words = vec![in alloc; LIVE; nodes.len()]?;
        let (table, seat) = Table::of_words(alloc, words.as_slice(), &nodes)?;
        Ok((CtxTable { table, nodes }, CtxSeat { seat }))
    }

    /// Another seat, for another thread. It knows which nodes the old one found ended. It takes no memory, so it is
    /// always made.
    pub fn split(&self, _alloc: Global, s: &mut CtxSeat) -> Result<CtxSeat, NoMemory>
        requires seat { s.old.table ≡ self.now.id }
        requires room { 1 < s.old.view.room }
        ensures made { IsOkAnd result (λ new. new ≡ record { table = self.now.id; view = split_right s.old.view }) }
        ensures old { s.new ≡ with_view s.old (split_left s.old.view) }
    {
        let seat = steps::split(&self.table.shared, &mut s.seat);
        Ok(CtxSeat { seat })
    }

    /// Ends a node, and with it what is tied below it, by one step on its word. The first cause of a word stays.
    pub fn cancel(&self, s: &mut CtxSeat, node: u32, cause: Cause) -> Cancelled
        requires seat { s.old.table ≡ self.now.id }
        requires node { node < length self.now.nodes }
        ensures seat { s.new ≡ with_view s.old s.new.view }
        ensures answer { CancelledBy node cause s.old.view s.new.view result }
        ensures known { (first : Cause) → Contains s.old.view.ended (node, first) → result ≡ Cancelled.Already first }
    {
        let found = steps::cancel(&self.table.shared, &mut s.seat, node, cause);
        if found == LIVE {
            Cancelled::Now
        } else {
            Cancelled::Already(cause_of(found))
        }
    }

    /// Whether a node has ended, and why: it has where its own word or that of a node that it is tied to says so. In
    /// the second case its own word is set too, so that later answers agree.
    pub fn cause(&self, s: &mut CtxSeat, node: u32) -> Looked
        requires seat { s.old.table ≡ self.now.id }
        requires node { node < length self.now.nodes }
        ensures seat { s.new ≡ with_view s.old s.new.view }
        ensures answer { LookedAt self.now.nodes node s.old.view s.new.view result }
        ensures learns { Learns s.old.view s.new.view }
        ensures told { (cause : Cause) → result ≡ Looked.Ended cause → Contains s.new.view.ended (node, cause) }
        ensures known { (cause : Cause) → Contains s.old.view.ended (node, cause) → result ≡ Looked.Ended cause }
    {
        let words = &self.table.shared;
        match climb(self.nodes.as_slice(), words, &mut s.seat, node) {
            None => Looked::Live,
            Some((above, cause)) => {
                if above == node {
                    return Looked::Ended(cause);
                }
                Looked::Ended(settled(words, &mut s.seat, node, above, cause))
            }
        }
    }

    /// Takes a seat back. What it found and set the other one knows.
    pub fn join(&self, a: &mut CtxSeat, b: CtxSeat)
        requires seats { (a.old.table ≡ self.now.id) × (b.table ≡ self.now.id) }
        ensures { a.new ≡ with_view a.old (joined a.old.view b.view) }
    {
        let CtxSeat { seat } = b;
        steps::join(&self.table.shared, &mut a.seat, seat);
    }

    /// Ends the contexts, once all other seats were joined into this one, and gives the cause of node 0, if it ended.
    pub fn close(self, last: CtxSeat) -> Option<Cause>
        requires seat { last.table ≡ self.id }
        requires alone { last.view.room ≡ most_seats }
        ensures { Closes self.nodes last.view result }
    {
        let CtxTable { table, nodes: _ } = self;
        let CtxSeat { seat } = last;
        let closed = table.close_with(seat);
        let word = closed.word(0);
        closed.free();
        if word == LIVE {
            None
        } else {
            Some(cause_of(word))
        }
    }
}
