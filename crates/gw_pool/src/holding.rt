//! The tokens that are out.

ghost use Rattle.std.specs.Prelude.{◌≡◌, ◌<◌, ◌≤◌, ◌++◌, ◌∷◌, [], IfOk, length, position, remove, slice_set, vec_len, vec_capacity, if◌then◌else◌};
ghost use Rattle.gw_pool.specs.Tokens.{is_held, names, change, ticket_of, with_dial, without_dial, without_ticket, leased, without_lease};

use std::alloc::{AllocError, Global};
use std::marker::Model;

/// A want some of whose tokens were handed out and not taken back.
#[derive(Clone, Copy, Debug)]
pub struct Holding {
    /// The want.
    pub want: u64,
    /// Whether its ticket is out.
    pub ticket: bool,
    /// Whether its dial token is out.
    pub dial: bool,
    /// Whether its lease is out.
    pub lease: bool,
}

impl Holding {
    /// Whether a token is out.
    pub fn is_held(&self) -> bool
        ensures { result ≡ is_held self.now }
    {
        self.ticket || self.dial || self.lease
    }
}

fn holding_at(held: &[Holding], want: u64) -> Option<usize>
    ensures { result ≡ position (names want) held.now }
{
    held.iter().position(|h| h.want == want)
}

/// What stands at a place becomes this, or goes where no token is out.
fn become_at(held: &mut Vec<Holding>, at: usize, now: Holding)
    requires { at < vec_len held.old }
    ensures items { held.new.items ≡ (if is_held now then slice_set held.old.items at now else remove held.old.items at) }
    ensures room { vec_capacity held.new ≡ vec_capacity held.old }
{
    if now.is_held() {
        held[at] = now;
    } else {
        let _ = held.remove(at);
    }
}

/// The tokens that are out, by their wants.
#[derive(Drop)]
pub struct Tokens {
    held: Vec<Holding>,
}

impl Model for Tokens {
    ghost use Rattle.std.specs.Vec.{vec_capacity};
    ghost use Rattle.gw_pool.specs.Tokens.{TokensView};

    ghost Value = { TokensView };

    ghost view = { λ t. record { out = t.held.items; room = vec_capacity t.held } };
}

impl Tokens {
    /// No tokens, with room for those of so many wants.
    pub fn new(alloc: Global, room: usize) -> Result<Tokens, AllocError>
        ensures out { IfOk result (λ t. t.out ≡ []) }
        ensures room { IfOk result (λ t. room ≤ t.room) }
    {
        Ok(Tokens {
            held: Vec::with_capacity(alloc, room)?,
        })
    }

    /// The ticket of a new want is handed out.
    pub fn hand_out(&mut self, want: u64)
        requires { length self.old.out < self.old.room }
        ensures out { self.new.out ≡ self.old.out ++ ticket_of want ∷ [] }
        ensures room { self.new.room ≡ self.old.room }
    {
        self.held.push_reserved(Holding {
            want,
            ticket: true,
            dial: false,
            lease: false,
        });
    }

    /// The dial token of a want is handed out.
    pub fn hand_out_dial(&mut self, want: u64)
        ensures out { self.new.out ≡ change want with_dial self.old.out }
        ensures room { self.new.room ≡ self.old.room }
    {
        match holding_at(self.held.as_slice(), want) {
            Some(at) => {
                let h = self.held[at];
                become_at(&mut self.held, at, Holding { dial: true, ..h });
            }
            None => {}
        }
    }

    /// The ticket of a want is taken back for a lease.
    pub fn lease(&mut self, want: u64)
        ensures out { self.new.out ≡ change want leased self.old.out }
        ensures room { self.new.room ≡ self.old.room }
    {
        match holding_at(self.held.as_slice(), want) {
            Some(at) => {
                let h = self.held[at];
                become_at(
                    &mut self.held,
                    at,
                    Holding {
                        ticket: false,
                        lease: true,
                        ..h
                    },
                );
            }
            None => {}
        }
    }

    /// The ticket of a want is taken back.
    pub fn spend_ticket(&mut self, want: u64)
        ensures out { self.new.out ≡ change want without_ticket self.old.out }
        ensures room { self.new.room ≡ self.old.room }
    {
        match holding_at(self.held.as_slice(), want) {
            Some(at) => {
                let h = self.held[at];
                become_at(&mut self.held, at, Holding { ticket: false, ..h });
            }
            None => {}
        }
    }

    /// The dial token of a want is taken back.
    pub fn spend_dial(&mut self, want: u64)
        ensures out { self.new.out ≡ change want without_dial self.old.out }
        ensures room { self.new.room ≡ self.old.room }
    {
        match holding_at(self.held.as_slice(), want) {
            Some(at) => {
                let h = self.held[at];
                become_at(&mut self.held, at, Holding { dial: false, ..h });
            }
            None => {}
        }
    }

    /// The lease of a want is taken back.
    pub fn spend_lease(&mut self, want: u64)
        ensures out { self.new.out ≡ change want without_lease self.old.out }
        ensures room { self.new.room ≡ self.old.room }
    {
        match holding_at(self.held.as_slice(), want) {
            Some(at) => {
                let h = self.held[at];
                become_at(&mut self.held, at, Holding { lease: false, ..h });
            }
            None => {}
        }
    }
}
