//! The pool as one caller sees it.

ghost use Rattle.std.specs.Prelude.{◌≡◌, ◌<◌, true, false, length};
ghost use Rattle.gw_pool.specs.Lent.{Lent, WantStep, AskStep, StartStep, DialedStep, DialFailedStep, CancelStep, BackStep, DropStep, IdleStep, LeaseOf};
ghost use Rattle.gw_pool.specs.declared.entry.Call.TheVariants as call;
ghost use Rattle.gw_pool.specs.Tokens.{has_ticket, has_dial};

use gw_wire::Link;

/// A connection that is lent to a want. It must be given back or dropped.
pub struct Lease<C> {
    /// The connection.
    pub conn: C,
    /// Its number in the pool.
    pub no: u64,
    /// The want that it is out to.
    pub want: u64,
    /// The host that it leads to.
    pub host: u32,
    /// The number of its link.
    pub link: u64,
    /// Whether it served a want before.
    pub reused: bool,
}

/// A want that was made. It must be asked for until it ends, or be cancelled.
pub struct Ticket {
    /// The want.
    pub want: u64,
    /// The host that a connection is wanted to.
    pub host: u32,
}

/// The leave to dial for a want. It must be spent on `dialed` or `dial_failed`.
pub struct DialToken {
    /// The want.
    pub want: u64,
    /// The host to dial.
    pub host: u32,
}

/// What a want is answered.
pub enum Want<C> {
    /// It was made.
    Ticket(Ticket),
    /// Nothing was made: this idle connection was expired and is to be closed; ask again.
    Expired(C),
    /// The journal has no room for a further want.
    JournalFull,
}

/// How a want stands.
pub enum Ask<C> {
    /// It has this connection.
    Taken(Lease<C>),
    /// It may dial.
    Granted(Ticket),
    /// It isn't served yet.
    NotYet(Ticket),
    /// Its own dial failed before it was served.
    Failed,
}

/// Whether a dial may begin.
pub enum Start {
    /// It may.
    Go(DialToken),
    /// The want isn't granted.
    NotGranted,
}

/// What a call leaves to be closed.
pub struct Put<C> {
    /// The connection that the caller must close, if there is one.
    pub close: Option<C>,
}

/// The pool as one caller sees it. Its meanings are `lent`: the limits and the caller's number, which never change,
/// the history that the caller knows, its own entries in it, the tokens that were handed out and not taken back, how
/// often `ask` answered `NotYet`, and which wants were made since another's knowledge was taken in. What no call changes
/// of an implementer is its `keeper`, as which loans it holds. No call may follow the end of the audit text. Moments are
/// milliseconds since 1970-01-01T00:00:00Z.
pub trait Leases<C: Link> {
    ghost lent: { Self → Lent };

    ghost Keeper: { Type 0 };

    ghost keeper: { Self → Keeper };

    /// Wants a connection to a host.
    fn want(&mut self, host: u32, now: u64) -> Want<C>
        requires host { host < (lent self.old).limits.hosts }
        requires few { length (lent self.old).out < (lent self.old).limits.per_pass }
        requires running { (lent self.old).ended ≡ false }
        ensures step { WantStep C.link (lent self.old) (lent self.new) host now result }
        ensures stays { keeper self.new ≡ keeper self.old };

    /// Asks how a want stands; a connection that is out to it is handed out.
    fn ask(&mut self, t: Ticket) -> Ask<C>
        requires token { has_ticket t.want (lent self.old).out ≡ true }
        requires running { (lent self.old).ended ≡ false }
        ensures step { AskStep C.link (lent self.old) (lent self.new) t result }
        ensures stays { keeper self.new ≡ keeper self.old };

    /// Begins a dial.
    fn start(&mut self, t: &Ticket) -> Start
        requires token { has_ticket t.now.want (lent self.old).out ≡ true }
        requires running { (lent self.old).ended ≡ false }
        ensures step { StartStep (lent self.old) (lent self.new) t.now result }
        ensures stays { keeper self.new ≡ keeper self.old };

    /// Ends a dial by the connection that it gave.
    fn dialed(&mut self, d: DialToken, conn: C, now: u64) -> Put<C>
        requires token { has_dial d.want (lent self.old).out ≡ true }
        requires running { (lent self.old).ended ≡ false }
        ensures step { DialedStep C.link (lent self.old) (lent self.new) d (C.link conn).number now result }
        ensures stays { keeper self.new ≡ keeper self.old };

    /// Ends a dial that failed.
    fn dial_failed(&mut self, d: DialToken)
        requires token { has_dial d.want (lent self.old).out ≡ true }
        requires running { (lent self.old).ended ≡ false }
        ensures step { DialFailedStep (lent self.old) (lent self.new) d }
        ensures stays { keeper self.new ≡ keeper self.old };

    /// Gives a want up.
    fn cancel(&mut self, t: Ticket, now: u64) -> Put<C>
        requires token { has_ticket t.want (lent self.old).out ≡ true }
        requires running { (lent self.old).ended ≡ false }
        ensures step { CancelStep C.link (lent self.old) (lent self.new) t now result }
        ensures stays { keeper self.new ≡ keeper self.old };

    /// Gives a connection back for further use: it goes to the least want of its host, becomes idle, or is left to be
    /// closed.
    fn give_back(&mut self, l: Lease<C>, now: u64) -> Put<C>
        requires lease { LeaseOf C.link (lent self.old) l }
        requires running { (lent self.old).ended ≡ false }
        ensures step { BackStep C.link (lent self.old) (lent self.new) l.no l.want now result }
        ensures stays { keeper self.new ≡ keeper self.old };

    /// Takes a connection out of the pool; the caller closes it.
    fn drop_conn(&mut self, l: Lease<C>) -> C
        requires lease { LeaseOf C.link (lent self.old) l }
        requires running { (lent self.old).ended ≡ false }
        ensures conn { result ≡ l.conn }
        ensures step { DropStep (lent self.old) (lent self.new) l.no l.want }
        ensures stays { keeper self.new ≡ keeper self.old };

    /// Takes out the least recently idle connection, which the caller closes, where it is expired.
    fn expire(&mut self, now: u64) -> Option<C>
        requires running { (lent self.old).ended ≡ false }
        ensures step { IdleStep C.link (lent self.old) (lent self.new) (call.Expire now) result }
        ensures stays { keeper self.new ≡ keeper self.old };

    /// Takes out the least recently idle connection, which the caller closes; None where none is idle.
    fn close_idle(&mut self) -> Option<C>
        requires running { (lent self.old).ended ≡ false }
        ensures step { IdleStep C.link (lent self.old) (lent self.new) call.CloseIdle result }
        ensures stays { keeper self.new ≡ keeper self.old };
}
