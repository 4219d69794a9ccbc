//! How a trip comes to a connection of its host, and how a lease ends.

ghost use Rattle.std.specs.Prelude.{◌≡◌, ◌≤◌, ◌<◌, ℕ, false};
ghost use Rattle.gw_pool.specs.declared.entry.Reply.{Reply};
ghost use Rattle.gw_pool.specs.Keeps.{Comes, IsServed, is_early};
ghost use Rattle.gw_pool.specs.Places.{is_granted};
ghost use Rattle.gw_account.specs.Did.{span};
ghost use Rattle.gw_transport.specs.Leasing.{DialedStep, EndStep, ExpiredStep, GaveUpStep, IsAsked, IsLeased, IsPending, IsRested, LeasedStep, LeftStep, TakenStep, WaitedStep, WantedStep, asked};

use gw_pool::{Ask, Lease, Leases, Put, Start, Ticket, Want};
use gw_stream::{Guard, Sight};
use gw_wire::{Addr, Dial, Wire};

/// How often a want that waits is asked for, with a rest between.
const RESTS: u32 = 1_000_000;

/// How many wants in a row may find an expired connection.
const WANTS: u32 = 1_000_000;

/// How a trip came to a connection.
pub enum Leased<C> {
    /// It has this one.
    Lease(Lease<C>),
    /// The backend could not be dialed.
    Unreachable,
    /// The journal has no room for a want.
    Full,
    /// The trip was cancelled.
    Cancelled,
    /// The trip is late: its deadline has come, a want was not served in a million rests, or a million wants in a row
    /// found expired connections.
    Late,
}

/// What came of wants.
pub enum Wanted {
    /// One was made.
    Ticket(Ticket),
    /// The journal has no room for one.
    Full,
    /// A million in a row found expired connections.
    Late,
}

// Closes what a call of the pool left to be closed.
fn close_left<W: Wire>(wire: &mut W, left: Option<W::Conn>)
    requires fresh { (W.wire wire.old).aged ≡ false }
    ensures step { LeftStep W.Conn.link (W.wire wire.old) (W.wire wire.new) left }
{
    if let Some(conn) = left {
        wire.close(conn);
    }
}

/// Closes the connection that was idle longest, where it is expired at this moment, which is the wire's.
pub fn close_expired<W: Wire, L: Leases<W::Conn>>(wire: &mut W, leases: &mut L, now: u64)
    requires fresh { (W.wire wire.old).aged ≡ false }
    requires read { (W.wire wire.old).moment ≡ now }
    requires rested { IsRested (L.lent leases.old) }
    ensures step { ExpiredStep (span (W.wire wire.old) (W.wire wire.new) (L.lent leases.old) (L.lent leases.new)) now }
    ensures leases { L.keeper leases.new ≡ L.keeper leases.old }
{
    let left = leases.expire(now);
    close_left(wire, left);
}

// Wants a connection to a host, and closes each idle one that a want finds expired.
fn want<W: Wire, L: Leases<W::Conn>>(wire: &mut W, leases: &mut L, host: u32, now: u64) -> Wanted
    requires fresh { (W.wire wire.old).aged ≡ false }
    requires read { (W.wire wire.old).moment ≡ now }
    requires rested { IsRested (L.lent leases.old) }
    requires within { host < (L.lent leases.old).limits.hosts }
    ensures step { WantedStep (span (W.wire wire.old) (W.wire wire.new) (L.lent leases.old) (L.lent leases.new)) host result }
    ensures leases { L.keeper leases.new ≡ L.keeper leases.old }
{
    for _want in 0..WANTS {
        match leases.want(host, now) {
            Want::Ticket(ticket) => return Wanted::Ticket(ticket),
            Want::Expired(conn) => wire.close(conn),
            Want::JournalFull => return Wanted::Full,
        }
    }
    Wanted::Late
}

// Takes the connection that serves a want.
fn take<W: Wire, L: Leases<W::Conn>>(
    _wire: &W,
    leases: &mut L,
    ticket: Ticket,
    host: u32,
) -> Lease<W::Conn>
    requires served { IsPending (L.lent leases.old) ticket.want (IsServed ticket.want host) }
    ensures step { TakenStep W.Conn.link (L.lent leases.old) (L.lent leases.new) ticket.want result }
    ensures leases { L.keeper leases.new ≡ L.keeper leases.old }
{
    match leases.ask(ticket) {
        Ask::Taken(lease) => lease,
        Ask::Granted(_ticket) => unreachable!(),
        Ask::NotYet(_ticket) => unreachable!(),
        Ask::Failed => unreachable!(),
    }
}

// Dials for a want that was granted a place. Another call may serve the want meanwhile, before the dial begins or behind
// it; then the connection is that one.
fn dial<W: Wire, L: Leases<W::Conn>>(
    wire: &mut W,
    leases: &mut L,
    ticket: Ticket,
    host: u32,
    addr: &Addr,
) -> Leased<W::Conn>
    requires fresh { (W.wire wire.old).aged ≡ false }
    requires granted { IsPending (L.lent leases.old) ticket.want (Comes is_granted ticket.want host) }
    ensures step { DialedStep W.Conn.link (span (W.wire wire.old) (W.wire wire.new) (L.lent leases.old) (L.lent leases.new)) host addr.now ticket.want result }
    ensures leases { L.keeper leases.new ≡ L.keeper leases.old }
{
    let token = match leases.start(&ticket) {
        Start::Go(token) => token,
        Start::NotGranted => return Leased::Lease(take(wire, leases, ticket, host)),
    };
    match wire.dial(host, addr) {
        Dial::Conn(conn) => {
            let now = wire.now();
            let Put { close } = leases.dialed(token, conn, now);
            close_left(wire, close);
            Leased::Lease(take(wire, leases, ticket, host))
        }
        Dial::Failed => {
            leases.dial_failed(token);
            match leases.ask(ticket) {
                Ask::Taken(lease) => Leased::Lease(lease),
                Ask::Granted(_ticket) => unreachable!(),
                Ask::NotYet(_ticket) => unreachable!(),
                Ask::Failed => Leased::Unreachable,
            }
        }
    }
}

// Waits until a want that was answered so has a connection, a dial of its own failed, or the trip may not go on; then the
// want is given up.
fn wait<W: Wire, L: Leases<W::Conn>, G: Guard>(
    wire: &mut W,
    leases: &mut L,
    guard: &mut G,
    ticket: Ticket,
    host: u32,
    addr: &Addr,
    now: u64,
) -> Leased<W::Conn>
    requires fresh { (W.wire wire.old).aged ≡ false }
    requires read { (W.wire wire.old).moment ≡ now }
    requires looked { (G.guard guard.old).last ≤ now }
    requires made { (answer : Reply) × IsAsked (L.lent leases.old) host ticket.want answer }
    ensures step { (answer : Reply) → IsAsked (L.lent leases.old) host ticket.want answer → WaitedStep W.Conn.link (span (W.wire wire.old) (W.wire wire.new) (L.lent leases.old) (L.lent leases.new))
        (G.guard guard.old) (G.guard guard.new) (asked host addr.now ticket.want answer) result }
    ensures leases { L.keeper leases.new ≡ L.keeper leases.old }
    ensures guard { G.keeper guard.new ≡ G.keeper guard.old }
{
    let mut now = now;
    let mut held = ticket;
    for _rest in 0..RESTS {
        match leases.ask(held) {
            Ask::Taken(lease) => return Leased::Lease(lease),
            Ask::Granted(back) => return dial(wire, leases, back, host, addr),
            Ask::NotYet(back) => held = back,
            Ask::Failed => unreachable!(),
        }
        match guard.look(now) {
            Sight::On => {}
            Sight::Cancelled => {
                give_up(wire, leases, held, now);
                return Leased::Cancelled;
            }
            Sight::Late => {
                give_up(wire, leases, held, now);
                return Leased::Late;
            }
        }
        wire.rest();
        now = wire.now();
    }
    give_up(wire, leases, held, now);
    Leased::Late
}

// Gives a want up that isn't over.
fn give_up<W: Wire, L: Leases<W::Conn>>(wire: &mut W, leases: &mut L, ticket: Ticket, now: u64)
    requires fresh { (W.wire wire.old).aged ≡ false }
    requires read { (W.wire wire.old).moment ≡ now }
    requires coming { (host : ℕ) × IsPending (L.lent leases.old) ticket.want (Comes is_early ticket.want host) }
    ensures step { GaveUpStep (span (W.wire wire.old) (W.wire wire.new) (L.lent leases.old) (L.lent leases.new)) ticket.want }
    ensures leases { L.keeper leases.new ≡ L.keeper leases.old }
{
    let Put { close } = leases.cancel(ticket, now);
    close_left(wire, close);
}

/// Ends a lease: gives the connection back where it may serve again, and else drops it. A connection that leaves the
/// pool is closed.
pub fn end_lease<W: Wire, L: Leases<W::Conn>>(
    wire: &mut W,
    leases: &mut L,
    lease: Lease<W::Conn>,
    reusable: bool,
)
    requires fresh { (W.wire wire.old).aged ≡ false }
    requires leased { IsLeased W.Conn.link (L.lent leases.old) lease }
    ensures step { EndStep (span (W.wire wire.old) (W.wire wire.new) (L.lent leases.old) (L.lent leases.new)) lease.no reusable }
    ensures leases { L.keeper leases.new ≡ L.keeper leases.old }
{
    if reusable {
        let now = wire.now();
        let Put { close } = leases.give_back(lease, now);
        close_left(wire, close);
    } else {
        let gone = leases.drop_conn(lease);
        wire.close(gone);
    }
}

/// Comes to a connection of a host: an idle one, one that another caller returns, or one that is dialed at the address,
/// whichever comes first, unless the trip is cancelled or late. A lease that comes of it is ended by `end_lease`.
pub fn lease<W: Wire, L: Leases<W::Conn>, G: Guard>(
    wire: &mut W,
    leases: &mut L,
    guard: &mut G,
    host: u32,
    addr: &Addr,
) -> Leased<W::Conn>
    requires fresh { (W.wire wire.old).aged ≡ false }
    requires looked { (G.guard guard.old).last ≤ (W.wire wire.old).moment }
    requires rested { IsRested (L.lent leases.old) }
    requires within { host < (L.lent leases.old).limits.hosts }
    ensures step { LeasedStep W.Conn.link (span (W.wire wire.old) (W.wire wire.new) (L.lent leases.old) (L.lent leases.new)) (G.guard guard.old) (G.guard guard.new) host addr.now result }
    ensures leases { L.keeper leases.new ≡ L.keeper leases.old }
    ensures guard { G.keeper guard.new ≡ G.keeper guard.old }
{
    let now = wire.now();
    match guard.look(now) {
        Sight::On => {}
        Sight::Cancelled => return Leased::Cancelled,
        Sight::Late => return Leased::Late,
    }
    match want(wire, leases, host, now) {
        Wanted::Ticket(ticket) => wait(wire, leases, guard, ticket, host, addr, now),
        Wanted::Full => Leased::Full,
        Wanted::Late => Leased::Late,
    }
}
