//! Trips of requests whose bodies are kept, over a wire in memory.

ghost use Rattle.std.specs.Prelude.{◌≡◌, ◌<◌, IfOk, false};
ghost use Rattle.gw_pool.specs.Lent.{Lent};
ghost use Rattle.gw_stream.specs.Outbox.{out_size};
ghost use Rattle.gw_wire.specs.MemoryLink.{conn_view};
ghost use Rattle.gw_transport.specs.Leasing.{IsLeased, IsRested};
ghost use Rattle.gw_transport.specs.Sending.{IsKept};

use crate::attempts::{Attempted, Order, round_trip};
use crate::ending::{finish, pull};
use crate::replying::End;
use crate::test_links::{Line, taken, writes};
use crate::test_rig::{Rig, make_rig};
use crate::tests::{BACKEND, half_a_minute};
use gw_body::Rewindable;
use gw_head::Framing;
use gw_pool::Lease;
use gw_proxy::OutHead;
use gw_retry::Failure;
use gw_stream::{Incoming, Pull, Timer};
use gw_wire::{Act, Bytes, MemConn, MemWire, Wire};
use http::Method;
use std::alloc::{AllocError, Global};
use std::test::Fail;

pub(crate) const GET_HEAD: &[u8] = b"GET / HTTP/1.1\r\n\r\n";

const TWO_GETS: &[u8] = b"GET / HTTP/1.1\r\n\r\nGET / HTTP/1.1\r\n\r\n";

pub(crate) const POST_HEAD: &[u8] = b"POST / HTTP/1.1\r\nContent-Length: 2\r\n\r\n";

pub(crate) const POST_TEXT: &[u8] = b"POST / HTTP/1.1\r\nContent-Length: 2\r\n\r\nhi";

pub(crate) const EMPTY: &[u8] = b"HTTP/1.1 200 OK\r\nContent-Length: 0\r\n\r\n";

pub(crate) const HELLO: &[u8] = b"HTTP/1.1 200 OK\r\nContent-Length: 5\r\n\r\nhello";

/// A request's method.
#[derive(Clone, Copy)]
pub(crate) enum Verb {
    Get,
    Head,
    Post,
}

fn method_of(verb: Verb) -> Method {
    match verb {
        Verb::Get => Method::GET,
        Verb::Head => Method::HEAD,
        Verb::Post => Method::POST,
    }
}

/// A request.
#[derive(Clone, Copy)]
pub(crate) struct Asked {
    pub(crate) head: &'static [u8],
    pub(crate) verb: Verb,
    pub(crate) has_key: bool,
    pub(crate) body: &'static [u8],
}

pub(crate) const GET: Asked = Asked {
    head: GET_HEAD,
    verb: Verb::Get,
    has_key: false,
    body: b"",
};

pub(crate) const POST: Asked = Asked {
    head: POST_HEAD,
    verb: Verb::Post,
    has_key: false,
    body: b"hi",
};

pub(crate) const KEYED: Asked = Asked {
    head: POST_HEAD,
    verb: Verb::Post,
    has_key: true,
    body: b"hi",
};

// How a kept body is framed.
fn framing_of(body: &[u8]) -> Framing
    ensures { IsKept result body.now }
{
    match body {
        [] => Framing::None,
        [_, ..] => Framing::Length(body.len() as u64),
    }
}

fn out_head(alloc: Global, asked: &Asked, body: &[u8]) -> Result<OutHead, AllocError>
    ensures { IfOk result (λ out. IsKept out.framing body.now) }
{
    Ok(OutHead {
        bytes: Bytes::new(asked.head.to_vec(alloc)?),
        method: method_of(asked.verb),
        has_key: asked.has_key,
        framing: framing_of(body),
    })
}

/// What came of a trip; of a reply its code.
#[derive(Clone, Copy, Debug, PartialEq, Eq)]
pub(crate) enum Came {
    Reply(u16),
    Failed(Failure),
    Over(End),
    Unreachable,
    Full,
}

/// What three pulls of a reply's body gave, and the data of the first one.
#[derive(Clone, Copy)]
pub(crate) struct Pulls {
    pub(crate) steps: [Pull; 3],
    data: [u8; 64],
}

/// What came of a trip, and of its reply's body.
#[derive(Clone, Copy)]
pub(crate) struct Went {
    pub(crate) came: Came,
    pub(crate) pulls: Pulls,
}

const NO_PULLS: Pulls = Pulls {
    steps: [Pull::More; 3],
    data: [0; 64],
};

// Pulls once, and reads the clock.
fn pull_once(
    wire: &mut MemWire,
    lease: &mut Lease<MemConn>,
    from: &mut Incoming,
    data: &mut [u8; 64],
) -> Pull
    requires fresh { wire.old.aged ≡ false }
    ensures fresh { wire.new.aged ≡ false }
    ensures leased { (lent : Lent) → IsLeased conn_view lent lease.old → IsLeased conn_view lent lease.new }
{
    let pulled = pull(wire, &mut half_a_minute(), lease, from, data);
    let _ = wire.now();
    pulled
}

// Pulls a reply's body three times, or not at all.
fn pull_body(
    wire: &mut MemWire,
    lease: &mut Lease<MemConn>,
    from: &mut Incoming,
    pulled: bool,
) -> Pulls
    requires fresh { wire.old.aged ≡ false }
    ensures fresh { wire.new.aged ≡ false }
    ensures leased { (lent : Lent) → IsLeased conn_view lent lease.old → IsLeased conn_view lent lease.new }
{
    if !pulled {
        return NO_PULLS;
    }
    let mut data = [0; 64];
    let mut rest = [0; 64];
    let first = pull_once(wire, lease, from, &mut data);
    let second = pull_once(wire, lease, from, &mut rest);
    let third = pull_once(wire, lease, from, &mut rest);
    Pulls {
        steps: [first, second, third],
        data,
    }
}

// Makes a trip to host 0, whose reply is pulled or not, and finishes it.
fn trip(rig: &mut Rig, guard: &mut Timer, out: &OutHead, body: &Rewindable, pulled: bool) -> Went
    requires fresh { rig.old.wire.aged ≡ false }
    requires looked { guard.old.last ≡ 0 }
    requires rested { IsRested rig.old.pool }
    requires within { 0 < rig.old.pool.limits.hosts }
    requires kept { IsKept out.now.framing body.now }
    requires room { rig.old.buffers.out.size ≡ out_size }
    ensures fresh { rig.new.wire.aged ≡ false }
    ensures rested { IsRested rig.new.pool }
    ensures within { 0 < rig.new.pool.limits.hosts }
    ensures room { rig.new.buffers.out.size ≡ out_size }
{
    let order = Order {
        out,
        host: 0,
        addr: &BACKEND,
    };
    let mut pulls = NO_PULLS;
    let came = match round_trip(
        &mut rig.wire,
        &mut rig.pool,
        guard,
        &order,
        body,
        &mut rig.buffers,
    ) {
        Attempted::Reply(got, reply) => {
            let mut lease = got;
            pulls = pull_body(&mut rig.wire, &mut lease, &mut rig.buffers.backend, pulled);
            finish(
                &mut rig.wire,
                &mut rig.pool,
                lease,
                &reply,
                &rig.buffers.backend,
            );
            Came::Reply(reply.head.code)
        }
        Attempted::Failed(why) => Came::Failed(why),
        Attempted::Over(end) => Came::Over(end),
        Attempted::Unreachable => Came::Unreachable,
        Attempted::Full => Came::Full,
    };
    Went { came, pulls }
}

/// Makes a trip of a request with this body.
pub(crate) fn ask(
    alloc: Global,
    rig: &mut Rig,
    guard: &mut Timer,
    asked: &Asked,
    body: &[u8],
    pulled: bool,
) -> Result<Went, AllocError>
    requires fresh { rig.old.wire.aged ≡ false }
    requires looked { guard.old.last ≡ 0 }
    requires rested { IsRested rig.old.pool }
    requires within { 0 < rig.old.pool.limits.hosts }
    requires room { rig.old.buffers.out.size ≡ out_size }
    ensures fresh { rig.new.wire.aged ≡ false }
    ensures rested { IsRested rig.new.pool }
    ensures within { 0 < rig.new.pool.limits.hosts }
    ensures room { rig.new.buffers.out.size ≡ out_size }
{
    let kept = Rewindable::new(body.to_vec(alloc)?);
    let out = out_head(alloc, asked, kept.again())?;
    Ok(trip(rig, guard, &out, &kept, pulled))
}

/// Makes a trip of a GET, whose reply is pulled.
pub(crate) fn get(alloc: Global, rig: &mut Rig) -> Result<Went, AllocError>
    requires fresh { rig.old.wire.aged ≡ false }
    requires rested { IsRested rig.old.pool }
    requires within { 0 < rig.old.pool.limits.hosts }
    requires room { rig.old.buffers.out.size ≡ out_size }
    ensures fresh { rig.new.wire.aged ≡ false }
    ensures rested { IsRested rig.new.pool }
    ensures within { 0 < rig.new.pool.limits.hosts }
    ensures room { rig.new.buffers.out.size ≡ out_size }
{
    ask(alloc, rig, &mut half_a_minute(), &GET, b"", true)
}

// A link that answers twice.
const TWICE: Line = Line {
    number: 7,
    sends: &[HELLO, EMPTY],
    fails: false,
    takes: &[],
};

fn answers_twice(acts: &[Act]) -> bool {
    match acts {
        [
            Act::Dialed(0, _, 7),
            Act::Wrote(7, _),
            Act::Read(7, _),
            Act::Wrote(7, _),
            Act::Read(7, _),
        ] => true,
        _ => false,
    }
}

// Whether a reply of five bytes was pulled to its end.
fn is_hello(pulls: &Pulls) -> bool {
    pulls.steps == [Pull::Data(5), Pull::Done, Pull::Done] && pulls.data.starts_with(b"hello")
}

/// A reply is pulled to its end, and its connection serves the next trip.
#[test]
fn one_get(rt: HostRuntime) -> Result<(), Fail> {
    let alloc = rt.alloc();
    let mut rig = make_rig(alloc, &TWICE)?;
    let first = get(alloc, &mut rig)?;
    let second = get(alloc, &mut rig)?;
    assert!(rt; first.came == Came::Reply(200));
    assert!(rt; is_hello(&first.pulls));
    assert!(rt; second.came == Came::Reply(200));
    assert!(rt; answers_twice(rig.wire.acts()));
    assert!(rt; taken(alloc, rig.wire.acts(), 7)?.as_slice() == TWO_GETS);
    Ok(())
}

// A link that answers once.
const ONCE: Line = Line {
    number: 7,
    sends: &[EMPTY],
    fails: false,
    takes: &[],
};

// Whether a link took these bytes behind a POST's head, in so many writes.
fn took(alloc: Global, acts: &[Act], made: usize, body: &[u8]) -> Result<bool, AllocError> {
    let text = taken(alloc, acts, 7)?;
    Ok(writes(acts, 7) == made && text.as_slice().strip_prefix(POST_HEAD) == Some(body))
}

// Whether a kept body of so many bytes goes out whole behind its head, in so many writes.
fn is_sent(alloc: Global, count: usize, made: usize) -> Result<bool, AllocError> {
    let mut rig = make_rig(alloc, &ONCE)?;
    let body = vec![in alloc; b'x'; count]?;
    let went = ask(alloc, &mut rig, &mut half_a_minute(), &POST, &body, false)?;
    let all = took(alloc, rig.wire.acts(), made, &body)?;
    Ok(all && went.came == Came::Reply(200))
}

/// A body goes out with its head in one write where a buffer has room for both, and else in two.
#[test]
fn head_and_body(rt: HostRuntime) -> Result<(), Fail> {
    assert!(rt; is_sent(rt.alloc(), 1_000, 1)?);
    assert!(rt; is_sent(rt.alloc(), 200_000, 2)?);
    Ok(())
}
