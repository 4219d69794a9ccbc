// Real sockets and a real clock as a wire. Nothing is told of what they hold.

ghost use Rattle.std.specs.Prelude.{◌≡◌, ◌<◌, ◌≤◌, true};
ghost use Rattle.gw_wire.specs.Visible.{AreVisible, is_visible};

use arrayvec::ArrayVec;
use gw_wire::{Accept, Addr, Dial, Link, PeerText, Read, Wire, Write};
use std::io;
use std::io::ErrorKind;
use std::net::{Ipv4Addr, Net, Shutdown, SocketAddr, SocketAddrV4, TcpListener, TcpStream};
use std::rt::Clock;
use std::sync::Arc;
use std::time::Duration;

/// How long an accept, a read or a write waits before it is a tick, in milliseconds.
const TICK_MS: u64 = 100;

/// How long a dial waits for its backend, in milliseconds.
const DIAL_MS: u64 = 5_000;

/// How long a rest is, in milliseconds.
const REST_MS: u64 = 1;

/// How many reads, and how many bytes each, a close takes from a client that is still sending.
const DRAIN_READS: u32 = 64;

const DRAIN_BYTES: usize = 4_096;

/// The first moment of the year 10000, in milliseconds since 1970-01-01T00:00:00Z.
const YEAR_10000: u64 = 253_402_300_800_000;

// The longest text of an IPv4 address.
type Dotted = ArrayVec<u8, 15>;

/// A connection of the system.
#[derive(Drop)]
pub struct TcpConn {
    number: u64,
    stream: TcpStream,
    accepted: bool,
    faults: u64,
    ends: u64,
}

impl Link for TcpConn {
    ghost link = { λ c. record { number = c.number; faults = c.faults; ends = c.ends } };

    fn number(&self) -> u64 {
        self.number
    }
}

/// A listener, the connections that come of it and of dials, and the clock.
#[derive(Drop)]
pub struct TcpWire<R> {
    rt: R,
    listener: TcpListener,
    // the number of the next link, and the distance to the one after it
    next: u64,
    stride: u64,
    accept_faults: u64,
    dial_faults: u64,
    ticks: u64,
    rests: u64,
    moment: u64,
    first: u64,
    asked: u64,
    aged: bool,
    ghost begun: { first ≤ moment },
    ghost year: { moment < 253402300800000 },
}

// An operation that has to be tried again later, and hasn't failed.
fn is_tick(error: &io::Error) -> bool {
    match error.kind() {
        ErrorKind::WouldBlock => true,
        ErrorKind::TimedOut => true,
        ErrorKind::Interrupted => true,
        _ => false,
    }
}

impl<R: Net<Listener = TcpListener, Stream = TcpStream> + Clock + Drop> Wire for TcpWire<R> {
    ghost use Rattle.gw_tcp.specs.TcpView.{tcp_view};

    type Conn = TcpConn;

    ghost wire = { tcp_view };

    fn accept(&mut self) -> Accept<TcpConn> {
        match self.listener.accept() {
            Ok((stream, peer)) => Accept::Conn(
                number_conn(&mut self.next, self.stride, stream, true),
                peer_text(peer),
            ),
            Err(error) => {
                if is_tick(&error) || error.kind() == ErrorKind::ConnectionAborted {
                    self.ticks = self.ticks.saturating_add(1);
                    return Accept::Tick;
                }
                self.accept_faults = self.accept_faults.saturating_add(1);
                Accept::Failed
            }
        }
    }

    fn dial(&mut self, _host: u32, addr: &Addr) -> Dial<TcpConn> {
        match connect(&self.rt, addr) {
            Ok(stream) => Dial::Conn(number_conn(&mut self.next, self.stride, stream, false)),
            Err(_) => {
                self.dial_faults = self.dial_faults.saturating_add(1);
                Dial::Failed
            }
        }
    }

    fn read(&mut self, c: &mut TcpConn, buf: &mut [u8]) -> Read {
        self.asked = self.moment;
        match io::Read::read(&mut c.stream, buf) {
            Ok(0) => {
                c.ends = c.ends.saturating_add(1);
                Read::End
            }
            Ok(n) => Read::Got(n),
            Err(error) => {
                if is_tick(&error) {
                    self.ticks = self.ticks.saturating_add(1);
                    self.aged = true;
                    return Read::Tick;
                }
                c.faults = c.faults.saturating_add(1);
                Read::Failed
            }
        }
    }

    fn write(&mut self, c: &mut TcpConn, bytes: &[u8]) -> Write {
        self.asked = self.moment;
        match io::Write::write(&mut c.stream, bytes) {
            Ok(0) => {
                c.faults = c.faults.saturating_add(1);
                Write::Failed
            }
            Ok(n) => Write::Took(n),
            Err(error) => {
                if is_tick(&error) {
                    self.ticks = self.ticks.saturating_add(1);
                    self.aged = true;
                    return Write::Tick;
                }
                c.faults = c.faults.saturating_add(1);
                Write::Failed
            }
        }
    }

    fn close(&mut self, c: TcpConn) {
        let mut c = c;
        if c.accepted {
            drain(&self.rt, &mut c.stream);
        }
    }

    fn rest(&mut self) {
        self.rests = self.rests.saturating_add(1);
        self.asked = self.moment;
        self.aged = true;
        self.rt.sleep(Duration::from_millis(REST_MS));
    }

    fn now(&mut self) -> u64 {
        self.moment = clock(&self.rt, self.moment);
        self.aged = false;
        self.moment
    }
}

impl<R: Clock> TcpWire<R> {
    ghost use Rattle.std.specs.Prelude.{◌≡◌};
    ghost use Rattle.gw_wire.specs.World.{IsAlone};
    ghost use Rattle.gw_tcp.specs.TcpView.{tcp_view};

    /// The wire of one of so many workers, over a listener whose accepts come back after a tick. Its links have the
    /// worker's number, and from then on each so many more.
    pub fn new(rt: R, listener: TcpListener, worker: u32, workers: u32) -> TcpWire<R>
        ensures { IsAlone (tcp_view result) }
    {
        let moment = clock(&rt, 0);
        TcpWire {
            rt,
            listener,
            next: u64::from(worker),
            stride: u64::from(workers),
            accept_faults: 0,
            dial_faults: 0,
            ticks: 0,
            rests: 0,
            moment,
            first: moment,
            asked: 0,
            aged: false,
        }
    }
}

// A connection with the next number.
fn number_conn(next: &mut u64, stride: u64, stream: TcpStream, accepted: bool) -> TcpConn {
    let number = *next;
    *next = next.saturating_add(stride);
    TcpConn {
        number,
        stream,
        accepted,
        faults: 0,
        ends: 0,
    }
}

/// A listener on an address whose accepts come back after a tick. The connections that it accepts inherit the
/// options: no delay of small writes, and reads and writes that come back after a tick.
pub fn listen<R: Net<Listener = TcpListener, Stream = TcpStream>>(
    rt: &R,
    addr: &Addr,
) -> io::Result<TcpListener> {
    let listener = TcpListener::bind(rt, socket_addr(addr))?;
    // std sets timeouts on streams only; the socket beneath is the same
    let socket = TcpStream::from(std::os::fd::OwnedFd::from(listener));
    set_options(&socket)?;
    Ok(TcpListener::from(std::os::fd::OwnedFd::from(socket)))
}

fn connect<R: Net<Listener = TcpListener, Stream = TcpStream>>(
    rt: &R,
    addr: &Addr,
) -> io::Result<TcpStream> {
    let limit = Duration::from_millis(DIAL_MS);
    let stream = TcpStream::connect_timeout(rt, &socket_addr(addr), limit)?;
    set_options(&stream)?;
    Ok(stream)
}

fn set_options(socket: &TcpStream) -> io::Result<()> {
    let tick = Some(Duration::from_millis(TICK_MS));
    socket.set_nodelay(true)?;
    socket.set_read_timeout(tick)?;
    socket.set_write_timeout(tick)
}

fn socket_addr(addr: &Addr) -> SocketAddr {
    SocketAddr::V4(SocketAddrV4::new(Ipv4Addr::from_octets(addr.ip), addr.port))
}

// The moment, in milliseconds since 1970-01-01T00:00:00Z: never before the last one, and before the year 10000.
fn clock<R: Clock>(rt: &R, last: u64) -> u64
    requires { last < 253402300800000 }
    ensures later { last ≤ result }
    ensures year { result < 253402300800000 }
{
    let Ok(time) = rt.since_1970() else {
        return last;
    };
    let now = time
        .as_secs()
        .saturating_mul(1_000)
        .saturating_add(u64::from(time.subsec_millis()));
    now.clamp(last, YEAR_10000 - 1)
}

// Says that nothing more comes, and takes what the peer still sends for a little while, so that a reset doesn't
// destroy what it hasn't read yet (RFC 9112, section 9.6).
fn drain<R: Clock>(rt: &R, stream: &mut TcpStream) {
    if stream.shutdown(Shutdown::Write).is_err() {
        return;
    }
    let begin = clock(rt, 0);
    let mut dropped = [0; DRAIN_BYTES];
    for _ in 0..DRAIN_READS {
        match io::Read::read(stream, &mut dropped) {
            Ok(0) => return,
            Ok(_) => {}
            Err(_) => return,
        }
        if clock(rt, begin) - begin > TICK_MS {
            return;
        }
    }
}

// The dotted text of an IPv4 address, and for any other that of 0.0.0.0.
fn peer_text(peer: SocketAddr) -> PeerText
    ensures { AreVisible result }
{
    let [a, b, c, d] = match peer {
        SocketAddr::V4(peer) => peer.ip().octets(),
        SocketAddr::V6(_) => [0; 4],
    };
    let mut text = ArrayVec::new();
    push_number(&mut text, a);
    push(&mut text, b'.');
    push_number(&mut text, b);
    push(&mut text, b'.');
    push_number(&mut text, c);
    push(&mut text, b'.');
    push_number(&mut text, d);
    match PeerText::new(text.as_slice()) {
        Some(text) => text,
        None => unreachable!(),
    }
}

// A byte more where there is room; four numbers and three dots have room.
fn push(text: &mut Dotted, byte: u8)
    requires visible { is_visible byte ≡ true }
    requires before { AreVisible text.old.items }
    ensures { AreVisible text.new.items }
{
    if !text.is_full() {
        text.push(byte);
    }
}

fn push_number(text: &mut Dotted, n: u8)
    requires before { AreVisible text.old.items }
    ensures { AreVisible text.new.items }
{
    if n >= 100 {
        push(text, b'0' + n / 100);
    }
    if n >= 10 {
        push(text, b'0' + n / 10 % 10);
    }
    push(text, b'0' + n % 10);
}
