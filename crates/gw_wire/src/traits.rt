// What the gateway asks of the outside: links, wires and a world.

ghost use Rattle.std.specs.Prelude.{◌≡◌, ◌<◌, length, false};
ghost use Rattle.gw_wire.specs.AcceptStep.{AcceptStep};
ghost use Rattle.gw_wire.specs.DialStep.{DialStep};
ghost use Rattle.gw_wire.specs.Link.{LinkView};
ghost use Rattle.gw_wire.specs.ReadStep.{ReadStep};
ghost use Rattle.gw_wire.specs.Wire.{WireView, CloseStep, RestStep, NowStep};
ghost use Rattle.gw_wire.specs.World.{WorldView, LoadStep, ListenStep, PrintStep};
ghost use Rattle.gw_wire.specs.WriteStep.{WriteStep};

use crate::values::{Addr, PeerText};

/// One end of a connection. Its meanings are its number, which never changes, and how often it failed and ended.
pub trait Link: Drop {
    ghost link: { Self → LinkView };

    /// The link's number.
    fn number(&self) -> u64
        ensures { result ≡ (link self.now).number };
}

/// A number is a link by itself: that number, without a fault or an end.
impl Link for u64 {
    ghost link = { λ n. record { number = n; faults = 0; ends = 0 } };

    fn number(&self) -> u64 {
        *self
    }
}

/// What an accept gives.
#[derive(Drop)]
pub enum Accept<C> {
    /// A client's link, with its peer's address.
    Conn(C, PeerText),
    /// The listener ended; every later accept says so again.
    Ended,
    /// Nobody came within the wire's wait.
    Tick,
    /// The accept failed.
    Failed,
}

/// What a dial gives.
#[derive(Drop)]
pub enum Dial<C> {
    /// A link to a backend.
    Conn(C),
    /// The address could not be reached.
    Failed,
}

/// What a read gives.
#[derive(Clone, Copy, Debug, Drop)]
pub enum Read {
    /// So many bytes, at least one, at the buffer's front.
    Got(usize),
    /// The peer sends no more.
    End,
    /// Nothing came within the wire's wait.
    Tick,
    /// The read failed.
    Failed,
}

/// What a write gives.
#[derive(Clone, Copy, Debug, Drop)]
pub enum Write {
    /// So many bytes, at least one, were taken from the front.
    Took(usize),
    /// Nothing was taken within the wire's wait.
    Tick,
    /// The write failed.
    Failed,
}

/// One worker's way to its clients and backends, with a clock. Where it tells a log, each call appends the act that
/// its answer names. After a tick of `read` or `write`, and after a `rest`, the clock has to be read before the next
/// wait begins.
pub trait Wire: Drop {
    type Conn: Link + Send;

    ghost wire: { Self → WireView };

    /// Waits a little for a client.
    fn accept(&mut self) -> Accept<Self::Conn>
        ensures { AcceptStep Self.Conn.link (wire self.old) (wire self.new) result };

    /// Connects to a backend at an address, for the host of this number.
    fn dial(&mut self, host: u32, addr: &Addr) -> Dial<Self::Conn>
        ensures { DialStep Self.Conn.link (wire self.old) (wire self.new) host addr.now result };

    /// Reads from a link into the front of a buffer.
    fn read(&mut self, c: &mut Self::Conn, buf: &mut [u8]) -> Read
        requires room { 0 < length buf.old }
        requires fresh { (wire self.old).aged ≡ false }
        ensures { ReadStep (wire self.old) (wire self.new) (Self.Conn.link c.old) (Self.Conn.link c.new) buf.new result };

    /// Writes bytes to a link, from their front.
    fn write(&mut self, c: &mut Self::Conn, bytes: &[u8]) -> Write
        requires some { 0 < length bytes.now }
        requires fresh { (wire self.old).aged ≡ false }
        ensures { WriteStep (wire self.old) (wire self.new) (Self.Conn.link c.old) (Self.Conn.link c.new) bytes.now result };

    /// Closes a link; it can't fail.
    fn close(&mut self, c: Self::Conn)
        ensures { CloseStep (wire self.old) (wire self.new) (Self.Conn.link c).number };

    /// Waits a little.
    fn rest(&mut self)
        requires { (wire self.old).aged ≡ false }
        ensures { RestStep (wire self.old) (wire self.new) };

    /// Reads the clock: milliseconds since 1970-01-01T00:00:00Z. It never falls on one wire, and is before the year
    /// 10000.
    fn now(&mut self) -> u64
        ensures { NowStep (wire self.old) (wire self.new) result };
}

/// What loading a file gives.
#[derive(Debug, Drop)]
pub enum Loaded {
    /// The file's bytes.
    Bytes(Vec<u8>),
    /// The file can't be read.
    Failed,
    /// There is no memory for it.
    NoMemory,
}

/// What listening gives.
#[derive(Drop)]
pub enum Listening<W> {
    /// A wire for each worker.
    Wires(Vec<W>),
    /// The address can't be listened on.
    Failed,
    /// There is no memory for the wires.
    NoMemory,
}

/// What printing gives.
#[derive(Clone, Copy, Debug, Drop)]
pub enum Printed {
    /// All was printed.
    Done,
    /// Not all was printed.
    Failed,
}

/// The world around the program: its files, its listener and its output.
pub trait World {
    type Wire: Wire + Send;

    ghost world: { Self → WorldView };

    /// Loads the file of a name.
    fn read_routes(&mut self, name: &str) -> Loaded
        ensures { LoadStep (world self.old) (world self.new) name.now result };

    /// Listens on an address, with a wire for each worker.
    fn listen(&mut self, addr: &Addr, workers: u32) -> Listening<Self::Wire>
        ensures { ListenStep Self.Wire.wire (world self.old) (world self.new) addr.now workers result };

    /// Prints bytes.
    fn print(&mut self, bytes: &[u8]) -> Printed
        ensures { PrintStep (world self.old) (world self.new) bytes.now result };
}
