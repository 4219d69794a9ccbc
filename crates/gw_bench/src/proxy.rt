//! A proxy that passes on one exchange of each connection, for the measure of bodies that are relayed.

ghost use Rattle.std.specs.Prelude.{◌≡◌, ◌≤◌, length, false, IfOk, IfSome};
ghost use Rattle.gw_stream.specs.Outbox.{out_size};

use gw_body::BodyReader;
use gw_head::Framing;
use gw_stream::{Guard, Heard, Inbox, Incoming, Outbox, Relayed, Silences, Timer, relay};
use gw_tcp::{TcpConn, TcpWire, listen};
use gw_wire::{Accept, Addr, Dial, Wire};
use std::alloc::{AllocError, Global};

/// How many milliseconds a peer may be silent.
const SILENCE: Option<u64> = Some(10_000);

const SILENCES: Silences = Silences {
    source: SILENCE,
    target: SILENCE,
};

/// In how many pieces a head may come.
const PIECES: u32 = 65_537;

/// How the bodies of an exchange are framed: the request's, and the reply's.
#[derive(Clone, Copy)]
pub(crate) struct Form {
    request: Framing,
    reply: Framing,
}

/// The form of a name; a body that isn't in chunks has so many bytes.
pub(crate) fn form_of(name: &str, length: u64) -> Option<Form> {
    let (request, reply) = match name {
        "down-length" => (Framing::None, Framing::Length(length)),
        "down-chunked" => (Framing::None, Framing::Chunked),
        "up-length" => (Framing::Length(length), Framing::None),
        _ => return None,
    };
    Some(Form { request, reply })
}

/// What the exchanges use one after the other; it is made once.
#[derive(Drop)]
pub(crate) struct Kept {
    from: Incoming,
    out: Outbox,
    head: Vec<u8>,
    ghost size: { out.size ≡ out_size },
}

impl Kept {
    pub(crate) fn new(alloc: Global) -> Result<Kept, AllocError> {
        Ok(Kept {
            from: Incoming {
                body: BodyReader::new(Framing::None),
                inbox: Inbox::new(alloc)?,
            },
            out: Outbox::new(alloc)?,
            head: Vec::new(alloc),
        })
    }
}

/// Listens on a port of this machine, and passes the exchanges of its clients on to another port, one after the other.
pub(crate) fn serve(
    rt: &HostRuntime,
    port: u16,
    backend: u16,
    form: Form,
) -> Result<(), anyhow::Error> {
    let listener = listen(rt, &local(port))?;
    let mut wire = TcpWire::new(rt.clone()?, listener, 0, 1);
    let mut kept = Kept::new(rt.alloc())?;
    for _turn in 0..u64::MAX {
        match wire.accept() {
            Accept::Conn(client, _) => serve_one(
                &mut wire,
                client,
                &local(backend),
                &mut kept,
                form,
            )?,
            Accept::Tick => {}
            Accept::Ended | Accept::Failed => return Ok(()),
        }
    }
    Ok(())
}

// A port of this machine.
fn local(port: u16) -> Addr {
    Addr {
        local: true,
        ip: [127, 0, 0, 1],
        port,
    }
}

// Passes one client's request on, and then its reply. Whether both went whole is the client's to see.
fn serve_one(
    wire: &mut TcpWire<HostRuntime>,
    client: TcpConn,
    addr: &Addr,
    kept: &mut Kept,
    form: Form,
) -> Result<(), AllocError> {
    let mut client = client;
    if let Dial::Conn(mut backend) = wire.dial(0, addr) {
        let _now = wire.now();
        let guard = &mut Timer::new(None);
        let (from, to) = (&mut client, &mut backend);
        if pass(wire, guard, from, to, kept, form.request)? {
            let _whole = pass(wire, guard, to, from, kept, form.reply)?;
        }
        wire.close(backend);
    }
    wire.close(client);
    Ok(())
}

/// Passes one message on, and says whether it came and went whole.
pub(crate) fn pass<W: Wire, G: Guard>(
    wire: &mut W,
    guard: &mut G,
    source: &mut W::Conn,
    target: &mut W::Conn,
    kept: &mut Kept,
    framing: Framing,
) -> Result<bool, AllocError>
    requires fresh { (W.wire wire.old).aged ≡ false }
    requires looked { (G.guard guard.old).last ≤ (W.wire wire.old).moment }
    ensures fresh { (W.wire wire.new).aged ≡ false }
    ensures looked { (G.guard guard.new).last ≤ (W.wire wire.new).moment }
{
    kept.from.inbox.clear();
    kept.from.body = BodyReader::new(framing);
    if !hear_head(wire, guard, source, &mut kept.from.inbox, &mut kept.head)? {
        return Ok(false);
    }
    kept.out.restart(framing == Framing::Chunked);
    if !kept.out.takes_head(&kept.head) {
        return Ok(false);
    }
    kept.out.put_head(&kept.head);
    let end = relay(
        wire,
        guard,
        source,
        target,
        &mut kept.from,
        &mut kept.out,
        SILENCES,
    );
    Ok(end == Relayed::Whole)
}

// Waits until a head is whole, and keeps it; what came behind it is ahead then. Says whether it came whole.
fn hear_head<W: Wire, G: Guard>(
    wire: &mut W,
    guard: &mut G,
    conn: &mut W::Conn,
    inbox: &mut Inbox,
    head: &mut Vec<u8>,
) -> Result<bool, AllocError>
    requires fresh { (W.wire wire.old).aged ≡ false }
    requires looked { (G.guard guard.old).last ≤ (W.wire wire.old).moment }
    ensures fresh { (W.wire wire.new).aged ≡ false }
    ensures looked { (G.guard guard.new).last ≤ (W.wire wire.new).moment }
{
    head.clear();
    for _piece in 0..PIECES {
        inbox.clear();
        match inbox.hear(wire, guard, conn, SILENCE) {
            Heard::Got => {}
            Heard::Lost(_) => return Ok(false),
        }
        if let Some(used) = keep_head(inbox.ahead(), head)? {
            inbox.skip(used);
            return Ok(true);
        }
    }
    Ok(false)
}

// Keeps bytes up to a head's blank line; says how many these are, where it comes.
fn keep_head(bytes: &[u8], head: &mut Vec<u8>) -> Result<Option<usize>, AllocError>
    ensures { IfOk result (λ used. IfSome used (λ count. count ≤ length bytes.now)) }
{
    for (at, byte) in bytes.iter().enumerate() {
        head.push(*byte)?;
        if head.as_slice().ends_with(b"\r\n\r\n") {
            return Ok(Some(at + 1));
        }
    }
    Ok(None)
}
