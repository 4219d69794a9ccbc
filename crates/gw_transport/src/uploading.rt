//! One attempt of a request whose body is read of the client's link as it is sent.

ghost use Rattle.std.specs.Prelude.{◌≡◌, ◌≤◌, Some, false};
ghost use Rattle.gw_wire.specs.Link.{LinkLater};
ghost use Rattle.gw_stream.specs.Outbox.{out_size};
ghost use Rattle.gw_stream.specs.Waits.{CountedStep, side};
ghost use Rattle.gw_transport.specs.Attempts.{AttemptStep};
ghost use Rattle.gw_transport.specs.Uploading.{ClientCause, ExchangesUpload, Loads, client_lost, client_stopped, continue_of, is_chunked, upload_view};

use crate::attempts::Tried;
use crate::buffers::Buffers;
use crate::replying::{Begun, End, hear_reply, stopped};
use crate::sending::unwritten;
use gw_head::Framing;
use gw_proxy::OutHead;
use gw_retry::Failure;
use gw_stream::{Guard, Loss, Outbox, Relayed, Sent, Silences, Stop, relay, write_counted};
use gw_wire::Wire;

/// What a client is told before it sends a body for which it waits to be told (RFC 9110, section 10.1.1).
const CONTINUE: &[u8] = b"HTTP/1.1 100 Continue\r\n\r\n";

/// How a client sends its body.
#[derive(Clone, Copy, Debug, PartialEq, Eq)]
pub struct Upload {
    /// Whether the client waits for `100 Continue` before it sends it.
    pub expect: bool,
    /// How many bytes of `100 Continue` were written to it.
    pub continued: usize,
    /// How many milliseconds it may let one wait last.
    pub client_ms: u64,
}

/// Writes a request and its body, which comes of the client's link, and awaits the reply. The client is told to go on
/// first, where it waits for that.
pub(crate) fn exchange_upload<W: Wire, G: Guard>(
    wire: &mut W,
    guard: &mut G,
    conn: &mut W::Conn,
    client: &mut W::Conn,
    out: &OutHead,
    upload: &mut Upload,
    buffers: &mut Buffers,
) -> Tried<Begun, End>
    requires fresh { (W.wire wire.old).aged ≡ false }
    requires looked { (G.guard guard.old).last ≤ (W.wire wire.old).moment }
    requires none { upload.old.continued ≡ 0 }
    requires room { buffers.old.out.size ≡ out_size }
    ensures step { AttemptStep (W.wire wire.old) (W.wire wire.new) (G.guard guard.old) (G.guard guard.new)
        (ExchangesUpload (upload_view out.now (W.Conn.link client.old).number upload.old buffers.old.client buffers.old.backend)
        (upload_view out.now (W.Conn.link client.new).number upload.new buffers.new.client buffers.new.backend) (W.Conn.link conn.old).number result) result }
    ensures client { LinkLater (W.Conn.link client.old) (W.Conn.link client.new) }
    ensures cause { ClientCause (W.Conn.link client.old) (W.Conn.link client.new) result }
    ensures room { buffers.new.out.size ≡ buffers.old.out.size }
    ensures link { (W.Conn.link conn.new).number ≡ (W.Conn.link conn.old).number }
    ensures guard { G.keeper guard.new ≡ G.keeper guard.old }
{
    if !load(&mut buffers.out, out) {
        return Tried::Over(End::NoMemory);
    }
    match say_continue(wire, guard, client, upload) {
        Sent::All => {}
        Sent::Failed(_) => return Tried::Over(End::ClientFailed),
        Sent::Stopped(why) => return client_stopped(why),
    }
    let silences = Silences {
        source: Some(upload.client_ms),
        target: None,
    };
    match relay(
        wire,
        guard,
        client,
        conn,
        &mut buffers.client,
        &mut buffers.out,
        silences,
    ) {
        Relayed::Whole => hear_reply(
            wire,
            guard,
            conn,
            &mut buffers.reader,
            &mut buffers.backend,
            &out.method,
        ),
        Relayed::Bad(error) => Tried::Over(End::Body(error)),
        Relayed::Lost(why) => client_lost(why),
        Relayed::WriteFailed(some) => Tried::Failed(unwritten(some)),
        Relayed::WriteStopped(why) => Tried::Failed(stopped(why)),
        Relayed::Spent => Tried::Over(End::NoMemory),
    }
}

// Puts a request's head where its body will follow, if there is room for it.
fn load(text: &mut Outbox, out: &OutHead) -> bool
    requires { text.old.size ≡ out_size }
    ensures { Loads text.old text.new out.now result }
{
    text.restart(is_chunked(out.framing));
    if !text.takes_head(out.bytes.as_slice()) {
        return false;
    }
    text.put_head(out.bytes.as_slice());
    true
}

// Tells the client to go on, where it waits for that, and notes how many bytes of it were taken.
fn say_continue<W: Wire, G: Guard>(
    wire: &mut W,
    guard: &mut G,
    client: &mut W::Conn,
    upload: &mut Upload,
) -> Sent
    requires fresh { (W.wire wire.old).aged ≡ false }
    requires looked { (G.guard guard.old).last ≤ (W.wire wire.old).moment }
    requires none { upload.old.continued ≡ 0 }
    ensures step { CountedStep (side (W.wire wire.old) (G.guard guard.old)) (side (W.wire wire.new) (G.guard guard.new))
        (W.Conn.link client.old) (W.Conn.link client.new) (continue_of upload.old.expect) upload.new.continued (Some upload.old.client_ms) result }
    ensures upload { upload.new ≡ record upload.old { continued = upload.new.continued } }
    ensures guard { G.keeper guard.new ≡ G.keeper guard.old }
{
    let text = continue_text(upload.expect);
    let silence = Some(upload.client_ms);
    write_counted(wire, guard, client, text, &mut upload.continued, silence)
}

// What a client is told that waits for it.
fn continue_text(expect: bool) -> &'static [u8]
    ensures { result.now ≡ continue_of expect }
{
    if expect { CONTINUE } else { b"" }
}

fn is_chunked(framing: Framing) -> bool
    ensures { result ≡ is_chunked framing }
{
    match framing {
        Framing::Chunked => true,
        Framing::None | Framing::Length(_) | Framing::ToEnd => false,
    }
}

// What an attempt comes to whose client was lost inside its body.
fn client_lost(why: Loss) -> Tried<Begun, End>
    ensures { result ≡ client_lost why }
{
    match why {
        Loss::End => Tried::Over(End::ClientEnd),
        Loss::Failed => Tried::Over(End::ClientFailed),
        Loss::Stopped(why) => client_stopped(why),
    }
}

// What an attempt comes to whose client is waited for no longer.
fn client_stopped(why: Stop) -> Tried<Begun, End>
    ensures { result ≡ client_stopped why }
{
    match why {
        Stop::Cancelled => Tried::Failed(Failure::Cancelled),
        Stop::Deadline => Tried::Failed(Failure::Deadline),
        Stop::Silent | Stop::Ticks => Tried::Over(End::ClientTimeout),
    }
}
