//! Trips of requests whose bodies are read of a client's link.

ghost use Rattle.std.specs.Prelude.{◌≡◌, ◌<◌, [], false};
ghost use Rattle.gw_stream.specs.Outbox.{out_size};
ghost use Rattle.gw_transport.specs.Leasing.{IsRested};

use crate::attempts::{Attempted, Order, upload_trip};
use crate::ending::finish;
use crate::test_rig::Rig;
use crate::tests::{BACKEND, half_a_minute};
use crate::trip_tests::Came;
use crate::uploading::Upload;
use gw_body::BodyReader;
use gw_head::Framing;
use gw_proxy::OutHead;
use gw_wire::{Bytes, MemConn, Wire};
use http::Method;
use std::alloc::{AllocError, Global};

pub(crate) const HEAD: &[u8] = b"POST / HTTP/1.1\r\n\r\n";

fn out_head(alloc: Global, framing: Framing) -> Result<OutHead, AllocError> {
    Ok(OutHead {
        bytes: Bytes::new(HEAD.to_vec(alloc)?),
        method: Method::POST,
        has_key: true,
        framing,
    })
}

/// Reads what comes first of the client's link, where it is to be ahead.
pub(crate) fn read_ahead(rig: &mut Rig, client: &mut MemConn, ahead: bool)
    requires fresh { rig.old.wire.aged ≡ false }
    requires used { rig.old.buffers.client.inbox ≡ [] }
    ensures fresh { rig.new.wire.aged ≡ false }
    ensures pool { rig.new.pool ≡ rig.old.pool }
    ensures room { rig.new.buffers.out.size ≡ rig.old.buffers.out.size }
{
    if !ahead {
        return;
    }
    let inbox = &mut rig.buffers.client.inbox;
    let _ = inbox.hear(&mut rig.wire, &mut half_a_minute(), client, None);
    let _ = rig.wire.now();
}

/// What came of an upload, and how many bytes of `100 Continue` its client took.
#[derive(Clone, Copy)]
pub(crate) struct Went {
    pub(crate) came: Came,
    pub(crate) continued: usize,
}

// Makes a trip to host 0, and finishes its reply.
fn trip(rig: &mut Rig, client: &mut MemConn, out: &OutHead, expect: bool) -> Went
    requires fresh { rig.old.wire.aged ≡ false }
    requires rested { IsRested rig.old.pool }
    requires within { 0 < rig.old.pool.limits.hosts }
    requires room { rig.old.buffers.out.size ≡ out_size }
{
    let order = Order {
        out,
        host: 0,
        addr: &BACKEND,
    };
    let mut upload = Upload {
        expect,
        continued: 0,
        client_ms: 500,
    };
    let mut guard = half_a_minute();
    let came = match upload_trip(
        &mut rig.wire,
        &mut rig.pool,
        &mut guard,
        &order,
        client,
        &mut upload,
        &mut rig.buffers,
    ) {
        Attempted::Reply(lease, reply) => {
            finish(
                &mut rig.wire,
                &mut rig.pool,
                lease,
                &reply,
                &rig.buffers.backend,
            );
            Came::Reply(reply.head.code)
        }
        Attempted::Failed(why) => Came::Failed(why),
        Attempted::Over(end) => Came::Over(end),
        Attempted::Unreachable => Came::Unreachable,
        Attempted::Full => Came::Full,
    };
    Went {
        came,
        continued: upload.continued,
    }
}

/// Makes a trip of a body with this framing.
pub(crate) fn send(
    alloc: Global,
    rig: &mut Rig,
    client: &mut MemConn,
    framing: Framing,
    expect: bool,
) -> Result<Went, AllocError>
    requires fresh { rig.old.wire.aged ≡ false }
    requires rested { IsRested rig.old.pool }
    requires within { 0 < rig.old.pool.limits.hosts }
    requires room { rig.old.buffers.out.size ≡ out_size }
{
    let out = out_head(alloc, framing)?;
    rig.buffers.client.body = BodyReader::new(framing);
    Ok(trip(rig, client, &out, expect))
}
