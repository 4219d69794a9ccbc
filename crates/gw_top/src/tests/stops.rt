//! Runs that a request stops.

ghost use Rattle.std.specs.Prelude.{◌≡◌, IfOk};
ghost use Rattle.gw_wire.specs.World.{IsAlone};
ghost use Rattle.gw_wire.specs.Memory.{wire_view};

use super::{
    AcceptEvent, Act, MemWire, Moment, NOW, PeerText, Script, run_gateway, sends, words, world,
    written_to,
};
use std::alloc::{AllocError, Global};
use std::test::Fail;

const STOP_FILE: &[u8] =
    b"{\"listen\":\"127.0.0.1:8080\",\"workers\":1,\"routes\":[{\"pattern\":\"/stop\",\"stop\":true},{\"pattern\":\"/\",\"backend\":\"http://127.0.0.1:9000\"}]}";

// A wire with one client that stops the gateway and asks for more, and another one behind it.
fn stopping_wire(alloc: Global) -> Result<MemWire, AllocError>
    ensures { IfOk result (λ wire. IsAlone (wire_view wire)) }
{
    let stop =
        b"GET /stop HTTP/1.1\r\nHost: example.com\r\n\r\nGET / HTTP/1.1\r\nHost: example.com\r\n\r\n";
    let mut accepts = Vec::new(alloc);
    if let Some(peer) = PeerText::new(b"10.0.0.7") {
        accepts.push(AcceptEvent::Conn(sends(alloc, 1, stop)?, peer))?;
    }
    if let Some(peer) = PeerText::new(b"10.0.0.8") {
        accepts.push(AcceptEvent::Conn(
            sends(alloc, 2, b"GET / HTTP/1.1\r\nHost: a\r\n\r\n")?,
            peer,
        ))?;
    }
    let moments = vec![in alloc; Moment { from: 0, at: NOW }]?;
    MemWire::new(
        alloc,
        Script {
            accepts,
            dials: Vec::new(alloc),
            moments,
            acts: 32,
            bytes: 1_024,
        },
    )
}

// Whether the first client was served and closed, and nothing was done behind it.
fn ends_behind_the_first(acts: &[Act]) -> bool {
    matches!(
        acts,
        [
            Act::Accepted(1, _),
            Act::Read(1, _),
            Act::Wrote(1, _),
            Act::Closed(1)
        ]
    )
}

/// A stop is answered. Behind it neither the request that its client sent already is begun nor another client accepted.
#[test]
fn stop_route(rt: HostRuntime) -> Result<(), Fail> {
    let alloc = rt.alloc();
    let mut world = world(alloc, STOP_FILE, stopping_wire(alloc)?)?;
    let words = words(alloc, &["serve", "routes.json"])?;
    let report = run_gateway(&rt, alloc, words.as_slice(), &mut world);
    assert_eq!(rt; (report.status, report.journal.len()), (0, 0));
    assert_eq!(rt; report.workers.len(), 1);
    let worker = &report.workers[0];
    assert_eq!(rt; worker.entered, 1);
    let acts = worker.wire.acts();
    assert_eq!(rt;
        written_to(alloc, acts, 1)?.as_slice(),
        b"HTTP/1.1 200 OK\r\nConnection: close\r\nContent-Length: 7\r\nDate: Sun, 06 Nov 1994 08:49:37 GMT\r\n\r\n200 OK\n".as_slice()
    );
    assert!(rt; ends_behind_the_first(acts));
    Ok(())
}
