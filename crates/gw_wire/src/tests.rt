// The forms in memory, as a test of a crate above uses them.

ghost use Rattle.std.specs.Prelude.{◌≡◌, IfOk, IsTrue, [], ◌∷◌};
ghost use Rattle.std.specs.List.{list_all};
ghost use Rattle.gw_wire.specs.Script.{is_clock, is_honest_accept, is_honest_dial, is_visible_peer};

use super::*;
use std::alloc::{AllocError, Global};
use std::test::Fail;

const NOW: u64 = 784_111_777_000;

const HERE: Addr = Addr {
    local: true,
    ip: [127, 0, 0, 1],
    port: 80,
};

fn bytes(alloc: Global, text: &[u8]) -> Result<Bytes, AllocError> {
    Ok(Bytes::new(text.to_vec(alloc)?))
}

// A client that sends `hello`, then nothing for a while, and then fails; its writes take 3 bytes and then fail.
fn client(alloc: Global) -> Result<MemConn, AllocError> {
    let mut events = Vec::new(alloc);
    events.push(ConnEvent::Piece(bytes(alloc, b"")?))?;
    events.push(ConnEvent::Piece(bytes(alloc, b"hello")?))?;
    events.push(ConnEvent::Tick)?;
    events.push(ConnEvent::Failed)?;
    Ok(MemConn::new(7, events, vec![in alloc; 3, 0]?))
}

fn script(alloc: Global) -> Result<Script, AllocError>
    ensures moments { IfOk result (λ s. s.moments.items ≡ record { from = 0; at = 784111777000 } ∷ record { from = 2; at = 784111777500 } ∷ []) }
    ensures peers { IfOk result (λ s. IsTrue (list_all is_visible_peer s.accepts.items)) }
{
    let peer = PeerText::new(b"10.0.0.7");
    let mut accepts = Vec::new(alloc);
    accepts.push(AcceptEvent::Tick)?;
    if let Some(peer) = peer {
        accepts.push(AcceptEvent::Conn(client(alloc)?, peer))?;
    }
    accepts.push(AcceptEvent::Failed)?;
    Ok(Script {
        accepts,
        dials: Vec::new(alloc),
        moments: vec![in alloc;
            Moment { from: 0, at: NOW },
            Moment {
                from: 2,
                at: NOW + 500
            },
        ]?,
        acts: 16,
        bytes: 64,
    })
}

#[test]
fn reads_play_a_script(rt: HostRuntime) -> Result<(), Fail> {
    let mut wire = MemWire::new(rt.alloc(), script(rt.alloc())?)?;
    let mut buf = [0; 3];
    assert!(rt; matches!(wire.accept(), Accept::Tick));
    let Accept::Conn(mut conn, peer) = wire.accept() else {
        panic!(rt; "no client");
    };
    assert_eq!(rt; peer.as_slice(), b"10.0.0.7".as_slice());
    assert_eq!(rt; conn.number(), 7);
    assert_eq!(rt; wire.now(), NOW);
    assert!(rt; matches!(wire.read(&mut conn, &mut buf), Read::Got(3)));
    assert_eq!(rt; buf, *b"hel");
    assert_eq!(rt; wire.now(), NOW + 500);
    assert!(rt; matches!(wire.read(&mut conn, &mut buf), Read::Got(2)));
    assert_eq!(rt; buf, *b"lol");
    let _ = wire.now();
    assert!(rt; matches!(wire.read(&mut conn, &mut buf), Read::Tick));
    let _ = wire.now();
    assert!(rt; matches!(wire.read(&mut conn, &mut buf), Read::Failed));
    let _ = wire.now();
    assert!(rt; matches!(wire.read(&mut conn, &mut buf), Read::End));
    assert!(rt; wire.telling());
    assert!(rt; told_reads(wire.acts()));
    Ok(())
}

fn told_reads(acts: &[Act]) -> bool {
    match acts {
        [
            Act::Accepted(7, _),
            first,
            second,
            Act::ReadFailed(7),
            Act::End(7),
        ] => { is_read(first, b"hel") && is_read(second, b"lo") }
        _ => false,
    }
}

#[test]
fn writes_play_a_script(rt: HostRuntime) -> Result<(), Fail> {
    let mut wire = MemWire::new(rt.alloc(), script(rt.alloc())?)?;
    assert!(rt; matches!(wire.accept(), Accept::Tick));
    let Accept::Conn(mut conn, _peer) = wire.accept() else {
        panic!(rt; "no client");
    };
    assert!(rt; matches!(wire.write(&mut conn, b"world"), Write::Took(3)));
    let _ = wire.now();
    assert!(rt; matches!(wire.write(&mut conn, b"ld"), Write::Failed));
    wire.close(conn);
    assert!(rt; matches!(wire.dial(0, &HERE), Dial::Failed));
    assert!(rt; matches!(wire.accept(), Accept::Failed));
    assert!(rt; matches!(wire.accept(), Accept::Ended));
    assert!(rt; told_writes(wire.acts()));
    Ok(())
}

fn told_writes(acts: &[Act]) -> bool {
    match acts {
        [
            Act::Accepted(7, _),
            first,
            Act::WriteFailed(7),
            Act::Closed(7),
            Act::DialFailed(0, _),
            Act::AcceptFailed,
            Act::Ended,
        ] => is_written(first, b"wor"),
        _ => false,
    }
}

fn is_read(act: &Act, bytes: &[u8]) -> bool {
    match act {
        Act::Read(7, read) => read.as_slice() == bytes,
        _ => false,
    }
}

fn is_written(act: &Act, bytes: &[u8]) -> bool {
    match act {
        Act::Wrote(7, wrote) => wrote.as_slice() == bytes,
        _ => false,
    }
}

// A script on which nothing fails: a client that sends a line and ends.
fn honest_script(alloc: Global) -> Result<Script, AllocError>
    ensures clock { IfOk result (λ s. IsTrue (is_clock s.moments.items)) }
    ensures accepts { IfOk result (λ s. IsTrue (list_all is_honest_accept s.accepts.items)) }
    ensures peers { IfOk result (λ s. IsTrue (list_all is_visible_peer s.accepts.items)) }
    ensures dials { IfOk result (λ s. IsTrue (list_all is_honest_dial s.dials.items)) }
{
    Ok(Script {
        accepts: Vec::new(alloc),
        dials: Vec::new(alloc),
        moments: vec![in alloc; Moment { from: 0, at: NOW }]?,
        acts: 4,
        bytes: 16,
    })
}

#[test]
fn nothing_fails_on_an_honest_wire(rt: HostRuntime) -> Result<(), Fail> {
    let mut wire = HonestWire::new(rt.alloc(), honest_script(rt.alloc())?)?;
    let mut buf = [0; 3];
    assert!(rt; matches!(wire.accept(), Accept::Ended));
    let Dial::Conn(mut silent) = wire.dial(3, &HERE) else {
        panic!(rt; "a dial failed");
    };
    assert_eq!(rt; silent.number(), 0);
    let _ = wire.now();
    assert!(rt; matches!(wire.read(&mut silent, &mut buf), Read::End));
    assert!(rt; matches!(wire.acts(), [Act::Ended, Act::Dialed(3, _, 0), Act::End(0)]));
    Ok(())
}

// A script with one backend that answers at once.
fn answered(alloc: Global) -> Result<Script, AllocError>
    ensures clock { IfOk result (λ s. IsTrue (is_clock s.moments.items)) }
    ensures peers { IfOk result (λ s. IsTrue (list_all is_visible_peer s.accepts.items)) }
{
    let answer = ConnEvent::Piece(bytes(alloc, b"HTTP/1.1 204 No Content\r\n\r\n")?);
    let backend = MemConn::new(1, vec![in alloc; answer]?, vec![in alloc; 64]?);
    Ok(Script {
        accepts: Vec::new(alloc),
        dials: vec![in alloc; DialEvent::Conn(backend)]?,
        moments: vec![in alloc; Moment { from: 0, at: NOW }]?,
        acts: 8,
        bytes: 128,
    })
}

#[test]
fn wires_that_meet_wait_for_the_other_request(rt: HostRuntime) -> Result<(), Fail> {
    let alloc = rt.alloc();
    let (mut one, mut two) = MeetWire::pair(alloc, answered(alloc)?, answered(alloc)?)?;
    let mut buf = [0; 64];
    let Dial::Conn(mut first) = one.dial(0, &HERE) else {
        panic!(rt; "no backend");
    };
    let Dial::Conn(mut second) = two.dial(0, &HERE) else {
        panic!(rt; "no backend");
    };
    let _ = one.now();
    assert!(rt;
        matches!(
            one.write(&mut first, b"GET / HTTP/1.1\r\nHost: a\r\n\r\n"),
            Write::Took(27)
        )
    );
    let _ = one.now();
    assert!(rt; matches!(one.read(&mut first, &mut buf), Read::Tick));
    let _ = two.now();
    assert!(rt;
        matches!(
            two.write(&mut second, b"GET / HTTP/1.1\r\nHost: a\r\n\r\n"),
            Write::Took(27)
        )
    );
    let _ = one.now();
    assert!(rt; matches!(one.read(&mut first, &mut buf), Read::Got(27)));
    let _ = two.now();
    assert!(rt; matches!(two.read(&mut second, &mut buf), Read::Got(27)));
    Ok(())
}

#[test]
fn a_world_of_one_file(rt: HostRuntime) -> Result<(), Fail> {
    let alloc = rt.alloc();
    let mut files = Vec::new(alloc);
    files.push((bytes(alloc, b"routes.json")?, bytes(alloc, b"first")?))?;
    files.push((bytes(alloc, b"routes.json")?, bytes(alloc, b"second")?))?;
    let none: Option<Vec<MemWire>> = None;
    let mut world = MemWorld::new(alloc, files, none, true)?;
    let Loaded::Bytes(file) = world.read_routes("routes.json") else {
        panic!(rt; "no file");
    };
    assert_eq!(rt; file.as_slice(), b"first".as_slice());
    assert!(rt; matches!(world.read_routes("other.json"), Loaded::Failed));
    assert!(rt; matches!(world.print(b"one "), Printed::Done));
    assert!(rt; matches!(world.print(b"two"), Printed::Done));
    assert_eq!(rt; world.printed(), b"one two".as_slice());
    Ok(())
}

#[test]
fn texts(rt: HostRuntime) -> Result<(), Fail> {
    assert!(rt; PeerText::new(b"255.255.255.255").is_some());
    assert!(rt; PeerText::new(b"255.255.255.2555").is_none());
    let local = Addr {
        local: true,
        ip: [127, 0, 0, 1],
        port: 80,
    };
    let far = Addr {
        local: false,
        ip: [10, 0, 200, 7],
        port: 65_535,
    };
    assert_eq!(rt;
        format!(in rt.alloc(); "{local} {far}")?.as_str(),
        "localhost:80 10.0.200.7:65535"
    );
    assert_eq!(rt; 9u64.number(), 9);
    assert_eq!(rt;
        bytes(rt.alloc(), b"ab")?.into_vec().as_slice(),
        b"ab".as_slice()
    );
    Ok(())
}
