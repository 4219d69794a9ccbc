//! Trips whose first link is lost, or answers badly, over a wire in memory.

ghost use Rattle.std.specs.Prelude.{◌≡◌, ◌<◌, false};
ghost use Rattle.gw_stream.specs.Outbox.{out_size};
ghost use Rattle.gw_transport.specs.Leasing.{IsRested};

use crate::test_links::{Line, Log, shows};
use crate::test_rig::{Rig, make_rig};
use crate::tests::half_a_minute;
use crate::trip_tests::{
    Asked, Came, EMPTY, GET, GET_HEAD, HELLO, KEYED, POST, POST_TEXT, ask, get,
};
use gw_retry::Failure;
use gw_wire::Wire;
use std::alloc::{AllocError, Global};
use std::test::Fail;

const CONTINUE: &[u8] = b"HTTP/1.1 100 Continue\r\n\r\n";

/// A trip over link 7: whether that answered a GET before, the request, what comes of the link in all, whether it fails
/// behind that or ends, and how many bytes its writes take; what comes of the trip, how many links are dialed, whether
/// link 7 is closed, and what link 8 takes.
struct Row {
    reused: bool,
    asked: Asked,
    sends: &'static [&'static [u8]],
    fails: bool,
    takes: &'static [u32],
    came: Came,
    log: Log,
}

const CLOSED: [Row; 7] = [
    Row {
        reused: true,
        asked: GET,
        sends: &[EMPTY],
        fails: false,
        takes: &[],
        came: Came::Reply(200),
        log: Log {
            dials: 2,
            closed: true,
            link: 8,
            text: GET_HEAD,
        },
    },
    Row {
        reused: true,
        asked: GET,
        sends: &[EMPTY],
        fails: true,
        takes: &[],
        came: Came::Reply(200),
        log: Log {
            dials: 2,
            closed: true,
            link: 8,
            text: GET_HEAD,
        },
    },
    Row {
        reused: true,
        asked: POST,
        sends: &[EMPTY],
        fails: false,
        takes: &[],
        came: Came::Failed(Failure::ServerClosed),
        log: Log {
            dials: 1,
            closed: true,
            link: 8,
            text: b"",
        },
    },
    Row {
        reused: true,
        asked: POST,
        sends: &[EMPTY],
        fails: true,
        takes: &[],
        came: Came::Failed(Failure::FirstByte),
        log: Log {
            dials: 1,
            closed: true,
            link: 8,
            text: b"",
        },
    },
    Row {
        reused: true,
        asked: KEYED,
        sends: &[EMPTY],
        fails: false,
        takes: &[],
        came: Came::Reply(200),
        log: Log {
            dials: 2,
            closed: true,
            link: 8,
            text: POST_TEXT,
        },
    },
    Row {
        reused: true,
        asked: KEYED,
        sends: &[EMPTY],
        fails: true,
        takes: &[],
        came: Came::Reply(200),
        log: Log {
            dials: 2,
            closed: true,
            link: 8,
            text: POST_TEXT,
        },
    },
    Row {
        reused: false,
        asked: GET,
        sends: &[],
        fails: false,
        takes: &[],
        came: Came::Failed(Failure::ServerClosed),
        log: Log {
            dials: 1,
            closed: true,
            link: 8,
            text: b"",
        },
    },
];

const UNWRITTEN: [Row; 2] = [
    Row {
        reused: true,
        asked: POST,
        sends: &[EMPTY],
        fails: false,
        takes: &[100, 0],
        came: Came::Reply(200),
        log: Log {
            dials: 2,
            closed: true,
            link: 8,
            text: POST_TEXT,
        },
    },
    Row {
        reused: true,
        asked: POST,
        sends: &[EMPTY],
        fails: false,
        takes: &[100, 3, 0],
        came: Came::Failed(Failure::Broken),
        log: Log {
            dials: 1,
            closed: true,
            link: 8,
            text: b"",
        },
    },
];

const INFORMATIONAL: [Row; 4] = [
    Row {
        reused: false,
        asked: GET,
        sends: &[CONTINUE, CONTINUE, CONTINUE, CONTINUE, CONTINUE, EMPTY],
        fails: false,
        takes: &[],
        came: Came::Reply(200),
        log: Log {
            dials: 1,
            closed: false,
            link: 8,
            text: b"",
        },
    },
    Row {
        reused: false,
        asked: GET,
        sends: &[
            CONTINUE, CONTINUE, CONTINUE, CONTINUE, CONTINUE, CONTINUE, EMPTY,
        ],
        fails: false,
        takes: &[],
        came: Came::Failed(Failure::BadResponse),
        log: Log {
            dials: 1,
            closed: true,
            link: 8,
            text: b"",
        },
    },
    Row {
        reused: true,
        asked: GET,
        sends: &[EMPTY, b"HTTP/1.1 101 Switching Protocols\r\n\r\n", HELLO],
        fails: false,
        takes: &[],
        came: Came::Failed(Failure::BadResponse),
        log: Log {
            dials: 1,
            closed: true,
            link: 8,
            text: b"",
        },
    },
    Row {
        reused: true,
        asked: GET,
        sends: &[EMPTY, b"HTTP/1.1 2x0 OK\r\nContent-Length: 0\r\n\r\n"],
        fails: false,
        takes: &[],
        came: Came::Failed(Failure::BadResponse),
        log: Log {
            dials: 1,
            closed: true,
            link: 8,
            text: b"",
        },
    },
];

const BROKEN: [Row; 4] = [
    Row {
        reused: true,
        asked: GET,
        sends: &[EMPTY, b"HTTP/1.1 200 OK\r\nContent-"],
        fails: false,
        takes: &[],
        came: Came::Failed(Failure::Broken),
        log: Log {
            dials: 1,
            closed: true,
            link: 8,
            text: b"",
        },
    },
    Row {
        reused: true,
        asked: GET,
        sends: &[EMPTY, b"H"],
        fails: true,
        takes: &[],
        came: Came::Failed(Failure::Broken),
        log: Log {
            dials: 1,
            closed: true,
            link: 8,
            text: b"",
        },
    },
    Row {
        reused: true,
        asked: GET,
        sends: &[EMPTY, CONTINUE],
        fails: false,
        takes: &[],
        came: Came::Failed(Failure::Broken),
        log: Log {
            dials: 1,
            closed: true,
            link: 8,
            text: b"",
        },
    },
    Row {
        reused: true,
        asked: GET,
        sends: &[EMPTY, CONTINUE],
        fails: true,
        takes: &[],
        came: Came::Failed(Failure::Broken),
        log: Log {
            dials: 1,
            closed: true,
            link: 8,
            text: b"",
        },
    },
];

// Makes a row's trip, behind a GET where it says so.
fn come(alloc: Global, rig: &mut Rig, row: &Row) -> Result<Came, AllocError>
    requires fresh { rig.old.wire.aged ≡ false }
    requires rested { IsRested rig.old.pool }
    requires within { 0 < rig.old.pool.limits.hosts }
    requires room { rig.old.buffers.out.size ≡ out_size }
{
    if row.reused {
        let _ = get(alloc, rig)?;
    }
    let went = ask(
        alloc,
        rig,
        &mut half_a_minute(),
        &row.asked,
        row.asked.body,
        true,
    )?;
    Ok(went.came)
}

// Whether a trip comes to what its row says.
fn is_so(alloc: Global, row: &Row) -> Result<bool, AllocError> {
    let seven = Line {
        number: 7,
        sends: row.sends,
        fails: row.fails,
        takes: row.takes,
    };
    let mut rig = make_rig(alloc, &seven)?;
    let came = come(alloc, &mut rig, row)?;
    let logged = shows(alloc, rig.wire.acts(), &row.log)?;
    Ok(logged && came == row.came)
}

/// A link that answered before, and is lost where a reply's first byte is due: what only reads, or has a key, goes out
/// again. On a fresh link nothing does.
#[test]
fn closed_before_reply(rt: HostRuntime) -> Result<(), Fail> {
    for (at, row) in CLOSED.iter().enumerate() {
        assert!(rt; is_so(rt.alloc(), row)?, "row {at}");
    }
    Ok(())
}

/// A request of which the link took nothing goes out again, whatever it is, and none of which it took something.
#[test]
fn nothing_written(rt: HostRuntime) -> Result<(), Fail> {
    for (at, row) in UNWRITTEN.iter().enumerate() {
        assert!(rt; is_so(rt.alloc(), row)?, "row {at}");
    }
    Ok(())
}

/// Five informational replies are dropped, and six are too many; another protocol or a bad status line is refused.
#[test]
fn informational(rt: HostRuntime) -> Result<(), Fail> {
    for (at, row) in INFORMATIONAL.iter().enumerate() {
        assert!(rt; is_so(rt.alloc(), row)?, "row {at}");
    }
    Ok(())
}

/// A link that is lost behind a reply's first byte: not even a GET goes out again.
#[test]
fn broken_replies(rt: HostRuntime) -> Result<(), Fail> {
    for (at, row) in BROKEN.iter().enumerate() {
        assert!(rt; is_so(rt.alloc(), row)?, "row {at}");
    }
    Ok(())
}
