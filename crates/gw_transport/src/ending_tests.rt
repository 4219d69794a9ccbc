//! How trips end: whether the connections of their replies are kept, and where they are stopped, over a wire in memory.

use crate::test_links::{Line, Log, is_closed, shows};
use crate::test_rig::{make_rig, make_rig_at};
use crate::tests::{NOW, half_a_minute};
use crate::trip_tests::{Asked, Came, GET, GET_HEAD, HELLO, Verb, ask};
use gw_retry::Failure;
use gw_stream::{Loss, Pull, Timer};
use gw_wire::Wire;
use std::alloc::{AllocError, Global};
use std::test::Fail;

/// A reply over a fresh link: what comes, what the three pulls of its body give where it is pulled, and whether its
/// connection is kept.
struct Ending {
    verb: Verb,
    sends: &'static [&'static [u8]],
    pulled: bool,
    steps: [Pull; 3],
    kept: bool,
}

const WHOLE: [Pull; 3] = [Pull::Data(5), Pull::Done, Pull::Done];

const ENDINGS: [Ending; 10] = [
    Ending {
        verb: Verb::Get,
        sends: &[HELLO],
        pulled: true,
        steps: WHOLE,
        kept: true,
    },
    Ending {
        verb: Verb::Get,
        sends: &[HELLO],
        pulled: false,
        steps: [Pull::More; 3],
        kept: false,
    },
    Ending {
        verb: Verb::Get,
        sends: &[b"HTTP/1.1 200 OK\r\nContent-Length: 5\r\n\r\n", b"hell"],
        pulled: true,
        steps: [Pull::More, Pull::Data(4), Pull::Lost(Loss::End)],
        kept: false,
    },
    Ending {
        verb: Verb::Get,
        sends: &[b"HTTP/1.0 200 OK\r\nContent-Length: 5\r\n\r\nhello"],
        pulled: true,
        steps: WHOLE,
        kept: false,
    },
    Ending {
        verb: Verb::Get,
        sends: &[b"HTTP/1.1 200 OK\r\nConnection: close\r\nContent-Length: 5\r\n\r\nhello"],
        pulled: true,
        steps: WHOLE,
        kept: false,
    },
    Ending {
        verb: Verb::Get,
        sends: &[b"HTTP/1.1 200 OK\r\n\r\nhello"],
        pulled: true,
        steps: WHOLE,
        kept: false,
    },
    Ending {
        verb: Verb::Get,
        sends: &[b"HTTP/1.1 200 OK\r\nContent-Length: 5\r\n\r\nhello!"],
        pulled: true,
        steps: WHOLE,
        kept: false,
    },
    Ending {
        verb: Verb::Head,
        sends: &[b"HTTP/1.1 200 OK\r\nContent-Length: 5\r\n\r\n"],
        pulled: true,
        steps: [Pull::Done; 3],
        kept: true,
    },
    Ending {
        verb: Verb::Get,
        sends: &[b"HTTP/1.1 200 OK\r\nTransfer-Encoding: chunked\r\n\r\n5\r\nhello\r\n0\r\n\r\n"],
        pulled: true,
        steps: WHOLE,
        kept: true,
    },
    Ending {
        verb: Verb::Get,
        sends: &[b"HTTP/1.1 200 OK\r\nTransfer-Encoding: chunked\r\n\r\n5\r\nhello\r\n"],
        pulled: true,
        steps: [Pull::Data(5), Pull::More, Pull::Lost(Loss::End)],
        kept: false,
    },
];

// Whether a reply ends as its row says.
fn ends_so(alloc: Global, row: &Ending) -> Result<bool, AllocError> {
    let seven = Line {
        number: 7,
        sends: row.sends,
        fails: false,
        takes: &[],
    };
    let asked = Asked {
        head: GET_HEAD,
        verb: row.verb,
        has_key: false,
        body: b"",
    };
    let mut rig = make_rig(alloc, &seven)?;
    let went = ask(
        alloc,
        &mut rig,
        &mut half_a_minute(),
        &asked,
        b"",
        row.pulled,
    )?;
    Ok(
        went.came == Came::Reply(200)
            && went.pulls.steps == row.steps
            && is_closed(rig.wire.acts(), 7) != row.kept,
    )
}

/// A connection is kept exactly where its reply's body was delimited and came to its end, and another request may follow.
#[test]
fn kept_or_closed(rt: HostRuntime) -> Result<(), Fail> {
    for (at, row) in ENDINGS.iter().enumerate() {
        assert!(rt; ends_so(rt.alloc(), row)?, "row {at}");
    }
    Ok(())
}

/// A trip that may be stopped: how many milliseconds behind its beginning its deadline is, from how many acts on the clock
/// is so much later, and whether it was cancelled; what comes of it, and what the wire tells.
struct Stopped {
    deadline: u16,
    from: u64,
    later: u16,
    cancelled: bool,
    came: Came,
    log: Log,
}

const LATE: Came = Came::Failed(Failure::Deadline);

const STOPPED: [Stopped; 5] = [
    Stopped {
        deadline: 500,
        from: 1,
        later: 0,
        cancelled: true,
        came: Came::Failed(Failure::Cancelled),
        log: Log {
            dials: 0,
            closed: false,
            link: 7,
            text: b"",
        },
    },
    Stopped {
        deadline: 0,
        from: 1,
        later: 0,
        cancelled: false,
        came: LATE,
        log: Log {
            dials: 0,
            closed: false,
            link: 7,
            text: b"",
        },
    },
    Stopped {
        deadline: 500,
        from: 1,
        later: 500,
        cancelled: false,
        came: LATE,
        log: Log {
            dials: 1,
            closed: true,
            link: 7,
            text: b"",
        },
    },
    Stopped {
        deadline: 500,
        from: 2,
        later: 500,
        cancelled: false,
        came: LATE,
        log: Log {
            dials: 1,
            closed: true,
            link: 7,
            text: GET_HEAD,
        },
    },
    Stopped {
        deadline: 500,
        from: 1,
        later: 499,
        cancelled: false,
        came: Came::Reply(200),
        log: Log {
            dials: 1,
            closed: true,
            link: 7,
            text: GET_HEAD,
        },
    },
];

const ONCE: Line = Line {
    number: 7,
    sends: &[HELLO],
    fails: false,
    takes: &[],
};

// Whether a trip stops as its row says.
fn stops_so(alloc: Global, row: &Stopped) -> Result<bool, AllocError> {
    let mut rig = make_rig_at(alloc, &ONCE, row.from, NOW + row.later as u64)?;
    let mut guard = Timer::new(Some(NOW + row.deadline as u64));
    guard.cancelled = row.cancelled;
    let went = ask(alloc, &mut rig, &mut guard, &GET, b"", false)?;
    let logged = shows(alloc, rig.wire.acts(), &row.log)?;
    Ok(logged && went.came == row.came)
}

/// A trip that was cancelled, or whose deadline has come, goes no further than it is; its connection is closed.
#[test]
fn late_and_cancelled(rt: HostRuntime) -> Result<(), Fail> {
    for (at, row) in STOPPED.iter().enumerate() {
        assert!(rt; stops_so(rt.alloc(), row)?, "row {at}");
    }
    Ok(())
}
