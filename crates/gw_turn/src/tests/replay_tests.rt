//! The replay of journals that were written by hand.

use crate::tests::machine::{Replayed, replay};
use gw_pool::{Call, Entry, Limits, Offer, Reply};
use std::alloc::{AllocError, Global};
use std::test::Fail;

fn small() -> Limits {
    Limits {
        idle_total: 1,
        idle_per_host: 1,
        conns_per_host: 1,
        idle_ms: 40,
        journal: 100,
        passes: 2,
        per_pass: 1,
        hosts: 1,
    }
}

fn entry(caller: u32, call: Call, reply: Reply) -> Entry {
    Entry {
        caller,
        call,
        reply,
    }
}

fn none_evicted() -> Offer {
    Offer::Idle { evicted: None }
}

fn given_back(caller: u32, now: u64, offer: Offer) -> Entry {
    entry(
        caller,
        Call::GiveBack { conn: 0, now },
        Reply::Put { offer },
    )
}

fn want_of(caller: u32, now: u64, reply: Reply) -> Entry {
    entry(caller, Call::Want { host: 0, now }, reply)
}

/// A connection that one caller dials for, that goes to the other, that is idle until it would be expired a moment later,
/// and that is expired.
fn history(alloc: Global) -> Result<Vec<Entry>, AllocError> {
    let kept = Call::Dialed {
        want: 0,
        link: 7,
        now: 1,
    };
    let handed_over = Offer::ToWant {
        want: 1,
        next: None,
    };
    let returned = Reply::Returned {
        conn: 0,
        offer: none_evicted(),
    };
    Ok(vec![in alloc;
        want_of(0, 0, Reply::Granted { want: 0 }),
        want_of(1, 0, Reply::Waiting { want: 1 }),
        entry(0, Call::Start { want: 0 }, Reply::Go),
        entry(0, kept, Reply::Kept { conn: 0 }),
        given_back(0, 2, handed_over),
        given_back(1, 3, none_evicted()),
        want_of(0, 43, Reply::Given { want: 2, conn: 0 }),
        entry(0, Call::Cancel { want: 2, now: 44 }, returned),
        want_of(1, 85, Reply::Expired { conn: 0 }),
    ]?)
}

#[test]
fn replays_a_right_journal(rt: HostRuntime) -> Result<(), Fail> {
    let journal = history(rt.alloc())?;
    match replay(rt.alloc(), small(), journal.as_slice())? {
        Replayed::Whole(mut machine) => {
            assert!(rt; machine.is_quiet());
            assert_eq!(rt; machine.take_idle()?.len(), 0);
            Ok(())
        }
        Replayed::Unfit(_) | Replayed::Otherwise(_, _) => Err("the journal is right".into()),
    }
}

#[test]
fn tells_where_a_journal_is_wrong(rt: HostRuntime) -> Result<(), Fail> {
    let another = Offer::ToWant {
        want: 1,
        next: Some(1),
    };
    let table = [
        (1, true, want_of(1, 0, Reply::Granted { want: 1 })),
        (1, false, want_of(0, 0, Reply::Waiting { want: 1 })),
        (2, false, entry(1, Call::Start { want: 0 }, Reply::Go)),
        (2, false, entry(1, Call::Start { want: 1 }, Reply::Go)),
        (
            3,
            false,
            entry(0, Call::DialFailed { want: 1 }, Reply::Ended { next: None }),
        ),
        (
            3,
            true,
            entry(0, Call::DialFailed { want: 0 }, Reply::Ended { next: None }),
        ),
        (4, true, given_back(0, 2, none_evicted())),
        (4, true, given_back(0, 2, another)),
        (4, false, given_back(1, 2, none_evicted())),
        (5, true, given_back(1, 3, Offer::Closed)),
        (6, true, want_of(0, 43, Reply::Expired { conn: 0 })),
        (6, true, want_of(0, 44, Reply::Given { want: 2, conn: 0 })),
        (
            6,
            false,
            entry(0, Call::Expire { now: 43 }, Reply::Taken { conn: 0 }),
        ),
        (
            7,
            false,
            entry(
                0,
                Call::Cancel { want: 1, now: 44 },
                Reply::Gone { next: None },
            ),
        ),
        (8, true, want_of(1, 84, Reply::Expired { conn: 0 })),
    ];
    for (place, fits, wrong) in table {
        let mut journal = history(rt.alloc())?;
        for (at, entry) in journal.iter_mut().enumerate() {
            if at == place {
                *entry = wrong;
            }
        }
        match replay(rt.alloc(), small(), journal.as_slice())? {
            Replayed::Whole(_) => panic!(rt; "{wrong:?} is wrong"),
            Replayed::Unfit(at) => assert!(rt; at == place && !fits, "{wrong:?}"),
            Replayed::Otherwise(at, _) => assert!(rt; at == place && fits, "{wrong:?}"),
        }
    }
    Ok(())
}
