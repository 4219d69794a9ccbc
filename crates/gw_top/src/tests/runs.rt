//! One run from its words to its report.

use super::{
    Act, Call, Entry, FILE, GET, MemWire, MemWorld, NOW, Offer, PASSED_GET, PASSED_REPLY, REPLY,
    Reply, bytes, run_gateway, wire, words, world,
};
use std::alloc::Global;
use std::sync::Wait;
use std::test::Fail;
use std::thread::Threads;

fn wrote(act: &Act, link: u64, bytes: &[u8]) -> bool {
    match act {
        Act::Wrote(at, wrote) => *at == link && wrote.as_slice() == bytes,
        _ => false,
    }
}

fn passed(acts: &[Act]) -> bool {
    match acts {
        [
            Act::Accepted(1, _),
            Act::Read(1, _),
            Act::Dialed(0, addr, 2),
            to_backend,
            Act::Read(2, _),
            to_client,
            Act::End(1),
            Act::Closed(1),
            Act::Ended,
            Act::Closed(2),
        ] => {
            addr.port == 9_000
                && wrote(to_backend, 2, PASSED_GET)
                && wrote(to_client, 1, PASSED_REPLY)
        }
        _ => false,
    }
}

fn is_first_journal(journal: &[Entry]) -> bool {
    match journal {
        [want, start, dialed, back] => {
            matches!(&want.call, Call::Want { host: 0, now: NOW })
                && matches!(&want.reply, Reply::Granted { want: 0 })
                && matches!(&start.call, Call::Start { want: 0 })
                && matches!(&start.reply, Reply::Go)
                && matches!(
                    &dialed.call,
                    Call::Dialed {
                        want: 0,
                        link: 2,
                        now: NOW
                    }
                )
                && matches!(&dialed.reply, Reply::Kept { conn: 0 })
                && matches!(&back.call, Call::GiveBack { conn: 0, now: NOW })
                && matches!(
                    &back.reply,
                    Reply::Put {
                        offer: Offer::Idle { evicted: None }
                    }
                )
        }
        _ => false,
    }
}

#[test]
fn one_get(rt: HostRuntime) -> Result<(), Fail> {
    let alloc = rt.alloc();
    let mut world = world(alloc, FILE, wire(alloc, GET, REPLY)?)?;
    let words = words(alloc, &["serve", "routes.json"])?;
    let report = run_gateway(&rt, alloc, words.as_slice(), &mut world);
    assert_eq!(rt; report.status, 0);
    assert_eq!(rt; world.printed(), b"".as_slice());
    assert!(rt; is_first_journal(report.journal.as_slice()));
    assert_eq!(rt; report.workers.len(), 1);
    assert_eq!(rt; report.workers[0].entered, 1);
    assert!(rt; passed(report.workers[0].wire.acts()));
    Ok(())
}

// Whether these words over this file end with this status and print this.
fn ends<R: Threads + Wait + Sync>(
    rt: &R,
    alloc: Global,
    spoken: &[&str],
    file: &[u8],
    status: u8,
    line: &[u8],
) -> Result<bool, Fail> {
    let mut world = world(alloc, file, wire(alloc, GET, REPLY)?)?;
    let words = words(alloc, spoken)?;
    let report = run_gateway(rt, alloc, words.as_slice(), &mut world);
    Ok(report.status == status && world.printed() == line)
}

#[test]
fn usage(rt: HostRuntime) -> Result<(), Fail> {
    let alloc = rt.alloc();
    let line =
        b"usage: gateway serve ROUTES | check ROUTES | route ROUTES METHOD HOST PATH | drill SEED N\n";
    assert!(rt; ends(&rt, alloc, &[], FILE, 2, line)?);
    assert!(rt; ends(&rt, alloc, &["serve"], FILE, 2, line)?);
    let unread = b"cannot read other.json\n";
    assert!(rt; ends(&rt, alloc, &["serve", "other.json"], FILE, 3, unread)?);
    let bad = b"bad routes: G1\n";
    assert!(rt; ends(&rt, alloc, &["serve", "routes.json"], b"[", 4, bad)?);
    Ok(())
}

#[test]
fn nothing_to_listen_on(rt: HostRuntime) -> Result<(), Fail> {
    let alloc = rt.alloc();
    let mut files = Vec::new(alloc);
    files.push((bytes(alloc, b"routes.json")?, bytes(alloc, FILE)?))?;
    let none: Option<Vec<MemWire>> = None;
    let mut world = MemWorld::new(alloc, files, none, true)?;
    let words = words(alloc, &["serve", "routes.json"])?;
    let report = run_gateway(&rt, alloc, words.as_slice(), &mut world);
    assert_eq!(rt; report.status, 6);
    assert_eq!(rt;
        world.printed(),
        b"cannot listen on 127.0.0.1:8080\n".as_slice()
    );
    Ok(())
}
