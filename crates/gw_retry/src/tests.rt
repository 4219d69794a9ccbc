//! The whole table, by its columns.
use crate::{BodyKind, Failure, may_retry};
use http::Method;
use std::test::Fail;

// What a failure says by itself.
#[derive(Clone, Copy)]
enum Row {
    Always,
    WhereHarmless,
    Never,
}

const FAILURES: [(Failure, Row); 7] = [
    (Failure::NothingWritten, Row::Always),
    (Failure::FirstByte, Row::WhereHarmless),
    (Failure::ServerClosed, Row::WhereHarmless),
    (Failure::Broken, Row::Never),
    (Failure::BadResponse, Row::Never),
    (Failure::Deadline, Row::Never),
    (Failure::Cancelled, Row::Never),
];

const BODIES: [(BodyKind, bool); 3] = [
    (BodyKind::Empty, true),
    (BodyKind::Rewindable, true),
    (BodyKind::Once, false),
];

const ATTEMPTS: [(u32, bool); 3] = [(1, true), (7, true), (8, false)];

const METHODS: [(&str, bool); 12] = [
    ("GET", true),
    ("HEAD", true),
    ("OPTIONS", true),
    ("TRACE", true),
    ("POST", false),
    ("PUT", false),
    ("DELETE", false),
    ("PATCH", false),
    ("CONNECT", false),
    ("QUERY", false),
    ("get", false),
    ("GETS", false),
];

// How often, over all failures, bodies and attempts, the answer isn't the table's.
fn count_wrong(method: &Method, is_harmless: bool, reused: bool, has_key: bool) -> u32 {
    let mut wrong: u32 = 0;
    for (failure, row) in FAILURES {
        let passes = match row {
            Row::Always => true,
            Row::WhereHarmless => is_harmless || has_key,
            Row::Never => false,
        };
        for (body, is_kept) in BODIES {
            for (attempt, is_early) in ATTEMPTS {
                let expected = reused && passes && is_kept && is_early;
                if may_retry(failure, reused, method, has_key, body, attempt) != expected {
                    wrong = wrong.saturating_add(1);
                }
            }
        }
    }
    wrong
}

#[test]
fn whole_table(rt: HostRuntime) -> Result<(), Fail> {
    for (name, is_harmless) in METHODS {
        let method = Method::from_bytes(rt.alloc(), name.as_bytes())?;
        for reused in [false, true] {
            for has_key in [false, true] {
                assert_eq!(rt;
                    count_wrong(&method, is_harmless, reused, has_key),
                    0,
                    "{name} {reused} {has_key}"
                );
            }
        }
    }
    Ok(())
}

#[test]
fn closed_before_reply(rt: HostRuntime) {
    let closed = Failure::ServerClosed;
    let kept = BodyKind::Rewindable;
    let post = Method::POST;
    assert!(rt; may_retry(closed, true, &Method::GET, false, BodyKind::Empty, 1));
    assert!(rt; !may_retry(closed, true, &post, false, kept, 1));
    assert!(rt; may_retry(closed, true, &post, true, kept, 1));
}

#[test]
fn nothing_written(rt: HostRuntime) {
    let kept = BodyKind::Rewindable;
    let post = Method::POST;
    assert!(rt; may_retry(Failure::NothingWritten, true, &post, false, kept, 1));
    assert!(rt; !may_retry(Failure::Broken, true, &post, false, kept, 1));
}
