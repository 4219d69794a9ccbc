//! The numbers at the top of a file: their ranges, their defaults and the order of their faults.

use super::{fault_line, routed, said};
use crate::read_routes;
use std::alloc::{AllocError, Global};
use std::test::Fail;

#[test]
fn numbers(rt: HostRuntime) -> Result<(), Fail> {
    let alloc = rt.alloc();
    let good = "127.0.0.1:8080 127.0.0.1:9000|/>0";
    for (members, line) in [
        ("", good),
        (",\"workers\":1", good),
        (",\"workers\":0", "G5"),
        (",\"workers\":64", good),
        (",\"workers\":65", "G5"),
        (",\"workers\":1.0", "G4"),
        (",\"workers\":1e0", "G4"),
        (",\"workers\":-1", "G4"),
        (",\"workers\":\"1\"", "G4"),
        (",\"workers\":null", "G4"),
        (",\"journal\":15", "G5"),
        (",\"journal\":16", good),
        (",\"journal\":4194304", good),
        (",\"journal\":4194305", "G5"),
        (",\"journal\":1e1", "G4"),
        (",\"journal\":-0", "G4"),
        (",\"journal\":18446744073709551616", "G4"),
        (",\"journal\":18446744073709551615", "G5"),
        (",\"journal\":15,\"journal\":16", good),
        (",\"journal\":16,\"journal\":true", "G4"),
        (",\"routes\":[]", "G5"),
    ] {
        let file = routed(alloc, members)?;
        assert_eq!(rt;
            said(alloc, file.as_str())?.as_str(),
            line,
            "with {members}"
        );
    }
    Ok(())
}

// What the file's table says of the pool: how many connections may be idle, over all and to one host, how many to one
// host may be open, and how long one may be idle.
fn pool_line(alloc: Global, file: &str) -> Result<String, AllocError> {
    match read_routes(alloc, file.as_bytes()) {
        Ok(table) => {
            let limits = table.limits;
            let total = limits.idle_total;
            let idle = limits.idle_per_host;
            let open = limits.conns_per_host;
            let time = limits.idle_ms;
            format!(in alloc; "{total} {idle} {open} {time}")
        }
        Err(error) => fault_line(alloc, error),
    }
}

#[test]
fn pool_limits(rt: HostRuntime) -> Result<(), Fail> {
    let alloc = rt.alloc();
    for (members, line) in [
        ("", "100 2 0 90000"),
        (",\"idle_total\":0", "G5"),
        (",\"idle_total\":1", "1 2 0 90000"),
        (",\"idle_total\":1000", "1000 2 0 90000"),
        (",\"idle_total\":1001", "G5"),
        (",\"idle_total\":\"100\"", "G4"),
        (",\"idle_per_host\":-1", "G4"),
        (",\"idle_per_host\":0", "100 0 0 90000"),
        (",\"idle_per_host\":1000", "100 1000 0 90000"),
        (",\"idle_per_host\":1001", "G5"),
        (",\"idle_per_host\":true", "G4"),
        (",\"conns_per_host\":-1", "G4"),
        (",\"conns_per_host\":0", "100 2 0 90000"),
        (",\"conns_per_host\":1000", "100 2 1000 90000"),
        (",\"conns_per_host\":1001", "G5"),
        (",\"conns_per_host\":null", "G4"),
        (",\"idle_ms\":-1", "G4"),
        (",\"idle_ms\":0", "100 2 0 0"),
        (",\"idle_ms\":86400000", "100 2 0 86400000"),
        (",\"idle_ms\":86400001", "G5"),
        (",\"idle_ms\":1.5", "G4"),
        (",\"idle_ms\":1001,\"idle_ms\":4294967296", "G5"),
        (
            ",\"idle_ms\":7,\"conns_per_host\":5,\"idle_per_host\":3,\"idle_total\":9",
            "9 3 5 7",
        ),
    ] {
        let file = routed(alloc, members)?;
        assert_eq!(rt;
            pool_line(alloc, file.as_str())?.as_str(),
            line,
            "with {members}"
        );
    }
    Ok(())
}

// How long the file's table waits for a client, and for requests behind the shut gate.
fn wait_line(alloc: Global, file: &str) -> Result<String, AllocError> {
    match read_routes(alloc, file.as_bytes()) {
        Ok(table) => {
            let client = table.client_ms;
            let grace = table.grace_ms;
            format!(in alloc; "{client} {grace}")
        }
        Err(error) => fault_line(alloc, error),
    }
}

#[test]
fn waits(rt: HostRuntime) -> Result<(), Fail> {
    let alloc = rt.alloc();
    for (members, line) in [
        ("", "60000 10000"),
        (",\"client_ms\":0", "G5"),
        (",\"client_ms\":1", "1 10000"),
        (",\"client_ms\":86400000", "86400000 10000"),
        (",\"client_ms\":86400001", "G5"),
        (",\"client_ms\":\"1\"", "G4"),
        (",\"client_ms\":1.5", "G4"),
        (",\"client_ms\":-1", "G4"),
        (",\"grace_ms\":0", "60000 0"),
        (",\"grace_ms\":86400000", "60000 86400000"),
        (",\"grace_ms\":86400001", "G5"),
        (",\"grace_ms\":-1", "G4"),
        (",\"grace_ms\":null", "G4"),
        (",\"grace_ms\":18446744073709551615", "G5"),
        (",\"grace_ms\":18446744073709551616", "G4"),
        (",\"grace_ms\":7,\"client_ms\":9", "9 7"),
        (",\"client_ms\":7,\"client_ms\":9", "9 10000"),
        (",\"client\":7", "G2"),
        (",\"timeout\":7", "G2"),
    ] {
        let file = routed(alloc, members)?;
        assert_eq!(rt;
            wait_line(alloc, file.as_str())?.as_str(),
            line,
            "with {members}"
        );
    }
    Ok(())
}

// Of two faults the earlier name's counts, wherever it stands in the file.
#[test]
fn order_of_numbers(rt: HostRuntime) -> Result<(), Fail> {
    let alloc = rt.alloc();
    let names = [
        "workers",
        "idle_total",
        "idle_per_host",
        "conns_per_host",
        "idle_ms",
        "client_ms",
        "grace_ms",
        "journal",
    ];
    for i in 1..8 {
        let before = names[i - 1];
        let after = names[i];
        for (members, fault) in [
            (
                format!(in alloc; ",\"{before}\":86400001,\"{after}\":\"\"")?,
                "G5",
            ),
            (
                format!(in alloc; ",\"{after}\":\"\",\"{before}\":86400001")?,
                "G5",
            ),
            (
                format!(in alloc; ",\"{before}\":\"\",\"{after}\":86400001")?,
                "G4",
            ),
            (
                format!(in alloc; ",\"{after}\":86400001,\"{before}\":\"\"")?,
                "G4",
            ),
        ] {
            let file = routed(alloc, members.as_str())?;
            assert_eq!(rt;
                said(alloc, file.as_str())?.as_str(),
                fault,
                "{before} before {after}"
            );
        }
    }
    for (file, fault) in [
        ("{\"listen\":\"\",\"idle_total\":0}", "G8"),
        ("{\"idle_total\":0,\"listen\":7}", "G4"),
        (
            "{\"listen\":\"localhost:1\",\"idle_ms\":\"\",\"routes\":[]}",
            "G4",
        ),
        (
            "{\"listen\":\"localhost:1\",\"routes\":7,\"idle_ms\":86400001}",
            "G5",
        ),
    ] {
        assert_eq!(rt; said(alloc, file)?.as_str(), fault, "reading {file}");
    }
    Ok(())
}
