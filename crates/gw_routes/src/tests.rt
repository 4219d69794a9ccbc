//! Files with each fault in its place, and tables as they are read.

mod numbers;
mod routes;

use crate::{Action, GCode, Route, RouteError, Table, read_routes};
use gw_mux::Found;
use std::alloc::{AllocError, Global};
use std::str;
use std::test::Fail;

// The fault's line: its code, the route, and of a pattern the fault in its text.
fn fault_line(alloc: Global, error: RouteError) -> Result<String, AllocError> {
    match error {
        RouteError::Bad {
            code,
            route,
            pattern,
        } => {
            let mut text = format!(in alloc; "{code}")?;
            if let Some(route) = route {
                text.push_str(format!(in alloc; " route {route}")?.as_str())?;
            }
            if let Some((code, at)) = pattern {
                text.push_str(format!(in alloc; " {code} at {at}")?.as_str())?;
            }
            Ok(text)
        }
        other => format!(in alloc; "{other}"),
    }
}

// The addresses of a table, and each route.
fn table_line(alloc: Global, table: &Table) -> Result<String, AllocError> {
    let listen = table.listen;
    let mut text = format!(in alloc; "{listen}")?;
    for host in &table.hosts {
        text.push_str(format!(in alloc; " {host}")?.as_str())?;
    }
    for route in &table.routes {
        text.push_str(route_line(alloc, route)?.as_str())?;
    }
    Ok(text)
}

// A route's pattern, and behind it the host and the base, or the mark of the gate.
fn route_line(alloc: Global, route: &Route) -> Result<String, AllocError> {
    let words = str::from_utf8(route.text.as_slice()).unwrap_or("?");
    match &route.action {
        Action::Backend { host, base } => {
            let base = str::from_utf8(base.as_slice()).unwrap_or("?");
            format!(in alloc; "|{words}>{host}{base}")
        }
        Action::Stop => format!(in alloc; "|{words}!"),
    }
}

fn said(alloc: Global, file: &str) -> Result<String, AllocError> {
    match read_routes(alloc, file.as_bytes()) {
        Ok(table) => table_line(alloc, &table),
        Err(error) => fault_line(alloc, error),
    }
}

// A file with these members besides a listening address.
fn listening(alloc: Global, members: &str) -> Result<String, AllocError> {
    format!(in alloc; "{{\"listen\":\"127.0.0.1:8080\"{members}}}")
}

const ROUTE: &str = "{\"pattern\":\"/\",\"backend\":\"http://127.0.0.1:9000\"}";

// A file with these members besides a listening address and one route.
fn routed(alloc: Global, members: &str) -> Result<String, AllocError> {
    format!(in alloc; "{{\"listen\":\"127.0.0.1:8080\",\"routes\":[{ROUTE}]{members}}}")
}

// A file with one good route and then this member of the list.
fn second(alloc: Global, member: &str) -> Result<String, AllocError> {
    format!(in alloc; "{{\"listen\":\"127.0.0.1:8080\",\"routes\":[{ROUTE},{member}]}}")
}

#[test]
fn faults_at_the_top(rt: HostRuntime) -> Result<(), Fail> {
    let alloc = rt.alloc();
    for (file, fault) in [
        ("[", "G1"),
        ("", "G1"),
        ("{\"listen\":1e400}", "G1"),
        ("[]", "G4"),
        ("\"listen\"", "G4"),
        ("{}", "G3"),
        ("{\"stop\":1}", "G2"),
        ("{\"idle_totals\":100}", "G2"),
        ("{\"idle_ms\":\"\",\"conns\":0}", "G2"),
        ("{\"idle_total\":0}", "G3"),
        ("{\"listen\":1,\"Routes\":[]}", "G2"),
        ("{\"listen\":8080}", "G4"),
        ("{\"listen\":\"127.0.0.1\"}", "G8"),
        ("{\"listen\":\"127.0.0.1:0\"}", "G8"),
        ("{\"listen\":\"127.0.0.1:65536\"}", "G8"),
        ("{\"listen\":\"127.0.0.1:08080\"}", "G8"),
        ("{\"listen\":\"127.0.0.01:8080\"}", "G8"),
        ("{\"listen\":\"127.0.0.256:8080\"}", "G8"),
        ("{\"listen\":\"http://127.0.0.1:8080\"}", "G8"),
        ("{\"listen\":\"LOCALHOST:8080\"}", "G8"),
    ] {
        assert_eq!(rt; said(alloc, file)?.as_str(), fault, "reading {file}");
    }
    for (members, fault) in [
        ("", "G3"),
        (",\"routes\":1", "G4"),
        (",\"routes\":{}", "G4"),
        (",\"routes\":[]", "G5"),
        (",\"workers\":65,\"journal\":\"\"", "G5"),
    ] {
        let file = listening(alloc, members)?;
        assert_eq!(rt;
            said(alloc, file.as_str())?.as_str(),
            fault,
            "with {members}"
        );
    }
    Ok(())
}

#[test]
fn whole_table(rt: HostRuntime) -> Result<(), Fail> {
    let alloc = rt.alloc();
    let member = "{\"pattern\":\"/items/{id}\",\"backend\":\"http://localhost:1\"}";
    let file = second(alloc, member)?;
    let Ok(table) = read_routes(alloc, file.as_str().as_bytes()) else {
        return Err("no table".into());
    };
    assert_eq!(rt; table.workers, 4);
    assert_eq!(rt; table.client_ms, 60_000);
    assert_eq!(rt; table.grace_ms, 10_000);
    let limits = table.limits;
    assert_eq!(rt; limits.idle_total, 100);
    assert_eq!(rt; limits.idle_per_host, 2);
    assert_eq!(rt; limits.conns_per_host, 0);
    assert_eq!(rt; limits.idle_ms, 90_000);
    assert_eq!(rt; limits.journal, 1_048_576);
    assert_eq!(rt; limits.passes, 4);
    assert_eq!(rt; limits.per_pass, 1);
    assert_eq!(rt; limits.hosts, 2);
    let Found::Route(hit) = table.mux.find(b"GET", b"", b"/a") else {
        return Err("no route".into());
    };
    assert_eq!(rt; hit.route, 0);
    Ok(())
}

// As many routes as this, whose patterns differ.
fn many(alloc: Global, count: u32) -> Result<String, AllocError> {
    let mut members = String::new(alloc);
    for i in 0..count {
        let comma = if i == 0 { "" } else { "," };
        members.push_str(format!(in alloc;
            "{comma}{{\"pattern\":\"/{i}\",\"backend\":\"http://localhost:1\"}}"
        )?.as_str())?;
    }
    let members = members.as_str();
    format!(in alloc; "{{\"listen\":\"localhost:1\",\"routes\":[{members}]}}")
}

#[test]
fn as_many_routes_as_may_be(rt: HostRuntime) -> Result<(), Fail> {
    let alloc = rt.alloc();
    let most = many(alloc, 1_024)?;
    let Ok(table) = read_routes(alloc, most.as_str().as_bytes()) else {
        return Err("no table".into());
    };
    assert_eq!(rt; table.routes.len(), 1_024);
    assert_eq!(rt; table.hosts.len(), 1);
    let more = many(alloc, 1_025)?;
    assert!(rt;
        matches!(
            read_routes(alloc, more.as_str().as_bytes()),
            Err(RouteError::Bad {
                code: GCode::OutOfRange,
                route: None,
                pattern: None
            })
        )
    );
    Ok(())
}
