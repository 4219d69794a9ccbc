//! Routes: their faults, what they do with their requests, and their limits.

use super::{fault_line, said, second};
use crate::read_routes;
use std::alloc::{AllocError, Global};
use std::test::Fail;

#[test]
fn faults_in_a_route(rt: HostRuntime) -> Result<(), Fail> {
    let alloc = rt.alloc();
    for (member, fault) in [
        ("7", "G4 route 1"),
        ("null", "G4 route 1"),
        ("[]", "G4 route 1"),
        ("{}", "G3 route 1"),
        ("{\"listen\":\"\"}", "G2 route 1"),
        ("{\"pattern\":1,\"timeouts\":1}", "G2 route 1"),
        ("{\"pattern\":\"/a\",\"timeout\":0}", "G3 route 1"),
        ("{\"backend\":7}", "G3 route 1"),
        ("{\"pattern\":[\"/\"]}", "G4 route 1"),
        ("{\"pattern\":\"\"}", "G6 route 1 P1 at 0"),
        (
            "{\"pattern\":\"/a/{x}/{x}\",\"backend\":7}",
            "G6 route 1 P13 at 7",
        ),
        ("{\"pattern\":\"GET x\"}", "G6 route 1 P3 at 4"),
        ("{\"pattern\":\"/a\"}", "G3 route 1"),
        ("{\"pattern\":\"/a\",\"backend\":7}", "G4 route 1"),
        (
            "{\"timeout\":0,\"pattern\":\"/a\",\"backend\":7}",
            "G4 route 1",
        ),
        ("{\"pattern\":\"/a\",\"backend\":\"\"}", "G8 route 1"),
        (
            "{\"timeout\":0,\"pattern\":\"/a\",\"backend\":\"\"}",
            "G8 route 1",
        ),
        (
            "{\"pattern\":\"/a\",\"backend\":\"127.0.0.1:9000\"}",
            "G8 route 1",
        ),
        (
            "{\"pattern\":\"/a\",\"backend\":\"https://127.0.0.1:9000\"}",
            "G8 route 1",
        ),
        (
            "{\"pattern\":\"/a\",\"backend\":\"http://127.0.0.1:9000/b?c\"}",
            "G8 route 1",
        ),
        (
            "{\"pattern\":\"/a\",\"backend\":\"http://127.0.0.1:9000/b#c\"}",
            "G8 route 1",
        ),
        (
            "{\"pattern\":\"/a\",\"backend\":\"http://127.0.0.1:9000/%62\"}",
            "G8 route 1",
        ),
        (
            "{\"pattern\":\"/a\",\"backend\":\"http://127.0.0.1:9000/b c\"}",
            "G8 route 1",
        ),
        (
            "{\"pattern\":\"/a\",\"backend\":\"http://127.0.0.1/b\"}",
            "G8 route 1",
        ),
        (
            "{\"pattern\":\"/\",\"backend\":\"http://127.0.0.1:9000\"},{}",
            "G3 route 2",
        ),
        (
            "{\"pattern\":\"/\",\"pattern\":\"/a\",\"backend\":\"http://localhost:1\"},7",
            "G4 route 2",
        ),
    ] {
        let file = second(alloc, member)?;
        assert_eq!(rt;
            said(alloc, file.as_str())?.as_str(),
            fault,
            "with {member}"
        );
    }
    Ok(())
}

#[test]
fn tables(rt: HostRuntime) -> Result<(), Fail> {
    let alloc = rt.alloc();
    for (member, line) in [
        (
            "{\"pattern\":\"/a\",\"backend\":\"http://localhost:9000\"}",
            "127.0.0.1:8080 127.0.0.1:9000 localhost:9000|/>0|/a>1",
        ),
        (
            "{\"backend\":\"http://127.0.0.1:9000\",\"pattern\":\"/a\"}",
            "127.0.0.1:8080 127.0.0.1:9000|/>0|/a>0",
        ),
        (
            "{\"pattern\":\"/a\",\"backend\":\"http://127.0.0.1:9001\"},{\"pattern\":\"/b\",\"backend\":\"http://127.0.0.1:9000\"},{\"pattern\":\"/c\",\"backend\":\"http://127.0.0.1:9001\"}",
            "127.0.0.1:8080 127.0.0.1:9000 127.0.0.1:9001|/>0|/a>1|/b>0|/c>1",
        ),
        (
            "{\"pattern\":\"/b\",\"pattern\":\"GET /{x}\",\"backend\":\"http://0.0.0.0:65535\"}",
            "127.0.0.1:8080 127.0.0.1:9000 0.0.0.0:65535|/>0|GET /{x}>1",
        ),
        (
            "{\"pattern\":\"/b\",\"backend\":\"http://127.0.0.1:9000/\"},{\"pattern\":\"/c\",\"backend\":\"http://127.0.0.1:9000/api//v~!1/\"}",
            "127.0.0.1:8080 127.0.0.1:9000|/>0|/b>0/|/c>0/api//v~!1/",
        ),
        (
            "{\"pattern\":\"/\",\"backend\":\"http://localhost:1\"}",
            "route 0 and route 1 conflict",
        ),
        (
            "{\"pattern\":\"/posts/{id}\",\"backend\":\"http://localhost:1\"},{\"pattern\":\"/{r}/latest\",\"backend\":\"http://localhost:1\"}",
            "route 1 and route 2 conflict",
        ),
    ] {
        let file = second(alloc, member)?;
        assert_eq!(rt; said(alloc, file.as_str())?.as_str(), line, "with {member}");
    }
    Ok(())
}

#[test]
fn stops(rt: HostRuntime) -> Result<(), Fail> {
    let alloc = rt.alloc();
    let shut = "127.0.0.1:8080 127.0.0.1:9000|/>0|/a!";
    let led = "127.0.0.1:8080 127.0.0.1:9000 localhost:1|/>0|/a>1";
    for (member, line) in [
        ("{\"pattern\":\"/a\",\"stop\":true}", shut),
        ("{\"stop\":false,\"stop\":true,\"pattern\":\"/a\"}", shut),
        (
            "{\"stop\":true,\"pattern\":\"/a\"},{\"pattern\":\"/b\",\"backend\":\"http://localhost:1\"}",
            "127.0.0.1:8080 127.0.0.1:9000 localhost:1|/>0|/a!|/b>1",
        ),
        (
            "{\"pattern\":\"/a\",\"stop\":false,\"backend\":\"http://localhost:1\"}",
            led,
        ),
        (
            "{\"pattern\":\"/a\",\"backend\":\"http://localhost:1\"}",
            led,
        ),
        (
            "{\"pattern\":\"/a\",\"stop\":true,\"backend\":\"http://localhost:1\"}",
            "G2 route 1",
        ),
        ("{\"backend\":7,\"stop\":true}", "G2 route 1"),
        (
            "{\"pattern\":\"/a\",\"stop\":true,\"timeout\":1}",
            "G2 route 1",
        ),
        (
            "{\"buffer\":1,\"pattern\":\"/a\",\"stop\":true}",
            "G2 route 1",
        ),
        ("{\"stop\":true}", "G3 route 1"),
        ("{\"pattern\":1,\"stop\":true}", "G4 route 1"),
        ("{\"pattern\":\"\",\"stop\":true}", "G6 route 1 P1 at 0"),
        ("{\"stop\":1,\"pattern\":\"\"}", "G6 route 1 P1 at 0"),
        ("{\"pattern\":\"/a\",\"stop\":1}", "G4 route 1"),
        ("{\"pattern\":\"/a\",\"stop\":null}", "G4 route 1"),
        ("{\"pattern\":\"/a\",\"stop\":\"true\"}", "G4 route 1"),
        (
            "{\"pattern\":\"/a\",\"stop\":1,\"backend\":\"\",\"timeout\":0,\"buffer\":\"\"}",
            "G4 route 1",
        ),
        ("{\"pattern\":\"/a\",\"stop\":false}", "G3 route 1"),
        (
            "{\"pattern\":\"/a\",\"stop\":true,\"stop\":false}",
            "G3 route 1",
        ),
        (
            "{\"pattern\":\"/\",\"stop\":true}",
            "route 0 and route 1 conflict",
        ),
    ] {
        let file = second(alloc, member)?;
        assert_eq!(rt; said(alloc, file.as_str())?.as_str(), line, "with {member}");
    }
    Ok(())
}

// The time and the buffer of the file's second route.
fn limits_line(alloc: Global, file: &str) -> Result<String, AllocError> {
    match read_routes(alloc, file.as_bytes()) {
        Ok(table) => match table.routes.get(1) {
            Some(route) => {
                let timeout = route.timeout;
                let buffer = route.buffer;
                format!(in alloc; "{timeout} {buffer}")
            }
            None => format!(in alloc; "one route"),
        },
        Err(error) => fault_line(alloc, error),
    }
}

#[test]
fn limits(rt: HostRuntime) -> Result<(), Fail> {
    let alloc = rt.alloc();
    let backend = "\"backend\":\"http://localhost:1\"";
    for (members, line) in [
        ("", "30000 65536"),
        (",\"timeout\":0", "G5 route 1"),
        (",\"timeout\":1", "1 65536"),
        (",\"timeout\":3600000", "3600000 65536"),
        (",\"timeout\":3600001", "G5 route 1"),
        (",\"timeout\":\"1\"", "G4 route 1"),
        (",\"timeout\":1.0", "G4 route 1"),
        (",\"timeout\":null", "G4 route 1"),
        (",\"buffer\":-1", "G4 route 1"),
        (",\"buffer\":0", "30000 0"),
        (",\"buffer\":1048576", "30000 1048576"),
        (",\"buffer\":1048577", "G5 route 1"),
        (",\"buffer\":true", "G4 route 1"),
        (",\"buffer\":7,\"timeout\":9", "9 7"),
        (",\"timeout\":7,\"timeout\":9", "9 65536"),
        (",\"buffer\":\"\",\"timeout\":0", "G5 route 1"),
        (",\"buffer\":1048577,\"timeout\":\"\"", "G4 route 1"),
    ] {
        let member = format!(in alloc; "{{\"pattern\":\"/a\",{backend}{members}}}")?;
        let file = second(alloc, member.as_str())?;
        assert_eq!(rt;
            limits_line(alloc, file.as_str())?.as_str(),
            line,
            "with {members}"
        );
    }
    let stop = second(alloc, "{\"pattern\":\"/a\",\"stop\":true}")?;
    assert_eq!(rt; limits_line(alloc, stop.as_str())?.as_str(), "30000 65536");
    Ok(())
}
