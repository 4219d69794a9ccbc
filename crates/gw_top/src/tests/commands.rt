//! Commands that print a line and end.

use super::{file_of, tells};
use std::alloc::{AllocError, Global};
use std::test::Fail;

/// A path or a method, and what `route` prints for it.
type Row = (&'static str, &'static str);

const USAGE: &[u8] =
    b"usage: gateway serve ROUTES | check ROUTES | route ROUTES METHOD HOST PATH | drill SEED N\n";

// What `route` prints for a method and a path, with an empty host.
fn routed(
    alloc: Global,
    patterns: &[&str],
    method: &str,
    path: &str,
) -> Result<(u8, Vec<u8>), Fail> {
    let file = file_of(alloc, patterns)?;
    tells(
        alloc,
        &["route", "f", method, "", path],
        file.as_str(),
        true,
    )
}

// The first row for whose path something else is printed.
fn first_wrong_path(
    alloc: Global,
    patterns: &[&str],
    rows: &[Row],
) -> Result<Option<&'static str>, Fail> {
    for i in 0..rows.len() {
        let (path, text) = rows[i];
        let (status, printed) = routed(alloc, patterns, "GET", path)?;
        if status != 0 || printed.as_slice() != text.as_bytes() {
            return Ok(Some(path));
        }
    }
    Ok(None)
}

const ITEMS: [Row; 5] = [
    ("/items/latest", "route 1 /items/latest\n"),
    ("/items/7", "route 0 /items/{id}\nid=7\n"),
    ("/items/7?a", "route 0 /items/{id}\nid=7\n"),
    ("/items/%41b", "route 0 /items/{id}\nid=%41b\n"),
    ("/other", "not found\n"),
];

#[test]
fn precedence(rt: HostRuntime) -> Result<(), Fail> {
    let alloc = rt.alloc();
    let wrong = first_wrong_path(alloc, &["/items/{id}", "/items/latest"], &ITEMS)?;
    assert_eq!(rt; wrong, None);
    let (_, printed) = routed(alloc, &["/{a}/x/{b...}", "/"], "GET", "/1/x/2/3")?;
    assert_eq!(rt;
        printed.as_slice(),
        b"route 0 /{a}/x/{b...}\na=1\nb=2/3\n".as_slice()
    );
    Ok(())
}

const ENDS: [Row; 4] = [
    ("/b/", "route 0 /b/{$}\n"),
    ("/b/c", "route 1 /b/\n"),
    ("/b", "redirect /b/\n"),
    ("/b//c?x=1", "redirect /b/c?x=1\n"),
];

#[test]
fn end_mark_and_rest(rt: HostRuntime) -> Result<(), Fail> {
    let wrong = first_wrong_path(rt.alloc(), &["/b/{$}", "/b/"], &ENDS)?;
    assert_eq!(rt; wrong, None);
    Ok(())
}

// What `route` prints for a method and the path `/a`.
fn says(alloc: Global, patterns: &[&str], method: &str, text: &str) -> Result<bool, Fail> {
    let (status, printed) = routed(alloc, patterns, method, "/a")?;
    Ok(status == 0 && printed.as_slice() == text.as_bytes())
}

#[test]
fn head_matches_get(rt: HostRuntime) -> Result<(), Fail> {
    let alloc = rt.alloc();
    let patterns = ["GET /a", "/a"];
    assert!(rt; says(alloc, &patterns, "HEAD", "route 0 GET /a\n")?);
    assert!(rt; says(alloc, &patterns, "GET", "route 0 GET /a\n")?);
    assert!(rt; says(alloc, &patterns, "DELETE", "route 1 /a\n")?);
    assert!(rt;
        says(
            alloc,
            &["GET /a", "PUT /a"],
            "POST",
            "not allowed GET, HEAD, PUT\n"
        )?
    );
    Ok(())
}

// Whether these words over this file end with this status and print this.
fn ends(alloc: Global, words: &[&str], file: &str, status: u8, text: &str) -> Result<bool, Fail> {
    let (said, printed) = tells(alloc, words, file, true)?;
    Ok(said == status && printed.as_slice() == text.as_bytes())
}

#[test]
fn conflict_is_named(rt: HostRuntime) -> Result<(), Fail> {
    let alloc = rt.alloc();
    let conflict = file_of(alloc, &["/posts/{id}", "/{resource}/latest"])?;
    let good = file_of(alloc, &["/items/{id}", "/items/latest"])?;
    let check = ["check", "f"];
    assert!(rt;
        ends(
            alloc,
            &check,
            conflict.as_str(),
            5,
            "conflict: route 0 and route 1\n"
        )?
    );
    assert!(rt; ends(alloc, &check, good.as_str(), 0, "ok: 2 routes\n")?);
    Ok(())
}

/// Where the line can't be printed, a conflict keeps its status, and a good file is 9.
#[test]
fn unprinted(rt: HostRuntime) -> Result<(), Fail> {
    let alloc = rt.alloc();
    let conflict = file_of(alloc, &["/posts/{id}", "/{resource}/latest"])?;
    let good = file_of(alloc, &["/items/{id}", "/items/latest"])?;
    let (status, printed) = tells(alloc, &["check", "f"], conflict.as_str(), false)?;
    assert_eq!(rt; status, 5);
    assert!(rt; printed.is_empty());
    let (status, printed) = tells(alloc, &["check", "f"], good.as_str(), false)?;
    assert_eq!(rt; status, 9);
    assert!(rt; printed.is_empty());
    Ok(())
}

// Whether `check` and `route` name the fault of a file.
fn names(alloc: Global, file: &str, text: &str) -> Result<bool, Fail> {
    Ok(
        ends(alloc, &["check", "f"], file, 4, text)?
            && ends(alloc, &["route", "f", "GET", "", "/"], file, 4, text)?,
    )
}

#[test]
fn bad_patterns(rt: HostRuntime) -> Result<(), Fail> {
    let alloc = rt.alloc();
    let empty = file_of(alloc, &[""])?;
    let doubled = file_of(alloc, &["/a", "/a/{x}/{x}"])?;
    let base =
        "{\"listen\":\"127.0.0.1:8080\",\"routes\":[{\"pattern\":\"/\",\"backend\":\"http://127.0.0.1:9000/a?b\"}]}";
    assert!(rt; names(alloc, empty.as_str(), "bad routes: G6 route 0 P1 at 0\n")?);
    assert!(rt; names(alloc, doubled.as_str(), "bad routes: G6 route 1 P13 at 7\n")?);
    assert!(rt; names(alloc, "[", "bad routes: G1\n")?);
    assert!(rt; names(alloc, "{\"listen\":1}", "bad routes: G4\n")?);
    assert!(rt; names(alloc, base, "bad routes: G8 route 0\n")?);
    assert!(rt; ends(alloc, &["check", "other"], "[", 3, "cannot read other\n")?);
    Ok(())
}

// Whether the words are answered by the usage line and its status.
fn is_usage(alloc: Global, words: &[&str]) -> Result<bool, Fail> {
    let (status, printed) = tells(alloc, words, "[", true)?;
    Ok(status == 2 && printed.as_slice() == USAGE)
}

/// Words that are no command's form.
#[test]
fn words_of_no_command(rt: HostRuntime) -> Result<(), Fail> {
    let alloc = rt.alloc();
    assert!(rt; is_usage(alloc, &[])?);
    assert!(rt; is_usage(alloc, &["check"])?);
    assert!(rt; is_usage(alloc, &["check", "f", "g"])?);
    assert!(rt; is_usage(alloc, &["--help"])?);
    assert!(rt; is_usage(alloc, &["serve", "f"])?);
    assert!(rt; is_usage(alloc, &["route", "f", "GET", ""])?);
    assert!(rt; is_usage(alloc, &["route", "f", "CONNECT", "", "/"])?);
    assert!(rt; is_usage(alloc, &["route", "f", "", "", "/"])?);
    assert!(rt; is_usage(alloc, &["route", "f", "G T", "", "/"])?);
    assert!(rt; is_usage(alloc, &["route", "f", "GET", "", "a"])?);
    assert!(rt; is_usage(alloc, &["route", "f", "GET", "", ""])?);
    assert!(rt; is_usage(alloc, &["route", "f", "GET", "", "/a b"])?);
    assert!(rt; is_usage(alloc, &["route", "f", "GET", "", "/a#b"])?);
    assert!(rt; is_usage(alloc, &["route", "f", "GET", "", "/%4"])?);
    Ok(())
}
