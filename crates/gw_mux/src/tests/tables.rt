//! Tables of patterns with requests and their answers.
use super::answers::{decided, found, mux_of, push_methods, routed};
use gw_pattern::is_clean;
use std::test::Fail;

#[test]
fn precedence(rt: HostRuntime) -> Result<(), Fail> {
    let alloc = rt.alloc();
    let mux = mux_of(alloc, &["/items/{id}", "/items/latest"])?;
    for (path, answer) in [("/items/latest", "route 1"), ("/items/7", "route 0 7-8")] {
        let given = decided(alloc, &mux, "GET", "", path, None)?;
        assert_eq!(rt; given.as_str(), answer, "GET {path}");
        let given = found(alloc, &mux, "GET", "", path)?;
        assert_eq!(rt; given.as_str(), answer, "finding {path}");
    }

    let mux = mux_of(
        alloc,
        &["/", "/a/{x...}", "h/", "h/a/{x}/b", "/a/{x}/b", "/a%2Fb"],
    )?;
    for (host, path, answer) in [
        ("", "/q", "route 0"),
        ("", "/a/b/c", "route 1 3-6"),
        ("", "/a/", "route 1 3-3"),
        ("", "/a/%41%2f/b", "route 4 3-9"),
        ("", "/a%2fb", "route 5"),
        ("", "/%61%2Fb", "route 5"),
        ("", "/a%2Fb/", "route 0"),
        ("h", "/a/z/b", "route 3 3-4"),
        ("h", "/a/b/c", "route 2"),
        ("h", "/a%2Fb", "route 2"),
        ("g", "/a/z/b", "route 4 3-4"),
        ("g", "/a/z/b/", "route 1 3-7"),
    ] {
        let given = decided(alloc, &mux, "GET", host, path, None)?;
        assert_eq!(rt; given.as_str(), answer, "GET {host}{path}");
    }
    Ok(())
}

#[test]
fn conflict_is_named(rt: HostRuntime) -> Result<(), Fail> {
    let alloc = rt.alloc();
    let none: [&str; 0] = [];
    for (texts, conflict) in [
        (none.as_slice(), ""),
        (
            ["/posts/{id}", "/{resource}/latest"].as_slice(),
            "route 0 and route 1",
        ),
        (["/items/{id}", "/items/latest"].as_slice(), ""),
        (
            ["/a", "/b/{x}", "/{x}/c", "/b/{y}"].as_slice(),
            "route 1 and route 2",
        ),
        (
            ["/a/{x}", "/b/{x}", "/{x}/c"].as_slice(),
            "route 0 and route 2",
        ),
        (["h/a/{x}", "/{x}/c", "g/{x}/c"].as_slice(), ""),
        (
            ["GET /a/{x}", "POST /{x}/c", "HEAD /{x}/c"].as_slice(),
            "route 0 and route 2",
        ),
    ] {
        if texts.len() > 4 {
            return Err("a long list".into());
        }
        let given = match routed(alloc, texts)? {
            Ok(_) => String::new(alloc),
            Err(conflict) => conflict,
        };
        assert_eq!(rt; given.as_str(), conflict);
    }
    Ok(())
}

#[test]
fn head_matches_get(rt: HostRuntime) -> Result<(), Fail> {
    let alloc = rt.alloc();
    let mux = mux_of(alloc, &["GET /a", "/a", "HEAD /b", "GET /b"])?;
    for (method, path, answer) in [
        ("HEAD", "/a", "route 0"),
        ("GET", "/a", "route 0"),
        ("DELETE", "/a", "route 1"),
        ("get", "/a", "route 1"),
        ("HEAD", "/b", "route 2"),
        ("GET", "/b", "route 3"),
    ] {
        let given = decided(alloc, &mux, method, "", path, None)?;
        assert_eq!(rt; given.as_str(), answer, "{method} {path}");
    }
    Ok(())
}

#[test]
fn end_mark_and_rest(rt: HostRuntime) -> Result<(), Fail> {
    let alloc = rt.alloc();
    let mux = mux_of(alloc, &["/b/{$}", "/b/", "/f/{name...}"])?;
    for (path, answer) in [
        ("/b/", "route 0"),
        ("/b/c", "route 1"),
        ("/b", "redirect /b/"),
        ("/f", "redirect /f/"),
        ("/f/", "route 2 3-3"),
        ("/f/a/b/", "route 2 3-7"),
    ] {
        let given = decided(alloc, &mux, "GET", "", path, None)?;
        assert_eq!(rt; given.as_str(), answer, "GET {path}");
    }
    for (path, answer) in [("/b", "add slash"), ("/b/", "route 0"), ("/c", "nothing")] {
        let given = found(alloc, &mux, "GET", "", path)?;
        assert_eq!(rt; given.as_str(), answer, "finding {path}");
    }
    // A path with an exact best is not redirected, and one with another best is.
    let mux = mux_of(alloc, &["/b/", "/b", "/", "/c/{$}"])?;
    for (path, answer) in [("/b", "route 1"), ("/c", "redirect /c/"), ("/d", "route 2")] {
        let given = decided(alloc, &mux, "GET", "", path, None)?;
        assert_eq!(rt; given.as_str(), answer, "GET {path}");
    }
    Ok(())
}

#[test]
fn cleaning_redirects(rt: HostRuntime) -> Result<(), Fail> {
    let alloc = rt.alloc();
    let mux = mux_of(alloc, &["/zzz", "/b/"])?;
    for (path, query, answer) in [
        ("/a//b/../c", Some("x=1"), "redirect /a/c?x=1"),
        ("/q", None, "not found"),
        ("/./zzz", None, "redirect /zzz"),
        ("/x/../b", Some("q"), "redirect /b/?q"),
        ("/b", Some(""), "redirect /b/?"),
        (
            "//a\"b\u{e9}%41|",
            Some("y=<1> 2"),
            "redirect /a%22b%C3%A9%41%7C?y=%3C1%3E%202",
        ),
        (
            "//`{}^\\~!$&'()*+,;=:@-._",
            None,
            "redirect /%60%7B%7D%5E%5C~!$&'()*+,;=:@-._",
        ),
    ] {
        let given = decided(alloc, &mux, "GET", "", path, query)?;
        assert_eq!(rt; given.as_str(), answer, "GET {path}");
    }
    Ok(())
}

#[test]
fn method_not_allowed(rt: HostRuntime) -> Result<(), Fail> {
    let alloc = rt.alloc();
    let mux = mux_of(
        alloc,
        &[
            "GET /a",
            "POST /c",
            "GET /c",
            "DELETE /c/",
            "GET h/c",
            "PUT g/c",
            "POST /d/{x}",
        ],
    )?;
    for (host, path, answer) in [
        ("", "/a", "allow GET HEAD"),
        ("", "/c", "allow DELETE GET HEAD POST"),
        ("h", "/c", "allow DELETE GET HEAD POST"),
        ("g", "/c", "allow DELETE GET HEAD POST PUT"),
        ("", "/c/", "allow DELETE"),
        ("", "/d/1", "allow POST"),
        ("", "/d", "not found"),
    ] {
        let given = decided(alloc, &mux, "PATCH", host, path, None)?;
        assert_eq!(rt; given.as_str(), answer, "PATCH {host}{path}");
    }
    if is_clean(b"/c".as_slice()) {
        let methods = mux.allow(alloc, b"g".as_slice(), b"/c".as_slice())?;
        let mut text = String::new(alloc);
        push_methods(&mut text, &methods)?;
        assert_eq!(rt; text.as_str(), "allow DELETE GET HEAD POST PUT");
    }
    Ok(())
}
