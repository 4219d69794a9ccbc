//! Fields with lists of tokens, those that are stripped, and lines in their order.
use crate::{Fields, Lines};
use http_header::{HeaderName, HeaderValue};
use std::alloc::Global;
use std::str;
use std::test::Fail;

fn fields_of(alloc: Global, pairs: &[(&str, &str)]) -> Result<Fields, Fail> {
    let mut fields = Fields::new(alloc);
    for (name, value) in pairs {
        fields.push(
            HeaderName::from_bytes(alloc, name.as_bytes())?,
            HeaderValue::from_bytes(alloc, value.as_bytes())?,
        )?;
    }
    Ok(fields)
}

#[test]
fn tokens_of_one_value(rt: HostRuntime) -> Result<(), Fail> {
    let table: [(&str, &str, bool); 16] = [
        ("close", "close", true),
        ("Close", "cLOSE", true),
        ("keep-alive, close", "close", true),
        ("keep-alive,close", "keep-alive", true),
        ("\t close \t", "close", true),
        ("a ,\tclose\t, b", "close", true),
        ("a,b,c", "c", true),
        (",,close,,", "close", true),
        ("closed", "close", false),
        ("clos", "close", false),
        ("close;q=1", "close", false),
        ("keep alive, clo se", "close", false),
        ("\"close\"", "close", false),
        ("keep-alive", "close", false),
        ("", "close", false),
        ("a, ,b", "", true),
    ];
    for (value, token, expected) in table {
        let fields = fields_of(rt.alloc(), &[("Connection", value)])?;
        let found = fields.has_token(b"connection", token.as_bytes());
        assert_eq!(rt; found, expected, "{token} in {value}");
    }
    Ok(())
}

#[test]
fn tokens_of_several_fields(rt: HostRuntime) -> Result<(), Fail> {
    let fields = fields_of(
        rt.alloc(),
        &[
            ("Connection", "a"),
            ("Upgrade", "close"),
            ("CONNECTION", "b, close"),
        ],
    )?;
    let table: [(&str, &str, bool); 7] = [
        ("connection", "a", true),
        ("connection", "close", true),
        ("Connection", "b", true),
        ("connection", "c", false),
        ("upgrade", "close", true),
        ("upgrade", "a", false),
        ("te", "a", false),
    ];
    for (name, token, expected) in table {
        let found = fields.has_token(name.as_bytes(), token.as_bytes());
        assert_eq!(rt; found, expected, "{token} in {name}");
    }
    Ok(())
}

#[test]
fn fields_stay_in_their_order(rt: HostRuntime) -> Result<(), Fail> {
    let none = Fields::new(rt.alloc());
    let fields = fields_of(rt.alloc(), &[("Host", "a"), ("X-One", "B"), ("host", "")])?;
    assert!(rt; none.is_empty() && !fields.is_empty());
    assert_eq!(rt; (none.len(), fields.len()), (0, 3));
    for (i, (name, value)) in [("host", "a"), ("x-one", "B"), ("host", "")]
        .iter()
        .enumerate()
    {
        match fields.get(i) {
            Some((own, text)) => {
                assert_eq!(rt; own.as_bytes(), name.as_bytes());
                assert_eq!(rt; text.as_bytes(), value.as_bytes());
            }
            None => panic!(rt; "no field at {i}"),
        }
    }
    assert!(rt; fields.get(3).is_none() && none.get(0).is_none());
    Ok(())
}

// What is left of the fields as lines, by `strip_hops` and by `lines_without_hops`.
fn stripped(alloc: Global, pairs: &[(&str, &str)]) -> Result<(Vec<u8>, Vec<u8>), Fail> {
    let mut fields = fields_of(alloc, pairs)?;
    let mut lent = Vec::new(alloc);
    fields.lines_without_hops(alloc)?.write(&mut lent)?;
    fields.strip_hops();
    let mut text = Vec::new(alloc);
    fields.lines(alloc)?.write(&mut text)?;
    Ok((text, lent))
}

const HOP_BY_HOP: &[(&str, &str)] = &[
    ("Host", "example.com"),
    ("Connection", "X-Secret, close"),
    ("X-Secret", "1"),
    ("TE", "gzip, trailers"),
    ("Keep-Alive", "5"),
    ("X-Forwarded-For", "1.2.3.4"),
];

const EACH_NAME: &[(&str, &str)] = &[
    ("Connection", ""),
    ("a", "1"),
    ("Proxy-Connection", "x"),
    ("Keep-Alive", "x"),
    ("b", "2"),
    ("Proxy-Authenticate", "x"),
    ("Proxy-Authorization", "x"),
    ("TE", "x"),
    ("Trailer", "x"),
    ("c", "3"),
    ("Transfer-Encoding", "x"),
    ("Upgrade", "x"),
    ("a", "4"),
];

// A `Connection` counts wherever it stands, and where another names it.
const NAMED: &[(&str, &str)] = &[
    ("one", "1"),
    ("Connection", "connection, ONE"),
    ("two", "2"),
    ("kept", "k"),
    ("two", "3"),
    ("connection", "Two"),
];

const NONE: &[(&str, &str)] = &[("te-x", "1"), ("upgrades", "2")];

#[test]
fn hops_are_stripped(rt: HostRuntime) -> Result<(), Fail> {
    let table = [
        (
            HOP_BY_HOP,
            "Host: example.com\r\nX-Forwarded-For: 1.2.3.4\r\n",
        ),
        (EACH_NAME, "A: 1\r\nB: 2\r\nC: 3\r\nA: 4\r\n"),
        (NAMED, "Kept: k\r\n"),
        (NONE, "Te-X: 1\r\nUpgrades: 2\r\n"),
        (&[], ""),
    ];
    for (pairs, expected) in table {
        let (text, lent) = stripped(rt.alloc(), pairs)?;
        assert_eq!(rt; str::from_utf8(&text).unwrap_or("not text"), expected);
        assert_eq!(rt; str::from_utf8(&lent).unwrap_or("not text"), expected);
    }
    Ok(())
}

// Fields that are listed stand before the 128th and behind it, and one name stands twice.
#[test]
fn hops_of_many_fields(rt: HostRuntime) -> Result<(), Fail> {
    let alloc = rt.alloc();
    let mut fields = fields_of(alloc, &[("Connection", "X-7, y,x-139"), ("X-7", "a")])?;
    for i in 0..140 {
        let name = format!(in alloc; "x-{i}")?;
        fields.push(
            HeaderName::from_bytes(alloc, name.as_bytes())?,
            HeaderValue::from_bytes(alloc, b"b")?,
        )?;
    }
    let mut text = Vec::new(alloc);
    fields.lines_without_hops(alloc)?.write(&mut text)?;
    assert!(rt; text.starts_with(b"X-0: b\r\nX-1: b\r\n") && text.ends_with(b"X-138: b\r\n"));
    fields.strip_hops();
    assert_eq!(rt; fields.len(), 138);
    let mut left = Vec::new(alloc);
    fields.lines(alloc)?.write(&mut left)?;
    assert_eq!(rt; left, text);
    Ok(())
}

const ROW: &[(&str, &str)] = &[("x-b", "2"), ("A", "1"), ("X-B", "1")];

// `_` and digits stand before the letters of lower case, `-` before both, and a name before a longer one.
const MARKS: &[(&str, &str)] = &[
    ("x-a", "1"),
    ("x-_", "2"),
    ("xa", "3"),
    ("x", "4"),
    ("x-0", "5"),
    ("_x", "6"),
];

const SPELLINGS: &[(&str, &str)] = &[
    ("WWW-AUTHENTICATE", "Basic"),
    ("etag", ""),
    ("content-md5", "a b"),
    ("a--b-", "c"),
];

#[test]
fn sorted_lines(rt: HostRuntime) -> Result<(), Fail> {
    let table = [
        (ROW, "A: 1\r\nX-B: 2\r\nX-B: 1\r\n"),
        (
            MARKS,
            "_x: 6\r\nX: 4\r\nX-0: 5\r\nX-_: 2\r\nX-A: 1\r\nXa: 3\r\n",
        ),
        (
            SPELLINGS,
            "A--B-: c\r\nContent-Md5: a b\r\nEtag: \r\nWww-Authenticate: Basic\r\n",
        ),
        (&[], ""),
    ];
    for (pairs, expected) in table {
        let text = fields_of(rt.alloc(), pairs)?.sorted(rt.alloc())?;
        assert_eq!(rt; str::from_utf8(&text).unwrap_or("not text"), expected);
    }
    Ok(())
}

#[test]
fn many_lines_stay_stable(rt: HostRuntime) -> Result<(), Fail> {
    let digits: [&str; 10] = ["0", "1", "2", "3", "4", "5", "6", "7", "8", "9"];
    let mut lines = Lines::new(rt.alloc());
    for digit in digits {
        for name in ["c", "a", "b"] {
            lines.push(name.as_bytes(), digit.as_bytes())?;
        }
    }
    lines.sort()?;
    lines.remove(b"B");
    let mut text = Vec::new(rt.alloc());
    lines.write(&mut text)?;
    assert_eq!(rt; lines.text_len(), 120);
    let mut expected = Vec::new(rt.alloc());
    for name in ["A", "C"] {
        for digit in digits {
            for part in [name, ": ", digit, "\r\n"] {
                expected.extend_from_slice(part.as_bytes())?;
            }
        }
    }
    assert_eq!(rt; text, expected);
    Ok(())
}
