//! The router beside the decision that is taken slowly.
ghost use Rattle.std.specs.Prelude.{All, IfOk};
ghost use Rattle.gw_pattern.specs.Pattern.{IsWellFormed};
ghost use Rattle.gw_mux.specs.Table.{ArePatterns};

use super::answers::{mux_of, patterns_of, push_other, push_route};
use super::slow::slowly;
use crate::{Decision, Mux, NoMemory};
use gw_pattern::{Pattern, PatternError, parse};
use std::alloc::Global;
use std::test::Fail;

fn agrees(
    alloc: Global,
    mux: &Mux,
    patterns: &[Pattern],
    method: &str,
    host: &str,
    path: &str,
) -> Result<bool, Fail>
    requires { All IsWellFormed patterns.now }
{
    let decision = mux.decide(
        alloc,
        method.as_bytes(),
        host.as_bytes(),
        path.as_bytes(),
        None,
    )?;
    let mut text = String::new(alloc);
    match &decision {
        Decision::Route(hit) => push_route(&mut text, alloc, hit)?,
        other => push_other(&mut text, other)?,
    }
    Ok(text.as_str() == slowly(alloc, patterns, method, host, path)?.as_str())
}

// The texts of 1,024 patterns: eight for each of 128 first segments.
fn numbered_text(alloc: Global, number: usize) -> Result<String, NoMemory> {
    let k = number / 8;
    match number % 8 {
        0 => format!(in alloc; "GET /k{k}/a"),
        1 => format!(in alloc; "GET /k{k}/{{x}}"),
        2 => format!(in alloc; "HEAD /k{k}/a"),
        3 if k % 2 == 0 => format!(in alloc; "/k{k}/"),
        3 => format!(in alloc; "PUT /k{k}/{{x}}/b/c"),
        4 => format!(in alloc; "POST /k{k}/{{x}}/b"),
        5 => format!(in alloc; "h/k{k}/{{x...}}"),
        6 => format!(in alloc; "GET h/k{k}/{{x}}/{{y}}"),
        _ => format!(in alloc; "DELETE /k{k}/{{$}}"),
    }
}

fn numbered_patterns(alloc: Global) -> Result<Vec<Pattern>, PatternError>
    ensures { IfOk result (λ patterns. ArePatterns patterns.items) }
{
    let mut patterns = Vec::new(alloc);
    for i in 0..1024 {
        let text = numbered_text(alloc, i)?;
        patterns.push(parse(alloc, text.as_str())?)?;
    }
    Ok(patterns)
}

#[test]
fn many_decide_as_defined(rt: HostRuntime) -> Result<(), Fail> {
    let alloc = rt.alloc();
    let (Ok(patterns), Ok(kept)) = (numbered_patterns(alloc), numbered_patterns(alloc)) else {
        return Err("no patterns".into());
    };
    let Ok(mux) = Mux::build(alloc, patterns) else {
        return Err("no router".into());
    };
    for k in [0, 57, 127] {
        for end in [
            "", "/", "/a", "/z", "/a/", "/z/b", "/z/b/c", "/z/q/r", "/../k1/a",
        ] {
            let path = format!(in alloc; "/k{k}{end}")?;
            for method in ["GET", "HEAD", "POST", "DELETE"] {
                for host in ["", "h", "g"] {
                    let same = agrees(alloc, &mux, &kept, method, host, path.as_str())?;
                    assert!(rt; same, "{method} {host}{path}");
                }
            }
        }
    }
    Ok(())
}

#[test]
fn decides_as_defined(rt: HostRuntime) -> Result<(), Fail> {
    let alloc = rt.alloc();
    for texts in [
        ["/{$}", "/a", "/a/{x}", "/a/b", "/a/b/", "/a/b/{$}"],
        ["GET /", "POST /a/", "GET /a/b", "h/", "GET h/a", "h/a/{x}/"],
        [
            "/{x}",
            "/{x}/b",
            "/{x}/b/{$}",
            "POST /c/d/{y...}",
            "GET /c/d/e",
            "DELETE g/",
        ],
        [
            "GET h/a/",
            "GET h/a/{$}",
            "DELETE h/a/b",
            "/b/",
            "/{x}/",
            "HEAD h/a/b",
        ],
    ] {
        let mux = mux_of(alloc, &texts)?;
        let Ok(patterns) = patterns_of(alloc, &texts) else {
            return Err("no patterns".into());
        };
        for path in [
            "/",
            "/a",
            "/a/",
            "/a/b",
            "/a/b/",
            "/a/b/c",
            "/c",
            "/c/",
            "/c/b",
            "/c/d",
            "/c/d/e",
            "/c/d/e/",
            "/b",
            "/b/b/",
            "//a",
            "/a/./b",
            "/a/../c/d/",
            "/x/../a/b/",
            "/a/b/..",
        ] {
            for method in ["GET", "HEAD", "POST", "DELETE"] {
                for host in ["", "h", "g"] {
                    let same = agrees(alloc, &mux, &patterns, method, host, path)?;
                    assert!(rt; same, "{method} {host}{path}");
                }
            }
        }
    }
    Ok(())
}
