// The gateway's program: the real world, and one call of the library.
#![tactic(auto)]

use gw_tcp::TcpWorld;
use gw_top::{run_gateway, run_plain};
use std::alloc::AllocError;
use std::process::ExitCode;
use std::{env, io};

fn main(rt: HostRuntime) -> Result<ExitCode, AllocError> {
    // words that can't be read are no command's form, as no words are
    let words = match read_words(&rt) {
        Ok(words) => words,
        Err(_) => Vec::new(rt.alloc()),
    };
    let mut world = TcpWorld::new(rt.clone()?, rt.alloc());
    let status = if is_serve(words.as_slice()) {
        run_gateway(&rt, rt.alloc(), words.as_slice(), &mut world).status
    } else {
        run_plain(rt.alloc(), words.as_slice(), &mut world)
    };
    Ok(ExitCode::from(status))
}

// Whether the first word asks for the gateway itself.
fn is_serve(words: &[String]) -> bool {
    match words {
        [verb, ..] => verb.as_str() == "serve",
        _ => false,
    }
}

// The words of the command line without the program's name.
fn read_words<R: env::Env + AllocGlobal>(rt: &R) -> io::Result<Vec<String>> {
    let mut words = Vec::new(rt.alloc());
    for word in env::args(rt)?.skip(1) {
        words.push(word)?;
    }
    Ok(words)
}

#[cfg(test)]
mod tests;
