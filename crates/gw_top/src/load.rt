// The route file that a command names.

ghost use Rattle.std.specs.Prelude.{◌≡◌, IfOk, string_bytes};
ghost use Rattle.gw_top.specs.Lines.{unreadable_line, memory_line, bad_line, conflict_line};
ghost use Rattle.gw_top.specs.Load.{Loads, Says, SaysOr7};

use gw_pattern::PCode;
use gw_routes::{GCode, RouteError, Table, read_routes};
use gw_wire::{Loaded, World};
use std::alloc::{AllocError, Global};

/// The table of the route file of that name. Where there is none, the line that says why is printed, and the error is
/// its status: 3, 4, 5 or 7.
pub(crate) fn load_table<H: World>(alloc: Global, world: &mut H, name: &str) -> Result<Table, u8>
    ensures { Loads (H.world world.old) (H.world world.new) name.now result }
{
    let file = match world.read_routes(name) {
        Loaded::Bytes(file) => file,
        Loaded::Failed => return Err(cannot_read(world, name)),
        Loaded::NoMemory => return Err(no_memory(world)),
    };
    match read_routes(alloc, file.as_slice()) {
        Ok(table) => Ok(table),
        Err(
            RouteError::Bad {
                code,
                route,
                pattern,
            },
        ) => Err(faulty(alloc, world, code, route, pattern)),
        Err(RouteError::Conflict { first, second }) => {
            Err(conflicting(alloc, world, first, second))
        }
        Err(RouteError::NoMemory) => Err(no_memory(world)),
    }
}

/// Prints that the file can't be read, in parts, which takes no memory.
fn cannot_read<H: World>(world: &mut H, name: &str) -> u8
    ensures status { result ≡ 3 }
    ensures says { Says (H.world world.old) (H.world world.new) (unreadable_line name.now) }
{
    let _ = world.print(b"cannot read ");
    let _ = world.print(name.as_bytes());
    let _ = world.print(b"\n");
    3
}

/// Prints that memory was wanting, and answers its status.
pub(crate) fn no_memory<H: World>(world: &mut H) -> u8
    ensures status { result ≡ 7 }
    ensures says { Says (H.world world.old) (H.world world.new) memory_line }
{
    let _ = world.print(b"out of memory\n");
    7
}

/// Prints the first fault of a route file.
fn faulty<H: World>(
    alloc: Global,
    world: &mut H,
    code: GCode,
    route: Option<u32>,
    pattern: Option<(PCode, u64)>,
) -> u8
    ensures { SaysOr7 (H.world world.old) (H.world world.new) 4 (bad_line code route pattern) result }
{
    match bad_line(alloc, code, route, pattern) {
        Ok(line) => say(world, 4, line.as_bytes()),
        Err(AllocError) => no_memory(world),
    }
}

fn bad_line(
    alloc: Global,
    code: GCode,
    route: Option<u32>,
    pattern: Option<(PCode, u64)>,
) -> Result<String, AllocError>
    ensures { IfOk result (λ line. string_bytes line ≡ bad_line code route pattern) }
{
    let Some(route) = route else {
        return format!(in alloc; "bad routes: {code}\n");
    };
    match pattern {
        None => format!(in alloc; "bad routes: {code} route {route}\n"),
        Some((fault, at)) => {
            format!(in alloc; "bad routes: {code} route {route} {fault} at {at}\n")
        }
    }
}

/// Prints the first conflict of a route file.
fn conflicting<H: World>(alloc: Global, world: &mut H, first: u32, second: u32) -> u8
    ensures { SaysOr7 (H.world world.old) (H.world world.new) 5 (conflict_line first second) result }
{
    match format!(in alloc; "conflict: route {first} and route {second}\n") {
        Ok(line) => say(world, 5, line.as_bytes()),
        Err(AllocError) => no_memory(world),
    }
}

/// Prints a line, and answers this status.
fn say<H: World>(world: &mut H, status: u8, line: &[u8]) -> u8
    ensures status { result ≡ status }
    ensures says { Says (H.world world.old) (H.world world.new) line.now }
{
    let _ = world.print(line);
    status
}
