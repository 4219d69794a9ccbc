// The commands that print what a route file says, and end.

ghost use Rattle.std.specs.Prelude.{◌≡◌, ◌<◌, ◌++◌, IfOk, length, take, drop};
ghost use Rattle.gw_mux.specs.declared.answer.Decision.TheVariants.{Route as RouteDecision};
ghost use Rattle.gw_routes.specs.Files.{AreNumbered};
ghost use Rattle.gw_top.specs.Printed.{Inspected, Prints, PrintsOr7, AnswersQuestion, IsOk, IsAnswerTo, IsName, IsNumbered, Tells, name_in, names_in, part_of, span_lines};

use crate::command::{Query, USAGE, check_name, route_query};
use crate::load::{load_table, no_memory};
use crate::methods::list_methods;
use gw_head::{split_target, strip_port};
use gw_mux::{Decision, Hit};
use gw_pattern::Seg;
use gw_routes::Table;
use gw_wire::{Printed, World};
use std::alloc::{AllocError, Global};

/// Runs `check ROUTES` or `route ROUTES METHOD HOST PATH`: it prints what the route file says, or what is wrong with it,
/// and answers the status. 0: all was printed. 2: the words are neither form. 3: the file can't be read. 4: it has a
/// fault. 5: two of its patterns conflict. 7: want of memory. 9: a print failed.
pub fn run_plain<H: World>(alloc: Global, words: &[String], world: &mut H) -> u8
    ensures { Inspected (H.world world.old) (H.world world.new) words.now result }
{
    if let Some(name) = check_name(words) {
        return match load_table(alloc, world, name) {
            Ok(table) => check(alloc, world, &table),
            Err(status) => status,
        };
    }
    if let Some(query) = route_query(words) {
        return match load_table(alloc, world, query.name) {
            Ok(table) => route(alloc, world, &table, &query),
            Err(status) => status,
        };
    }
    let _ = world.print(USAGE);
    2
}

/// Prints how many routes a good file has.
fn check<H: World>(alloc: Global, world: &mut H, table: &Table) -> u8
    ensures { PrintsOr7 (H.world world.old) (H.world world.new) (IsOk table.now) result }
{
    let count = table.routes.len();
    match format!(in alloc; "ok: {count} routes\n") {
        Ok(line) => print(world, line.as_bytes()),
        Err(AllocError) => no_memory(world),
    }
}

/// Prints what a request would get.
fn route<H: World>(alloc: Global, world: &mut H, table: &Table, query: &Query<'_>) -> u8
    requires { AreNumbered table.now }
    ensures { PrintsOr7 (H.world world.old) (H.world world.new)
        (IsAnswerTo (record { method = query.now.method.now; host = query.now.host.now; path = query.now.path.now }) table.now) result }
{
    match answer_text(alloc, table, query) {
        Ok(text) => print(world, &text),
        Err(AllocError) => no_memory(world),
    }
}

/// The text of a router's decision.
fn answer_text(alloc: Global, table: &Table, query: &Query<'_>) -> Result<Vec<u8>, AllocError>
    requires { AreNumbered table.now }
    ensures { IfOk result (λ text. AnswersQuestion table.now
        (record { method = query.now.method.now; host = query.now.host.now; path = query.now.path.now }) text.items) }
{
    let (path, sent) = split_target(query.path);
    let host = strip_port(query.host);
    let found = table.mux.decide(alloc, query.method, host, path, sent)?;
    tell(alloc, table, path, &found)
}

fn tell(alloc: Global, table: &Table, path: &[u8], found: &Decision) -> Result<Vec<u8>, AllocError>
    requires { IsNumbered table.now found.now }
    ensures { IfOk result (λ text. Tells table.now path.now found.now text.items) }
{
    match found {
        Decision::Route(hit) => tell_route(alloc, table, path, hit),
        Decision::Redirect(location) => {
            let mut text = b"redirect ".to_vec(alloc)?;
            text.extend_from_slice(location)?;
            text.push(b'\n')?;
            Ok(text)
        }
        Decision::NotAllowed(methods) => {
            let mut text = b"not allowed ".to_vec(alloc)?;
            list_methods(&mut text, methods)?;
            text.push(b'\n')?;
            Ok(text)
        }
        Decision::NotFound => b"not found\n".to_vec(alloc),
    }
}

/// The line of a route, and one for each of its named wildcards.
fn tell_route(alloc: Global, table: &Table, path: &[u8], hit: &Hit) -> Result<Vec<u8>, AllocError>
    requires routes { hit.now.route < length table.now.routes.items }
    requires patterns { hit.now.route < length table.now.mux }
    ensures { IfOk result (λ text. Tells table.now path.now (RouteDecision hit.now) text.items) }
{
    let number = hit.route;
    let mut text = format!(in alloc; "route {number} ")?.into_bytes();
    text.extend_from_slice(table.routes[number as usize].text.as_slice())?;
    text.push(b'\n')?;
    match table.mux.pattern(number) {
        Some(pattern) => write_spans(&mut text, &pattern.segs, hit.spans.as_slice(), path)?,
        None => unreachable!(),
    }
    Ok(text)
}

/// Writes what each named wildcard took of the path, a line for each.
fn write_spans(
    text: &mut Vec<u8>,
    segs: &[Seg],
    spans: &[(usize, usize)],
    path: &[u8],
) -> Result<(), AllocError>
    ensures { IfOk result (λ _. text.new.items ≡ text.old.items ++ span_lines (names_in segs.now) spans.now path.now) }
{
    let mut left = spans;
    for seg in segs {
        let Some(name) = name_in(seg) else {
            continue;
        };
        let [(from, to), rest @ ..] = left else {
            return Ok(());
        };
        text.extend_from_slice(name)?;
        text.push(b'=')?;
        text.extend_from_slice(part_of(path, *from, *to))?;
        text.push(b'\n')?;
        left = rest;
    }
    Ok(())
}

/// The name of a wildcard, if it has one.
fn name_in(seg: &Seg) -> Option<&[u8]>
    ensures { IsName (name_in seg.now) result }
{
    match seg {
        Seg::One(name) => Some(name.as_slice()),
        Seg::Rest(name) => {
            let name = name.as_slice();
            if name.is_empty() { None } else { Some(name) }
        }
        Seg::Literal(_) | Seg::End => None,
    }
}

/// What stands in the path from the one place up to the other.
fn part_of(path: &[u8], from: usize, to: usize) -> &[u8]
    ensures { result.now ≡ part_of path.now (from, to) }
{
    front(skip(path, from), to.saturating_sub(from))
}

fn skip(bytes: &[u8], n: usize) -> &[u8]
    ensures { result.now ≡ drop n bytes.now }
{
    if n < bytes.len() {
        &bytes[n..]
    } else {
        &bytes[bytes.len()..]
    }
}

fn front(bytes: &[u8], n: usize) -> &[u8]
    ensures { result.now ≡ take n bytes.now }
{
    if n < bytes.len() { &bytes[..n] } else { bytes }
}

/// Prints a text. 0: it was printed whole. 9: a print failed.
fn print<H: World>(world: &mut H, text: &[u8]) -> u8
    ensures { Prints (H.world world.old) (H.world world.new) text.now result }
{
    match world.print(text) {
        Printed::Done => 0,
        Printed::Failed => 9,
    }
}
