//! Field lines that are about to be sent.
ghost use Rattle.std.specs.Prelude.{◌≡◌, ◌∷◌, [], ◌++◌, ◌^◌, ◌-◌, filter, length, min, not, IfOk, OnOk, OnErr};
ghost use Rattle.gw_fields.specs.Fields.{is_named};
ghost use Rattle.gw_fields.specs.Lines.{has_field, listed, pair_of, values_text, StartsWith};
ghost use Rattle.gw_fields.specs.Order.{line_of, lines_of, sorted, spelled, IsLowerCase};

use crate::error::NoMemory;
use std::alloc::{AllocError, Global};
use std::marker::Model;

// The colon with its space and the line end.
const FRAME_LEN: usize = 4;

/// Names and values that make the field lines of a head. They are lent, not copied. Contracts see the list of the names
/// and values.
#[derive(Drop)]
pub struct Lines<'a> {
    lines: Vec<Line<'a>>,
}

#[derive(Clone, Copy)]
struct Line<'a> {
    name: &'a [u8],
    value: &'a [u8],
}

impl<'a> Model for Lines<'a> {
    ghost use Rattle.std.specs.Prelude.{ℕ, List, map};
    ghost use Rattle.gw_fields.specs.Lines.{pair_of};

    ghost Value = { List (List ℕ × List ℕ) };

    ghost view = { λ l. map pair_of l.lines.items };
}

impl<'a> Lines<'a> {
    /// No lines; it takes no memory yet.
    pub fn new(alloc: Global) -> Lines<'a>
        ensures { result ≡ [] }
    {
        Lines {
            lines: Vec::new(alloc),
        }
    }

    /// No lines, with room for so many.
    pub fn with_capacity(alloc: Global, count: usize) -> Result<Lines<'a>, NoMemory>
        ensures { IfOk result (λ lines. lines ≡ []) }
    {
        Ok(Lines {
            lines: Vec::with_capacity(alloc, count)?,
        })
    }

    /// Adds a line behind the others. The name is in lower case. Where there is no memory, nothing is added.
    pub fn push(&mut self, name: &'a [u8], value: &'a [u8]) -> Result<(), NoMemory>
        requires { IsLowerCase name.now }
        ensures ok { OnOk result (self.new ≡ self.old ++ (name.now, value.now) ∷ []) }
        ensures err { OnErr result (self.new ≡ self.old) }
    {
        self.lines.push(Line { name, value })?;
        Ok(())
    }

    /// Removes the lines of that name, which is compared without case. It takes no memory.
    pub fn remove(&mut self, name: &[u8])
        ensures { self.new ≡ filter (λ line. not (is_named name.now line)) self.old }
    {
        self.lines.retain(|line| !is_named(line, name));
    }

    /// Whether there is a line of that name, which is compared without case.
    pub fn has(&self, name: &[u8]) -> bool
        ensures { result ≡ has_field name.now self.now }
    {
        for line in &self.lines {
            if is_named(line, name) {
                return true;
            }
        }
        false
    }

    /// Puts the lines into the byte order of their names; those of one name keep their order. Where there is no memory
    /// for it, they stay as they were.
    pub fn sort(&mut self) -> Result<(), NoMemory>
        ensures ok { OnOk result (self.new ≡ sorted self.old) }
        ensures err { OnErr result (self.new ≡ self.old) }
    {
        self.lines.sort_by_key(|line| line.name)
    }

    /// How many bytes the lines have as they are sent, or 2^64 - 1 where there are more.
    pub fn text_len(&self) -> usize
        ensures { result ≡ min (length (lines_of self.now)) (2 ^ 64 - 1) }
    {
        let mut len: usize = 0;
        for line in &self.lines {
            len = len.saturating_add(line_len(line));
        }
        len
    }

    /// Appends each value of that name, which is compared without case, with a comma and a space behind it, so that one
    /// more can follow (RFC 9110, section 5.3). Where there is no memory for them, `out` stays as it was.
    pub fn write_values(&self, name: &[u8], out: &mut Vec<u8>) -> Result<(), NoMemory>
        ensures ok { OnOk result (out.new.items ≡ out.old.items ++ values_text name.now self.now) }
        ensures err { OnErr result (out.new.items ≡ out.old.items) }
    {
        let before = out.len();
        for line in &self.lines {
            if is_named(line, name) && write_value(line.value, out).is_err() {
                out.truncate(before);
                return Err(AllocError);
            }
        }
        Ok(())
    }

    /// Appends the lines in their order. Where there is no memory for them, `out` stays as it was.
    pub fn write(&self, out: &mut Vec<u8>) -> Result<(), NoMemory>
        ensures ok { OnOk result (out.new.items ≡ out.old.items ++ lines_of self.now) }
        ensures err { OnErr result (out.new.items ≡ out.old.items) }
    {
        let before = out.len();
        for line in &self.lines {
            if write_line(line, out).is_err() {
                out.truncate(before);
                return Err(AllocError);
            }
        }
        Ok(())
    }
}

// Whether the line has that name, without case.
fn is_named(line: &Line<'_>, name: &[u8]) -> bool
    ensures { result ≡ is_named name.now (pair_of line.now) }
{
    line.name.eq_ignore_ascii_case(name)
}

// How many bytes the line has.
fn line_len(line: &Line<'_>) -> usize
    ensures { result ≡ min (length (line_of (pair_of line.now))) (2 ^ 64 - 1) }
{
    line.name
        .len()
        .saturating_add(line.value.len())
        .saturating_add(FRAME_LEN)
}

// Appends a line; where there is no memory for it, some of it.
fn write_line(line: &Line<'_>, out: &mut Vec<u8>) -> Result<(), NoMemory>
    ensures ok { OnOk result (out.new.items ≡ out.old.items ++ line_of (pair_of line.now)) }
    ensures err { OnErr result (StartsWith out.old.items out.new.items) }
{
    write_name(line.name, out)?;
    out.extend_from_slice(b": ")?;
    out.extend_from_slice(line.value)?;
    out.extend_from_slice(b"\r\n")?;
    Ok(())
}

// Appends a value with a comma and a space; where there is no memory for it, some of it.
fn write_value(value: &[u8], out: &mut Vec<u8>) -> Result<(), NoMemory>
    ensures ok { OnOk result (out.new.items ≡ out.old.items ++ listed value.now) }
    ensures err { OnErr result (StartsWith out.old.items out.new.items) }
{
    out.extend_from_slice(value)?;
    out.extend_from_slice(b", ")?;
    Ok(())
}

// Appends a name with its first letter and each letter behind a '-' in upper case.
fn write_name(name: &[u8], out: &mut Vec<u8>) -> Result<(), NoMemory>
    ensures ok { OnOk result (out.new.items ≡ out.old.items ++ spelled name.now) }
    ensures err { OnErr result (StartsWith out.old.items out.new.items) }
{
    let mut starts = true;
    for byte in name {
        let letter = if starts {
            byte.to_ascii_uppercase()
        } else {
            *byte
        };
        out.push(letter)?;
        starts = *byte == b'-';
    }
    Ok(())
}
