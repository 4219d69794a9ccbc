//! What the branches of the tree are called, and how they are ordered.
ghost use Rattle.std.specs.Prelude.{◌≡◌, ◌∷◌};
ghost use Rattle.std.specs.Cmp.Lexicographic.{slice_cmp};
ghost use Rattle.std.specs.Ordering.{nat_cmp};
ghost use Rattle.percent_encoding.specs.Percent.{percent_decode};
ghost use Rattle.gw_mux.specs.Label.{asked_key, key_of, key_text, rank_of};

use percent_encoding::percent_decode;
use std::cmp::Ordering;

/// What the branch of a pattern is called: its host, then each of its segments, the place where these end, and its
/// method.
#[derive(Drop)]
pub(crate) enum Label<'p> {
    Host(&'p [u8]),
    Here,
    Literal(&'p [u8]),
    One,
    End,
    Rest,
    Method(&'p [u8]),
    AnyMethod,
}

/// A branch that is looked for.
#[derive(Drop)]
pub(crate) enum Asked<'p> {
    /// The literal that this part of a path stands for, as it is sent.
    Part(&'p [u8]),
    /// This one.
    Label(Label<'p>),
}

/// How two labels are ordered: by their kind, and then by their bytes.
pub(crate) fn compare(first: &Label<'_>, second: &Label<'_>) -> Ordering
    ensures { result ≡ slice_cmp nat_cmp (key_of first.now) (key_of second.now) }
{
    match rank(first).cmp(&rank(second)) {
        Ordering::Equal => text(first).cmp(text(second)),
        other => other,
    }
}

/// How a label lies to the one that is looked for.
pub(crate) fn compare_asked(label: &Label<'_>, asked: &Asked<'_>) -> Ordering
    ensures { result ≡ slice_cmp nat_cmp (key_of label.now) (asked_key asked.now) }
{
    match asked {
        Asked::Label(asked) => compare(label, asked),
        Asked::Part(part) => compare_part(label, part),
    }
}

// The same of the literal that a part stands for.
fn compare_part(label: &Label<'_>, part: &[u8]) -> Ordering
    ensures { result ≡ slice_cmp nat_cmp (key_of label.now) (1 ∷ percent_decode part.now) }
{
    match label {
        Label::Literal(bytes) => compare_decoded(bytes, part),
        other => rank(other).cmp(&1),
    }
}

// Compares bytes with what a part decodes to, as far as they are the same.
fn compare_decoded(bytes: &[u8], part: &[u8]) -> Ordering
    ensures { result ≡ slice_cmp nat_cmp bytes.now (percent_decode part.now) }
{
    let mut decoded = percent_decode(part);
    for own in bytes {
        let Some(b) = decoded.next() else {
            return Ordering::Greater;
        };
        if *own != b {
            return own.cmp(&b);
        }
    }
    match decoded.next() {
        None => Ordering::Equal,
        Some(_) => Ordering::Less,
    }
}

fn rank(label: &Label<'_>) -> u8
    ensures { result ≡ rank_of label.now }
{
    match label {
        Label::Here => 0,
        Label::Literal(_) => 1,
        Label::One => 2,
        Label::End => 3,
        Label::Rest => 4,
        Label::Method(_) => 5,
        Label::AnyMethod => 6,
        Label::Host(_) => 7,
    }
}

fn text<'p>(label: &Label<'p>) -> &'p [u8]
    ensures { result.now ≡ key_text label.now }
{
    match label {
        Label::Host(bytes) | Label::Literal(bytes) | Label::Method(bytes) => bytes,
        _ => &[],
    }
}
