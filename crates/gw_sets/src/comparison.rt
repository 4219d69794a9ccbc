//! The relation of two patterns. Only their methods, hosts and lists of segments are compared.
ghost use Rattle.std.specs.Prelude.{◌≡◌};
ghost use Rattle.gw_pattern.specs.Pattern.{IsWellFormed};
ghost use Rattle.gw_sets.specs.Comparison.{AreMethodBytes, bytes_of, is_last, relation_of_hosts, relation_of_methods, relation_of_named, relation_of_segs, relation_of_two};
ghost use Rattle.gw_sets.specs.Matches.{Requests};
ghost use Rattle.gw_sets.specs.Relation.{Holds};
ghost use Rattle.gw_sets.specs.Shape.{Asked};

use crate::matching::{is_get, is_head};
use crate::relation::Relation;
use gw_pattern::{Pattern, Seg};
use http::Method;

/// How the requests that `p` matches lie to those that `q` matches, hosts included. Each matches some request, so
/// no other of the five answers would hold. Takes no memory.
pub fn relate(p: &Pattern, q: &Pattern) -> Relation
    requires first { IsWellFormed p.now }
    requires second { IsWellFormed q.now }
    ensures relation { Holds Asked result (Requests p.now) (Requests q.now) }
    ensures some_of_first { (a : Asked) × Requests p.now a }
    ensures some_of_second { (a : Asked) × Requests q.now a }
{
    let p_host = p.host.as_slice();
    let q_host = q.host.as_slice();
    let methods = relate_methods(method_bytes(&p.method), method_bytes(&q.method));
    methods.and(relate_hosts(p_host, q_host).and(relate_segs(&p.segs, &q.segs)))
}

// The bytes of the method, if there is one.
fn method_bytes(method: &Option<Method>) -> Option<&[u8]>
    ensures value { bytes_of result ≡ method.now }
    ensures bytes { AreMethodBytes method.now }
{
    match method {
        None => None,
        Some(method) => {
            let bytes = method.as_str().as_bytes();
            Some(bytes)
        }
    }
}

fn relate_methods(p: Option<&[u8]>, q: Option<&[u8]>) -> Relation
    ensures { result ≡ relation_of_methods (bytes_of p.entry) (bytes_of q.entry) }
{
    match (p, q) {
        (None, None) => Relation::Equal,
        (None, Some(_)) => Relation::MoreGeneral,
        (Some(_), None) => Relation::MoreSpecific,
        (Some(p), Some(q)) => relate_named(p, q),
    }
}

// GET stands for HEAD too.
fn relate_named(p: &[u8], q: &[u8]) -> Relation
    ensures { result ≡ relation_of_named p.now q.now }
{
    if p == q {
        Relation::Equal
    } else if is_get(p) && is_head(q) {
        Relation::MoreGeneral
    } else if is_head(p) && is_get(q) {
        Relation::MoreSpecific
    } else {
        Relation::Disjoint
    }
}

fn relate_hosts(p: &[u8], q: &[u8]) -> Relation
    ensures { result ≡ relation_of_hosts p.now q.now }
{
    if p == q {
        Relation::Equal
    } else if p.is_empty() {
        Relation::MoreGeneral
    } else if q.is_empty() {
        Relation::MoreSpecific
    } else {
        Relation::Disjoint
    }
}

// The segments from the left, pair by pair, up to the first that takes all that is left of a path.
fn relate_segs(p: &[Seg], q: &[Seg]) -> Relation
    ensures { result ≡ relation_of_segs p.now q.now }
{
    let mut relation = Relation::Equal;
    let mut left = q;
    for s in p {
        let [t, after @ ..] = left else {
            return Relation::Disjoint;
        };
        relation = relation.and(relate_two(s, t));
        if relation.is_disjoint() || is_last(s) || is_last(t) {
            return relation;
        }
        left = after;
    }
    if left.is_empty() {
        relation
    } else {
        Relation::Disjoint
    }
}

// What the one segment takes, against what the other takes.
fn relate_two(s: &Seg, t: &Seg) -> Relation
    ensures { result ≡ relation_of_two s.now t.now }
{
    match (s, t) {
        (Seg::Literal(p), Seg::Literal(q)) => {
            if p.as_slice() == q.as_slice() {
                Relation::Equal
            } else {
                Relation::Disjoint
            }
        }
        (Seg::One(_), Seg::One(_)) | (Seg::Rest(_), Seg::Rest(_)) | (Seg::End, Seg::End) => {
            Relation::Equal
        }
        (Seg::Literal(_) | Seg::One(_), Seg::End) | (Seg::End, Seg::Literal(_) | Seg::One(_)) => {
            Relation::Disjoint
        }
        (Seg::Rest(_), _) | (Seg::One(_), Seg::Literal(_)) => Relation::MoreGeneral,
        (_, Seg::Rest(_)) | (Seg::Literal(_), Seg::One(_)) => Relation::MoreSpecific,
    }
}

// The segment takes all that is left of a path.
fn is_last(seg: &Seg) -> bool
    ensures { result ≡ is_last seg.now }
{
    matches!(seg, Seg::Rest(_) | Seg::End)
}
