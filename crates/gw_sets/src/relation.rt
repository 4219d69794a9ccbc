//! The five ways in which two sets lie to each other.
ghost use Rattle.std.specs.Prelude.{◌≡◌};
ghost use Rattle.gw_sets.specs.Comparison.{is_ambiguous, is_disjoint, product};

/// How the requests that one pattern matches lie to those that another matches.
#[derive(Clone, Copy, Debug, PartialEq, Eq)]
pub enum Relation {
    /// Both match the same requests.
    Equal,
    /// The other matches all that the first matches, and more.
    MoreSpecific,
    /// The first matches all that the other matches, and more.
    MoreGeneral,
    /// No request is matched by both.
    Disjoint,
    /// Some requests are matched by both, some by the first alone, and some by the other alone.
    Overlap,
}

impl Relation {
    /// The relation of two sets of pairs, where this is that of their first parts, and `second` of their second.
    pub(crate) fn and(self, second: Relation) -> Relation
        ensures { result ≡ product self second }
    {
        match (self, second) {
            (Relation::Equal, relation) | (relation, Relation::Equal) => relation,
            (Relation::Disjoint, _) | (_, Relation::Disjoint) => Relation::Disjoint,
            (Relation::MoreSpecific, Relation::MoreSpecific) => Relation::MoreSpecific,
            (Relation::MoreGeneral, Relation::MoreGeneral) => Relation::MoreGeneral,
            _ => Relation::Overlap,
        }
    }

    /// The sets meet, and neither is only a part of the other.
    pub(crate) fn is_ambiguous(self) -> bool
        ensures { result ≡ is_ambiguous self }
    {
        matches!(self, Relation::Equal | Relation::Overlap)
    }

    /// The sets have no member in common.
    pub(crate) fn is_disjoint(self) -> bool
        ensures { result ≡ is_disjoint self }
    {
        matches!(self, Relation::Disjoint)
    }
}
