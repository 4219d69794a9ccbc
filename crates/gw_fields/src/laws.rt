//! Laws of the order of fields. Each is a function with an empty body, whose `ensures` is the law.
ghost use Rattle.gw_fields.specs.Laws.{SortedIsOrdered, SortedIsPermutation, SortedIsStable};

/// Fields in the byte order of their names are the same fields, no name is below the one before it, and those of one
/// name stand in the order that they had.
pub fn sorted_by_name()
    ensures same { SortedIsPermutation }
    ensures ordered { SortedIsOrdered }
    ensures stable { SortedIsStable }
{}
