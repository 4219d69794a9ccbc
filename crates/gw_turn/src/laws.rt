//! Laws of every pool. Each is a function with an empty body, whose `ensures` is the law.
ghost use Rattle.gw_turn.specs.Laws.{HistoryIsOne};

/// Between any two steps there is one legal history of the pool's callers, whose length is the count word, and which one
/// pass has seen whole. Each pass has seen a beginning of it, its own entries are those of its number in it, and each of
/// its units at the end is a want that its tokens name.
pub fn history_is_one()
    ensures { HistoryIsOne }
{}
