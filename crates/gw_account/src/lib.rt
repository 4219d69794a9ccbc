//! What a stretch of work did to a wire and to the pool: acts, entries and a bill, as one sum. The definitions stand in
//! `specs/`; what follows of them is here as laws, each a function with an empty body whose `ensures` is the law.
#![tactic(auto)]

ghost use Rattle.gw_account.specs.Laws.{NothingAddsNothing, StretchesFollow, StretchesPay, WorkAddsUp};

/// Stretches of work add up whichever are put together first, and nothing adds nothing.
pub fn work_adds_up()
    ensures adds { WorkAddsUp }
    ensures nothing { NothingAddsNothing }
{}

/// A stretch that begins where another one ended makes one stretch with it.
pub fn stretches_follow()
    ensures { StretchesFollow }
{}

/// The clock and the counts of a wire, and the waits of a pool, rise by what a stretch of work owes at least.
pub fn stretches_pay()
    ensures { StretchesPay }
{}
