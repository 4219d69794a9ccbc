//! One pool of connections for several workers. Its state lies in a slot of a table with two words, the turn and the count
//! of entries. A call takes the turn by a compare-exchange, makes its one call of the state in its slot, counts the entry up
//! by one swap where it made one, and releases the turn. So the journal is one legal history that holds exactly each
//! worker's own calls, each once and in its order, however the calls of the workers interleave.
//!
//! A call that needn't wait makes three atomic steps, or two where it makes no entry, and no system call; it takes no
//! memory. Only waiting for the turn uses a `Wait`: it lets other threads run between two tries.
#![tactic(auto)]

mod calls;
mod desk;
mod laws;
mod pass;
mod pool;
mod steps;
mod turn;
mod view;

pub use desk::Desk;
pub use gw_pool::Closed;
pub use laws::history_is_one;
pub use pass::Pass;
pub use pool::Pool;
pub use view::{Member, PassView};

/// Want of memory.
pub type NoMemory = std::alloc::AllocError;

#[cfg(test)]
mod tests;
