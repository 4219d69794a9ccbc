//! The want of memory.

/// The want of memory.
pub type NoMemory = std::alloc::AllocError;
