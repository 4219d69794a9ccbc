//! The tree: the patterns' numbers in the order of their branches. A node is the run of those that share the branches
//! to it, and the run behind one branch more is found by binary search.
ghost use Rattle.std.specs.Prelude.{IfOk, ◌<◌, ◌^◌, length};
ghost use Rattle.gw_mux.specs.Label.{asked_key};
ghost use Rattle.gw_mux.specs.Order.{IsOrder, IsRun, IsSortedFrom};

use crate::error::NoMemory;
use crate::keys::{compare_branch, compare_numbers};
use crate::label::Asked;
use gw_pattern::Pattern;
use std::alloc::Global;

/// The numbers of the patterns in the order of their branches. The error is want of memory.
pub(crate) fn order_of(alloc: Global, patterns: &[Pattern]) -> Result<Vec<u32>, NoMemory>
    requires { length patterns.now < 2 ^ 32 }
    ensures { IfOk result (λ numbers. IsOrder patterns.now numbers.items) }
{
    let mut numbers = Vec::new(alloc);
    for i in 0..patterns.len() {
        numbers.push(i as u32)?;
    }
    numbers.sort_unstable_by(|first, second| compare_numbers(patterns, *first, *second));
    Ok(numbers)
}

/// The run of those numbers whose branch at that depth is the one that is looked for.
pub(crate) fn run_of<'n>(
    patterns: &[Pattern],
    numbers: &'n [u32],
    depth: usize,
    asked: &Asked<'_>,
) -> &'n [u32]
    requires { IsSortedFrom patterns.now depth numbers.now }
    ensures { IsRun patterns.now depth (asked_key asked.now) numbers.now result.now }
{
    let from = numbers.partition_point(|i| compare_branch(patterns, *i, depth, asked).is_lt());
    let rest = &numbers[from..];
    let length = rest.partition_point(|i| compare_branch(patterns, *i, depth, asked).is_le());
    &rest[..length]
}
