//! Counts the accesses of a script.
ghost use Rattle.std.specs.Prelude.{◌≡◌, ◌-◌, ◌^◌, map, min};
ghost use Rattle.swd_script.specs.Readers.{script_batch_listed};
ghost use Rattle.swd_run.specs.Counting.{script_access_count};

use std::alloc::Allocator;
use swd_script::Batch;

/// Returns the number of accesses of these calls, at most 2^64 - 1. All reads of an `until` are one access.
///
/// A report has one line for each of them if every call ends `All`.
pub fn count_accesses<A: Allocator>(batches: &[Batch<A>]) -> u64
    ensures { result ≡ min (script_access_count (map script_batch_listed batches.now)) (2 ^ 64 - 1) }
{
    let mut count = 0u64;
    for batch in batches {
        count = count.saturating_add(batch.accesses.len() as u64);
    }
    count
}
