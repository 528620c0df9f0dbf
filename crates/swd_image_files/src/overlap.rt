//! Finds addresses that two pieces have.
ghost use Rattle.std.specs.Prelude.{◌≡◌, ◌<◌, All, IfOk, MatchOption};
ghost use Rattle.swd_image_files.specs.Overlaps.{AreImageRangesApart, IsLowestImageOverlap, IsSoundImageRange};
ghost use Rattle.swd_image_files.specs.Overlaps.{first_image_overlap_from};

use crate::image::Range;
use std::alloc::{AllocError, Allocator};

/// Returns the lowest address that two ranges have, if there is one. Each range has at least one address.
pub(crate) fn first_overlap<A: Allocator>(
    alloc: A,
    ranges: &[Range],
) -> Result<Option<u32>, AllocError>
    requires { All IsSoundImageRange ranges.now }
    ensures { IfOk result (λ found. MatchOption found (AreImageRangesApart ranges.now)
        (IsLowestImageOverlap ranges.now)) }
{
    let mut sorted = Vec::from_slice(alloc, ranges)?;
    sorted.sort_unstable_by_key(|range| range.addr);
    Ok(first_adjacent(&sorted))
}

// Returns the first address of a range that begins before the end of the range before it.
fn first_adjacent(sorted: &[Range]) -> Option<u32>
    requires { All IsSoundImageRange sorted.now }
    ensures { result ≡ first_image_overlap_from 0 sorted.now }
{
    let mut end = 0u64;
    for range in sorted {
        if (range.addr as u64) < end {
            return Some(range.addr);
        }
        end = range.addr as u64 + range.len as u64;
    }
    None
}
