//! The plans: every single mark, and pairs of marks.
ghost use Rattle.std.specs.Prelude.{IfOk};
ghost use Rattle.swd_port.specs.Choices.{IsPortMark};
ghost use Rattle.swd_target.specs.Marks.{IsLegalPlan};

use std::alloc::{AllocError, Global};
use swd_port::Mark;

/// The requests that get a mark: the first ones, more than an undisturbed run has.
pub const PLACES: usize = 40;

/// The number of marks that one request may get.
pub const MARKS: u8 = 38;

/// The number of marks that pairs are made of.
pub const PAIRED: u8 = 8;

/// Returns one of the 38 marks other than `Clean`.
pub fn mark(number: u8) -> Mark
    ensures { IsPortMark result }
{
    match number {
        0 => Mark::Wait,
        1 => Mark::Deaf,
        2 => Mark::Mute(0),
        3 => Mark::Mute(1),
        4 => Mark::Mute(2),
        _ => Mark::Flip((number - 5) % 33),
    }
}

/// Returns one of the eight marks of pairs.
pub fn paired(number: u8) -> Mark
    ensures { IsPortMark result }
{
    match number {
        5 => Mark::Flip(0),
        6 => Mark::Flip(31),
        7 => Mark::Flip(32),
        _ => mark(number % 5),
    }
}

/// Returns a plan with these marks at these requests, and none elsewhere.
pub fn plan(
    alloc: Global,
    one: (usize, Mark),
    other: (usize, Mark),
) -> Result<Vec<Mark>, AllocError>
    requires one { IsPortMark one.1 }
    requires other { IsPortMark other.1 }
    ensures { IfOk result (λ plan. IsLegalPlan plan.items) }
{
    let mut plan = Vec::with_capacity(alloc, PLACES)?;
    for place in 0..PLACES {
        plan.push(if place == one.0 {
            one.1
        } else if place == other.0 {
            other.1
        } else {
            Mark::Clean
        })?;
    }
    Ok(plan)
}
