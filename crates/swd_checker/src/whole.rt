//! A whole trace.
ghost use Rattle.std.specs.Prelude.{◌≡◌, ◌≤◌, IfSome, Some};
ghost use Rattle.swd_checker.specs.Standing.{is_checked_broken};
ghost use Rattle.swd_checker.specs.Whole.{BreaksIsRight};
ghost use Rattle.swd_checker.specs.Fitting.{IsLongestShown, IsLongestShownFrom};

use crate::checker::{CheckStart, Checker, Verdict};
use swd_trace::Item;

/// Returns the index of the first item of a trace at which a [`Checker`] finds a broken rule, or `None` if it finds
/// none. No run of the port model shows the items up to that one. Where `clean` is true, nothing is damaged or lost.
pub fn broken_item(items: &[Item], start: CheckStart, clean: bool) -> Option<usize>
    ensures { IfSome result (λ index. BreaksIsRight start clean items.now index) }
{
    let mut checker = Checker::of(start, clean);
    for index in 0..items.len() {
        checker.watch(&items[index], index as u64);
        if is_broken(checker.verdict()) {
            return Some(index);
        }
    }
    None
}

/// Returns how many items of a trace some run of the port model shows, of a target that begins in its reset state: all
/// of them, or those up to the first one at which a [`Checker`] finds a broken rule. No run shows one more. Returns
/// `None` if that isn't decided, since a checker would have to hold too many worlds. Where `clean` is true, nothing is
/// damaged or lost.
pub fn shown_items(items: &[Item], clean: bool) -> Option<usize>
    ensures { IfSome result (λ count. IsLongestShown clean items.now count) }
{
    let mut checker = Checker::of(CheckStart::Made, clean);
    for index in 0..items.len() {
        checker.watch(&items[index], index as u64);
        match checker.verdict() {
            Verdict::Fits => {}
            Verdict::Breaks { .. } => return Some(index),
            Verdict::Crowded { .. } => return None,
        }
    }
    Some(items.len())
}

/// Items of a trace that some run of the port model shows.
#[derive(Clone, Copy, Debug, PartialEq, Eq)]
pub struct ShownPart {
    /// The index of the first of them, at which the check began.
    pub from: usize,
    /// The number of items up to the last of them.
    pub count: usize,
}

/// Returns which items of a trace some run of the port model shows, of a target that begins in this state: those from
/// the one at which a [`Checker`] begins its check, up to the last one, or up to the first one at which it finds a
/// broken rule. The run begins in the reset state if that is the start, and else in some state. No run from the start
/// shows the items up to the last of them, and one more. Returns `None` if the check never began, or if that isn't
/// decided, since a checker would have to hold too many worlds. Where `clean` is true, nothing is damaged or lost.
pub fn shown_from(items: &[Item], start: CheckStart, clean: bool) -> Option<ShownPart>
    ensures { IfSome result (λ part. IsLongestShownFrom start clean items.now part.from part.count) }
{
    let mut checker = Checker::of(start, clean);
    for index in 0..items.len() {
        let began = checker.began();
        checker.watch(&items[index], index as u64);
        match checker.verdict() {
            Verdict::Fits => {}
            Verdict::Breaks { .. } => return part_up_to(began, index),
            _ => return None,
        }
    }
    part_up_to(checker.began(), items.len())
}

// Returns the items from the one at which the check began, if it did, up to so many.
fn part_up_to(began: Option<u64>, count: usize) -> Option<ShownPart>
    requires { IfSome began (λ from. from ≤ count) }
    ensures { IfSome result (λ part. (began ≡ Some part.from) × (part.count ≡ count)) }
{
    match began {
        Some(place) => Some(ShownPart {
            from: place as usize,
            count,
        }),
        None => None,
    }
}

fn is_broken(verdict: Verdict) -> bool
    ensures { result ≡ is_checked_broken verdict }
{
    matches!(&verdict, Verdict::Breaks { .. })
}
