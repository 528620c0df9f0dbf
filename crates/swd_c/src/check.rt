//! The checker of a trace in the caller's memory.
ghost use Rattle.std.specs.Prelude.{◌≡◌, ◌↔◌, ◌==◌, not, false, is_some, IsTrue};
ghost use Rattle.swd_checker.specs.declared.checker.Checker.{Checker as CheckerType};
ghost use Rattle.swd_checker.specs.Fields.{IsChecker, checker_fields};
ghost use Rattle.swd_c.specs.Checks.{CApiCheckStarts, CApiCheckWatches};
ghost use Rattle.swd_c.specs.Checks.{c_api_start, c_api_verdict, c_api_verdict_from};
ghost use Rattle.swd_c.specs.Items.{CApiIsItem};

use crate::item::SwdItem;
use swd_checker::{CheckStart, Checker, CheckerFields};

/// What a checker says of the items that it watched, by `kind`: 1 some run of the port model explains them; 2 none
/// explains those up to one at a place; 3 not decided, since at a place there were more worlds than a checker holds.
/// Fields that aren't listed for a kind are 0.
#[repr(C)]
#[derive(Clone, Copy, Debug, PartialEq, Eq)]
pub struct SwdVerdict {
    /// For kinds 2 and 3: the place, as the number of bits before it.
    pub place: u64,
    /// For every kind: the place of the first item that was checked, or 0 if none was.
    pub began: u64,
    /// For every kind: how many requests were damaged or lost at least.
    pub faults: u64,
    /// For every kind: how many gaps weren't checked.
    pub gaps: u64,
    /// The kind.
    pub kind: u8,
    /// For kind 2: the rule that is broken, 1 to 11 in the order of `swd_checker::Rule`.
    pub rule: u8,
    /// For every kind: 1 if an item was checked, else 0.
    pub has_began: u8,
}

// Returns the state of the target before the first item.
fn start_of(start: u8) -> Option<CheckStart>
    ensures { result ≡ c_api_start start }
{
    match start {
        1 => Some(CheckStart::Made),
        2 => Some(CheckStart::Rest),
        3 => Some(CheckStart::Any),
        _ => None,
    }
}

/// Makes a checker before its first item. `start` is the state of the target then: 1 its reset state, 2 at rest, 3 any.
/// `clean` isn't 0 if nothing is damaged or lost on the wire. Returns false, and leaves the fields unchanged, for any
/// other `start`.
#[unsafe(no_mangle)]
pub extern "C" fn swd_check_new(check: &mut CheckerFields, start: u8, clean: u8) -> bool
    ensures is { IsTrue result → IsChecker check.new }
    ensures starts { result ≡ is_some (c_api_start start) }
    ensures made { IsTrue result → CApiCheckStarts (c_api_start start) (not (clean == 0)) check.new }
    ensures same { result ≡ false → check.new ≡ check.old }
{
    let Some(start) = start_of(start) else {
        return false;
    };
    *check = Checker::of(start, clean != 0).fields();
    true
}

/// Takes the next item. `place` is the number of bits before it. Once a rule is broken the fields stay unchanged.
/// Returns false, and leaves them unchanged, only if they are those of no checker, or the item's are those of no item.
#[unsafe(no_mangle)]
pub extern "C" fn swd_check_watch(check: &mut CheckerFields, item: &SwdItem, place: u64) -> bool
    ensures is { IsTrue result → IsChecker check.new }
    ensures takes { IsTrue result ↔ (IsChecker check.old × CApiIsItem item.now) }
    ensures watches { IsTrue result → CApiCheckWatches check.old item.now check.new }
    ensures ended { (check.old.rule ≡ 0 → ⊥) → check.new ≡ check.old }
    ensures same { result ≡ false → check.new ≡ check.old }
{
    let Some(mut now) = check.checker() else {
        return false;
    };
    let Some(item) = item.item() else {
        return false;
    };
    now.watch(&item, place);
    *check = now.fields();
    true
}

/// Writes what the items so far show. Returns false, and writes nothing, only if the fields are those of no checker.
#[unsafe(no_mangle)]
pub extern "C" fn swd_check_verdict(check: &CheckerFields, verdict: &mut SwdVerdict) -> bool
    ensures verdict { IsTrue result → (c : CheckerType) → checker_fields c ≡ check.now
        → verdict.new ≡ c_api_verdict c verdict.new.faults }
    ensures told { IsTrue result ↔ IsChecker check.now }
    ensures same { result ≡ false → verdict.new ≡ verdict.old }
{
    let Some(now) = check.checker() else {
        return false;
    };
    *verdict = SwdVerdict::of(check, now.faults());
    true
}

impl SwdVerdict {
    // Returns what the checker with these fields shows, with so many damaged or lost requests.
    fn of(check: &CheckerFields, faults: u64) -> SwdVerdict
        ensures { result ≡ c_api_verdict_from check.now faults }
    {
        let (kind, place) = if check.rule != 0 {
            (2, check.broken)
        } else if check.is_crowded != 0 {
            (3, check.crowded)
        } else {
            (1, 0)
        };
        SwdVerdict {
            place,
            began: check.began,
            faults,
            gaps: check.gaps,
            kind,
            rule: check.rule,
            has_began: check.has_began,
        }
    }
}
