//! A whole trace at once.
use std::test::Fail;
use swd_checker::{CheckStart, ShownPart, broken_item, shown_from, shown_items};
use swd_trace::read_list;

// A trace from the reset state, whether nothing is damaged or lost, and the index of the item that breaks a rule, if
// any.
const TRACES: &[(&str, bool, Option<usize>)] = &[
    // DPIDR wasn't read since the line reset
    ("reset 56\nidle 2\ndp 4 read ok 00000000\n", false, Some(2)),
    // no flag is set, and nothing is pending
    (
        "reset 56\nidle 2\ndp 0 read ok 2ba01477\ndp 4 write ok 50000000\ndp c read fault\n",
        true,
        Some(4),
    ),
    // where the write before it may have been damaged
    (
        "reset 56\nidle 2\ndp 0 read ok 2ba01477\ndp 4 write ok 50000000\ndp c read fault\n",
        false,
        None,
    ),
    (
        "reset 56\nidle 2\ndp 0 read ok 2ba01477\ndp 4 read ok 00000000\n",
        true,
        None,
    ),
    // DPIDR's bit 0 is 1
    ("reset 56\nidle 2\ndp 0 read ok 2ba01476\n", true, Some(2)),
];

#[test]
fn the_first_item_that_breaks_a_rule_is_told(rt: HostRuntime) -> Result<(), Fail> {
    for (text, clean, expected) in TRACES {
        let mut reader = text.as_bytes();
        let items = read_list(rt.alloc(), &mut reader)?;
        let found = broken_item(items.as_slice(), CheckStart::Made, *clean);
        assert_eq!(rt; found, *expected, "{text}");
        // some run shows the items before it, or all
        let count = expected.unwrap_or(items.len());
        let shown = shown_items(items.as_slice(), *clean);
        assert_eq!(rt; shown, Some(count), "{text}");
        let part = shown_from(items.as_slice(), CheckStart::Made, *clean);
        assert_eq!(rt; part, Some(ShownPart { from: 0, count }), "{text}");
    }
    Ok(())
}

// A trace of a target in this state, and the items that some run shows, from the one at which the check begins.
const LATER: &[(CheckStart, &str, Option<ShownPart>)] = &[
    // at the read of CTRL/STAT
    (
        CheckStart::Rest,
        "reset 56\nidle 2\ndp 0 read ok 2ba01477\ndp 4 read ok f0000000\ndp c read ok 00000000\n",
        Some(ShownPart { from: 3, count: 5 }),
    ),
    // CTRL/STAT has no flag
    (
        CheckStart::Rest,
        "reset 56\nidle 2\ndp 0 read ok 2ba01477\ndp 4 read ok f0000000\ndp c read fault\n",
        Some(ShownPart { from: 3, count: 4 }),
    ),
    // CTRL/STAT isn't read
    (
        CheckStart::Rest,
        "reset 56\nidle 2\ndp 0 read ok 2ba01477\ndp c read ok 00000000\n",
        None,
    ),
    // at the read of RDBUFF, behind the write of SELECT
    (
        CheckStart::Any,
        "reset 56\nidle 2\ndp 0 read ok 2ba01477\ndp 8 write ok 00000000\ndp c read ok 00000000\ndp c read fault\n",
        Some(ShownPart { from: 4, count: 5 }),
    ),
    // SELECT isn't written
    (
        CheckStart::Any,
        "reset 56\nidle 2\ndp 0 read ok 2ba01477\ndp 4 read ok f0000000\n",
        None,
    ),
];

#[test]
fn the_items_that_are_shown_begin_where_the_check_does(rt: HostRuntime) -> Result<(), Fail> {
    for (start, text, expected) in LATER {
        let mut reader = text.as_bytes();
        let items = read_list(rt.alloc(), &mut reader)?;
        let part = shown_from(items.as_slice(), *start, true);
        assert_eq!(rt; part, *expected, "{text}");
    }
    Ok(())
}
