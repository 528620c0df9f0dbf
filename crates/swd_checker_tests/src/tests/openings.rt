//! Where a check begins, gaps, and what a checker does at them.
use super::watch;
use std::test::Fail;
use swd_checker::{CheckStart, Checker, Rule, Verdict};
use swd_trace::Item;

// A start, a listing, and the place from which the items are checked.
const BEGINS: &[(CheckStart, &str, Option<u64>)] = &[
    (CheckStart::Made, "idle 1\n", Some(0)),
    (
        CheckStart::Rest,
        "reset 50\nidle 2\ndp 0 read ok 2ba01477\ndp 4 read ok f0000000\n",
        Some(98),
    ),
    (
        CheckStart::Rest,
        "reset 50\nidle 2\ndp 0 read ok 2ba01477\ndp 8 write ok 00000000\n",
        None,
    ),
    (
        CheckStart::Any,
        "reset 50\nidle 2\ndp 0 read ok 2ba01477\ndp 4 read ok f0000000\n",
        None,
    ),
    (
        CheckStart::Any,
        "reset 50\nidle 2\ndp 0 read ok 2ba01477\ndp 8 write ok 00000000\ndp 4 read ok f0000000\n\
            dp c read ok 00000000\n",
        Some(190),
    ),
    (
        CheckStart::Any,
        "reset 50\nidle 2\ndp 0 read ok 2ba01477\ndp 8 write ok 00000000\ndp 0 write ok 0000001e\n\
            dp c read ok 00000000\n",
        None,
    ),
    // the write of SELECT was damaged, so that address 4 is still CTRL/STAT
    (
        CheckStart::Any,
        "reset 50\nidle 2\ndp 0 read ok 2ba01477\ndp 8 write ok 00000001\ndp 4 read ok 00000080\ndp c read fault\n",
        None,
    ),
];

#[test]
fn a_check_begins_where_its_worlds_are_few(rt: HostRuntime) -> Result<(), Fail> {
    for (start, text, began) in BEGINS {
        let mut checker = Checker::new(*start);
        watch(rt.alloc(), &mut checker, text, "")?;
        assert_eq!(rt; checker.verdict(), Verdict::Fits, "{text}");
        assert_eq!(rt; checker.began(), *began, "{text}");
    }
    Ok(())
}

#[test]
fn a_rule_is_broken_after_any_start(rt: HostRuntime) -> Result<(), Fail> {
    let text =
        "reset 50\nidle 2\ndp 0 read ok 2ba01477\ndp 8 write ok 00000000\ndp c read ok 00000000\n";
    let mut checker = Checker::new(CheckStart::Any);
    // nothing is pending, and no flag is set
    watch(rt.alloc(), &mut checker, text, "dp c read fault\n")?;
    let wanted = Verdict::Breaks {
        place: 190,
        rule: Rule::Flags,
    };
    assert_eq!(rt; checker.verdict(), wanted);
    Ok(())
}

// How many bits follow, and how many gaps there are then.
const STRAY: &[(u64, u64)] = &[(34, 0), (35, 1)];

#[test]
fn thirty_four_bits_may_follow_a_lost_acknowledgement(rt: HostRuntime) -> Result<(), Fail> {
    for (count, gaps) in STRAY {
        let mut checker = Checker::new(CheckStart::Made);
        watch(rt.alloc(), &mut checker, "dp 0 read none 7\n", "")?;
        for place in 0..*count {
            checker.watch(&Item::Junk(false), 12 + place);
        }
        assert_eq!(rt; checker.gaps(), *gaps);
        assert_eq!(rt; checker.verdict(), Verdict::Fits);
    }
    Ok(())
}
