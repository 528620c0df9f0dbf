//! One row a rule: what fits, and what breaks it. The rules are those of IHI 0031, B1 to B4 and MEM-AP, and of this
//! project where docs/PROTOCOL.md says so.
use super::{UP, watch};
use std::alloc::Global;
use std::process::Abort;
use std::test::Fail;
use swd_checker::{CheckStart, Checker, Rule, Verdict};

// What follows `UP`, and the least number of requests that were damaged or lost.
const FITS: &[(&str, &str, u64)] = &[
    (
        "words are free: two reads of an address may differ",
        "ap 4 write ok 20000000\nap c read ok 00000000\ndp c read ok 0000dead\nap 4 write ok 20000000\n\
            ap c read ok 00000001\ndp c read ok 0000beef\n",
        0,
    ),
    (
        "bus errors are free",
        "ap 4 write ok 20000000\nap c read ok 00000000\ndp c read fault\ndp 4 read ok f0000020\n\
            dp 0 write ok 00000004\nap 4 write ok 20000000\nap c read ok 00000000\ndp c read ok 00000000\n",
        0,
    ),
    (
        "past a kilobyte TAR may wrap",
        "ap 4 write ok 200003fc\nap c read ok 00000000\nap 4 read ok 00000007\ndp c read ok 20000000\n",
        0,
    ),
    (
        "past a kilobyte TAR may carry",
        "ap 4 write ok 200003fc\nap c read ok 00000000\nap 4 read ok 00000007\ndp c read ok 20000400\n",
        0,
    ),
    (
        "the other bits of CTRL/STAT are free",
        "dp 4 read ok f0000f1f\n",
        0,
    ),
    (
        "at WAIT nothing is done",
        "ap 4 write ok 20000000\nap c write wait\nap 4 read ok 00000000\ndp c read ok 20000000\n",
        0,
    ),
    (
        "a write may arrive damaged",
        "ap 4 write ok 20000000\ndp c read fault\ndp 4 read ok f0000080\n",
        1,
    ),
    (
        "a read that was damaged is returned again",
        "ap 0 read ok 00000000\ndp c read bad 23000053\ndp 8 read ok 23000052\n",
        1,
    ),
    (
        "of three transfers in doubt none moved TAR",
        "ap 4 write ok 20000000\nap c write ok 00000001\ndp 0 write ok 00000008\nap c write ok 00000001\n\
            dp 0 write ok 00000008\nap c write ok 00000001\ndp 0 write ok 00000008\nap 4 read ok 00000000\n\
            dp c read ok 20000000\n",
        3,
    ),
    (
        "of three transfers in doubt all moved TAR",
        "ap 4 write ok 20000000\nap c write ok 00000001\ndp 0 write ok 00000008\nap c write ok 00000001\n\
            dp 0 write ok 00000008\nap c write ok 00000001\ndp 0 write ok 00000008\nap 4 read ok 00000000\n\
            dp c read ok 2000000c\n",
        0,
    ),
    (
        "a lost read may have been done",
        "ap 4 write ok 20000000\nap c read none 0\nreset 100\nidle 2\ndp 0 read ok 2ba01477\nap 4 read ok 00000000\n\
            dp c read ok 20000004\n",
        1,
    ),
    (
        "a write without its data is damaged by the line reset",
        "ap 4 write none 0\nreset 100\nidle 2\ndp 0 read ok 2ba01477\ndp 4 read ok f0000080\n",
        1,
    ),
];

// What follows `UP`, the place of the item that breaks a rule, and the rule.
const BREAKS: &[(&str, u64, Rule)] = &[
    (
        "reset 50\nidle 2\ndp 4 read ok f0000000\n",
        294,
        Rule::Silence,
    ),
    ("dp 4 read wait\n", 242, Rule::NeverRefused),
    ("dp 0 write fault\n", 242, Rule::NeverRefused),
    ("dp c read ok 00000000\ndp c read fault\n", 288, Rule::Flags),
    (
        "ap 4 write ok 20000000\ndp c read fault\ndp 4 read ok f0000080\ndp 8 write ok 00000000\n",
        347,
        Rule::Flags,
    ),
    ("dp c read fault\ndp c read wait\n", 255, Rule::FaultFirst),
    (
        "dp 4 write ok 00000000\ndp 4 read ok 00000000\nap 4 read ok 00000000\n",
        334,
        Rule::Power,
    ),
    (
        "ap 4 write ok 20000000\nap c read ok 00000000\nap 4 read ok 00000001\ndp c read ok 20000008\n",
        380,
        Rule::Posted,
    ),
    (
        "ap 4 write ok 20000000\nap c write ok 00000001\ndp 0 write ok 00000008\nap 4 read ok 00000000\n\
            dp c read ok 20000008\n",
        426,
        Rule::Posted,
    ),
    (
        "ap 0 read ok 00000000\ndp c read ok 23000050\n",
        288,
        Rule::Posted,
    ),
    (
        "ap 0 read ok 00000000\ndp c read ok 23000052\ndp 8 read ok 23000053\n",
        334,
        Rule::Resent,
    ),
    (
        "ap 0 read ok 00000000\ndp c read bad 23000053\ndp 8 read ok 23000050\n",
        334,
        Rule::Resent,
    ),
    (
        "ap 4 read ok 00000000\ndp 4 read ok f0000000\n",
        288,
        Rule::Status,
    ),
    ("dp 4 read ok b0000000\n", 242, Rule::Status),
    (
        "ap 0 write ok 23000002\nap 4 write ok 20000000\nap c read ok 00000000\nap 4 read ok 00000001\n\
            dp c read ok 20000004\n",
        426,
        Rule::Posted,
    ),
    ("dp 0 read ok 2ba01476\n", 242, Rule::Identification),
    ("dp 0 read ok 2ba01479\n", 242, Rule::Identification),
    ("dp 0 read bad 2ba01471\n", 242, Rule::Identification),
];

// The same, where nothing is damaged or lost.
const BREAKS_CLEAN: &[(&str, u64, Rule)] = &[
    ("dp c read bad 00000000\n", 242, Rule::Parity),
    ("dp c read none 7\n", 242, Rule::Acknowledgement),
    ("dp c read fault\n", 242, Rule::Flags),
];

#[test]
fn what_the_model_allows_fits(rt: HostRuntime) -> Result<(), Fail> {
    for (name, then, faults) in FITS {
        let mut checker = Checker::new(CheckStart::Made);
        watch(rt.alloc(), &mut checker, UP, then)?;
        assert_eq!(rt; checker.verdict(), Verdict::Fits, "{name}");
        assert!(rt; checker.faults() <= *faults, "{name}");
    }
    Ok(())
}

// What follows `UP`, and the number of requests that were damaged or lost, where no two worlds were joined.
const FAULTS: &[(&str, u64)] = &[
    ("dp c read ok 00000000\n", 0),
    ("dp c read fault\n", 1),
    ("dp c read bad 00000000\n", 1),
    (
        "dp c read none 0\nreset 100\nidle 2\ndp 0 read bad 2ba01476\n",
        2,
    ),
];

#[test]
fn damaged_and_lost_requests_are_counted(rt: HostRuntime) -> Result<(), Fail> {
    for (then, faults) in FAULTS {
        let mut checker = Checker::new(CheckStart::Made);
        watch(rt.alloc(), &mut checker, UP, then)?;
        assert_eq!(rt; checker.verdict(), Verdict::Fits, "{then}");
        assert_eq!(rt; checker.faults(), *faults, "{then}");
    }
    Ok(())
}

// What a checker says of `UP` and what follows it: at this place a rule is broken.
fn expect_broken<R: Abort>(
    rt: &R,
    alloc: Global,
    checker: Checker,
    row: &(&str, u64, Rule),
) -> Result<(), Fail> {
    let (then, place, rule) = row;
    let mut checker = checker;
    watch(alloc, &mut checker, UP, then)?;
    let wanted = Verdict::Breaks {
        place: *place,
        rule: *rule,
    };
    assert_eq!(rt; checker.verdict(), wanted, "{then}");
    Ok(())
}

#[test]
fn what_no_run_explains_breaks_a_rule(rt: HostRuntime) -> Result<(), Fail> {
    for row in BREAKS {
        expect_broken(&rt, rt.alloc(), Checker::new(CheckStart::Made), row)?;
    }
    for row in BREAKS_CLEAN {
        expect_broken(&rt, rt.alloc(), Checker::clean(CheckStart::Made), row)?;
    }
    Ok(())
}
