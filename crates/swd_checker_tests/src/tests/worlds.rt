//! How many worlds there are.
use super::{UP, watch};
use std::test::Fail;
use swd_checker::{CheckStart, Checker, Verdict, shown_items};
use swd_trace::read_list;

// The bytes of a checker, with its 64 worlds.
const CHECKER_BYTES: usize = std::mem::size_of::<Checker>();

#[test]
fn a_checker_is_smaller_than_eight_kilobytes(rt: HostRuntime) {
    assert!(rt; CHECKER_BYTES < 8192);
}

// The lines so many times over.
fn repeated(text: &mut String<std::alloc::Global>, lines: &str, times: usize) -> Result<(), Fail> {
    for _ in 0..times {
        text.push_str(lines)?;
    }
    Ok(())
}

// A host that doubts each transfer. The counts are of what differs: TAR, and whether the last transfer is done.
const DOUBTS: &[(&str, usize)] = &[
    ("ap c write ok 00000001\ndp 0 write ok 00000008\n", 4),
    ("ap c write ok 00000001\ndp 0 write ok 0000001e\n", 4),
    (
        "ap c write ok 00000001\nap c write wait\ndp 0 write ok 0000001e\n",
        4,
    ),
];

#[test]
fn doubts_leave_few_worlds(rt: HostRuntime) -> Result<(), Fail> {
    for (lines, most) in DOUBTS {
        let mut text = String::new(rt.alloc());
        text.push_str("ap 4 write ok 20000000\n")?;
        repeated(&mut text, lines, 50)?;
        let mut checker = Checker::new(CheckStart::Made);
        let found = watch(rt.alloc(), &mut checker, UP, text.as_str())?;
        assert_eq!(rt; checker.verdict(), Verdict::Fits, "{lines}");
        assert!(rt; found <= *most, "{lines}");
    }
    Ok(())
}

#[test]
fn a_read_of_seventy_addresses_is_crowded(rt: HostRuntime) -> Result<(), Fail> {
    let mut text = String::new(rt.alloc());
    text.push_str("ap 4 write ok 20000000\n")?;
    repeated(
        &mut text,
        "ap c write ok 00000001\ndp 0 write ok 00000008\n",
        69,
    )?;
    text.push_str("ap 4 read ok 00000000\n")?;
    let mut checker = Checker::new(CheckStart::Made);
    watch(rt.alloc(), &mut checker, UP, text.as_str())?;
    // 242 bits, 46 of TAR, and 92 of each transfer
    assert_eq!(rt; checker.verdict(), Verdict::Crowded { place: 6636 });
    let mut whole = String::new(rt.alloc());
    whole.push_str(UP)?;
    whole.push_str(text.as_str())?;
    let items = read_list(rt.alloc(), &mut whole.as_str().as_bytes())?;
    assert_eq!(rt; shown_items(items.as_slice(), false), None);
    Ok(())
}
