//! Listings that are read, and those that are refused.
use super::expect::{expect_at, expect_eq, expect_eq_at};
use linked_list_allocator::LocalHeap;
use std::test::Fail;
use swd_bits::TxBits;
use swd_fakes::FailingReader;
use swd_trace::{Item, ListFault, read_list};

// Listings that are normal.
const NORMAL: &[&str] = &[
    "",
    "idle 2\ncut 1\n",
    "idle 18446744073709551615\n",
    "reset 50\nidle 1\ncut 111\n",
    "reset 56\nswitch\nreset 56\nidle 2\n",
    "dp 0 read ok 2ba01477\ndp 0 write ok 0000001e\n",
    "dp 0 read bad 2ba01476\nap c write ok ffffffff\nap 4 read fault\n",
    "dp 8 read wait\ndp 0 read none 7\njunk 0\njunk 0\njunk 0\n",
    "reset 50\nswitch\njunk 0\nreset 50\nswitch\ncut 1111\n",
];

// Listings, and the line of the first item that is read otherwise.
const NOT_NORMAL: &[(&str, u64)] = &[
    ("cut 1\nidle 1\n", 1),
    ("dp 0 read none 7\nidle 1\n", 2),
    ("reset 50\nswitch\nidle 1\n", 3),
    ("idle 1\nidle 1\n", 1),
    ("reset 49\n", 1),
    ("reset 49\nidle 1\nidle 1\n", 1),
    ("reset 0\n", 1),
    ("idle 0\n", 1),
    ("idle 1\nreset 0\n", 2),
    ("reset 50\nidle 0\nreset 1\n", 1),
    ("idle 9223372036854775808\nidle 1\n", 1),
    ("dp 0 read none 7\nidle 18446744073709551000\n", 2),
    ("dp 0 read none 7\nreset 49\n", 2),
    ("switch\n", 1),
    ("junk 1\n", 1),
    ("reset 50\nidle 1\nidle 1\n", 2),
];

// Listings, and their first bad line.
const BAD_LINES: &[(&str, u64)] = &[
    ("idle 01\n", 1),
    ("\n", 1),
    ("idle 1\n\n", 2),
    ("idle\n", 1),
    ("idle \n", 1),
    ("idle +1\n", 1),
    ("Idle 1\n", 1),
    ("idle 18446744073709551616\n", 1),
    ("dp 0 read none 1\n", 1),
    ("dp 0 read none 8\n", 1),
    ("dp 0 read ok 2BA01477\n", 1),
    ("dp 0 read ok 2ba0147\n", 1),
    ("dp 1 read wait\n", 1),
    ("idle  1\n", 1),
    ("idle 1 \n", 1),
    (" idle 1\n", 1),
    ("idle 1\r\n", 1),
    ("junk 2\n", 1),
    ("cut \n", 1),
    ("cut 012\n", 1),
    (
        "cut 11111111111111111111111111111111111111111111111111\n",
        1,
    ),
    (
        "idle 000000000000000000000000000000000000000000000000000000000000000001\n",
        1,
    ),
    ("idle 18446744073709551615\nreset 1\nidle 01\n", 2),
    ("idle 1\nidle 1\nidle 01\n", 3),
];

// What is wrong with a listing.
fn fault_of(rt: &HostRuntime, text: &str) -> Option<ListFault> {
    let mut reader = text.as_bytes();
    match read_list(rt.alloc(), &mut reader) {
        Ok(_) => None,
        Err(fault) => Some(fault),
    }
}

#[test]
fn listings_are_read_as_they_are_printed_or_their_first_fault_is_told(
    rt: HostRuntime,
) -> Result<(), Fail> {
    for text in NORMAL {
        let mut reader = text.as_bytes();
        let items = read_list(rt.alloc(), &mut reader)?;
        let mut again = String::new(rt.alloc());
        for item in items.as_slice() {
            again.push_str(item.line().as_str())?;
            again.push_str("\n")?;
        }
        expect_eq_at(&rt, text, &again.as_str(), &&text[..]);
    }
    // A last line may lack its end.
    let mut reader = "idle 2\ncut 1".as_bytes();
    let items = read_list(rt.alloc(), &mut reader)?;
    let cut = Item::Cut(TxBits { len: 1, bits: 1 });
    expect_eq(&rt, &items.as_slice(), &[Item::Idle(2), cut].as_slice());
    for (text, line) in NOT_NORMAL {
        let wanted = Some(ListFault::NotNormal { line: *line });
        expect_eq_at(&rt, text, &fault_of(&rt, text), &wanted);
    }
    for (text, line) in BAD_LINES {
        let wanted = Some(ListFault::BadLine { line: *line });
        expect_eq_at(&rt, text, &fault_of(&rt, text), &wanted);
    }
    Ok(())
}

#[test]
fn each_read_fails(rt: HostRuntime) {
    let text = b"reset 56\nswitch\nreset 56\nidle 2\n";
    for fails_at in 0..=text.len() {
        let mut reader = FailingReader::new(text.as_slice(), fails_at);
        match read_list(rt.alloc(), &mut reader) {
            Ok(_) => expect_at(&rt, &fails_at, false),
            Err(fault) => expect_eq(&rt, &fault, &ListFault::Read),
        }
    }
}

#[test]
fn each_growth_is_refused(rt: HostRuntime) -> Result<(), Fail> {
    let mut text = String::new(rt.alloc());
    for _ in 0..40 {
        text.push_str("idle 1\nap c read wait\n")?;
    }
    let mut refused = 0u32;
    for size in 1..200usize {
        let heap = LocalHeap::new(rt.alloc(), size * 64)?;
        let mut reader = text.as_str().as_bytes();
        match read_list(&heap, &mut reader) {
            Ok(items) => expect_eq(&rt, &items.len(), &80),
            Err(fault) => {
                expect_eq(&rt, &fault, &ListFault::Memory);
                refused = refused.saturating_add(1);
            }
        }
    }
    assert!(rt; refused > 2);
    assert!(rt; refused < 199);
    Ok(())
}
