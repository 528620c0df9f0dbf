//! The tests.

mod openings;
mod rows;
mod whole;
mod worlds;

use std::alloc::Global;
use std::test::Fail;
use swd_bits::TxEnd;
use swd_checker::Checker;
use swd_trace::{Item, read_list};

// A session up to a write of CSW, 242 bits: a line reset, DPIDR, power, and AddrInc single.
const UP: &str =
    "reset 56\nidle 2\ndp 0 read ok 2ba01477\ndp 4 write ok 50000000\ndp 4 read ok f0000000\nap 0 write ok 23000012\n";

// How many bits an item has (IHI 0031, B4).
fn bits_in(item: &Item) -> u64 {
    match *item {
        Item::Reset(count) | Item::Idle(count) => count,
        Item::Switch => 16,
        Item::Junk(_) => 1,
        Item::Cut(bits) => u64::from(bits.len),
        Item::Tx(tx) => match tx.result {
            TxEnd::Moved { .. } => 46,
            TxEnd::Wait | TxEnd::Fault => 13,
            TxEnd::NoAck(_) => 12,
        },
    }
}

// Watches the items of two listings, one after the other, and returns the most worlds that there were.
fn watch(alloc: Global, checker: &mut Checker, first: &str, then: &str) -> Result<usize, Fail> {
    let mut text = String::new(alloc);
    text.push_str(first)?;
    text.push_str(then)?;
    let mut reader = text.as_str().as_bytes();
    let items = read_list(alloc, &mut reader)?;
    let mut place: u64 = 0;
    let mut most: usize = 0;
    for item in items.as_slice() {
        checker.watch(item, place);
        place = place.saturating_add(bits_in(item));
        most = most.max(checker.worlds());
    }
    Ok(most)
}
