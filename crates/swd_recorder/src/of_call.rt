//! The items of one call of a wire.
ghost use Rattle.std.specs.Prelude.{◌≡◌, ◌≤◌, ◌<◌, ◌+◌, ◌^◌, ◌++◌};
ghost use Rattle.arrayvec.specs.ArrayVec.{array_vec_len};
ghost use Rattle.swd_port.specs.Steps.{IsPortSeen};
ghost use Rattle.swd_recorder.specs.Calls.{IsRecordedCue, IsRecordedRange, recorded_call_items};
ghost use Rattle.swd_recorder.specs.Calls.{recorded_cut_items, recorded_switch_items};
ghost use Rattle.swd_recorder.specs.Items.{recorded_ack_seen, recorded_high_items, recorded_low_items, recorded_moved};
ghost use Rattle.swd_recorder.specs.Items.{recorded_refused, recorded_tx_item, recorded_unanswered};

use crate::in_hand::{InHand, ack_seen};
use arrayvec::ArrayVec;
use swd_bits::{Ack, Request, Tx, TxEnd};
use swd_port::Cue;
use swd_trace::Item;

// The ones of a line reset that are the turnaround and the bits of a write's data phase.
const DATA_ONES: u32 = 34;

/// The items of one call: at most those of a line reset with the switch, behind a transaction.
pub type CallItems = ArrayVec<Item, 5>;

/// Returns the items of a call at which `seen` was seen, with this incomplete transaction. A line reset inside a
/// transaction is taken for one in the data of a write.
pub fn call_items(in_hand: Option<InHand>, cue: Cue, seen: u64) -> CallItems
    requires may { IsRecordedCue cue }
    requires seen { IsPortSeen cue seen }
    ensures items { result.items ≡ recorded_call_items in_hand cue seen }
    ensures range { IsRecordedRange cue }
{
    match (cue, in_hand) {
        (
            Cue::Lead {
                ones,
                switch,
                zeros,
                ..
            },
            Some(asked),
        ) => cut(asked, ones, switch, zeros),
        (
            Cue::Lead {
                ones,
                switch,
                zeros,
                ..
            },
            None,
        ) => lead(ones, switch, zeros),
        (Cue::Ask(request), _) => unanswered(request, seen),
        (Cue::Take, Some(asked)) => whole(asked.request, moved(seen)),
        (Cue::Give(bits), Some(asked)) => whole(asked.request, moved(bits)),
        (Cue::Pass, Some(asked)) => whole(asked.request, refused(asked.ack)),
        (_, None) => CallItems::new(),
    }
}

// A line reset in place of a write's data phase.
fn cut(asked: InHand, ones: u32, switch: bool, zeros: u32) -> CallItems
    ensures { result.items ≡ recorded_cut_items asked ones switch zeros }
{
    let data = TxEnd::Moved {
        word: u32::MAX,
        parity_ok: false,
    };
    let mut items = whole(asked.request, data);
    items.push(Item::Reset(u64::from(ones.saturating_sub(DATA_ONES))));
    push_switch(&mut items, ones, switch);
    push_low(&mut items, zeros);
    items
}

// Ones, with `switch` the switch and the ones again, and zeros.
fn lead(ones: u32, switch: bool, zeros: u32) -> CallItems
    ensures { result.items ≡ recorded_high_items ones switch ++ recorded_low_items zeros }
{
    let mut items = CallItems::new();
    if ones > 0 {
        items.push(Item::Reset(u64::from(ones)));
        push_switch(&mut items, ones, switch);
    }
    push_low(&mut items, zeros);
    items
}

// Appends the switch, if it is sent, and as many ones again.
fn push_switch(items: &mut CallItems, ones: u32, switch: bool)
    requires { array_vec_len items.old ≤ 2 }
    ensures items { items.new.items ≡ items.old.items ++ recorded_switch_items ones switch }
    ensures len { array_vec_len items.new ≤ array_vec_len items.old + 2 }
{
    if switch {
        items.push(Item::Switch);
        items.push(Item::Reset(u64::from(ones)));
    }
}

// Appends zeros, if there are any.
fn push_low(items: &mut CallItems, zeros: u32)
    requires { array_vec_len items.old ≤ 4 }
    ensures { items.new.items ≡ items.old.items ++ recorded_low_items zeros }
{
    if zeros > 0 {
        items.push(Item::Idle(u64::from(zeros)));
    }
}

// A transaction without acknowledgement. Any other request is no item yet.
fn unanswered(request: Request, seen: u64) -> CallItems
    requires { seen < 8 }
    ensures { result.items ≡ recorded_unanswered request seen (recorded_ack_seen seen) }
{
    match ack_seen(seen) {
        Some(_) => CallItems::new(),
        None => whole(request, TxEnd::NoAck(seen as u8)),
    }
}

// A complete transaction.
fn whole(request: Request, end: TxEnd) -> CallItems
    ensures items { result.items ≡ recorded_tx_item request end }
    ensures len { array_vec_len result ≡ 1 }
{
    let mut items = CallItems::new();
    items.push(Item::Tx(Tx {
        request,
        result: end,
    }));
    items
}

// Returns the result of a transaction whose data phase has these 33 bits, the first in time least significant.
fn moved(bits: u64) -> TxEnd
    requires { bits < 2 ^ 33 }
    ensures { result ≡ recorded_moved bits }
{
    // With right parity the number of ones is even.
    TxEnd::Moved {
        word: (bits & 0xffff_ffff) as u32,
        parity_ok: bits.count_ones() % 2 == 0,
    }
}

// Returns the result of a transaction that was answered WAIT or FAULT.
fn refused(ack: Ack) -> TxEnd
    ensures { result ≡ recorded_refused ack }
{
    match ack {
        Ack::Fault => TxEnd::Fault,
        _ => TxEnd::Wait,
    }
}
