//! The decoder by the exports, over worked traces, bit by bit and many bits at once.
use super::expect::expect_eq;
use crate::{SwdItem, swd_decoder_due, swd_decoder_last, swd_decoder_new, swd_decoder_take};
use std::alloc::{AllocError, Global};
use std::process::Abort;
use std::test::Fail;
use swd_trace::{Decoder, DecoderFields};

/// An item of kind 0, which there isn't.
pub(super) const NONE: SwdItem = SwdItem {
    count: 0,
    bits: 0,
    word: 0,
    kind: 0,
    request: 0,
    ack: 0,
    parity_ok: 0,
};

const ZEROS: DecoderFields = DecoderFields {
    fed: 0,
    run: 0,
    bits: 0,
    mode: 0,
    one: 0,
    len: 0,
};

/// Returns an item of this kind with this number of bits.
pub(super) fn counted(kind: u8, count: u64) -> SwdItem {
    let mut item = NONE;
    item.kind = kind;
    item.count = count;
    item
}

/// Returns a transaction.
pub(super) fn transaction(request: u8, ack: u8, word: u32, parity_ok: u8) -> SwdItem {
    let mut item = NONE;
    item.kind = 4;
    item.request = request;
    item.ack = ack;
    item.word = word;
    item.parity_ok = parity_ok;
    item
}

// Appends the items that are due.
fn add_due(decoder: &mut DecoderFields, items: &mut Vec<SwdItem>) -> Result<(), AllocError> {
    let mut item = NONE;
    for _ in 0..100u8 {
        if !swd_decoder_due(decoder, &mut item) {
            return Ok(());
        }
        items.push(item)?;
    }
    Ok(())
}

// Appends the items at the end of the trace.
fn add_last(decoder: &mut DecoderFields, items: &mut Vec<SwdItem>) -> Result<(), AllocError> {
    let mut item = NONE;
    for _ in 0..100u8 {
        if !swd_decoder_last(decoder, &mut item) {
            return Ok(());
        }
        items.push(item)?;
    }
    Ok(())
}

// Takes the lowest of these bits, in pieces of limited length.
fn add_bits(
    decoder: &mut DecoderFields,
    items: &mut Vec<SwdItem>,
    bits: u64,
    count: u8,
    most: u8,
) -> Result<(), AllocError> {
    let mut rest = bits;
    let mut left = count;
    for _ in 0..100u8 {
        let taken = swd_decoder_take(decoder, rest, left.min(most));
        if taken == 0 {
            return Ok(());
        }
        rest = rest.checked_shr(u32::from(taken)).unwrap_or(0);
        left = left.saturating_sub(taken);
        add_due(decoder, items)?;
    }
    Ok(())
}

// Compares the items of a trace, in pieces of the lowest bits of a number, with those expected.
fn reads<R: Abort>(
    rt: &R,
    alloc: Global,
    pieces: &[(u64, u8)],
    wanted: &[SwdItem],
) -> Result<(), AllocError> {
    for most in [1, 7, 64] {
        let mut decoder = ZEROS;
        swd_decoder_new(&mut decoder);
        let mut items = Vec::new(alloc);
        for (bits, count) in pieces {
            add_bits(&mut decoder, &mut items, *bits, *count, most)?;
        }
        add_last(&mut decoder, &mut items)?;
        expect_eq(rt, &items.as_slice(), &wanted);
    }
    Ok(())
}

const ONES_56: (u64, u8) = (0xff_ffff_ffff_ffff, 56);

#[test]
fn worked_traces_are_read(rt: HostRuntime) -> Result<(), Fail> {
    let alloc = rt.alloc();
    reads(&rt, alloc, &[], &[])?;
    // 56 ones, the switch, 56 ones, two zeros.
    let items = [counted(1, 56), counted(2, 0), counted(1, 56), counted(3, 2)];
    reads(
        &rt,
        alloc,
        &[ONES_56, (0xe79e, 16), ONES_56, (0, 2)],
        &items,
    )?;
    // DPIDR is 2ba01477: its request, a turnaround, OK, the word, its parity, a turnaround.
    let dpidr = 0xa5 | 1 << 8 | 1 << 9 | 0x2ba0_1477 << 12 | 1 << 45;
    reads(
        &rt,
        alloc,
        &[(dpidr, 46)],
        &[transaction(0xa5, 1, 0x2ba0_1477, 1)],
    )?;
    // Its first data bit is changed.
    let changed = dpidr ^ 1 << 12;
    reads(
        &rt,
        alloc,
        &[(changed, 46)],
        &[transaction(0xa5, 1, 0x2ba0_1476, 0)],
    )?;
    // Its last bit is missing.
    let mut cut = counted(6, 45);
    cut.bits = dpidr ^ 1 << 45;
    reads(&rt, alloc, &[(dpidr, 45)], &[cut])?;
    // No acknowledgement: the bits after it are stray.
    let mut junk = NONE;
    junk.kind = 5;
    let items = [transaction(0xa5, 7, 0, 0), junk, junk, junk];
    reads(&rt, alloc, &[(0xa5 | 0xf << 8, 15)], &items)?;
    Ok(())
}

// Each of these fields in turn is invalid.
#[test]
fn fields_of_no_decoder_are_refused(rt: HostRuntime) {
    let mut decoder = ZEROS;
    swd_decoder_new(&mut decoder);
    expect_eq(&rt, &decoder, &Decoder::new().fields());
    for place in 0..7u8 {
        let mut fields = decoder;
        match place {
            0 => fields = ZEROS,
            1 => fields.mode = 5,
            2 => fields.one = 2,
            3 => fields.run = 1,
            4 => fields.bits = 1,
            5 => fields.len = 1,
            _ => fields.len = 51,
        }
        let before = fields;
        let mut item = NONE;
        expect_eq(&rt, &swd_decoder_take(&mut fields, 1, 1), &0);
        assert!(rt; !swd_decoder_due(&mut fields, &mut item));
        assert!(rt; !swd_decoder_last(&mut fields, &mut item));
        expect_eq(&rt, &fields, &before);
        expect_eq(&rt, &item, &NONE);
    }
}

#[test]
fn bits_that_may_not_be_taken_are_refused(rt: HostRuntime) {
    let mut decoder = ZEROS;
    swd_decoder_new(&mut decoder);
    expect_eq(&rt, &swd_decoder_take(&mut decoder, 1, 0), &0);
    expect_eq(&rt, &swd_decoder_take(&mut decoder, 1, 65), &0);
    // A zero, and the one that ends it: an item is due.
    expect_eq(&rt, &swd_decoder_take(&mut decoder, 2, 2), &2);
    let before = decoder;
    expect_eq(&rt, &swd_decoder_take(&mut decoder, 1, 1), &0);
    expect_eq(&rt, &decoder, &before);
    let mut item = NONE;
    assert!(rt; swd_decoder_due(&mut decoder, &mut item));
    expect_eq(&rt, &item, &counted(3, 1));
    decoder.fed = u64::MAX;
    expect_eq(&rt, &swd_decoder_take(&mut decoder, 1, 1), &0);
}
