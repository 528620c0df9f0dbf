//! Worked traces, bit by bit and in two pieces at every cut.
ghost use Rattle.std.specs.Prelude.{OnOk};
ghost use Rattle.swd_trace.specs.Held.{IsDecoderSettled};

use super::expect::{expect_eq, expect_eq_at};
use std::alloc::{AllocError, Global};
use std::process::Abort;
use std::test::Fail;
use swd_bits::{Request, Tx, TxBits, TxEnd};
use swd_trace::{Decoder, Item};

const ONES_49: &str = "1111111111111111111111111111111111111111111111111";

const ONES_56: &str = "11111111111111111111111111111111111111111111111111111111";

const SWITCH: &str = "0111100111100111";

const DPIDR: &str = "10100101 1 100 11101110001010000000010111010100 0 1";

// The traces, piece by piece, and their listings.
const TRACES: &[(&[&str], &str)] = &[
    (&[], ""),
    (&[ONES_49, "10"], "reset 50\nidle 1\n"),
    (&[ONES_49, "10111"], "reset 50\nidle 1\ncut 111\n"),
    (
        &[ONES_56, SWITCH, ONES_56, "00"],
        "reset 56\nswitch\nreset 56\nidle 2\n",
    ),
    (&[DPIDR], "dp 0 read ok 2ba01477\n"),
    (
        &["10100101 1 100 11101110001010000000010111010100 0"],
        "cut 101001011100111011100010100000000101110101000\n",
    ),
    (
        &["10100101 1 100 01101110001010000000010111010100 0 1"],
        "dp 0 read bad 2ba01476\n",
    ),
    (
        &["10100101 1 111 000"],
        "dp 0 read none 7\njunk 0\njunk 0\njunk 0\n",
    ),
    (
        &["10000001 1 100 1 01111000000000000000000000000000 0"],
        "dp 0 write ok 0000001e\n",
    ),
    (&["10100101 0 010 0 0"], "dp 0 read wait\nidle 1\n"),
];

// The bits of a trace.
fn bits_of(alloc: Global, pieces: &[&str]) -> Result<Vec<bool>, AllocError> {
    let mut bits = Vec::new(alloc);
    for piece in pieces {
        for byte in piece.as_bytes() {
            if *byte != b' ' {
                bits.push(*byte == b'1')?;
            }
        }
    }
    Ok(bits)
}

fn list(text: &mut String, item: &Item) -> Result<(), AllocError> {
    text.push_str(item.line().as_str())?;
    text.push_str("\n")
}

// Feeds one piece.
fn feed(decoder: &mut Decoder, bits: &[bool], text: &mut String) -> Result<(), AllocError> {
    for bit in bits {
        if decoder.fed() < u64::MAX {
            for item in decoder.feed(*bit).as_slice() {
                list(text, item)?;
            }
        }
    }
    Ok(())
}

// The trace was fed, and with its last items it has this listing.
fn ends<R: Abort>(
    rt: &R,
    decoder: Decoder,
    text: &mut String,
    (bits, listing): (&[bool], &str),
) -> Result<(), AllocError> {
    expect_eq_at(rt, &listing, &decoder.fed(), &(bits.len() as u64));
    for item in decoder.finish().as_slice() {
        list(text, item)?;
    }
    expect_eq_at(rt, &listing, &text.as_str(), &listing);
    Ok(())
}

// These bits as a number, the first least significant.
fn number_of(bits: &[bool]) -> u64 {
    let mut number = 0u64;
    for bit in bits.iter().rev() {
        number = number << 1 | u64::from(*bit);
    }
    number
}

fn list_due(decoder: &mut Decoder, text: &mut String) -> Result<(), AllocError>
    ensures { OnOk result (IsDecoderSettled decoder.new) }
{
    while let Some(item) = decoder.due() {
        list(text, &item)?;
    }
    Ok(())
}

// Takes one piece, as many bits at once as the decoder does.
fn take_piece(decoder: &mut Decoder, bits: &[bool], text: &mut String) -> Result<(), AllocError>
    requires { IsDecoderSettled decoder.old }
    ensures { OnOk result (IsDecoderSettled decoder.new) }
{
    let mut rest = bits;
    while !rest.is_empty() && decoder.fed() < u64::MAX - 64 {
        let count = rest.len().min(64);
        let taken = decoder.take_bits(number_of(&rest[..count]), count as u8);
        rest = &rest[taken as usize..];
        list_due(decoder, text)?;
    }
    Ok(())
}

// A trace has its listing, bit by bit and in two pieces at every cut.
fn has_listing<R: Abort>(
    rt: &R,
    alloc: Global,
    pieces: &[&str],
    listing: &str,
) -> Result<(), AllocError> {
    let bits = bits_of(alloc, pieces)?;
    let mut text = String::new(alloc);
    let mut decoder = Decoder::new();
    feed(&mut decoder, &bits, &mut text)?;
    ends(rt, decoder, &mut text, (&bits, listing))?;
    for cut in 0..=bits.len() {
        let mut text = String::new(alloc);
        let mut decoder = Decoder::new();
        let (front, back) = bits.as_slice().split_at(cut);
        take_piece(&mut decoder, front, &mut text)?;
        take_piece(&mut decoder, back, &mut text)?;
        ends(rt, decoder, &mut text, (&bits, listing))?;
    }
    Ok(())
}

#[test]
fn worked_traces_have_their_listings(rt: HostRuntime) -> Result<(), Fail> {
    let alloc = rt.alloc();
    for (pieces, listing) in TRACES {
        has_listing(&rt, alloc, pieces, listing)?;
    }
    // Forty-nine ones are no reset.
    let mut junk = String::new(alloc);
    for _ in 0..49 {
        junk.push_str("junk 1\n")?;
    }
    junk.push_str("junk 0\n")?;
    has_listing(&rt, alloc, &[ONES_49, "0"], junk.as_str())?;
    Ok(())
}

// Bits that are joined, the first least significant.
#[derive(Clone, Copy, Debug, PartialEq, Eq)]
struct Joined {
    len: u32,
    bits: u64,
}

fn join(joined: &mut Joined, bit: bool) {
    if joined.len < 64 {
        joined.bits |= u64::from(bit) << joined.len;
        joined.len += 1;
    }
}

fn join_low(joined: &mut Joined, count: u64, bits: u64) {
    let mut left = bits;
    for _ in 0..count {
        join(joined, left % 2 == 1);
        left /= 2;
    }
}

// The bits of an item, as the standard has them; here a transaction is never acknowledged.
fn join_item(joined: &mut Joined, item: &Item) {
    match item {
        Item::Reset(count) => join_low(joined, *count, u64::MAX),
        Item::Switch => join_low(joined, 16, 0xe79e),
        Item::Idle(count) => join_low(joined, *count, 0),
        Item::Junk(bit) => join(joined, *bit),
        Item::Cut(bits) => join_low(joined, u64::from(bits.len), bits.bits),
        Item::Tx(tx) => {
            join_low(joined, 8, u64::from(tx.request.bits()));
            join(joined, true);
            if let TxEnd::NoAck(seen) = tx.result {
                join_low(joined, 3, u64::from(seen));
            }
        }
    }
}

// Whether the twelve bits are a request, a turnaround and no acknowledgement.
fn is_unanswered(list: u64) -> bool {
    let seen = list / 512 % 8;
    let is_answer = seen == 1 || seen == 2 || seen == 4;
    Request::of((list % 256) as u8).is_some() && !is_answer
}

// Any bits keep their bits: the items have those that were fed, turnarounds set to 1.
#[test]
fn every_list_of_twelve_bits(rt: HostRuntime) {
    for list in 0..4096u64 {
        for ones in [0, 50] {
            let mut fed = Joined { len: 0, bits: 0 };
            join_low(&mut fed, ones, u64::MAX);
            join_low(&mut fed, 12, list);
            let mut joined = Joined { len: 0, bits: 0 };
            let mut decoder = Decoder::new();
            for place in 0..fed.len {
                if place < 64 && decoder.fed() < u64::MAX {
                    for item in decoder.feed(fed.bits >> place & 1 == 1).as_slice() {
                        join_item(&mut joined, item);
                    }
                }
            }
            for item in decoder.finish().as_slice() {
                join_item(&mut joined, item);
            }
            if ones == 0 && is_unanswered(list) {
                fed.bits |= 0x100;
            }
            expect_eq(&rt, &joined, &fed);
        }
    }
}

#[test]
fn a_run_is_decided_by_the_bit_after_it_or_its_end(rt: HostRuntime) {
    // A huge run is taken at once.
    let mut decoder = Decoder::new();
    decoder.take(false);
    if decoder.due().is_some() {
        assert!(rt; false, "one zero decides nothing");
        return;
    }
    expect_eq(&rt, &decoder.take_run(false, u64::MAX - 1), &(u64::MAX - 1));
    expect_eq(&rt, &decoder.due(), &None);
    expect_eq(&rt, &decoder.last(), &Some(Item::Idle(u64::MAX)));
    expect_eq(&rt, &decoder.last(), &None);
    // A bit that ends a run decides it.
    let mut decoder = Decoder::new();
    let none = decoder.feed(false);
    assert!(rt; none.is_empty());
    let idle = decoder.feed(true);
    expect_eq(&rt, &idle.as_slice(), &[Item::Idle(1)].as_slice());
    let cut = Item::Cut(TxBits { len: 1, bits: 1 });
    expect_eq(&rt, &decoder.finish().as_slice(), &[cut].as_slice());
}
