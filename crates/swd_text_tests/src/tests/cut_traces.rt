//! Traces cut off at each bit, and each list of twelve bits: no bit is lost, and none is made up.
use super::expect::{expect_at, expect_eq};
use std::alloc::Global;
use std::io;
use std::io::Read;
use std::test::Fail;
use swd_text::{DecodeFault, decode_text, encode_text};

// A run without accesses, from its line reset to its idle cycles.
const RUN: &[u8] = b"reset 56\nswitch\nreset 56\nidle 2\ndp 0 read ok 2ba01477\n\
    dp 0 write ok 0000001e\ndp 4 read ok 00000000\ndp 8 write ok 00000000\n\
    dp 4 write ok 50000000\ndp 4 read ok f0000000\nap 0 write ok 23000012\n\
    ap 0 read ok 00000000\ndp c read ok 23000052\nidle 8\n";

// Gives a text at once, and then fails.
#[derive(Drop)]
struct CutReader<'a> {
    text: &'a [u8],
}

impl<'a> Read for CutReader<'a> {
    fn read(&mut self, buf: &mut [u8]) -> io::Result<usize> {
        if self.text.is_empty() {
            return Err(io::Error::from(io::ErrorKind::BrokenPipe));
        }
        let given = self.text.len().min(buf.len());
        buf[..given].copy_from_slice(&self.text[..given]);
        self.text = &self.text[given..];
        Ok(given)
    }
}

// The bits of a listing's items, joined, as characters.
fn bits_of(alloc: Global, listing: &[u8]) -> Result<Vec<u8>, Fail> {
    let mut listing = listing;
    let mut trace = Vec::new(alloc);
    if encode_text(alloc, &mut listing, &mut trace).is_err() {
        return Err(Fail::from("no normal listing"));
    }
    trace.retain(|byte| *byte != b'\n');
    Ok(trace)
}

// The listing of some bits, to their end.
fn listing_of(alloc: Global, bits: &[u8]) -> Result<Vec<u8>, Fail> {
    let mut bits = bits;
    let mut listing = Vec::new(alloc);
    match decode_text(&mut bits, &mut listing) {
        Ok(()) => Ok(listing),
        Err(_) => Err(Fail::from("no trace")),
    }
}

#[test]
fn a_trace_cut_off_at_each_bit(rt: HostRuntime) -> Result<(), Fail> {
    let whole = bits_of(rt.alloc(), RUN)?;
    expect_eq(&rt, &whole.len(), &552);
    for len in 0..=552usize {
        let Some(bits) = whole.as_slice().get(..len) else {
            panic!(rt; "no {len} bits");
        };
        let listing = listing_of(rt.alloc(), bits)?;
        let again = bits_of(rt.alloc(), listing.as_slice())?;
        expect_at(&rt, &len, again.as_slice() == bits);
        // What has been written at a failed read is decided: the beginning of every continuation's listing.
        let mut reader = CutReader { text: bits };
        let mut decided = Vec::new(rt.alloc());
        let answer = decode_text(&mut reader, &mut decided);
        expect_eq(&rt, &answer, &Err(DecodeFault::Read));
        expect_at(&rt, &len, RUN.starts_with(decided.as_slice()));
    }
    Ok(())
}

// Twelve bits as characters, the first in time least significant.
fn push_bits(text: &mut Vec<u8>, number: u16) -> Result<(), Fail> {
    for place in 0..12u16 {
        text.push(if number >> place & 1 == 1 { b'1' } else { b'0' })?;
    }
    Ok(())
}

// Start, a parity bit that makes five bits even, Stop and Park, and three bits that are no acknowledgement: a whole
// transaction. The ninth bit is its turnaround.
fn is_unacknowledged(number: u16) -> bool {
    let five = number >> 1 & 0x1f;
    number & 0xc1 == 0x81 && five.count_ones() % 2 == 0 && !matches!(number >> 9 & 7, 1 | 2 | 4)
}

#[test]
fn each_list_of_twelve_bits(rt: HostRuntime) -> Result<(), Fail> {
    for number in 0..4096u16 {
        let mut bits = Vec::new(rt.alloc());
        push_bits(&mut bits, number)?;
        let mut same = Vec::new(rt.alloc());
        // A turnaround is written as 1.
        let turned = if is_unacknowledged(number) { 0x100 } else { 0 };
        push_bits(&mut same, number | turned)?;
        let listing = listing_of(rt.alloc(), bits.as_slice())?;
        let again = bits_of(rt.alloc(), listing.as_slice())?;
        expect_at(&rt, &number, again.as_slice() == same.as_slice());
        // After fifty ones no transaction has room: one that stands there begins after a zero.
        let mut after = Vec::new(rt.alloc());
        after.resize(50, b'1')?;
        push_bits(&mut after, number)?;
        let listing = listing_of(rt.alloc(), after.as_slice())?;
        let again = bits_of(rt.alloc(), listing.as_slice())?;
        expect_at(&rt, &number, again.as_slice() == after.as_slice());
    }
    Ok(())
}
