//! Worked captures, read bit by bit, and many bits at once.
ghost use Rattle.std.specs.Prelude.{◌<◌, ◌≤◌, length};

use super::expect::expect_eq_at;
use super::part_rows::{ROWS, Row};
use super::phase_rows::PHASE_ROWS;
use arrayvec::ArrayString;
use std::alloc::{AllocError, Global};
use std::process::Abort;
use std::test::Fail;
use swd_resync::{CaptureDecoder, Part};
use swd_trace::LONGEST_LINE;

// Adds a part's line to a text.
fn push_part(text: &mut String, part: &Part) -> Result<(), AllocError> {
    let mut line: ArrayString<LONGEST_LINE> = ArrayString::new();
    part.push_line(&mut line);
    text.push_str(line.as_str())?;
    text.push('\n')
}

// The lines of the parts of a capture.
fn lines_of(alloc: Global, over: bool, bits: &[u8]) -> Result<String, AllocError> {
    let mut decoder = CaptureDecoder::new(over);
    let mut text = String::new(alloc);
    for bit in bits {
        if decoder.fed() == u64::MAX {
            break;
        }
        decoder.take(*bit == b'1');
        while let Some(part) = decoder.due() {
            push_part(&mut text, &part)?;
        }
    }
    while let Some(end) = decoder.last() {
        push_part(&mut text, &end)?;
    }
    Ok(text)
}

// Returns the first bits as a number, the first one least significant, and how many: at most 64.
fn number_of(bits: &[u8]) -> (u64, u8)
    requires { 0 < length bits.now }
    ensures some { 0 < result.1 }
    ensures most { result.1 ≤ 64 }
    ensures within { result.1 ≤ length bits.now }
{
    let mut number = 0;
    let mut count: u8 = 0;
    while count < 64 && usize::from(count) < bits.len() {
        number |= u64::from(bits[usize::from(count)] == b'1') << count;
        count += 1;
    }
    (number, count)
}

// The same lines, from a decoder that takes up to 64 bits at once.
fn lines_at_once(alloc: Global, over: bool, bits: &[u8]) -> Result<String, AllocError> {
    let mut decoder = CaptureDecoder::new(over);
    let mut text = String::new(alloc);
    let mut index = 0;
    while index < bits.len() && decoder.fed() < u64::MAX - 64 {
        let (number, count) = number_of(&bits[index..]);
        index += usize::from(decoder.take_bits(number, count));
        while let Some(part) = decoder.due() {
            push_part(&mut text, &part)?;
        }
    }
    while let Some(end) = decoder.last() {
        push_part(&mut text, &end)?;
    }
    Ok(text)
}

// The same lines, from a decoder that takes whole transactions where it can. Returns how many it took, too.
fn lines_by_tx(alloc: Global, over: bool, bits: &[u8]) -> Result<(String, u64), AllocError> {
    let mut decoder = CaptureDecoder::new(over);
    let mut text = String::new(alloc);
    let mut index = 0;
    let mut whole: u64 = 0;
    while index < bits.len() && decoder.fed() < u64::MAX - 64 {
        let (number, count) = number_of(&bits[index..]);
        if let Some(found) = decoder.take_tx(number, count) {
            push_part(&mut text, &found.part)?;
            index += usize::from(found.taken);
            whole = whole.saturating_add(1);
            continue;
        }
        let wanted = decoder.wanted_bits().min(count);
        index += usize::from(decoder.take_bits(number, wanted));
        while let Some(part) = decoder.due() {
            push_part(&mut text, &part)?;
        }
    }
    while let Some(end) = decoder.last() {
        push_part(&mut text, &end)?;
    }
    Ok((text, whole))
}

// Compares the lines of each capture, read bit by bit, many bits at once, and by whole transactions.
fn expect_lines<R: Abort>(rt: &R, alloc: Global, rows: &[Row]) -> Result<(), Fail> {
    for row in rows {
        let bits = row.bits.as_bytes();
        let lines = lines_of(alloc, row.over, bits)?;
        expect_eq_at(rt, &row.name, &lines.as_str(), &row.lines);
        let at_once = lines_at_once(alloc, row.over, bits)?;
        expect_eq_at(rt, &row.name, &at_once.as_str(), &row.lines);
        let (by_tx, _) = lines_by_tx(alloc, row.over, bits)?;
        expect_eq_at(rt, &row.name, &by_tx.as_str(), &row.lines);
    }
    Ok(())
}

#[test]
fn worked_captures(rt: HostRuntime) -> Result<(), Fail> {
    expect_lines(&rt, rt.alloc(), ROWS)
}

#[test]
fn worked_data_phases(rt: HostRuntime) -> Result<(), Fail> {
    expect_lines(&rt, rt.alloc(), PHASE_ROWS)
}

// A read of DPIDR, four times. Once one is held alone, `take_tx` takes the next.
#[test]
fn a_transaction_follows_another(rt: HostRuntime) -> Result<(), Fail> {
    let mut bits = Vec::new(rt.alloc());
    for _ in 0..4 {
        bits.extend_from_slice(b"1010010111001110111000101000000001011101010001")?;
    }
    let (lines, whole) = lines_by_tx(rt.alloc(), false, bits.as_slice())?;
    let line = "dp 0 read ok 2ba01477\n";
    assert_eq!(rt;
        lines.as_str(),
        format!(in rt.alloc(); "{line}{line}{line}{line}")?.as_str()
    );
    assert_eq!(rt; whole, 2);
    Ok(())
}
