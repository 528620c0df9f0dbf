//! Registers by worked values: requests at a target, one after the other.
use super::expect::expect_at;
use super::register_rows::ROWS;
use std::alloc::Global;
use std::process::Abort;
use std::test::Fail;
use swd_bits::{Request, data_bits, word_of};
use swd_port::{AfterAck, Reply};
use swd_target::port::{Target, flip_bit};
use swd_target::{Device, Memory, Quirks};

pub(super) const IDENTIFICATION: u32 = 0x2ba0_1477;

// What an unknown value reads as.
pub(super) const FILLER: u32 = 0xa5a5_a5a5;

// The bytes of requests, by their addresses 0, 4, 8 and c.
const DP_READ: [u8; 4] = [0xa5, 0x8d, 0x95, 0xbd];

const DP_WRITE: [u8; 4] = [0x81, 0xa9, 0xb1, 0x99];

const AP_READ: [u8; 4] = [0x87, 0xaf, 0xb7, 0x9f];

const AP_WRITE: [u8; 4] = [0xa3, 0x8b, 0x93, 0xbb];

// The bytes of those that have a name in bank 0 of each port.
pub(super) const DPIDR: u8 = 0xa5;

pub(super) const STATUS: u8 = 0x8d;

pub(super) const RDBUFF: u8 = 0xbd;

pub(super) const ABORT: u8 = 0x81;

pub(super) const CONTROL: u8 = 0xa9;

const SELECT: u8 = 0xb1;

pub(super) const CSW: u8 = 0xa3;

pub(super) const TAR: u8 = 0x8b;

pub(super) const DRW: u8 = 0xbb;

pub(super) const DRW_READ: u8 = 0x9f;

#[derive(Clone, Copy)]
enum Step {
    LineReset,
    // The request with this byte is answered OK, and this word is read.
    Read(u8, u32),
    // It is answered OK, and this word is written.
    Write(u8, u32),
    // It is answered OK, and a bit of its data arrives changed.
    Damaged(u8),
    // It is answered so.
    Replied(u8, Reply),
    // It is answered so where WAIT is asked for.
    Held(u8, Reply),
    // The memory has this word there.
    Word(u32, u32),
    // No transfer was logged.
    NoTransfer,
}

fn word_in(text: &str) -> Option<u32> {
    match text {
        "filler" => Some(FILLER),
        _ => u32::from_str_radix(text, 16).ok(),
    }
}

fn reply_in(text: &str) -> Option<Reply> {
    match text {
        "okay" => Some(Reply::Okay),
        "waits" => Some(Reply::Waits),
        "faults" => Some(Reply::Faults),
        "silent" => Some(Reply::Silent),
        _ => None,
    }
}

// The byte of a request, as `dp 4`, and whether it reads.
fn byte_in(register: &str, reads: bool) -> Option<u8> {
    let (port, addr) = register.split_once(" ")?;
    let bytes = match port {
        "dp" if reads => &DP_READ,
        "dp" => &DP_WRITE,
        "ap" if reads => &AP_READ,
        "ap" => &AP_WRITE,
        _ => return None,
    };
    match addr {
        "0" => Some(bytes[0]),
        "4" => Some(bytes[1]),
        "8" => Some(bytes[2]),
        "c" => Some(bytes[3]),
        _ => None,
    }
}

// A request, and what comes behind it.
fn request_in(text: &str) -> Option<(bool, u8, &str)> {
    if let Some((register, rest)) = text.split_once(" read ") {
        return Some((true, byte_in(register, true)?, rest));
    }
    let (register, rest) = text.split_once(" write ")?;
    Some((false, byte_in(register, false)?, rest))
}

fn step_in(text: &str) -> Option<Step> {
    if text == "line reset" {
        return Some(Step::LineReset);
    }
    if text == "no transfer" {
        return Some(Step::NoTransfer);
    }
    if let Some(rest) = text.strip_prefix("word ") {
        let (addr, word) = rest.split_once(" ")?;
        return Some(Step::Word(word_in(addr)?, word_in(word)?));
    }
    if let Some(rest) = text.strip_prefix("held ") {
        let (_, byte, reply) = request_in(rest)?;
        return Some(Step::Held(byte, reply_in(reply)?));
    }
    let (reads, byte, rest) = request_in(text)?;
    if let Some(reply) = reply_in(rest) {
        return Some(Step::Replied(byte, reply));
    }
    if rest == "damaged" && !reads {
        return Some(Step::Damaged(byte));
    }
    let word = word_in(rest)?;
    Some(if reads {
        Step::Read(byte, word)
    } else {
        Step::Write(byte, word)
    })
}

/// Returns the reply to the request with this byte.
pub(super) fn reply<D: Device>(target: &mut Target<D>, byte: u8, waits: bool) -> Option<Reply> {
    let request = Request::of(byte)?;
    let (reply, _) = target.request(waits, request);
    Some(reply)
}

/// Returns the word of a read that is answered OK.
pub(super) fn read<D: Device>(target: &mut Target<D>, byte: u8) -> Option<u32> {
    let request = Request::of(byte)?;
    let (_, phase) = target.request(false, request);
    match phase {
        AfterAck::Drives(bits) => word_of(bits),
        _ => None,
    }
}

/// Performs a write, with a bit of its data changed, if any, and returns whether it was answered OK.
pub(super) fn write<D: Device>(
    target: &mut Target<D>,
    byte: u8,
    word: u32,
    flip: Option<u8>,
) -> bool {
    let Some(request) = Request::of(byte) else {
        return false;
    };
    let (_, phase) = target.request(false, request);
    let AfterAck::Awaits(register, _) = phase else {
        return false;
    };
    let place = flip.unwrap_or(0);
    if place > 32 {
        return false;
    }
    target.arrive(register, flip_bit(flip, data_bits(word)));
    true
}

// Whether a step goes as it says.
fn goes(target: &mut Target<Memory>, step: Step) -> bool {
    match step {
        Step::LineReset => {
            target.line_reset(false);
            true
        }
        Step::Read(byte, word) => read(target, byte) == Some(word),
        Step::Write(byte, word) => write(target, byte, word, None),
        Step::Damaged(byte) => write(target, byte, 0, Some(5)),
        Step::Replied(byte, wanted) => reply(target, byte, false) == Some(wanted),
        Step::Held(byte, wanted) => reply(target, byte, true) == Some(wanted),
        Step::Word(addr, word) => target.memory().word(addr) == Some(word),
        Step::NoTransfer => target.memory().log().is_empty(),
    }
}

// All steps go as they say.
fn all_go<R: Abort>(rt: &R, place: &str, target: &mut Target<Memory>, steps: &str) {
    for text in steps.split(", ") {
        let went = match step_in(text) {
            Some(step) => goes(target, step),
            None => false,
        };
        expect_at(rt, &(place, text), went);
    }
}

// So many words from this address, and the access port's IDR, if it has one.
#[derive(Clone, Copy)]
struct Words {
    base: u32,
    words: u32,
    wrap: bool,
    idr: Option<u32>,
}

const SIXTEEN_WORDS: Words = Words {
    base: 0x2000_0000,
    words: 16,
    wrap: true,
    idr: None,
};

// A target with these words, before any line reset.
fn made(alloc: Global, words: Words) -> Result<Target<Memory>, Fail> {
    let memory = Memory::new(alloc, words.base, words.words, 16)?;
    let quirks = Quirks {
        wrap: words.wrap,
        late: false,
        filler: FILLER,
        idr: words.idr,
    };
    Ok(Target::new(memory, quirks))
}

// A line reset, a DPIDR read, power, and a CSW with auto-increment.
const UP: &str = "line reset, dp 0 read 2ba01477, dp 4 write 50000000, ap 0 write 23000012";

// The memory of a row.
fn words_of(row: &str) -> Option<Words> {
    let Some(text) = row.lines().find_map(|line| line.strip_prefix("over ")) else {
        return Some(SIXTEEN_WORDS);
    };
    let (base, rest) = text.split_once(" ")?;
    let (words, rest) = rest.split_once(" ")?;
    let (wrap, idr) = rest.split_once(" ").unwrap_or((rest, ""));
    Some(Words {
        base: word_in(base)?,
        words: words.parse().ok()?,
        wrap: wrap == "wraps",
        idr: word_in(idr),
    })
}

// Tries a row with the steps of a case.
fn row_goes<R: Abort>(rt: &R, alloc: Global, row: &str, case: &str) -> Result<(), Fail> {
    let words = words_of(row);
    expect_at(rt, &row, words.is_some());
    let mut target = made(alloc, words.unwrap_or(SIXTEEN_WORDS))?;
    if !row.lines().any(|line| line == "cold") {
        all_go(rt, row, &mut target, UP);
    }
    for steps in row.lines().filter_map(|line| line.strip_prefix("- ")) {
        for step in steps.split(", ") {
            let steps = if step == "case" { case } else { step };
            all_go(rt, row, &mut target, steps);
        }
    }
    Ok(())
}

// Whether this says something of a row, or nothing: any other line is its name.
fn is_said(line: &str) -> bool {
    line == "cold"
        || line.starts_with("- ")
        || line.starts_with("| ")
        || line.starts_with("over ")
        || line.starts_with("# ")
}

#[test]
fn registers_go_as_their_rows_say(rt: HostRuntime) -> Result<(), Fail> {
    for row in ROWS.split("\n\n") {
        let names = row.lines().filter(|line| !is_said(line)).count();
        expect_at(&rt, &row, names == 1);
        let mut cases = 0u32;
        for case in row.lines().filter_map(|line| line.strip_prefix("| ")) {
            row_goes(&rt, rt.alloc(), row, case)?;
            cases = cases.saturating_add(1);
        }
        if cases == 0 {
            row_goes(&rt, rt.alloc(), row, "")?;
        }
    }
    Ok(())
}

const IN_A_BANK: &str = "\
dp 4 read 0, dp 4 write 0, dp 0 read 2ba01477, dp 0 write 1e, ap 0 read filler, dp c read 23000052, \
dp 8 read 23000052, dp 8 write 0, dp 4 read f0000040";

// DPIDR, ABORT, SELECT, RESEND and RDBUFF stand in each bank of the debug port, CTRL/STAT in bank 0.
#[test]
fn control_and_status_stand_in_bank_0(rt: HostRuntime) -> Result<(), Fail> {
    for bank in 1..16u32 {
        let mut target = made(rt.alloc(), SIXTEEN_WORDS)?;
        all_go(&rt, "bank 0", &mut target, UP);
        all_go(&rt, "bank 0", &mut target, "dp 4 read f0000000");
        expect_at(&rt, &bank, write(&mut target, SELECT, bank, None));
        all_go(&rt, "another bank", &mut target, IN_A_BANK);
    }
    Ok(())
}

// Words of SELECT, and requests of an access port.
const PORTS: &[&str] = &["0", "10", "1000000"];

const WITHOUT_POWER: &[&str] = &["ap 4 read", "ap 8 read", "ap 0 write", "ap c write"];

// An access port wants debug power, whichever it is.
#[test]
fn access_ports_fault_without_debug_power(rt: HostRuntime) -> Result<(), Fail> {
    for select in PORTS {
        for request in WITHOUT_POWER {
            let steps = format!(in rt.alloc();
                "dp 8 write {select}, dp 4 write 40000000, held {request} faults, dp 4 read c0000020, dp 0 write 4, \
                dp 4 write 10000000, {request} okay"
            )?;
            let mut target = made(rt.alloc(), SIXTEEN_WORDS)?;
            all_go(&rt, "power", &mut target, UP);
            all_go(&rt, "power", &mut target, steps.as_str());
        }
    }
    Ok(())
}
