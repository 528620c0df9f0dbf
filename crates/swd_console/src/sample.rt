//! What passed through a stream, as far as a line on standard error can name it.

use arrayvec::ArrayVec;
use swd_bits::{Scan, Sign};

// The most bytes that are kept of what was read.
const FIRST: usize = 256;

// How the line of a stray bit begins in a listing.
const STRAY: &[u8] = b"junk ";

// How many bytes of each write are looked at.
const LOOKED_AT: usize = 128;

// How many lines of stray bits are enough: no more writes are looked at then, which would take longer than the listing.
const ENOUGH: u64 = 1000;

// Returns how many lines of stray bits these bytes have.
fn stray_in(bytes: &[u8]) -> u64 {
    let mut count: u64 = 0;
    for place in 0..bytes.len() {
        if bytes[place] == STRAY[0] && bytes[place..].starts_with(STRAY) {
            count = count.saturating_add(1);
        }
    }
    count
}

// What was found in a trace text, until both bits were found or something else: a character that isn't allowed there.
#[derive(Drop)]
struct Found {
    scan: Scan,
    zero: bool,
    one: bool,
    other: bool,
}

impl Found {
    // Nothing yet.
    fn new() -> Found {
        Found {
            scan: Scan::new(),
            zero: false,
            one: false,
            other: false,
        }
    }

    // Takes the next piece.
    fn look(&mut self, piece: &[u8]) {
        for byte in piece {
            if self.other || self.zero && self.one {
                return;
            }
            match self.scan.byte(*byte) {
                Sign::Bit(true) => self.one = true,
                Sign::Bit(false) => self.zero = true,
                Sign::Passed => {}
                Sign::Bad => self.other = true,
            }
        }
    }
}

/// The first bytes that were read, which bits were among all of them, and how many lines of stray bits were written.
#[derive(Drop)]
pub struct Sample {
    first: ArrayVec<u8, FIRST>,
    found: Found,
    stray: u64,
    // Whether the stream is a file that leads to a target.
    is_line: bool,
}

impl Sample {
    // Nothing has passed.
    pub(crate) fn new(is_line: bool) -> Sample {
        Sample {
            first: ArrayVec::new(),
            found: Found::new(),
            stray: 0,
            is_line,
        }
    }

    // Notes bytes that were read, none at the end and at an error.
    pub(crate) fn note_read(&mut self, bytes: &[u8]) {
        let more = self.first.remaining_capacity().min(bytes.len());
        let _ = self.first.try_extend_from_slice(&bytes[..more]);
        self.found.look(bytes);
    }

    // Notes bytes that were written. All of them are looked at only where a line of a stray bit is among the first, and
    // until enough were found.
    pub(crate) fn note_written(&mut self, bytes: &[u8]) {
        if self.stray < ENOUGH && stray_in(&bytes[..bytes.len().min(LOOKED_AT)]) > 0 {
            self.stray = self.stray.saturating_add(stray_in(bytes));
        }
    }

    /// Returns the first bytes that were read.
    pub fn first(&self) -> &[u8] {
        self.first.as_slice()
    }

    /// Returns whether the stream is a file that leads to a target, in place of a standard stream.
    pub fn is_line(&self) -> bool {
        self.is_line
    }

    /// Returns whether a bit was read, if this is the text of a trace.
    pub fn has_bits(&self) -> bool {
        self.found.zero || self.found.one
    }

    /// Returns how many lines of stray bits were written, as far as they were looked at.
    pub fn stray(&self) -> u64 {
        self.stray
    }
}
