//! A scanner of trace text, byte by byte.
ghost use Rattle.std.specs.Prelude.{◌≡◌, Bool, false};
ghost use Rattle.swd_bits.specs.TraceText.{scan_bits_sign_of, scan_bits_comment_after};

use std::marker::Model;

/// The meaning of a byte of a trace text.
#[derive(Clone, Copy, Debug, PartialEq, Eq)]
pub enum Sign {
    /// `0` or `1`: a bit.
    Bit(bool),
    /// A space, a tab, a carriage return, a line feed, or part of a comment.
    Passed,
    /// A byte that isn't allowed outside a comment.
    Bad,
}

/// A scanner of trace text. Its only state is whether a comment is open.
///
/// A trace text has a character `0` or `1` for each bit, in time order. Spaces, tabs, carriage returns and line feeds
/// are skipped, and so is everything from `#` up to the next line feed.
#[derive(Clone, Copy, Debug, PartialEq, Eq)]
pub struct Scan {
    comment: bool,
}

impl Model for Scan {
    ghost Value = { Bool };

    ghost view = { λ s. s.comment };

    ghost inverse = { λ b. record { comment = b } };
}

impl Scan {
    /// Creates a scanner at the start of the input.
    #[inline]
    pub fn new() -> Scan
        ensures { result ≡ false }
    {
        Scan { comment: false }
    }

    /// Returns whether a comment is open.
    #[inline]
    pub fn in_comment(&self) -> bool
        ensures { result ≡ self.now }
    {
        self.comment
    }

    /// Takes the next byte, and returns its meaning. After `Bad` the scanner is unchanged.
    #[inline]
    pub fn byte(&mut self, byte: u8) -> Sign
        ensures sign { result ≡ scan_bits_sign_of self.old byte }
        ensures comment { self.new ≡ scan_bits_comment_after self.old byte }
    {
        if self.comment {
            self.comment = byte != b'\n';
            return Sign::Passed;
        }
        match byte {
            // One arm: the branch predictor can't predict a bit.
            b'0' | b'1' => Sign::Bit(byte == b'1'),
            b' ' | b'\t' | b'\r' | b'\n' => Sign::Passed,
            b'#' => {
                self.comment = true;
                Sign::Passed
            }
            _ => Sign::Bad,
        }
    }
}

impl Default for Scan {
    ghost is_default = { λ scan. scan ≡ false };

    fn default() -> Scan {
        Scan::new()
    }
}
