//! A line that is a text: what is driven in each clock, and the levels of those in which nothing is.

use crate::row::Wrong;
use std::alloc::Global;
use swd_dap_probe::ProbeLine;

/// A line on which these clocks are expected, a character each: `0` and `1` are driven, `l` and `h` are released and
/// sampled low and high, `R` and `r` set nRESET high and low.
#[derive(Drop)]
pub struct TextLine {
    clocks: Vec<u8>,
    // How many of them went by.
    gone: usize,
    // Whether there was another clock than expected.
    strayed: bool,
}

// Returns whether a character stands for something.
fn counts(character: u8) -> bool {
    matches!(character, b'0' | b'1' | b'l' | b'h' | b'R' | b'r')
}

impl TextLine {
    /// Returns a line on which nothing went by. Its clocks are those of a row's lines that begin with `~`.
    pub fn of<'t>(alloc: Global, lines: &'t str) -> Result<TextLine, Wrong<'t>> {
        let mut clocks = Vec::new(alloc);
        for line in lines.lines().filter(|line| line.starts_with("~")) {
            for character in line.bytes().filter(|it| counts(*it)) {
                clocks.push(character)?;
            }
        }
        Ok(TextLine {
            clocks,
            gone: 0,
            strayed: false,
        })
    }

    // Returns the next character, if there is one.
    fn next(&mut self) -> Option<u8> {
        let next = self.clocks.get(self.gone).copied();
        self.gone = self.gone.saturating_add(1);
        next
    }

    // Takes the next character, which is to be one of two.
    fn pass(&mut self, low: u8, high: u8) -> bool {
        let next = self.next();
        if next != Some(low) && next != Some(high) {
            self.strayed = true;
        }
        next == Some(high)
    }

    /// Returns whether all that was expected went by, and nothing else.
    pub fn is_done(&mut self) -> bool {
        !self.strayed && self.next().is_none()
    }
}

impl ProbeLine for TextLine {
    fn clock(&mut self, drive: Option<bool>) -> bool {
        match drive {
            Some(true) => self.pass(b'1', b'1'),
            Some(false) => self.pass(b'0', b'0'),
            None => self.pass(b'l', b'h'),
        }
    }

    fn reset(&mut self, level: bool) {
        let wanted = if level { b'R' } else { b'r' };
        let _ = self.pass(wanted, wanted);
    }
}
