//! Keeps the line of a script or a plan that is being read, so that an error can show it.
ghost use Rattle.std.specs.Prelude.{◌≡◌};

use crate::sample::Sample;
use crate::streams::Stream;
use crate::watched::KeepsError;
use arrayvec::ArrayVec;
use std::io::Read;
use std::{io, slice, str};

// The most bytes that one read takes. They are kept until the next read.
const PIECE: usize = 4096;

// The most bytes that are kept of the words of a line, and of each of them. No line of a script or a plan has a word
// that is longer, nor more words than these have room for.
const SHOWN: usize = 192;

const WORD: usize = 24;

/// What is kept of a line before its comment.
#[derive(Drop)]
pub struct SeenLine {
    // The beginnings of its words, with a blank between two.
    words: ArrayVec<u8, SHOWN>,
    // How many bytes of the last word were passed. It is 0 behind a blank.
    length: usize,
    // Whether the comment has begun, and whether the last byte is a carriage return.
    is_comment: bool,
    is_returned: bool,
    // The first byte that is neither printable ASCII nor a space or a tab.
    odd: Option<u8>,
}

impl SeenLine {
    // No byte was passed.
    fn new() -> SeenLine {
        SeenLine {
            words: ArrayVec::new(),
            length: 0,
            is_comment: false,
            is_returned: false,
            odd: None,
        }
    }

    // Returns the same line again.
    fn copied(&self) -> SeenLine {
        let mut words = ArrayVec::new();
        let _ = words.try_extend_from_slice(self.words.as_slice());
        SeenLine { words, ..*self }
    }

    // Passes a byte that isn't a line feed.
    fn pass(&mut self, byte: u8) {
        if self.is_comment {
            return;
        }
        self.end();
        match byte {
            b'#' => self.is_comment = true,
            b'\r' => self.is_returned = true,
            b' ' | b'\t' => self.length = 0,
            _ => self.extend(byte),
        }
    }

    // Passes the end of the text, or a byte behind a carriage return: no line feed follows that.
    fn end(&mut self) {
        if self.is_returned {
            self.is_returned = false;
            self.extend(b'\r');
        }
    }

    // Passes a byte of a word.
    fn extend(&mut self, byte: u8) {
        if self.odd.is_none() && !byte.is_ascii_graphic() {
            self.odd = Some(byte);
        }
        if self.length == 0 && !self.words.is_empty() {
            let _ = self.words.try_push(b' ');
        }
        if self.length < WORD {
            let _ = self.words.try_push(byte);
        }
        self.length = self.length.saturating_add(1);
    }

    /// Returns the first byte that is neither printable ASCII nor a space or a tab.
    pub fn odd_byte(&self) -> Option<u8> {
        self.odd
    }

    /// Returns whether a carriage return ends it, and a line feed follows.
    pub fn is_returned(&self) -> bool {
        self.is_returned
    }

    /// Returns the beginnings of its words, with a blank between two, or nothing if it isn't text.
    pub fn text(&self) -> &str {
        str::from_utf8(self.words.as_slice()).unwrap_or("")
    }
}

// A place in a text: the number of a line, from 1 and at most 2^64 - 1, and what of it was passed.
#[derive(Drop)]
struct TextPosition {
    line: u64,
    start: SeenLine,
}

impl TextPosition {
    // Passes these bytes.
    fn pass(&mut self, bytes: &[u8]) {
        for byte in bytes {
            if *byte == b'\n' {
                self.line = self.line.saturating_add(1);
            }
        }
        let rest = match bytes.iter().rposition(|byte| *byte == b'\n') {
            Some(end) => {
                self.start = SeenLine::new();
                &bytes[end + 1..]
            }
            None => bytes,
        };
        for byte in rest {
            self.start.pass(*byte);
        }
    }
}

/// What was read last of a text.
#[derive(Drop)]
pub struct Seen {
    // Where the piece begins.
    from: TextPosition,
    // The bytes of the last read.
    piece: ArrayVec<u8, PIECE>,
}

impl Seen {
    /// Nothing was read yet.
    pub fn new() -> Seen {
        Seen {
            from: TextPosition {
                line: 1,
                start: SeenLine::new(),
            },
            piece: ArrayVec::new(),
        }
    }

    // Keeps a piece in place of the one before.
    fn keep(&mut self, piece: &[u8]) {
        self.from.pass(self.piece.as_slice());
        self.piece.clear();
        let _ = self.piece.try_extend_from_slice(piece);
    }

    /// Returns the line with this number, if it is in the piece that was read last.
    pub fn line(&self, number: u64) -> SeenLine {
        let mut place = TextPosition {
            line: self.from.line,
            start: self.from.start.copied(),
        };
        for byte in self.piece.as_slice() {
            if place.line == number && *byte == b'\n' {
                return place.start;
            }
            place.pass(slice::from_ref(byte));
        }
        if place.line != number {
            return SeenLine::new();
        }
        place.start.end();
        place.start
    }
}

/// A reader of a text with a name, that keeps what it read last.
#[derive(Drop)]
pub struct TrackedReader<'a, R> {
    name: &'a str,
    pub reader: R,
    pub seen: Seen,
}

impl<'a, R> TrackedReader<'a, R> {
    /// Nothing was read yet.
    pub fn new(name: &'a str, reader: R) -> TrackedReader<'a, R>
        ensures { result.reader ≡ reader }
    {
        TrackedReader {
            name,
            reader,
            seen: Seen::new(),
        }
    }
}

impl<'a, R: KeepsError> TrackedReader<'a, R> {
    /// Returns the name of the text.
    pub fn name(&self) -> &'a str {
        self.name
    }

    /// Returns the stream that is read.
    pub fn stream(&self) -> Stream<'a> {
        Stream::read(self.name, self)
    }
}

impl<R: KeepsError> KeepsError for TrackedReader<'_, R> {
    ghost kept = { λ noted. R.kept noted.reader };

    fn kept_error(&self) -> Option<io::Error> {
        self.reader.kept_error()
    }

    fn sample(&self) -> &Sample {
        self.reader.sample()
    }
}

impl<R: Read> Read for TrackedReader<'_, R> {
    ghost remaining = { λ noted. R.remaining noted.reader };

    fn read(&mut self, buf: &mut [u8]) -> io::Result<usize> {
        let most = buf.len().min(PIECE);
        let count = self.reader.read(&mut buf[..most])?;
        if count > 0 {
            self.seen.keep(&buf[..count]);
        }
        Ok(count)
    }
}
