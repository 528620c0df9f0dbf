//! Readers and writers for tests: some fail once and then go on, so that a second try would show.
#![tactic(auto)]

use std::alloc::Global;
use std::cell::Cell;
use std::io;
use std::io::{Read, Write};

/// Gives one byte at a read, and fails at the read that is numbered; a later one gives the next byte.
#[derive(Drop)]
pub struct FailingReader<'a> {
    text: &'a [u8],
    given: usize,
    reads: usize,
    fails_at: usize,
}

impl<'a> FailingReader<'a> {
    /// Nothing was read yet. The first read has the number 0.
    pub fn new(text: &'a [u8], fails_at: usize) -> FailingReader<'a> {
        FailingReader {
            text,
            given: 0,
            reads: 0,
            fails_at,
        }
    }
}

impl<'a> Read for FailingReader<'a> {
    fn read(&mut self, buf: &mut [u8]) -> io::Result<usize> {
        let read = self.reads;
        self.reads = self.reads.saturating_add(1);
        if read == self.fails_at {
            return Err(io::Error::from(io::ErrorKind::BrokenPipe));
        }
        match (self.text.get(self.given), buf.first_mut()) {
            (Some(byte), Some(place)) => {
                *place = *byte;
                self.given = self.given.saturating_add(1);
                Ok(1)
            }
            _ => Ok(0),
        }
    }
}

/// Gives one byte at a read, to the end of its text.
#[derive(Drop)]
pub struct OneByteReader<'a> {
    text: &'a [u8],
}

impl<'a> OneByteReader<'a> {
    /// Nothing was read yet.
    pub fn new(text: &'a [u8]) -> OneByteReader<'a> {
        OneByteReader { text }
    }
}

impl<'a> Read for OneByteReader<'a> {
    fn read(&mut self, buf: &mut [u8]) -> io::Result<usize> {
        match (self.text.split_first(), buf.first_mut()) {
            (Some((byte, rest)), Some(place)) => {
                *place = *byte;
                self.text = rest;
                Ok(1)
            }
            _ => Ok(0),
        }
    }
}

/// Takes one byte at a write.
#[derive(Drop)]
pub struct OneByteWriter {
    /// The bytes that it took.
    pub taken: Vec<u8>,
}

impl OneByteWriter {
    /// Nothing was taken yet.
    pub fn new(alloc: Global) -> OneByteWriter {
        OneByteWriter {
            taken: Vec::new(alloc),
        }
    }
}

impl Write for OneByteWriter {
    fn write(&mut self, buf: &[u8]) -> io::Result<usize> {
        match buf.first() {
            Some(byte) => {
                self.taken.push(*byte)?;
                Ok(1)
            }
            None => Ok(0),
        }
    }

    fn flush(&mut self) -> io::Result<()> {
        Ok(())
    }
}

/// Takes so many bytes, fails or takes none once, and then takes all.
#[derive(Drop)]
pub struct ShortWriter {
    taken: Vec<u8>,
    room: usize,
    fails: bool,
    failed: bool,
}

impl ShortWriter {
    /// Nothing was taken yet. Where it `fails`, it answers an error once, else it takes no bytes once.
    pub fn new(alloc: Global, room: usize, fails: bool) -> ShortWriter {
        ShortWriter {
            taken: Vec::new(alloc),
            room,
            fails,
            failed: false,
        }
    }

    /// The bytes that it took.
    pub fn taken(&self) -> &[u8] {
        self.taken.as_slice()
    }
}

impl Write for ShortWriter {
    fn write(&mut self, buf: &[u8]) -> io::Result<usize> {
        if self.failed {
            self.taken.extend_from_slice(buf)?;
            return Ok(buf.len());
        }
        let left = self.room.saturating_sub(self.taken.len());
        if left == 0 {
            self.failed = true;
            if self.fails {
                return Err(io::Error::from(io::ErrorKind::BrokenPipe));
            }
        }
        let n = left.min(buf.len());
        self.taken.extend_from_slice(&buf[..n])?;
        Ok(n)
    }

    fn flush(&mut self) -> io::Result<()> {
        Ok(())
    }
}

/// Gives one byte at a read, and notes before it how many bytes a writer took so far.
#[derive(Drop)]
pub struct WatchingReader<'a> {
    text: &'a [u8],
    taken: &'a Cell<usize>,
    /// How many bytes were taken before each read.
    pub noted: Vec<usize>,
}

impl<'a> WatchingReader<'a> {
    /// Nothing was read yet. The writer keeps its count in `taken`.
    pub fn new(alloc: Global, text: &'a [u8], taken: &'a Cell<usize>) -> WatchingReader<'a> {
        WatchingReader {
            text,
            taken,
            noted: Vec::new(alloc),
        }
    }
}

impl<'a> Read for WatchingReader<'a> {
    fn read(&mut self, buf: &mut [u8]) -> io::Result<usize> {
        let read = self.noted.len();
        self.noted.push(self.taken.get())?;
        match (self.text.get(read), buf.first_mut()) {
            (Some(byte), Some(place)) => {
                *place = *byte;
                Ok(1)
            }
            _ => Ok(0),
        }
    }
}

/// Counts the bytes that it takes.
#[derive(Drop)]
pub struct CountingWriter<'a> {
    /// How many bytes it took.
    pub taken: &'a Cell<usize>,
}

impl<'a> Write for CountingWriter<'a> {
    fn write(&mut self, buf: &[u8]) -> io::Result<usize> {
        self.taken.set(self.taken.get().saturating_add(buf.len()));
        Ok(buf.len())
    }

    fn flush(&mut self) -> io::Result<()> {
        Ok(())
    }
}
