//! Files that are read, written and replaced.
use std::cell::Cell;
use std::io;
use std::io::{ErrorKind, Read, Write};

/// What was written to a file since it was cut off.
#[derive(Clone, Copy)]
pub(super) struct Page {
    bytes: [u8; 128],
    len: usize,
}

pub(super) const EMPTY: Page = Page {
    bytes: [0; 128],
    len: 0,
};

impl Page {
    /// The bytes.
    pub(super) fn text(&self) -> &[u8] {
        self.bytes.get(..self.len).unwrap_or(b"")
    }
}

/// A file that is open for writing. A full one takes three bytes, and nothing takes the place of a stuck one.
#[derive(Drop)]
pub(super) struct Pen<'a> {
    pub(super) page: &'a Cell<Page>,
    pub(super) is_full: bool,
    pub(super) is_stuck: bool,
    /// What is to replace it.
    pub(super) beside: Option<Page>,
}

impl Write for Pen<'_> {
    fn write(&mut self, buf: &[u8]) -> io::Result<usize> {
        let mut page = self.beside.unwrap_or(self.page.get());
        let room = if self.is_full {
            3_usize.saturating_sub(page.len)
        } else {
            buf.len()
        };
        let count = buf.len().min(room);
        if count == 0 && !buf.is_empty() {
            return Err(io::Error::from(ErrorKind::StorageFull));
        }
        for byte in &buf[..count] {
            let end = page.len;
            if let Some(place) = page.bytes.get_mut(end) {
                *place = *byte;
                page.len = page.len.saturating_add(1);
            }
        }
        match self.beside {
            Some(_) => self.beside = Some(page),
            None => self.page.set(page),
        }
        Ok(count)
    }

    fn flush(&mut self) -> io::Result<()> {
        Ok(())
    }
}

impl Pen<'_> {
    /// Gives what is to replace the file its name.
    pub(super) fn replace(&mut self) -> io::Result<()> {
        if self.is_stuck {
            return Err(io::Error::from(ErrorKind::ResourceBusy));
        }
        if let Some(page) = self.beside.take() {
            self.page.set(page);
        }
        Ok(())
    }
}

// A file, or one that can't be read.
#[derive(Drop)]
pub(super) enum Source {
    Text(&'static [u8]),
    Broken,
}

impl Read for Source {
    fn read(&mut self, buf: &mut [u8]) -> io::Result<usize> {
        match self {
            Source::Text(text) => text.read(buf),
            Source::Broken => Err(io::Error::from(ErrorKind::BrokenPipe)),
        }
    }
}
