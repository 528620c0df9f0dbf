//! A page of text in the caller's memory.
ghost use Rattle.std.specs.Prelude.{◌≡◌, ◌-◌, ◌≤◌, length, min, Ok, Some};
ghost use Rattle.std.specs.Io.{WritesAtMost};
ghost use Rattle.std.specs.Io.KnownBytes.{Keeps, WriteAppends};

use std::io;
use std::io::Write;

/// The size of a page in bytes.
pub const PAGE_SIZE: usize = 134217728;

/// A page of text, and how the text ended.
#[repr(C)]
pub struct SwdPage {
    /// The number of bytes of the text.
    pub len: usize,
    /// For `kind` 1 the place of the invalid byte, counted from 0. For 3 the number of bytes that were written.
    pub number: u64,
    /// 0 all was printed; 1 the trace file has an invalid byte; 2 it has too many bits; 3 the page is full; 4 the trace
    /// file couldn't be read.
    pub kind: u8,
    /// The text, followed by bytes without a meaning.
    pub bytes: [u8; PAGE_SIZE],
}

/// Text is appended, as far as there is room for it.
impl Write for SwdPage {
    ghost use Rattle.swd_page.specs.Pages.{page_text};

    ghost contents = { λ page. Some (page_text page) };

    fn write(&mut self, buf: &[u8]) -> io::Result<usize>
        ensures bound { WritesAtMost result buf.now }
        ensures bytes { WriteAppends (Some (page_text self.old)) (Some (page_text self.new)) result buf.now }
        ensures count { self.old.len ≤ PAGE_SIZE → result ≡ Ok (min (length buf.now) (PAGE_SIZE - self.old.len)) }
    {
        let len = self.len;
        if len > PAGE_SIZE {
            return Ok(0);
        }
        let count = buf.len().min(PAGE_SIZE - len);
        self.bytes[len..len + count].copy_from_slice(&buf[..count]);
        self.len = len + count;
        Ok(count)
    }

    fn flush(&mut self) -> io::Result<()>
        ensures bytes { Keeps (Some (page_text self.old)) (Some (page_text self.new)) }
    {
        Ok(())
    }
}
