//! The words of the plan's text: what each of them sends.

use swd_bits::{Reg4, Request};

/// A word of a write.
#[derive(Clone, Copy)]
pub(crate) enum Word {
    /// This one.
    Is(u32),
    /// The address that is so many bytes behind that of the first word of memory that the plan uses, modulo 2^32.
    Memory(u32),
    /// The address that is so many bytes behind that of the last word of 256 bytes which isn't the last of a kilobyte.
    Page(u32),
    /// The address that is so many bytes behind that of the last word of a kilobyte.
    Kilobyte(u32),
    /// An address without memory.
    Hole,
    /// Another word each time.
    Fresh,
}

impl Word {
    // Returns the word that a text stands for, if it is one.
    fn of(text: &str) -> Option<Word> {
        if let Some((name, behind)) = text.split_once('+') {
            return Word::behind(name, behind.parse::<u32>().ok()?);
        }
        if let Some((name, before)) = text.split_once('-') {
            return Word::behind(name, 0u32.wrapping_sub(before.parse::<u32>().ok()?));
        }
        match text {
            "hole" => Some(Word::Hole),
            "fresh" => Some(Word::Fresh),
            _ => match Word::behind(text, 0) {
                Some(word) => Some(word),
                None => Some(Word::Is(u32::from_str_radix(text, 16).ok()?)),
            },
        }
    }

    // Returns the address that is so many bytes behind the one with this name, if there is one.
    fn behind(name: &str, bytes: u32) -> Option<Word> {
        match name {
            "memory" => Some(Word::Memory(bytes)),
            "page" => Some(Word::Page(bytes)),
            "kilobyte" => Some(Word::Kilobyte(bytes)),
            _ => None,
        }
    }
}

/// What is sent.
#[derive(Clone, Copy)]
pub(crate) enum Send {
    /// A read.
    Read(Request),
    /// A write with right parity.
    Write(Request, Word),
    /// A write with wrong parity.
    Damaged(Request, Word),
    /// A request that is sent once, also where it isn't answered; the word of a write is 0.
    Once(Request),
    /// A write with a line reset in place of its data phase.
    Cut(Request),
    /// A line reset.
    Reset,
    /// Reads of CTRL/STAT, up to one that acknowledges both powers.
    Power,
}

impl Send {
    /// Returns what a word of the text sends, if it is one.
    pub(crate) fn of(text: &str) -> Option<Send> {
        match text {
            "reset" => return Some(Send::Reset),
            "power" => return Some(Send::Power),
            _ => {}
        }
        if let Some(name) = text.strip_suffix("=0?") {
            return Some(Send::Once(write_of(name)?));
        }
        if let Some(name) = text.strip_suffix('?') {
            return Some(Send::Once(read_of(name)?));
        }
        match text.split_once('=') {
            Some((name, word)) => Send::written(write_of(name)?, word),
            None => Some(Send::Read(read_of(text)?)),
        }
    }

    // Returns what a write with this word sends, if it is one.
    fn written(request: Request, word: &str) -> Option<Send> {
        if word == "cut" {
            return Some(Send::Cut(request));
        }
        match word.strip_prefix('!') {
            Some(word) => Some(Send::Damaged(request, Word::of(word)?)),
            None => Some(Send::Write(request, Word::of(word)?)),
        }
    }
}

// Returns the read of the register with this name, if there is one.
fn read_of(name: &str) -> Option<Request> {
    let (ap, addr) = match name {
        "dpidr" => (false, Reg4::R0),
        "ctrl/stat" => (false, Reg4::R4),
        "resend" => (false, Reg4::R8),
        "rdbuff" => (false, Reg4::RC),
        _ => (true, port_register(name)?),
    };
    let read = true;
    Some(Request { ap, read, addr })
}

// Returns the write of the register with this name, if there is one. A write at c of the debug port has no effect.
fn write_of(name: &str) -> Option<Request> {
    let (ap, addr) = match name {
        "abort" => (false, Reg4::R0),
        "ctrl/stat" => (false, Reg4::R4),
        "select" => (false, Reg4::R8),
        "dp-c" => (false, Reg4::RC),
        _ => (true, port_register(name)?),
    };
    let read = false;
    Some(Request { ap, read, addr })
}

// Returns the register of the access port with this name, if there is one.
fn port_register(name: &str) -> Option<Reg4> {
    match name {
        "csw" => Some(Reg4::R0),
        "tar" => Some(Reg4::R4),
        "ap-8" => Some(Reg4::R8),
        "drw" => Some(Reg4::RC),
        _ => None,
    }
}
