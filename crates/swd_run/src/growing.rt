//! A file that is written while what it is about still grows.
ghost use Rattle.std.specs.Prelude.{◌≡◌, List, Ok, OnErr, ℕ};
ghost use Rattle.swd_run.specs.GrowingFiles.{GrowingFileAdds, GrowingTextSent};

use std::io::Write;

/// A text that is appended to a file at once.
pub trait Portion {
    /// The text.
    ghost text: { Self → List ℕ };

    /// What has to hold of a portion that is written. Optional.
    ghost can_write: { Self → Type 0 } = { λ _. Unit {0} };

    /// Writes the text behind an output of `written` bytes, at most 2^64 - 1. Returns the number of bytes of both, at
    /// most 2^64 - 1. Nothing is retried.
    ///
    /// # Errors
    ///
    /// If the writer failed: how many bytes of both were written, at most 2^64 - 1.
    fn write<W: Write>(&self, writer: &mut W, written: u64) -> Result<u64, u64>
        requires { can_write self.now }
        ensures { GrowingTextSent written result (W.contents writer.old) (W.contents writer.new) (text self.now) };
}

/// A file, if it is wanted, and how much was written to it. Once its writer failed, nothing more is written.
#[derive(Debug, Drop)]
pub struct GrowingFile<T> {
    /// The writer, if the file is wanted.
    pub writer: Option<T>,
    /// How many entries of what the file is about were written, or would have been with a writer that didn't fail.
    pub done: usize,
    /// How many bytes were written, at most 2^64 - 1: all of these entries, or if the writer failed, the first ones.
    pub sent: Result<u64, u64>,
}

impl<T> GrowingFile<T> {
    /// Returns a file to which nothing was written yet.
    pub fn new(writer: Option<T>) -> GrowingFile<T>
        ensures { result ≡ record { writer = writer; done = 0; sent = Ok 0 } }
    {
        GrowingFile {
            writer,
            done: 0,
            sent: Ok(0),
        }
    }
}

impl<T: Write> GrowingFile<T> {
    /// Appends a portion, with which this many entries are done. Nothing is written if the writer failed before.
    pub fn add<P: Portion>(&mut self, portion: &P, done: usize)
        requires { P.can_write portion.now }
        ensures done { self.new.done ≡ done }
        ensures adds { GrowingFileAdds T.contents (P.text portion.now) self.old self.new }
        ensures failed { OnErr self.old.sent ((self.new.writer ≡ self.old.writer) × (self.new.sent ≡ self.old.sent)) }
    {
        self.done = done;
        let Some(writer) = &mut self.writer else {
            return;
        };
        if let Ok(written) = self.sent {
            self.sent = portion.write(writer, written);
        }
    }
}
