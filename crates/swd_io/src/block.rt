//! A block of buffered output.
ghost use Rattle.std.specs.Prelude.{◌≡◌, ℕ, ◌+◌, ◌-◌, ◌^◌, ◌≤◌, min, List, Option, ◌++◌, ◌∷◌, [], length, take, false};
ghost use Rattle.std.specs.Prelude.{IfOk, IfErr};
ghost use Rattle.std.specs.Io.KnownBytes.{Appends};
ghost use Rattle.swd_io.specs.Blocks.{BlockBufferSends, OutputStopped, block_buffer_len, block_writer_failed};
ghost use Rattle.swd_io.specs.Blocks.{BlockQueues};

use crate::held::{HeldOutput, SIZE};
use crate::output::send;
use std::io::Write;

/// The longest piece that one call takes, in bytes.
pub const LONGEST: usize = 1024;

/// Output that is buffered and written in blocks, with an exact count of the written bytes. Once the writer
/// failed, nothing more is written.
///
/// `io::BufWriter` allocates, retries, and doesn't report how many bytes were written.
#[derive(Drop)]
pub struct Block<'a, W> {
    writer: &'a mut W,
    held: HeldOutput,
    // The number of written bytes, at most 2^64 - 1.
    written: u64,
    // Whether the writer failed.
    failed: bool,
}

impl<'a, W: Write> Block<'a, W> {
    /// Returns an empty buffer for output of which `written` bytes were written before, at most 2^64 - 1.
    pub fn new(writer: &'a mut W, written: u64) -> Block<'a, W>
        ensures writer { result.writer.ghost_name ≡ writer.entry.ghost_name }
        ensures sends { (start : Option (List ℕ)) (all : List ℕ) → Appends start (W.contents writer.old) all
            → written ≡ min (length all) (2 ^ 64 - 1) → BlockBufferSends W.contents start result all }
    {
        Block {
            writer,
            held: HeldOutput::new(),
            written,
            failed: false,
        }
    }

    /// Returns whether the writer failed.
    pub fn has_failed(&self) -> bool
        ensures { result ≡ block_writer_failed self.now }
    {
        self.failed
    }

    /// Writes the buffered bytes. Returns the number of bytes of the whole output, at most 2^64 - 1.
    ///
    /// # Errors
    ///
    /// If the writer failed, now or before: how many bytes were written before that, at most 2^64 - 1.
    pub fn flush(&mut self) -> Result<u64, u64>
        ensures writer { self.new.writer.ghost_name ≡ self.old.writer.ghost_name }
        ensures sends { (start : Option (List ℕ)) (all : List ℕ) → BlockBufferSends W.contents start self.old all
            → BlockBufferSends W.contents start self.new all }
        ensures ok { IfOk result (λ told. (start : Option (List ℕ)) (all : List ℕ)
            → BlockBufferSends W.contents start self.old all
            → Appends start (W.contents self.new.writer.now) all × (told ≡ min (length all) (2 ^ 64 - 1))) }
        ensures err { IfErr result (λ told. (start : Option (List ℕ)) (all : List ℕ)
            → BlockBufferSends W.contents start self.old all
            → OutputStopped told start (W.contents self.new.writer.now) all) }
    {
        self.send_held();
        if self.failed {
            Err(self.written)
        } else {
            Ok(self.written)
        }
    }

    // Writes the buffered bytes.
    #[inline(never)]
    fn send_held(&mut self)
        ensures writer { self.new.writer.ghost_name ≡ self.old.writer.ghost_name }
        ensures sends { (start : Option (List ℕ)) (all : List ℕ) → BlockBufferSends W.contents start self.old all
            → BlockBufferSends W.contents start self.new all }
        ensures empty { block_writer_failed self.new ≡ false → block_buffer_len self.new ≡ 0 }
    {
        if self.failed {
            return;
        }
        match send(self.writer, self.held.as_slice()) {
            Ok(()) => {
                self.written = self.written.saturating_add(self.held.len() as u64);
                self.held.clear();
            }
            Err(unsent) => {
                self.written = self.written.saturating_add(unsent.sent as u64);
                self.failed = true;
            }
        }
    }

    // Writes the buffered bytes if there is no room for a piece.
    #[inline(always)]
    fn make_room(&mut self)
        ensures writer { self.new.writer.ghost_name ≡ self.old.writer.ghost_name }
        ensures sends { (start : Option (List ℕ)) (all : List ℕ) → BlockBufferSends W.contents start self.old all
            → BlockBufferSends W.contents start self.new all }
        ensures room { block_writer_failed self.new ≡ false → block_buffer_len self.new ≤ SIZE - LONGEST }
    {
        if self.held.len() > SIZE - LONGEST {
            self.send_held();
        }
    }

    /// Appends a line and a line feed to the output.
    pub fn put_line(&mut self, line: &[u8])
        requires { length line.now ≤ LONGEST }
        ensures writer { self.new.writer.ghost_name ≡ self.old.writer.ghost_name }
        ensures sends { BlockQueues W.contents (line.now ++ 10 ∷ []) self.old self.new }
    {
        self.put(line);
        self.put(b"\n");
    }

    /// Appends a piece to the output. Writes the buffered bytes first if there is no room for it.
    #[inline(always)]
    pub fn put(&mut self, piece: &[u8])
        requires { length piece.now ≤ LONGEST }
        ensures writer { self.new.writer.ghost_name ≡ self.old.writer.ghost_name }
        ensures sends { BlockQueues W.contents piece.now self.old self.new }
    {
        self.make_room();
        if !self.failed {
            self.held.extend(piece);
        }
    }

    /// Appends the first `count` bytes of a piece to the output. Writes the buffered bytes first if there is
    /// no room for the whole piece. It copies the whole piece, since a copy of constant length is fastest.
    #[inline(always)]
    pub fn put_first<const N: usize>(&mut self, piece: &[u8; N], count: usize)
        requires short { N ≤ LONGEST }
        requires within { count ≤ N }
        ensures writer { self.new.writer.ghost_name ≡ self.old.writer.ghost_name }
        ensures sends { BlockQueues W.contents (take count piece.now) self.old self.new }
    {
        self.make_room();
        if !self.failed {
            self.held.extend_first(piece, count);
        }
    }

    /// Appends the first bytes of two pieces, and then a third piece, to the output. Writes the buffered
    /// bytes first if there is no room for the three. It checks for room once, and copies each piece whole.
    #[inline(always)]
    pub fn put_three<const A: usize, const B: usize, const C: usize>(
        &mut self,
        first: &[u8; A],
        first_count: usize,
        second: &[u8; B],
        second_count: usize,
        third: &[u8; C],
    )
        requires short { A + B + C ≤ LONGEST }
        requires first { first_count ≤ A }
        requires second { second_count ≤ B }
        ensures writer { self.new.writer.ghost_name ≡ self.old.writer.ghost_name }
        ensures sends { BlockQueues W.contents
            (take first_count first.now ++ (take second_count second.now ++ third.now)) self.old self.new }
    {
        self.make_room();
        if !self.failed {
            self.held
                .extend_three(first, first_count, second, second_count, third);
        }
    }
}
