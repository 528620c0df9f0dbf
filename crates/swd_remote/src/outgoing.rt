//! Buffered characters for a writer.
ghost use Rattle.std.specs.Prelude.{◌≡◌, ◌+◌, ◌≤◌, ℕ, List, Option, [], length, true, false};
ghost use Rattle.std.specs.Io.KnownBytes.{Appends};
ghost use Rattle.swd_remote.specs.Ways.{IsOnRemoteWay, RemoteLengthens, RemoteDelivers, remote_has_broken};

use arrayvec::ArrayVec;
use std::io::Write;
use swd_io::send;

// The size of the buffer in characters.
const HELD: usize = 4096;

/// Characters that are buffered until `flush`, or until there is no room for more. Once the writer failed,
/// nothing more is written.
#[derive(Drop)]
pub(crate) struct Outgoing<W> {
    pub(crate) writer: W,
    pub(crate) held: ArrayVec<u8, HELD>,
    pub(crate) failed: bool,
}

impl<W: Write> Outgoing<W> {
    /// Returns an empty buffer.
    pub(crate) fn new(writer: W) -> Outgoing<W>
        ensures { (start : Option (List ℕ)) (text : List ℕ) → Appends start (W.contents writer) text
            → IsOnRemoteWay W.contents start result text }
    {
        Outgoing {
            writer,
            held: ArrayVec::new(),
            failed: false,
        }
    }

    /// Writes the buffered characters, and returns whether all characters so far were written.
    pub(crate) fn flush(&mut self) -> bool
        ensures whole { result ≡ true → RemoteDelivers W.contents self.old self.new }
        ensures broken { result ≡ false → remote_has_broken self.new ≡ true }
        ensures keeps { RemoteLengthens W.contents [] self.old self.new }
        ensures empty { result ≡ true → (self.new.held.items ≡ []) × (remote_has_broken self.new ≡ false) }
    {
        if self.failed {
            return false;
        }
        match send(&mut self.writer, self.held.as_slice()) {
            Ok(()) => {
                self.held.clear();
                true
            }
            Err(_) => {
                self.failed = true;
                false
            }
        }
    }

    // Makes room for `len` characters, and returns whether there is room.
    fn make_room(&mut self, len: usize) -> bool
        requires { len ≤ 16 }
        ensures keeps { RemoteLengthens W.contents [] self.old self.new }
        ensures room { result ≡ true → (length self.new.held.items + len ≤ 4096)
            × (remote_has_broken self.new ≡ false) }
        ensures broken { result ≡ false → remote_has_broken self.new ≡ true }
    {
        if self.failed {
            return false;
        }
        if self.held.remaining_capacity() >= len {
            return true;
        }
        self.flush()
    }

    /// Appends these characters.
    pub(crate) fn put(&mut self, piece: &[u8])
        requires { length piece.now ≤ 16 }
        ensures { RemoteLengthens W.contents piece.now self.old self.new }
    {
        if self.make_room(piece.len()) {
            match self.held.try_extend_from_slice(piece) {
                Ok(()) => {}
                Err(_) => unreachable!(),
            }
        }
    }
}
