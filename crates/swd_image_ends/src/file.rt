//! Reads a whole file into memory.
ghost use Rattle.std.specs.Prelude.{◌≤◌, IfErr, IfOk, IfSome, length};
ghost use Rattle.swd_io.specs.Pieces.{IsReaderText, IsUnreadByConsumer};
ghost use Rattle.swd_image_ends.specs.Files.{ImageEndRefusesFile};

use std::alloc::Allocator;
use std::io::Read;
use swd_io::{Consumer, Unread, read_pieces};
use thiserror::Error;

/// The reason why a file wasn't taken.
#[derive(Clone, Copy, Debug, PartialEq, Eq, Error)]
pub enum FileFault {
    /// It has more bytes than allowed.
    #[error("the image extends past ffffffff")]
    TooLong,
    /// Out of memory.
    #[error("no memory")]
    Memory,
}

// The bytes of a file so far.
#[derive(Drop)]
pub struct Bytes<A: Allocator> {
    bytes: Vec<u8, A>,
    // The most bytes that the file may have.
    most: u64,
}

impl<A: Allocator> Consumer<()> for Bytes<A> {
    ghost use Rattle.swd_io.specs.Pieces.{LeadsConsumerOn, LeadsConsumerToEnd};
    ghost use Rattle.swd_io.proofs.PieceLemmas.{consumer_reads_no_byte, consumer_pieces_join, consumer_pieces_fault};
    ghost use Rattle.swd_image_ends.specs.Gathered.{ImageEndReadEndsWith, ImageEndHasRead};

    type Fault = FileFault;

    ghost can_take = { λ _. Unit {0} };

    ghost takes = { LeadsConsumerOn ImageEndHasRead };

    ghost stops = { LeadsConsumerToEnd ImageEndHasRead ImageEndReadEndsWith };

    fn take(&mut self, _writer: &mut (), piece: &[u8]) -> Result<(), FileFault> {
        if self.most.saturating_sub(self.bytes.len() as u64) < piece.len() as u64 {
            return Err(FileFault::TooLong);
        }
        match self.bytes.extend_from_slice(piece) {
            Ok(()) => Ok(()),
            Err(_) => Err(FileFault::Memory),
        }
    }

    ghost takes_nothing = { consumer_reads_no_byte ImageEndHasRead };

    ghost takes_on = { consumer_pieces_join ImageEndHasRead };

    ghost stops_later = { consumer_pieces_fault ImageEndHasRead ImageEndReadEndsWith };
}

/// Reads a file to its end, and returns its bytes, at most `most`. Nothing is retried.
///
/// # Errors
///
/// - `Consumer(TooLong)`: the file has more than `most` bytes. No more is read then.
/// - `Consumer(Memory)`: out of memory.
/// - `Reader`: the reader failed, or didn't end within 2^64 - 1 reads.
pub fn read_file<R: Read, A: Allocator>(
    alloc: A,
    reader: &mut R,
    most: u64,
) -> Result<Vec<u8, A>, Unread<FileFault>>
    ensures bytes { IfOk result (λ bytes. IsReaderText (R.remaining reader.old) bytes.items) }
    ensures few { IfOk result (λ bytes. length bytes.items ≤ most) }
    ensures fault { IfErr result (λ unread. IfSome (R.remaining reader.old)
        (IsUnreadByConsumer (ImageEndRefusesFile most) unread)) }
{
    let mut file = Bytes {
        bytes: Vec::new(alloc),
        most,
    };
    match read_pieces(reader, &mut (), &mut file) {
        Ok(()) => Ok(file.bytes),
        Err(unread) => Err(unread),
    }
}
