//! One transaction, from its trace text to its listing line.
ghost use Rattle.swd_bits.specs.One.{AnswersOneTx, GathersAllTxBits};

use crate::gathered::Gathered;
use crate::tx::Tx;
use std::io::{Read, Write};
use swd_io::{Unread, read_pieces, send};

/// The error of a trace text that isn't listed as one transaction.
#[derive(Clone, Copy, Debug, PartialEq, Eq)]
pub enum OneFault {
    /// The byte at `place`, counted from 0, isn't allowed in a trace text. `place` saturates at 2^64 - 1.
    BadChar { place: u64 },
    /// The bits aren't one whole transaction.
    NotOne,
    /// The reader failed.
    Read,
    /// The writer failed, or accepted no bytes.
    Write,
}

// Gathers the bits of the whole input.
fn gather<R: Read>(reader: &mut R) -> Result<Gathered, OneFault>
    ensures { GathersAllTxBits result (R.remaining reader.old) }
{
    let mut gathered = Gathered::new();
    match read_pieces(reader, &mut (), &mut gathered) {
        Ok(()) => Ok(gathered),
        Err(Unread::Reader) => Err(OneFault::Read),
        Err(Unread::Consumer(place)) => Err(OneFault::BadChar { place }),
    }
}

/// Reads the trace text of one transaction, and writes its listing line and a line feed.
///
/// # Errors
///
/// Returns `BadChar` for the first byte that isn't allowed, `NotOne` if the whole input isn't one transaction, and
/// `Read` or `Write` if I/O fails. On `Write` a proper prefix of the line was written; on any other error nothing was.
/// A failed read or write isn't retried. After 2^64 - 1 reads the error is `Read`.
pub fn one_text<R: Read, W: Write>(reader: &mut R, writer: &mut W) -> Result<(), OneFault>
    ensures { AnswersOneTx result (R.remaining reader.old) (W.contents writer.old) (W.contents writer.new) }
{
    let gathered = gather(reader)?;
    if gathered.long {
        return Err(OneFault::NotOne);
    }
    let Some(tx) = Tx::of(gathered.held) else {
        return Err(OneFault::NotOne);
    };
    let mut line = tx.line();
    line.push_str("\n");
    match send(writer, line.as_str().as_bytes()) {
        Ok(()) => Ok(()),
        Err(_) => Err(OneFault::Write),
    }
}
