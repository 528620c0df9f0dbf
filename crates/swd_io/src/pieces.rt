//! Reads input piece by piece.
ghost use Rattle.std.specs.Prelude.{◌≡◌, ℕ, List, [], ◌++◌, OnOk, IfErr};
ghost use Rattle.swd_io.specs.Pieces.{ConsumerReads, consumer_fault_or};

use std::fmt::Display;
use std::io::Read;
use thiserror::Error;

/// A consumer of input, one piece after another. It may write to a `W`, which is `()` if it writes nothing.
/// It doesn't read by itself, so its clauses say the same however the input is divided into pieces.
pub trait Consumer<W> {
    /// The reason why it stops.
    type Fault;

    // Whether it may be given a piece.
    ghost can_take: { Self → Type 0 };

    // These bytes take it, and what it writes to, from one state to another.
    ghost takes: { Self × W → List ℕ → Self × W → Type 0 };

    // These bytes make it stop with this fault, whatever follows them.
    ghost stops: { Self × W → List ℕ → Self.Fault → Self × W → Type 0 };

    /// Takes a piece.
    ///
    /// # Errors
    ///
    /// The reason why the input is rejected. The consumer takes no more pieces then.
    fn take(&mut self, writer: &mut W, piece: &[u8]) -> Result<(), Self::Fault>
        requires { can_take self.old }
        ensures again { OnOk result (can_take self.new) }
        ensures ok { OnOk result (takes (self.old, writer.old) piece.now (self.new, writer.new)) }
        ensures err { IfErr result (λ fault. stops (self.old, writer.old) piece.now fault (self.new, writer.new)) };

    ghost takes_nothing: { (a : Self × W) → takes a [] a };

    ghost takes_on: { (a b c : Self × W) (first next : List ℕ) → takes a first b → takes b next c
        → takes a (first ++ next) c };

    ghost stops_later: { (a b c : Self × W) (first next : List ℕ) (fault : Self.Fault) → takes a first b
        → stops b next fault c → stops a (first ++ next) fault c };
}

/// The reason why input wasn't read to its end.
#[derive(Clone, Copy, Debug, PartialEq, Eq, Drop, Error)]
#[error_bound(F: Display)]
pub enum Unread<F> {
    /// The reader failed, or didn't end within 2^64 - 1 reads.
    #[error("read failed")]
    Reader,
    /// The consumer stopped.
    #[error("{0}")]
    Consumer(F),
}

impl<F: Drop> Unread<F> {
    /// Returns the consumer's fault, or `reader` if the reader failed.
    pub fn fault_or(self, reader: F) -> F
        ensures { result ≡ consumer_fault_or self reader }
    {
        match self {
            Unread::Reader => reader,
            Unread::Consumer(fault) => fault,
        }
    }
}

// The most bytes that one read takes.
const PIECE: usize = 65536;

/// Reads the input, and passes it to a consumer, up to the end or to the first error. The bytes of each read
/// are passed on before the next read. Nothing is retried.
///
/// # Errors
///
/// - `Reader`: the reader failed, or didn't end within 2^64 - 1 reads.
/// - `Consumer`: the consumer stopped. Nothing more is read then.
pub fn read_pieces<R: Read, W, C: Consumer<W>>(
    reader: &mut R,
    writer: &mut W,
    consumer: &mut C,
) -> Result<(), Unread<C::Fault>>
    requires { C.can_take consumer.old }
    ensures { ConsumerReads C.takes C.stops result (R.remaining reader.old) (R.remaining reader.new)
        (consumer.old, writer.old) (consumer.new, writer.new) }
{
    let mut buffer = [0u8; PIECE];
    for _ in 0..u64::MAX {
        let Ok(count) = reader.read(&mut buffer) else {
            return Err(Unread::Reader);
        };
        if count == 0 {
            return Ok(());
        }
        if let Err(fault) = consumer.take(writer, &buffer[..count]) {
            return Err(Unread::Consumer(fault));
        }
    }
    Err(Unread::Reader)
}
