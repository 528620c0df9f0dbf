//! Serves a host: reads what it sends, and writes what is returned.
ghost use Rattle.std.specs.Prelude.{◌≡◌, ℕ, List, Option, [], ◌∷◌, ◌++◌, OnOk, IfErr};
ghost use Rattle.swd_io.specs.Blocks.{BlockQueues};
ghost use Rattle.swd_io.specs.Pieces.{LeadsConsumerOn, LeadsConsumerToEnd};
ghost use Rattle.swd_io.proofs.PieceLemmas.{consumer_reads_no_byte, consumer_pieces_join, consumer_pieces_fault};
ghost use Rattle.swd_bitbang.specs.Protocols.{ProtocolServes};
ghost use Rattle.swd_bitbang.specs.Sessions.{BitbangServes, IsBitbangEnd, PinsAnswer, bitbang_answer_to_sign};
ghost use Rattle.swd_bitbang.specs.Serving.{ServingBegin, ServingTaken, ServingHasTaken, ServingStopsIn};
ghost use Rattle.swd_bitbang.specs.Serving.{ServingEnds, bitbang_end_of_sign};
ghost use Rattle.swd_bitbang.specs.Watching.{PinsLeadOnWatched, PinsLeadToEndWatched, PinsReach, pins_watched};
ghost use Rattle.swd_bitbang.specs.Watching.{bitbang_answer_reaches};

use crate::pins::{PinReply, Pins};
use crate::protocol::Protocol;
use crate::watch::{Unwatched, Watch};
use std::alloc::Allocator;
use std::io::{Read, Write};
use std::marker::PhantomData;
use swd_io::{Block, Consumer, read_pieces};
use swd_sequences::level_byte;
use swd_target::Device;

/// The way in which a session ended.
#[derive(Clone, Copy, Debug, PartialEq, Eq, Drop)]
pub enum Served {
    /// The host sent `Q` of remote_bitbang: it is done.
    Quit,
    /// The input ended.
    Ended,
    /// A byte that the protocol doesn't have there, and its position. The first position is 0; 2^64 - 1 stands for all
    /// later ones, too.
    Bad { place: u64, byte: u8 },
    /// The reader failed, or didn't end within 2^64 - 1 reads.
    Read,
    /// The writer failed after this number of bytes, at most 2^64 - 1.
    Write { written: u64 },
}

// A protocol's state, the counts of the session, and its watch.
#[derive(Drop)]
struct Server<D, A: Allocator, P, V> {
    protocol: P,
    // The number of bytes taken, at most 2^64 - 1.
    place: u64,
    // The number of bytes written, at most 2^64 - 1.
    written: u64,
    watch: V,
    pins: PhantomData<(D, A)>,
}

// Returns how a sign ends a session, at this byte and its position.
fn end_at(sign: PinReply, place: u64, byte: u8) -> Option<Served>
    ensures { result ≡ bitbang_end_of_sign sign place byte }
{
    match sign {
        PinReply::Silent | PinReply::Level(_) => None,
        PinReply::Quit => Some(Served::Quit),
        PinReply::Bad => Some(Served::Bad { place, byte }),
    }
}

// Also queues the answer to a sign, if it has one.
fn put_answer<W: Write>(block: &mut Block<'_, W>, sign: PinReply)
    ensures sends { BlockQueues W.contents (bitbang_answer_to_sign sign) block.old block.new }
    ensures writer { block.new.writer.ghost_name ≡ block.old.writer.ghost_name }
{
    match sign {
        PinReply::Level(level) => block.put(&[level_byte(level)]),
        _ => block.put(b""),
    }
}

/// The characters of remote_bitbang.
impl<D: Device, A: Allocator> Protocol<D, A> for Pins<D, A> {
    ghost pins_of = { λ pins. pins };

    ghost step = { PinsAnswer D.bus };

    ghost end = { IsBitbangEnd };

    fn pins(&self) -> &Pins<D, A> {
        self
    }

    fn answer<W: Write>(
        &mut self,
        block: &mut Block<'_, W>,
        byte: u8,
        place: u64,
    ) -> Result<(), Served> {
        let sign = self.take(byte);
        if let Some(served) = end_at(sign, place, byte) {
            return Err(served);
        }
        put_answer(block, sign);
        Ok(())
    }

    ghost reaches = { bitbang_answer_reaches D.bus };
}

impl<D: Device, A: Allocator, P: Protocol<D, A>, V> Server<D, A, P, V> {
    // Takes a byte, or returns how it ends the session.
    fn byte<W: Write>(&mut self, block: &mut Block<'_, W>, byte: u8) -> Result<(), Served>
        ensures writer { block.new.writer.ghost_name ≡ block.old.writer.ghost_name }
        ensures written { self.new.written ≡ self.old.written }
        ensures watch { self.new.watch ≡ self.old.watch }
        ensures goes { PinsReach D.bus (P.pins_of self.old.protocol) (P.pins_of self.new.protocol) }
        ensures ok { OnOk result ((begin : ServingBegin P) (seen : List ℕ)
            → ServingTaken P.step W.contents begin self.old block.old seen
            → ServingTaken P.step W.contents begin self.new block.new (seen ++ byte ∷ [])) }
        ensures err { IfErr result (λ served. (begin : ServingBegin P) (seen : List ℕ)
            → ServingTaken P.step W.contents begin self.old block.old seen
            → ServingStopsIn P.step P.end W.contents begin self.new block.new served (seen ++ byte ∷ [])) }
    {
        if let Err(served) = self.protocol.answer(block, byte, self.place) {
            return Err(served);
        }
        self.place = self.place.saturating_add(1);
        Ok(())
    }

    // Takes the bytes of a piece, up to one that ends the session.
    fn bytes<W: Write>(&mut self, block: &mut Block<'_, W>, piece: &[u8]) -> Result<(), Served>
        ensures writer { block.new.writer.ghost_name ≡ block.old.writer.ghost_name }
        ensures written { self.new.written ≡ self.old.written }
        ensures watch { self.new.watch ≡ self.old.watch }
        ensures goes { PinsReach D.bus (P.pins_of self.old.protocol) (P.pins_of self.new.protocol) }
        ensures ok { OnOk result ((begin : ServingBegin P) (seen : List ℕ)
            → ServingTaken P.step W.contents begin self.old block.old seen
            → ServingTaken P.step W.contents begin self.new block.new (seen ++ piece.now)) }
        ensures err { IfErr result (λ served. (begin : ServingBegin P) (seen : List ℕ)
            → ServingTaken P.step W.contents begin self.old block.old seen
            → ServingStopsIn P.step P.end W.contents begin self.new block.new served (seen ++ piece.now)) }
    {
        for byte in piece {
            if let Err(served) = self.byte(block, *byte) {
                return Err(served);
            }
        }
        Ok(())
    }
}

impl<D: Device, A: Allocator, P: Protocol<D, A>, W: Write, V: Watch<D, A>> Consumer<W>
    for Server<D, A, P, V> {
    type Fault = Served;

    ghost can_take = { λ _. Unit {0} };

    ghost takes = { PinsLeadOnWatched P.pins_of V.follows (LeadsConsumerOn (ServingHasTaken P.step W.contents)) };

    ghost stops = { PinsLeadToEndWatched P.pins_of V.follows
        (LeadsConsumerToEnd (ServingHasTaken P.step W.contents) (ServingEnds P.step P.end W.contents)) };

    // Shows the watch the pins after a piece, and writes what is returned, before more is read.
    fn take(&mut self, writer: &mut W, piece: &[u8]) -> Result<(), Served> {
        let mut block = Block::new(writer, self.written);
        let taken = self.bytes(&mut block, piece);
        self.watch.see(self.protocol.pins());
        match block.flush() {
            Ok(written) => self.written = written,
            Err(written) => return Err(Served::Write { written }),
        }
        match taken {
            Ok(()) => Ok(()),
            Err(served) => Err(served),
        }
    }

    ghost takes_nothing = { λ a. record {
      leads_on = consumer_reads_no_byte (ServingHasTaken P.step W.contents) a;
      followed = V.stays (pins_watched P.pins_of a);
    } };

    ghost takes_on = { λ a b c first next f g. record {
      leads_on = consumer_pieces_join (ServingHasTaken P.step W.contents) a b c first next f.leads_on g.leads_on;
      followed = V.goes_on (pins_watched P.pins_of a) (pins_watched P.pins_of b) (pins_watched P.pins_of c)
          f.followed g.followed;
    } };

    ghost stops_later = { λ a b c first next fault f g. record {
      leads_to_end = consumer_pieces_fault (ServingHasTaken P.step W.contents) (ServingEnds P.step P.end W.contents)
          a b c first next fault f.leads_on g.leads_to_end;
      followed = V.goes_on (pins_watched P.pins_of a) (pins_watched P.pins_of b) (pins_watched P.pins_of c)
          f.followed g.followed;
    } };
}

/// Serves a host of remote_bitbang at these pins until the host is done, sends a byte that isn't one of the protocol's
/// characters, or its input ends. Returns how the session ended, and the pins. Nothing is retried.
///
/// The answers to the characters read so far are written before the next read, so a host that waits for an
/// answer gets it.
///
/// At `Quit`, `Ended`, `Bad` and `Read` exactly the levels that the host asked for were written. At `Write`
/// exactly the first `written` of them were.
pub fn serve<R: Read, W: Write, D: Device, A: Allocator>(
    reader: &mut R,
    writer: &mut W,
    pins: Pins<D, A>,
) -> (Served, Pins<D, A>)
    ensures { BitbangServes D.bus result.0 (R.remaining reader.old) (R.remaining reader.new)
        (W.contents writer.old) (W.contents writer.new) pins result.1 }
{
    let (served, pins, _) = serve_watched(reader, writer, pins, Unwatched);
    (served, pins)
}

/// Serves a host by any protocol, as [`serve`] does. After each piece of input, and before the next read, the watch is
/// shown the pins: once all bytes of the piece were taken, or those before one that ends the session, and before the
/// last of what they return is written. Returns how the session ended, the protocol's state with the pins that the
/// watch was shown last, and the watch.
pub fn serve_watched<R: Read, W: Write, D: Device, A: Allocator, P: Protocol<D, A>, V: Watch<D, A>>(
    reader: &mut R,
    writer: &mut W,
    protocol: P,
    watch: V,
) -> (Served, P, V)
    ensures session { ProtocolServes P.step P.end result.0 (R.remaining reader.old) (R.remaining reader.new)
        (W.contents writer.old) (W.contents writer.new) protocol result.1 }
    ensures watched { V.follows (watch, P.pins_of protocol) (result.2, P.pins_of result.1) }
{
    let mut server = Server {
        protocol,
        place: 0,
        written: 0,
        watch,
        pins: PhantomData,
    };
    let served = match read_pieces(reader, writer, &mut server) {
        Ok(()) => Served::Ended,
        Err(unread) => unread.fault_or(Served::Read),
    };
    let Server {
        protocol,
        watch,
        ..
    } = server;
    (served, protocol, watch)
}
