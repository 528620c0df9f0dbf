//! A client of OpenOCD's remote_bitbang protocol for serial wire.
ghost use Rattle.std.specs.Prelude.{◌≡◌, ◌<◌, ◌≤◌, ◌++◌, ◌∷◌, [], ℕ, List, Option, None, true, length, map, replicate};
ghost use Rattle.std.specs.Io.KnownBytes.{Appends};
ghost use Rattle.swd_bits.specs.Bits.{low_bits};
ghost use Rattle.swd_sequences.specs.Clocks.{sequence_characters, sequence_clocks, sequence_turn};
ghost use Rattle.swd_sequences.specs.Clocks.{sequence_driven_clock, sequence_sampled_clock, sequence_joined};
ghost use Rattle.swd_sequences.specs.Clocks.{sequence_looks, is_driven_sequence};
ghost use Rattle.swd_remote.specs.Ways.{IsOnRemoteWay, RemoteLengthens};

use crate::levels::{MOST, read_levels};
use crate::outgoing::Outgoing;
use crate::probe::Probe;
use std::io::{Read, Write};
use swd_dap::DapFault;
use swd_port::Disconnected;
use swd_sequences::{Character, Sequence};

/// The error that ended a connection.
#[derive(Clone, Copy, Debug, PartialEq, Eq)]
pub enum Fault {
    /// The server closed its end.
    Ended,
    /// The server returned a byte that is neither `0` nor `1`.
    NoLevel(u8),
    /// The reader failed.
    Read,
    /// The writer failed, or took no bytes.
    Write,
    /// More than 64 levels were asked for in one exchange.
    TooMany,
    /// A probe's packets failed, or its reply can't be used.
    Probe(DapFault),
}

/// A connection to a server of OpenOCD's remote_bitbang protocol for serial wire, over a reader and a writer.
/// The server is `swd target` of this program, or moves the pins of a board behind a socket.
///
/// Characters are buffered until an exchange, or until the buffer is full. An exchange reads at most as many
/// bytes as levels were asked for, and exactly as many if it succeeds. Nothing is retried, and after the
/// first error nothing is sent or read.
///
/// ```ignore
/// let remote = Remote::new(rt.stdin(), rt.stdout());
/// let mut wire = TransportWire::<_, Untold>::new(ProbeTransport::new(remote));
/// let report = run_over_transport(alloc, &mut wire, &accesses, 8)?;
/// let mut remote = wire.into_transport().into_probe();
/// let gone = remote.quit().is_err();
/// ```
#[derive(Drop)]
pub struct Remote<R, W> {
    pub(crate) reader: R,
    pub(crate) outgoing: Outgoing<W>,
    // Whether the host drives SWDIO.
    pub(crate) drives: bool,
    // How many levels were asked for since the last exchange.
    pub(crate) asked: usize,
    pub(crate) fault: Option<Fault>,
    ghost few: { asked ≤ 64 },
}

impl<R: Read, W: Write> Remote<R, W> {
    ghost use Rattle.swd_sequences.specs.declared.character.Character.TheVariants.{Drives};
    ghost use Rattle.swd_sequences.specs.Alphabet.{alphabet_byte};
    ghost use Rattle.swd_remote.specs.Remotes.{RemoteQuitsAt};

    /// Returns a connection over which nothing was sent yet. SWCLK is low. The first character, which is buffered, says
    /// that the host drives SWDIO: a server may begin with it released.
    pub fn new(reader: R, writer: W) -> Remote<R, W>
        ensures reader { result.reader ≡ reader }
        ensures out { (start : Option (List ℕ)) (text : List ℕ) → Appends start (W.contents writer) text
            → IsOnRemoteWay W.contents start result.outgoing (text ++ alphabet_byte (Drives true) ∷ []) }
        ensures drives { result.drives ≡ true }
        ensures asked { result.asked ≡ 0 }
        ensures fault { result.fault ≡ None }
    {
        let mut outgoing = Outgoing::new(writer);
        outgoing.put(&[Character::Drives(true).byte()]);
        Remote {
            reader,
            outgoing,
            drives: true,
            asked: 0,
            fault: None,
        }
    }

    /// Sends the buffered characters and `Q`: the host is done.
    ///
    /// # Errors
    ///
    /// `Disconnected` if the connection ended before, or the writer fails now.
    pub fn quit(&mut self) -> Result<(), Disconnected>
        ensures { RemoteQuitsAt self.old.fault W.contents result self.old self.new }
    {
        if self.fault.is_some() {
            return Err(Disconnected);
        }
        self.outgoing.put(&[Character::Quits.byte()]);
        if self.outgoing.flush() {
            Ok(())
        } else {
            self.fault = Some(Fault::Write);
            Err(Disconnected)
        }
    }

    /// Returns the error that ended the connection, if any.
    pub fn fault(&self) -> Option<Fault>
        ensures { result ≡ self.now.fault }
    {
        self.fault
    }

    /// Returns the reader and the writer. Discards characters that are still buffered.
    pub fn into_parts(self) -> (R, W)
        ensures reader { result.0 ≡ self.reader }
        ensures writer { result.1 ≡ self.outgoing.writer }
    {
        let Remote {
            reader,
            outgoing,
            ..
        } = self;
        let Outgoing { writer, .. } = outgoing;
        (reader, writer)
    }
}

impl<R: Read, W: Write> Probe for Remote<R, W> {
    ghost use Rattle.swd_remote.specs.Remotes.{RemoteQueuesAt, RemoteExchangesAt};

    ghost queues = { λ sequence s t. RemoteQueuesAt s.fault W.contents sequence s t };

    ghost exchanges = { λ result s t. RemoteExchangesAt s.fault R.remaining W.contents result s t };

    fn queue(&mut self, sequence: Sequence) {
        if self.fault.is_some() {
            return;
        }
        let asked = self.asked + looks(sequence);
        if asked > MOST {
            self.fault = Some(Fault::TooMany);
            return;
        }
        put_sequence(&mut self.outgoing, self.drives, sequence);
        self.asked = asked;
        self.drives = is_driven(sequence);
    }

    fn exchange(&mut self) -> Result<u64, Disconnected> {
        if self.fault.is_some() {
            return Err(Disconnected);
        }
        if !self.outgoing.flush() {
            self.fault = Some(Fault::Write);
            return Err(Disconnected);
        }
        match read_levels(&mut self.reader, self.asked) {
            Ok(number) => {
                self.asked = 0;
                Ok(number)
            }
            Err(fault) => {
                self.fault = Some(fault);
                Err(Disconnected)
            }
        }
    }
}

// Returns how many levels a sequence asks for.
fn looks(sequence: Sequence) -> usize
    ensures value { result ≡ sequence_looks sequence }
    ensures few { result < 256 }
{
    match sequence {
        Sequence::Sample { count } => usize::from(count),
        _ => 0,
    }
}

// Returns whether the host drives in a sequence.
fn is_driven(sequence: Sequence) -> bool
    ensures { result ≡ is_driven_sequence sequence }
{
    matches!(&sequence, Sequence::Drive { .. } | Sequence::Hold { .. })
}

// Appends the characters of a sequence. `drives` is whether the host drove before it.
fn put_sequence<W: Write>(outgoing: &mut Outgoing<W>, drives: bool, sequence: Sequence)
    ensures { RemoteLengthens W.contents (sequence_characters drives sequence) outgoing.old outgoing.new }
{
    put_turn(outgoing, drives, is_driven(sequence));
    put_clocks(outgoing, sequence);
}

// Appends the character that makes the host drive or release SWDIO, if that changes.
fn put_turn<W: Write>(outgoing: &mut Outgoing<W>, drives: bool, wanted: bool)
    ensures { RemoteLengthens W.contents (sequence_turn drives wanted) outgoing.old outgoing.new }
{
    if drives == wanted {
        outgoing.put(b"");
    } else {
        outgoing.put(&[Character::Drives(wanted).byte()]);
    }
}

// Appends the clocks of a sequence.
fn put_clocks<W: Write>(outgoing: &mut Outgoing<W>, sequence: Sequence)
    ensures { RemoteLengthens W.contents (sequence_clocks sequence) outgoing.old outgoing.new }
{
    match sequence {
        Sequence::Drive { bits, count } => put_bits(outgoing, bits, count),
        Sequence::Hold { level, count } => put_times(outgoing, &driven_clock(level), count),
        Sequence::Release { count } => put_times(outgoing, &driven_clock(false), count),
        Sequence::Sample { count } => put_times(outgoing, &seen_clock(), u32::from(count)),
    }
}

// Returns a clock in which the host drives a bit, or which isn't sampled.
#[inline(always)]
fn driven_clock(bit: bool) -> [u8; 2]
    ensures { result ≡ sequence_driven_clock bit }
{
    [
        Character::Moves(false, bit).byte(),
        Character::Moves(true, bit).byte(),
    ]
}

// Returns a clock whose level is sampled.
#[inline(always)]
fn seen_clock() -> [u8; 3]
    ensures { result ≡ sequence_sampled_clock }
{
    [
        Character::Moves(false, false).byte(),
        Character::Looks.byte(),
        Character::Moves(true, false).byte(),
    ]
}

// Appends clocks in which the host drives the low bits of a number.
fn put_bits<W: Write>(outgoing: &mut Outgoing<W>, bits: u64, count: u8)
    ensures { RemoteLengthens W.contents (sequence_joined (map sequence_driven_clock (low_bits count bits)))
        outgoing.old outgoing.new }
{
    let mut rest = bits;
    for place in 0..count {
        outgoing.put(&driven_clock(rest % 2 == 1));
        rest /= 2;
    }
}

// Appends equal clocks.
fn put_times<W: Write>(outgoing: &mut Outgoing<W>, clock: &[u8], count: u32)
    requires { length clock.now ≤ 16 }
    ensures { RemoteLengthens W.contents (sequence_joined (replicate count clock.now)) outgoing.old outgoing.new }
{
    for place in 0..count {
        outgoing.put(clock);
    }
}
