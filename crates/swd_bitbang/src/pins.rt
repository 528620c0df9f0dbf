//! The two pins of a serial wire, as a host's characters move them.
ghost use Rattle.std.specs.Prelude.{◌≡◌, true, false, Some, None};
ghost use Rattle.swd_sequences.specs.declared.character.Character.TheVariants.{Moves};
ghost use Rattle.swd_sequences.specs.Alphabet.{alphabet_character};

use crate::trace::Trace;
use std::alloc::{Allocator, Global};
use swd_clocked::FaultyClocked;
use swd_sequences::Character;
use swd_target::Device;

/// The result of a character.
#[derive(Clone, Copy, Debug, PartialEq, Eq)]
pub enum PinReply {
    /// Nothing is returned.
    Silent,
    /// The level of SWDIO, to be returned to the host.
    Level(bool),
    /// The host is done.
    Quit,
    /// The byte isn't one of the protocol's characters for serial wire.
    Bad,
}

/// A host's pins SWCLK and SWDIO, and the target that they are connected to.
///
/// A clock is a falling and a rising edge of SWCLK. If the host releases SWDIO, the first sample in a clock
/// makes the cycle. The level then stays for further samples up to the next falling edge. Otherwise the
/// rising edge makes the cycle. If the host drives SWDIO, a sample returns the host's own level and makes no
/// cycle.
///
/// ```ignore
/// let target = FaultyClocked::new(device, quirks, plan);
/// let mut pins = Pins::new(target, Trace::none(alloc));
/// pins.take(b'e'); // SWCLK low, SWDIO 1
/// pins.take(b'g'); // SWCLK high: one cycle with a 1
/// ```
#[derive(Debug, Drop)]
pub struct Pins<D, A: Allocator = Global> {
    target: FaultyClocked<D, A>,
    clock: bool,
    level: bool,
    drives: bool,
    // The bit of this clock, if its cycle was made.
    seen: Option<bool>,
    trace: Trace<A>,
}

impl<D: Device, A: Allocator> Pins<D, A> {
    ghost use Rattle.swd_bitbang.specs.Steps.{pins_fallen, pins_driven, PinsStep, PinsShow, PinsSeenBy};
    ghost use Rattle.swd_bitbang.specs.Lines.{ArePinsBetweenClocks, PinsClock};
    ghost use Rattle.swd_bitbang.specs.Watching.{PinsReach};

    /// Returns the pins of a host that drives SWDIO high, with SWCLK low and no edge yet. The bits are kept
    /// in this trace.
    pub fn new(target: FaultyClocked<D, A>, trace: Trace<A>) -> Pins<D, A>
        ensures target { result.target ≡ target }
        ensures trace { result.trace ≡ trace }
        ensures clock { result.clock ≡ false }
        ensures level { result.level ≡ true }
        ensures drives { result.drives ≡ true }
        ensures seen { result.seen ≡ None }
    {
        Pins {
            target,
            clock: false,
            level: true,
            drives: true,
            seen: None,
            trace,
        }
    }

    /// Returns the target.
    pub fn target(&self) -> &FaultyClocked<D, A>
        ensures { result.now ≡ self.now.target }
    {
        &self.target
    }

    /// Returns the trace.
    pub fn trace(&self) -> &Trace<A>
        ensures { result.now ≡ self.now.trace }
    {
        &self.trace
    }

    /// Returns the target and the trace.
    pub fn into_parts(self) -> (FaultyClocked<D, A>, Trace<A>)
        ensures target { result.0 ≡ self.target }
        ensures trace { result.1 ≡ self.trace }
    {
        (self.target, self.trace)
    }

    /// Takes one character of the host.
    pub fn take(&mut self, byte: u8) -> PinReply
        ensures { PinsStep D.bus (alphabet_character byte) self.old result self.new }
    {
        let Some(character) = Character::of(byte) else {
            return PinReply::Bad;
        };
        match character {
            Character::Moves(false, level) => self.fall(level),
            Character::Moves(true, level) => self.rise(level),
            Character::Looks => return PinReply::Level(self.look()),
            Character::Drives(drives) => self.drives = drives,
            Character::Lights(_) | Character::Resets(..) | Character::Waits(_) => {}
            Character::Quits => return PinReply::Quit,
        }
        PinReply::Silent
    }

    /// Makes one clock, as a host's characters do. Between a fall and a rise of SWCLK, SWDIO has this level, or the
    /// host releases it. Returns the bit on the line. The pins have to be between two clocks, as at first and after
    /// each clock; otherwise it is the last cycle's bit, and no cycle is made.
    pub fn clock(&mut self, drive: Option<bool>) -> bool
        ensures made { ArePinsBetweenClocks self.old → PinsClock D.bus drive result self.old self.new }
        ensures reached { PinsReach D.bus self.old self.new }
    {
        let drives = drive.is_some();
        let level = drive.unwrap_or(false);
        self.drives = drives;
        self.fall(level);
        let bit = self.bit();
        self.clock = true;
        bit
    }

    fn fall(&mut self, level: bool)
        ensures { self.new ≡ pins_fallen level self.old }
    {
        self.level = level;
        if self.clock {
            self.clock = false;
            self.seen = None;
        }
    }

    fn rise(&mut self, level: bool)
        ensures { PinsStep D.bus (Some (Moves true level)) self.old PinReply.Silent self.new }
    {
        self.level = level;
        self.clock = true;
        let _ = self.bit();
    }

    fn look(&mut self) -> bool
        ensures { PinsSeenBy D.bus self.old.drives result self.old self.new }
    {
        if self.drives { self.level } else { self.bit() }
    }

    // Returns the bit of this clock. Makes the cycle if it wasn't made yet.
    fn bit(&mut self) -> bool
        ensures { PinsShow D.bus result self.old self.new }
    {
        if let Some(bit) = self.seen {
            return bit;
        }
        let drive = self.driven();
        let bit = self.target.cycle(drive);
        self.seen = Some(bit);
        self.trace.keep(bit);
        bit
    }

    // Returns what the host drives.
    fn driven(&self) -> Option<bool>
        ensures { result ≡ pins_driven self.now }
    {
        if self.drives { Some(self.level) } else { None }
    }
}
