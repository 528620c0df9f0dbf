//! A simulated target, clock by clock.
ghost use Rattle.swd_port.specs.PlainBus.{bus_of};
ghost use Rattle.std.specs.Prelude.{◌≡◌, ◌<◌, ◌^◌, ◌+◌, is_some, true, false};
ghost use Rattle.swd_port.specs.Made.{port_made_target};
ghost use Rattle.swd_target.specs.Simulations.{simulation_made_with};
ghost use Rattle.swd_clocked.specs.Frames.{frame_bits, frame_place, frame_limit, idle_frame, cycles_counted};
ghost use Rattle.swd_clocked.specs.Frames.{contended_cycle, reply_cycle_bit, unswitched_frame};

use crate::fields::FrameFields;
use crate::frame::Frame;
use std::alloc::Allocator;
use std::fmt::{self, Debug, Formatter};
use swd_bits::{Request, SWITCH};
use swd_port::{AfterAck, Count, Mark, Register, Reply};
use swd_target::port::Target;
use swd_target::{Device, Memory, Quirks};

/// A simulated target, clock by clock: the target of `swd_target::Bench`, without marks.
///
/// Each cycle has one bit on the line. `docs/PROTOCOL.md`, 'The clocked target', defines the bits. The target takes any
/// sequence of cycles.
///
/// ```ignore
/// let mut target = Clocked::new(device, quirks);
/// for _ in 0..50 {
///     target.cycle(Some(true)); // a line reset
/// }
/// target.cycle(Some(false));
/// // then DPIDR's request, bit by bit, and the acknowledgement with None
/// ```
#[derive(Drop)]
pub struct Clocked<D> {
    pub(crate) target: Target<D>,
    pub(crate) frame: Frame,
    pub(crate) waits: bool,
    pub(crate) cycles: u64,
    // The count of cycles that the host drove where it should release the line, for contracts alone.
    pub(crate) contended: Count,
    ghost bits: { frame_bits frame < 2 ^ 33 },
    ghost place: { frame_place frame < frame_limit frame },
    ghost counts: { cycles < 2 ^ 64 },
}

/// Writes the target, and the state of its wire as integers, which [`Clocked::fields`] returns.
impl<D: Debug> Debug for Clocked<D> {
    fn fmt<W: fmt::Write>(&self, f: &mut Formatter<W>) -> fmt::Result {
        f.debug_struct("Clocked")
            .field("target", &self.target)
            .field("frame", &FrameFields::of(self.frame))
            .field("waits", &self.waits)
            .field("cycles", &self.cycles)
            .finish()
    }
}

impl<D: Device> Clocked<D> {
    ghost use Rattle.swd_clocked.specs.Clocks.{clocked_state, clocked_simulation, clocked_frame, is_clocked_wait_held};
    ghost use Rattle.swd_clocked.specs.Clocks.{clocked_cycles, clocked_contended, CountsNoCycle, clocked_device};
    ghost use Rattle.swd_clocked.specs.Clocks.{clocked_quirks, ClocksOneCycle, ClockedHoldsWait, ClockedSettles};
    ghost use Rattle.swd_clocked.specs.Cycles.{FrameMoved, ClockedRequested, ClockedByteCame, AsksCycle, LostCycle};
    ghost use Rattle.swd_clocked.specs.Cycles.{HeardCycle, ClockedDataCame, Cycles, AwaitsCycle, DrivesCycle};
    ghost use Rattle.swd_clocked.specs.Cycles.{ReplyCycle, SwitchCycle};
    ghost use Rattle.swd_clocked.specs.Clocks.{ClockedGivesUp};

    /// Creates a target before its first line reset, with this device behind its access port. WAIT isn't held, and
    /// DPIDR reads 2ba01477.
    pub fn new(device: D, quirks: Quirks) -> Clocked<D>
        ensures state { clocked_state D.bus result ≡ port_made_target 0x2ba0_1477 (D.bus device) }
        ensures exact { clocked_simulation D.bus result ≡ simulation_made_with quirks (D.bus device) }
        ensures device { clocked_device result ≡ device }
        ensures frame { clocked_frame result ≡ idle_frame }
        ensures held { is_clocked_wait_held result ≡ false }
        ensures cycles { clocked_cycles result ≡ 0 }
        ensures contended { clocked_contended result ≡ 0 }
    {
        Clocked {
            target: Target::new(device, quirks),
            frame: Frame::IDLE,
            waits: false,
            cycles: 0,
            contended: Count::new(),
        }
    }

    /// Makes the target busy, or not. While busy it answers WAIT instead of OK to each request that may get WAIT. A
    /// read of CTRL/STAT then finds power-up not acknowledged, unless it was read as acknowledged before.
    pub fn hold(&mut self, wait: bool)
        ensures holds { ClockedHoldsWait wait self.old self.new }
        ensures cycles { clocked_cycles self.new ≡ clocked_cycles self.old }
        ensures contended { clocked_contended self.new ≡ clocked_contended self.old }
        ensures quirks { clocked_quirks self.new ≡ clocked_quirks self.old }
    {
        self.waits = wait;
    }

    /// Completes the pending DRW transfer, if any. Without the quirk `late` no transfer is ever pending.
    pub fn settle(&mut self)
        ensures settles { ClockedSettles D.bus self.old self.new }
        ensures cycles { clocked_cycles self.new ≡ clocked_cycles self.old }
        ensures contended { clocked_contended self.new ≡ clocked_contended self.old }
        ensures quirks { clocked_quirks self.new ≡ clocked_quirks self.old }
    {
        self.target.complete();
    }

    // Gives up the pending write, if this request can't wait for it and the target sees it under this mark. Returns
    // whether it did.
    pub(crate) fn give_up_before(&mut self, mark: Mark, request: Request) -> bool
        ensures gives { ClockedGivesUp D.bus mark request result self.old self.new }
    {
        self.target.give_up_before(mark, request)
    }

    /// Returns the device behind the access port.
    pub fn device(&self) -> &D
        ensures { result.now ≡ clocked_device self.now }
    {
        self.target.device()
    }

    /// Consumes the target, and returns the device behind the access port.
    pub fn into_device(self) -> D
        ensures { result ≡ clocked_device self }
    {
        self.target.into_device()
    }

    /// Performs one clock with the bit that the host drives, if any. Returns the bit on the line: the target's where it
    /// drives, else the host's, and 1 where nobody drives.
    pub fn cycle(&mut self, drive: Option<bool>) -> bool
        ensures clocks { ClocksOneCycle D.bus drive result self.old self.new }
        ensures cycles { clocked_cycles self.new ≡ cycles_counted 1 (clocked_cycles self.old) }
        ensures contended { clocked_contended self.new ≡ clocked_contended self.old
            + contended_cycle (clocked_frame self.old) (is_some drive) }
        ensures quirks { clocked_quirks self.new ≡ clocked_quirks self.old }
        ensures quiet { (clocked_quirks self.old).late ≡ true → (clocked_state D.bus self.old).pending ≡ None
            → clocked_device self.new ≡ clocked_device self.old }
    {
        self.clock(drive.unwrap_or(true), drive.is_some())
    }

    // Performs one clock with the bit that the line has where the target doesn't drive. `driven`: the host drives it.
    #[inline(always)]
    pub(crate) fn clock(&mut self, bit: bool, driven: bool) -> bool
        ensures clocks { Cycles D.bus self.old.frame bit result self.old.target self.old.waits self.new }
        ensures cycles { clocked_cycles self.new ≡ cycles_counted 1 (clocked_cycles self.old) }
        ensures contended { clocked_contended self.new ≡ clocked_contended self.old
            + contended_cycle (clocked_frame self.old) driven }
        ensures quirks { clocked_quirks self.new ≡ clocked_quirks self.old }
        ensures quiet { (clocked_quirks self.old).late ≡ true → (clocked_state D.bus self.old).pending ≡ None
            → clocked_device self.new ≡ clocked_device self.old }
    {
        self.cycles = self.cycles.saturating_add(1);
        self.frame.note(&mut self.contended, driven);
        match self.frame {
            Frame::Asks { bits, count } => {
                self.ask_bit(bits, count, bit);
                bit
            }
            Frame::Lost { ones } => {
                self.lost_bit(ones, bit);
                bit
            }
            Frame::High => {
                if !bit {
                    self.frame = Frame::Switches { place: 1 };
                }
                bit
            }
            Frame::Switches { place } => {
                self.switch_bit(place, bit);
                bit
            }
            Frame::Replies { reply, line, place } => self.reply_bit(reply, line, place, bit),
            Frame::Drives { bits, left } => self.drive_bit(bits, left, bit),
            Frame::Awaits {
                register,
                bits,
                place,
            } => {
                self.await_bit(register, bits, place, bit);
                bit
            }
            Frame::Passes => {
                self.frame = Frame::IDLE;
                bit
            }
        }
    }

    // Counts a cycle that doesn't reach the target, which is between transactions after it.
    pub(crate) fn miss(&mut self, driven: bool)
        ensures moved { FrameMoved idle_frame self.old.target self.old.waits self.new }
        ensures cycles { self.new.cycles ≡ cycles_counted 1 self.old.cycles }
        ensures contended { clocked_contended self.new ≡ clocked_contended self.old
            + contended_cycle (clocked_frame self.old) driven }
    {
        self.cycles = self.cycles.saturating_add(1);
        self.frame.note(&mut self.contended, driven);
        self.frame = Frame::IDLE;
    }

    fn ask_bit(&mut self, bits: u8, count: u8, bit: bool)
        requires { count < 8 }
        ensures asks { AsksCycle D.bus bits count bit self.old.target self.old.waits self.new }
        ensures clocks { CountsNoCycle self.old self.new }
        ensures quirks { clocked_quirks self.new ≡ clocked_quirks self.old }
        ensures quiet { (clocked_quirks self.old).late ≡ true → (clocked_state D.bus self.old).pending ≡ None
            → clocked_device self.new ≡ clocked_device self.old }
    {
        if count == 0 && !bit {
            self.frame = Frame::IDLE;
            return;
        }
        let bits = bits / 2 + u8::from(bit) * 128;
        if count == 7 {
            self.byte(bits);
        } else {
            self.frame = Frame::Asks {
                bits,
                count: count + 1,
            };
        }
    }

    // Takes eight bits that begin with Start.
    #[inline(never)]
    fn byte(&mut self, bits: u8)
        ensures came { ClockedByteCame D.bus bits self.old.target self.old.waits self.new }
        ensures clocks { CountsNoCycle self.old self.new }
        ensures quirks { clocked_quirks self.new ≡ clocked_quirks self.old }
        ensures quiet { (clocked_quirks self.old).late ≡ true → (clocked_state D.bus self.old).pending ≡ None
            → clocked_device self.new ≡ clocked_device self.old }
    {
        match Request::of(bits) {
            Some(request) => self.request(request),
            None => {
                self.frame = Frame::Lost {
                    ones: bits.leading_ones() as u8,
                }
            }
        }
    }

    fn request(&mut self, request: Request)
        ensures requested { ClockedRequested D.bus request self.old.target self.old.waits self.new }
        ensures clocks { CountsNoCycle self.old self.new }
        ensures quirks { clocked_quirks self.new ≡ clocked_quirks self.old }
        ensures quiet { (clocked_quirks self.old).late ≡ true → (clocked_state D.bus self.old).pending ≡ None
            → clocked_device self.new ≡ clocked_device self.old }
    {
        let (reply, phase) = self.target.request(self.waits, request);
        self.frame = Frame::replied(reply, phase);
    }

    #[inline(never)]
    fn lost_bit(&mut self, ones: u8, bit: bool)
        requires { ones < 50 }
        ensures hears { LostCycle D.bus ones bit self.old.target self.old.waits self.new }
        ensures clocks { CountsNoCycle self.old self.new }
        ensures quirks { clocked_quirks self.new ≡ clocked_quirks self.old }
        ensures quiet { (clocked_quirks self.old).late ≡ true → (clocked_state D.bus self.old).pending ≡ None
            → clocked_device self.new ≡ clocked_device self.old }
    {
        if !bit {
            self.frame = Frame::Lost { ones: 0 };
        } else if ones < 49 {
            self.frame = Frame::Lost { ones: ones + 1 };
        } else {
            self.target.line_reset(false);
            self.frame = Frame::High;
        }
    }

    #[inline(never)]
    fn switch_bit(&mut self, place: u8, bit: bool)
        requires { place < 16 }
        ensures switches { SwitchCycle D.bus place bit self.old.target self.old.waits self.new }
        ensures clocks { CountsNoCycle self.old self.new }
        ensures quirks { clocked_quirks self.new ≡ clocked_quirks self.old }
        ensures quiet { (clocked_quirks self.old).late ≡ true → (clocked_state D.bus self.old).pending ≡ None
            → clocked_device self.new ≡ clocked_device self.old }
    {
        if bit == (SWITCH >> place & 1 == 1) {
            self.frame = if place == 15 {
                Frame::Lost { ones: 0 }
            } else {
                Frame::Switches { place: place + 1 }
            };
        } else {
            self.other_bit(place, bit);
        }
    }

    // Takes a bit that shows that the bits since the ones are no switch.
    fn other_bit(&mut self, place: u8, bit: bool)
        requires { place < 16 }
        ensures hears { HeardCycle D.bus (unswitched_frame place) bit self.old.target self.old.waits self.new }
        ensures clocks { CountsNoCycle self.old self.new }
        ensures quirks { clocked_quirks self.new ≡ clocked_quirks self.old }
        ensures quiet { (clocked_quirks self.old).late ≡ true → (clocked_state D.bus self.old).pending ≡ None
            → clocked_device self.new ≡ clocked_device self.old }
    {
        match Frame::unswitched(place) {
            Frame::Asks { bits, count } => self.ask_bit(bits, count, bit),
            Frame::Lost { ones } => self.lost_bit(ones, bit),
            _ => {}
        }
    }

    #[inline(always)]
    fn reply_bit(&mut self, reply: Reply, line: AfterAck, place: u8, bit: bool) -> bool
        requires frame { self.old.frame ≡ Frame.Replies reply line place }
        requires place { place < 4 }
        ensures replies { ReplyCycle reply line place bit result self.old.target self.old.waits self.new }
        ensures clocks { CountsNoCycle self.old self.new }
        ensures quirks { clocked_quirks self.new ≡ clocked_quirks self.old }
        ensures quiet { (clocked_quirks self.old).late ≡ true → (clocked_state D.bus self.old).pending ≡ None
            → clocked_device self.new ≡ clocked_device self.old }
    {
        self.frame = if place == 3 {
            Frame::after_reply(line)
        } else {
            Frame::Replies {
                reply,
                line,
                place: place + 1,
            }
        };
        if place == 0 {
            bit
        } else {
            is_driving(reply, place)
        }
    }

    #[inline(always)]
    fn drive_bit(&mut self, bits: u64, left: u8, bit: bool) -> bool
        requires bits { bits < 2 ^ 33 }
        requires left { left < 34 }
        ensures drives { DrivesCycle bits left bit result self.old.target self.old.waits self.new }
        ensures clocks { CountsNoCycle self.old self.new }
        ensures quirks { clocked_quirks self.new ≡ clocked_quirks self.old }
        ensures quiet { (clocked_quirks self.old).late ≡ true → (clocked_state D.bus self.old).pending ≡ None
            → clocked_device self.new ≡ clocked_device self.old }
    {
        if left == 0 {
            self.frame = Frame::IDLE;
            return bit;
        }
        self.frame = Frame::Drives {
            bits: bits / 2,
            left: left - 1,
        };
        bits % 2 == 1
    }

    #[inline(always)]
    fn await_bit(&mut self, register: Register, bits: u64, place: u8, bit: bool)
        requires bits { bits < 2 ^ 33 }
        requires place { place < 34 }
        ensures awaits { AwaitsCycle D.bus register bits place bit self.old.target self.old.waits self.new }
        ensures clocks { CountsNoCycle self.old self.new }
        ensures quirks { clocked_quirks self.new ≡ clocked_quirks self.old }
        ensures quiet { (clocked_quirks self.old).late ≡ true → (clocked_state D.bus self.old).pending ≡ None
            → clocked_device self.new ≡ clocked_device self.old }
    {
        if place == 0 {
            self.frame = Frame::Awaits {
                register,
                bits,
                place: 1,
            };
            return;
        }
        let bits = bits / 2 + u64::from(bit) * 0x1_0000_0000;
        if place < 33 {
            self.frame = Frame::Awaits {
                register,
                bits,
                place: place + 1,
            };
            return;
        }
        self.arrive(register, bits);
    }

    // Takes the 33 bits of a write.
    #[inline(never)]
    fn arrive(&mut self, register: Register, bits: u64)
        requires { bits < 2 ^ 33 }
        ensures came { ClockedDataCame D.bus register bits self.old.target self.old.waits self.new }
        ensures clocks { CountsNoCycle self.old self.new }
        ensures quirks { clocked_quirks self.new ≡ clocked_quirks self.old }
        ensures quiet { (clocked_quirks self.old).late ≡ true → (clocked_state D.bus self.old).pending ≡ None
            → clocked_device self.new ≡ clocked_device self.old }
    {
        self.frame = Frame::IDLE;
        self.target.arrive(register, bits);
    }
}

impl<M: Allocator> Clocked<Memory<M>> {
    ghost use Rattle.swd_clocked.specs.Clocks.{clocked_state};

    /// Returns the memory behind the access port.
    pub fn memory(&self) -> &Memory<M>
        ensures { (clocked_state bus_of self.now).memory ≡ bus_of result.now }
    {
        self.device()
    }
}

// Returns whether this cycle of a reply is driven high; cycle 0 is the turnaround.
fn is_driving(reply: Reply, place: u8) -> bool
    ensures { result ≡ reply_cycle_bit reply place }
{
    match place {
        1 => matches!(&reply, Reply::Okay),
        2 => matches!(&reply, Reply::Waits),
        _ => matches!(&reply, Reply::Faults),
    }
}
