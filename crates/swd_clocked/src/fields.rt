//! A clocked target as a struct of integers, for callers that store it themselves, such as programs in C.
ghost use Rattle.std.specs.Prelude.{◌≡◌, ◌<◌, ◌^◌, IfSome, IsSome};
ghost use Rattle.swd_port.specs.Moving.{port_bits_driven};
ghost use Rattle.swd_clocked.specs.declared.clocked.Clocked.{Clocked as ClockedType};
ghost use Rattle.swd_clocked.specs.Clocks.{clocked_device, clocked_quirks};
ghost use Rattle.swd_clocked.specs.Fields.{clocked_fields, frame_fields, clocked_line_fields, clocked_line_with};
ghost use Rattle.swd_clocked.specs.Fields.{plain_frame, clocked_register_number, clocked_reply_number};
ghost use Rattle.swd_clocked.specs.Fields.{restored_clocked, restored_frame, restored_clocked_line};
ghost use Rattle.swd_clocked.specs.Fields.{restored_clocked_register, restored_clocked_reply};
ghost use Rattle.swd_clocked.specs.Frames.{frame_bits, frame_limit, frame_place};

use crate::clocked::Clocked;
use crate::frame::Frame;
use swd_port::{AfterAck, Count, Register, Reply};
use swd_target::TargetFields;

/// The state of a clocked target without its device and its IDR, as integers laid out as in C. [`Clocked::fields`]
/// returns it, and [`clocked`](ClockedFields::clocked) restores a target over a device, without an IDR. Any values are
/// safe: `clocked` rejects those of no target, such as zeros.
///
/// `cycles` is the number of cycles so far. The meaning of the other fields is private to this crate.
#[repr(C)]
#[derive(Clone, Copy, Debug, PartialEq, Eq)]
pub struct ClockedFields {
    pub cycles: u64,
    pub frame: FrameFields,
    pub target: TargetFields,
    pub waits: u8,
}

/// The frame of a clocked target, as integers.
#[repr(C)]
#[derive(Clone, Copy, Debug, PartialEq, Eq)]
pub struct FrameFields {
    pub line: LineFields,
    pub kind: u8,
    pub place: u8,
    pub byte: u8,
    pub reply: u8,
}

/// A data phase, as integers.
#[repr(C)]
#[derive(Clone, Copy, Debug, PartialEq, Eq)]
pub struct LineFields {
    pub bits: u64,
    pub kind: u8,
    pub register: u8,
    pub flips: u8,
    pub flip: u8,
}

fn number_of_register(register: Register) -> u8
    ensures { result ≡ clocked_register_number register }
{
    match register {
        Register::DpidrRead => 1,
        Register::AbortWrite => 2,
        Register::CtrlStatRead => 3,
        Register::CtrlStatWrite => 4,
        Register::SelectWrite => 5,
        Register::ResendRead => 6,
        Register::RdbuffRead => 7,
        Register::DpOtherRead => 8,
        Register::DpIgnoredWrite => 9,
        Register::CswRead => 10,
        Register::CswWrite => 11,
        Register::TarRead => 12,
        Register::TarWrite => 13,
        Register::DrwRead => 14,
        Register::DrwWrite => 15,
        Register::ApOtherRead => 16,
        Register::ApOtherWrite => 17,
    }
}

// Here and below, invalid numbers may give any result: `ClockedFields::clocked` rejects a target whose own fields
// differ.
fn register_with(number: u8) -> Register
    ensures { clocked_register_number result ≡ restored_clocked_register number }
{
    match number {
        1 => Register::DpidrRead,
        2 => Register::AbortWrite,
        3 => Register::CtrlStatRead,
        4 => Register::CtrlStatWrite,
        5 => Register::SelectWrite,
        6 => Register::ResendRead,
        7 => Register::RdbuffRead,
        8 => Register::DpOtherRead,
        9 => Register::DpIgnoredWrite,
        10 => Register::CswRead,
        11 => Register::CswWrite,
        12 => Register::TarRead,
        13 => Register::TarWrite,
        14 => Register::DrwRead,
        15 => Register::DrwWrite,
        16 => Register::ApOtherRead,
        _ => Register::ApOtherWrite,
    }
}

fn number_of_reply(reply: Reply) -> u8
    ensures { result ≡ clocked_reply_number reply }
{
    match reply {
        Reply::Okay => 1,
        Reply::Waits => 2,
        Reply::Faults => 3,
        Reply::Silent => 4,
    }
}

fn reply_with(number: u8) -> Reply
    ensures { clocked_reply_number result ≡ restored_clocked_reply number }
{
    match number {
        1 => Reply::Okay,
        2 => Reply::Waits,
        3 => Reply::Faults,
        _ => Reply::Silent,
    }
}

// Returns the fields of no data phase, with these bits and this register.
fn line_with(bits: u64, register: u8) -> LineFields
    ensures { result ≡ clocked_line_with 0 bits register 0 0 }
{
    LineFields {
        bits,
        kind: 0,
        register,
        flips: 0,
        flip: 0,
    }
}

impl LineFields {
    fn of(line: AfterAck) -> LineFields
        ensures { result ≡ clocked_line_fields line }
    {
        let none = line_with(0, 0);
        match line {
            AfterAck::Idle => LineFields { kind: 1, ..none },
            AfterAck::Drives(bits) => LineFields {
                kind: 2,
                bits,
                ..none
            },
            AfterAck::Awaits(register, flip) => LineFields {
                bits: 0,
                kind: 3,
                register: number_of_register(register),
                flips: u8::from(flip.is_some()),
                flip: flip.unwrap_or(0),
            },
        }
    }

    fn line(self) -> AfterAck
        ensures line { clocked_line_fields result ≡ restored_clocked_line self }
        ensures driven { port_bits_driven result < 2 ^ 33 }
    {
        match self.kind {
            1 => AfterAck::Idle,
            2 => AfterAck::Drives(self.bits % (1 << 33)),
            _ => {
                let flip = if self.flips == 1 {
                    Some(self.flip)
                } else {
                    None
                };
                AfterAck::Awaits(register_with(self.register), flip)
            }
        }
    }
}

impl FrameFields {
    // Returns the fields of a frame of this kind with this count.
    fn plain(kind: u8, place: u8) -> FrameFields
        ensures { result ≡ plain_frame kind place }
    {
        FrameFields {
            line: line_with(0, 0),
            kind,
            place,
            byte: 0,
            reply: 0,
        }
    }

    pub(crate) fn of(frame: Frame) -> FrameFields
        ensures { result ≡ frame_fields frame }
    {
        match frame {
            Frame::Asks { bits, count } => FrameFields {
                byte: bits,
                ..FrameFields::plain(1, count)
            },
            Frame::Lost { ones } => FrameFields::plain(2, ones),
            Frame::High => FrameFields::plain(3, 0),
            Frame::Switches { place } => FrameFields::plain(4, place),
            Frame::Replies { reply, line, place } => FrameFields {
                line: LineFields::of(line),
                reply: number_of_reply(reply),
                ..FrameFields::plain(5, place)
            },
            Frame::Drives { bits, left } => FrameFields {
                line: line_with(bits, 0),
                ..FrameFields::plain(6, left)
            },
            Frame::Awaits {
                register,
                bits,
                place,
            } => FrameFields {
                line: line_with(bits, number_of_register(register)),
                ..FrameFields::plain(7, place)
            },
            Frame::Passes => FrameFields::plain(8, 0),
        }
    }

    fn frame(self) -> Frame
        ensures frame { frame_fields result ≡ restored_frame self }
        ensures bits { frame_bits result < 2 ^ 33 }
        ensures place { frame_place result < frame_limit result }
    {
        match self.kind {
            1 => Frame::Asks {
                bits: self.byte,
                count: self.place % 8,
            },
            2 => Frame::Lost {
                ones: self.place % 50,
            },
            3 => Frame::High,
            4 => Frame::Switches {
                place: self.place % 16,
            },
            5 => Frame::Replies {
                reply: reply_with(self.reply),
                line: self.line.line(),
                place: self.place % 4,
            },
            6 => Frame::Drives {
                bits: self.line.bits % (1 << 33),
                left: self.place % 34,
            },
            7 => Frame::Awaits {
                register: register_with(self.line.register),
                bits: self.line.bits % (1 << 33),
                place: self.place % 34,
            },
            _ => Frame::Passes,
        }
    }
}

// Returns the same number, with its 64-bit range as a postcondition.
fn as_many(cycles: u64) -> u64
    ensures same { result ≡ cycles }
    ensures range { result < 2 ^ 64 }
{
    cycles
}

impl ClockedFields {
    /// Returns a clocked target with these fields over a device, without an IDR, or `None` if no target has them.
    pub fn clocked<D: Drop>(&self, device: D) -> Option<Clocked<D>>
        ensures found { (c : ClockedType D) → clocked_fields c ≡ self.now → IsSome result }
        ensures same { IfSome result (λ c. (clocked_fields c ≡ self.now) × (clocked_device c ≡ device)
            × ((clocked_quirks c).idr ≡ None)) }
    {
        let clocked = self.read(device);
        if clocked.fields() == *self {
            Some(clocked)
        } else {
            None
        }
    }

    fn read<D>(&self, device: D) -> Clocked<D>
        ensures numbers { clocked_fields result ≡ restored_clocked self.now }
        ensures device { clocked_device result ≡ device }
        ensures unidentified { (clocked_quirks result).idr ≡ None }
    {
        Clocked {
            target: self.target.target(device),
            frame: self.frame.frame(),
            waits: self.waits == 1,
            cycles: as_many(self.cycles),
            contended: Count::new(),
        }
    }
}

impl<D> Clocked<D> {
    /// Returns the fields of the target, without its device and its IDR.
    pub fn fields(&self) -> ClockedFields
        ensures { result ≡ clocked_fields self.now }
    {
        ClockedFields {
            cycles: self.cycles,
            frame: FrameFields::of(self.frame),
            target: self.target.fields(),
            waits: u8::from(self.waits),
        }
    }
}
