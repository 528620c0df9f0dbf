//! The frames of a clocked target: its place in a transaction or between two.
ghost use Rattle.std.specs.Prelude.{◌≡◌, ◌<◌, ◌^◌, ◌+◌};
ghost use Rattle.swd_port.specs.Moving.{port_bits_driven};

use swd_port::{AfterAck, Count, Register, Reply};

/// The meaning of the next cycles. Shift registers are preset with ones, as an undriven line reads.
#[derive(Clone, Copy)]
pub(crate) enum Frame {
    /// The bits of a request: the shift register, and how many bits it has. Before the first bit a zero is idle.
    Asks {
        bits: u8,
        count: u8,
    },
    /// Fifty ones, of which `ones` came. Requests are ignored.
    Lost {
        ones: u8,
    },
    /// After fifty ones: more ones, or the first zero.
    High,
    /// The bits of the switch, of which `place` came after the ones.
    Switches {
        place: u8,
    },
    /// A turnaround, and a reply that is driven, of which `place` cycles passed. `line` is the data phase behind it.
    Replies {
        reply: Reply,
        line: AfterAck,
        place: u8,
    },
    /// These bits, the next one least significant, which are driven for `left` cycles more, and then a turnaround.
    Drives {
        bits: u64,
        left: u8,
    },
    /// A turnaround, and the bits of a write, of which `place` cycles passed: the register, and the shift register.
    Awaits {
        register: Register,
        bits: u64,
        place: u8,
    },
    /// A turnaround.
    Passes,
}

// The frame after the first bits of the switch, by their number, where the next bit shows that they are no switch: the
// frame to which the same bits lead anywhere else. In time they are 0, 1111 0011, 11, 00, 11.
const UNSWITCHED: [Frame; 16] = [
    // None of them, and then the zero, which is idle.
    Frame::High,
    Frame::IDLE,
    // 1111 0011 up to its last bit: the shift register of a request, which begins with Start.
    Frame::Asks {
        bits: 0xff,
        count: 1,
    },
    Frame::Asks {
        bits: 0xff,
        count: 2,
    },
    Frame::Asks {
        bits: 0xff,
        count: 3,
    },
    Frame::Asks {
        bits: 0xff,
        count: 4,
    },
    Frame::Asks {
        bits: 0x7f,
        count: 5,
    },
    Frame::Asks {
        bits: 0x3f,
        count: 6,
    },
    Frame::Asks {
        bits: 0x9f,
        count: 7,
    },
    // The eight bits are no request, since parity and Stop are wrong. Their last two ones count to the fifty.
    Frame::Lost { ones: 2 },
    // 11, 00 and 11: a zero begins the fifty anew.
    Frame::Lost { ones: 3 },
    Frame::Lost { ones: 4 },
    Frame::Lost { ones: 0 },
    Frame::Lost { ones: 0 },
    Frame::Lost { ones: 1 },
    Frame::Lost { ones: 2 },
];

impl Frame {
    ghost use Rattle.swd_clocked.specs.Frames.{idle_frame, frame_bits, frame_place, frame_limit, frame_after_reply};
    ghost use Rattle.swd_clocked.specs.Frames.{frame_replied, is_released_frame, contended_cycle, unswitched_frame};

    /// The frame between transactions.
    pub(crate) const IDLE: Frame = Frame::Asks {
        bits: 0xff,
        count: 0,
    };

    // Returns whether the host has to release the line: the target drives it, or nobody does.
    fn is_released(self) -> bool
        ensures { result ≡ is_released_frame self }
    {
        match self {
            Frame::Replies { .. } | Frame::Drives { .. } | Frame::Passes => true,
            Frame::Awaits { place, .. } => place == 0,
            _ => false,
        }
    }

    // Counts a cycle that the host drives where it should release the line.
    pub(crate) fn note(self, contended: &mut Count, driven: bool)
        ensures { contended.new.ticks ≡ contended.old.ticks + contended_cycle self driven }
    {
        if driven && self.is_released() {
            contended.tick();
        }
    }

    // Returns the frame after a request was replied to. The request's last bit is a one, which counts where there is no
    // reply.
    pub(crate) fn replied(reply: Reply, phase: AfterAck) -> Frame
        requires { port_bits_driven phase < 2 ^ 33 }
        ensures frame { result ≡ frame_replied reply phase }
        ensures bits { frame_bits result < 2 ^ 33 }
        ensures place { frame_place result < frame_limit result }
    {
        match reply {
            Reply::Silent => Frame::Lost { ones: 1 },
            Reply::Okay | Reply::Waits | Reply::Faults => Frame::Replies {
                reply,
                line: phase,
                place: 0,
            },
        }
    }

    // Returns the frame after the first bits of the switch, where the next bit isn't the switch's.
    pub(crate) fn unswitched(place: u8) -> Frame
        requires { place < 16 }
        ensures frame { result ≡ unswitched_frame place }
        ensures place { frame_place result < frame_limit result }
    {
        UNSWITCHED[usize::from(place)]
    }

    // Returns the frame after a reply that was driven.
    pub(crate) fn after_reply(line: AfterAck) -> Frame
        requires { port_bits_driven line < 2 ^ 33 }
        ensures frame { result ≡ frame_after_reply line }
        ensures bits { frame_bits result < 2 ^ 33 }
        ensures place { frame_place result < frame_limit result }
    {
        match line {
            AfterAck::Idle => Frame::Passes,
            AfterAck::Drives(bits) => Frame::Drives { bits, left: 33 },
            AfterAck::Awaits(register, _) => Frame::Awaits {
                register,
                bits: 0x1_ffff_ffff,
                place: 0,
            },
        }
    }
}
