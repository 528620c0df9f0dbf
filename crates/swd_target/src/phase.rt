//! Data phases: the 33 bits that a target drives or awaits.
ghost use Rattle.std.specs.Prelude.{◌≡◌, ◌<◌, ◌^◌, None};
ghost use Rattle.swd_port.specs.Choices.{port_flipped};
ghost use Rattle.swd_port.specs.Choices.{port_flip_of};
ghost use Rattle.swd_port.specs.Asking.{port_phase_after, port_line_after};
ghost use Rattle.swd_port.specs.Leading.{port_line_awaits};
ghost use Rattle.swd_port.specs.Moving.{port_bits_driven};
ghost use Rattle.swd_target.specs.Flips.{target_flip_place, target_awaited_flip, target_line_flipped};

use swd_bits::data_bits;
use swd_port::{AfterAck, Mark, Register, Reply};

/// Returns the bit of the data phase that arrives changed under a mark, if any, counted from 0, the first in time.
pub fn flip_under(mark: Mark) -> Option<u8>
    ensures { result ≡ port_flip_of mark }
{
    match mark {
        Mark::Flip(place) => Some(place),
        _ => None,
    }
}

// Returns the data phase that follows an OK.
pub(crate) fn phase_of(read: bool, register: Register, value: u32) -> AfterAck
    ensures phase { result ≡ port_phase_after read register None value }
    ensures bits { port_bits_driven result < 2 ^ 33 }
{
    if read {
        AfterAck::Drives(data_bits(value))
    } else {
        AfterAck::Awaits(register, None)
    }
}

// Returns a data phase of which this bit arrives changed.
pub(crate) fn flip_line(flip: Option<u8>, line: AfterAck) -> AfterAck
    requires bits { port_bits_driven line < 2 ^ 33 }
    requires place { target_flip_place flip < 33 }
    ensures line { result ≡ target_line_flipped flip line }
    ensures bits { port_bits_driven result < 2 ^ 33 }
    ensures flip { target_flip_place (target_awaited_flip result) < 33 }
{
    match line {
        AfterAck::Idle => AfterAck::Idle,
        AfterAck::Drives(bits) => AfterAck::Drives(flip_bit(flip, bits)),
        AfterAck::Awaits(register, _) => AfterAck::Awaits(register, flip),
    }
}

// Enters the data phase that follows an OK. Any other reply leaves the line unchanged.
pub(crate) fn enter_phase(line: &mut AfterAck, reply: Reply, phase: AfterAck)
    requires phase_bits { port_bits_driven phase < 2 ^ 33 }
    requires phase_flip { target_flip_place (target_awaited_flip phase) < 33 }
    requires line_bits { port_bits_driven line.old < 2 ^ 33 }
    requires line_flip { target_flip_place (target_awaited_flip line.old) < 33 }
    ensures line { line.new ≡ port_line_after reply phase line.old }
    ensures bits { port_bits_driven line.new < 2 ^ 33 }
    ensures flip { target_flip_place (target_awaited_flip line.new) < 33 }
{
    if let Reply::Okay = reply {
        *line = phase;
    }
}

// Returns the 33 bits that the host samples. An undriven line reads 1.
pub(crate) fn bits_on(line: AfterAck) -> u64
    ensures { result ≡ port_bits_driven line }
{
    match line {
        AfterAck::Drives(bits) => bits,
        _ => 0x1_ffff_ffff,
    }
}

pub(crate) fn is_awaiting(line: AfterAck) -> bool
    ensures { result ≡ port_line_awaits line }
{
    matches!(&line, AfterAck::Awaits(_, _))
}

/// Returns the 33 bits of a data phase as the other side receives them, with this bit changed, if any. Bit 0 is the
/// first in time.
pub fn flip_bit(flip: Option<u8>, bits: u64) -> u64
    requires bits { bits < 2 ^ 33 }
    requires place { target_flip_place flip < 33 }
    ensures value { result ≡ port_flipped flip bits }
    ensures range { result < 2 ^ 33 }
{
    match flip {
        Some(place) => bits ^ 1 << place,
        None => bits,
    }
}
