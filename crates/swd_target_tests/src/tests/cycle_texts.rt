//! Stretches of cycles at a clocked target, as texts.
use swd_clocked::Clocked;
use swd_target::Memory;

/// Cycles at a target, each as a character 0 or 1.
#[derive(Clone, Copy)]
pub(super) enum Part {
    /// The host drives these bits, and they stand on the line.
    Sent(&'static [u8]),
    /// The host drives nothing, and these bits stand on the line.
    Seen(&'static [u8]),
    /// The host drives so many ones, and they stand on the line.
    Ones(u32),
}

// Whether these bits stand on the line, which the host drives with them or not at all.
fn stands(target: &mut Clocked<Memory>, bits: &[u8], driven: bool) -> bool {
    for bit in bits {
        let bit = *bit == b'1';
        let drive = if driven { Some(bit) } else { None };
        if target.cycle(drive) != bit {
            return false;
        }
    }
    true
}

fn stand(target: &mut Clocked<Memory>, ones: u32) -> bool {
    for _ in 0..ones {
        if !target.cycle(Some(true)) {
            return false;
        }
    }
    true
}

/// The place of the first part that doesn't stand on the line.
pub(super) fn failing(target: &mut Clocked<Memory>, parts: &[Part]) -> Option<usize> {
    for (index, part) in parts.iter().enumerate() {
        let stands = match *part {
            Part::Sent(bits) => stands(target, bits, true),
            Part::Seen(bits) => stands(target, bits, false),
            Part::Ones(ones) => stand(target, ones),
        };
        if !stands {
            return Some(index);
        }
    }
    None
}
