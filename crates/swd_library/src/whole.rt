//! The host over a wire: words are written by `run`, and read back by `run_block`.
use std::alloc::{AllocError, Global};
use swd_host::{End, Refused, run, run_block};
use swd_port::{Access, Answer};
use swd_target::{Bench, MakeFault, Memory, Quirks};
use thiserror::Error;

/// The reason why the words weren't written.
#[derive(Debug, Drop, Error)]
pub enum Failure {
    #[error("no memory")]
    Memory,
    /// The list was refused: an address isn't a multiple of 4, or there are too many accesses. Nothing was sent.
    #[error("the accesses were refused")]
    Refused,
    /// The host stopped early.
    #[error("the run ended before all was done")]
    Stopped(End),
    /// An access was a bus error.
    #[error("access {0} met a bus error")]
    BusFault(usize),
    /// A word that was read isn't the one that was written.
    #[error("word {0} is another")]
    Differs(usize),
}

impl From<AllocError> for Failure {
    fn from(_: AllocError) -> Failure {
        Failure::Memory
    }
}

impl From<Refused> for Failure {
    fn from(refused: Refused) -> Failure {
        match refused {
            Refused::Memory => Failure::Memory,
            Refused::Unaligned { .. } | Refused::TooMany => Failure::Refused,
        }
    }
}

impl From<MakeFault> for Failure {
    fn from(_: MakeFault) -> Failure {
        Failure::Memory
    }
}

/// The address of the first word.
pub const BASE: u32 = 0x2000_0000;

/// The words that are loaded.
pub const IMAGE: [u32; 4] = [0x2000_1000, 0x2000_0011, 0xe7fe_e7fe, 0xbf00_bf00];

/// The number of events, such as WAIT or a corrupted word, that an access may meet.
pub const TRIES: u32 = 8;

/// The choices that the standard leaves to a target.
pub const QUIRKS: Quirks = Quirks {
    wrap: true,
    late: false,
    filler: 0,
    idr: None,
};

/// Returns the writes that load the image.
pub fn writes(alloc: Global) -> Result<Vec<Access>, AllocError> {
    let mut accesses = Vec::new(alloc);
    let mut addr = BASE;
    for word in IMAGE {
        accesses.push(Access::Write(addr, word))?;
        addr = addr.wrapping_add(4);
    }
    Ok(accesses)
}

// Checks that each answer is the word of the image.
fn compare(answers: &[Answer]) -> Result<(), Failure> {
    for (index, (answer, word)) in answers.iter().zip(IMAGE.iter()).enumerate() {
        match answer {
            Answer::Value(read) if read == word => {}
            Answer::BusFault => return Err(Failure::BusFault(index)),
            _ => return Err(Failure::Differs(index)),
        }
    }
    Ok(())
}

/// Loads the image, and reads it back.
pub fn load(alloc: Global) -> Result<(), Failure> {
    // The wire: here a simulated target. For a probe, implement `Transport` and call `run_over_transport`.
    let memory = Memory::new(alloc, BASE, 64, 65_536)?;
    let mut wire = Bench::new(memory, QUIRKS, Vec::new(alloc));
    let written = run(alloc, &mut wire, writes(alloc)?.as_slice(), TRIES)?;
    if written.ended != End::All {
        return Err(Failure::Stopped(written.ended));
    }
    if let Some(index) = written
        .answers
        .iter()
        .position(|answer| *answer == Answer::BusFault)
    {
        return Err(Failure::BusFault(index));
    }
    // The next call requires that nothing is due on the wire (no data phase, no turnaround). That is so after `All`.
    let read = run_block(alloc, &mut wire, BASE, 4, TRIES)?;
    if read.ended != End::All {
        return Err(Failure::Stopped(read.ended));
    }
    compare(read.answers.as_slice())
}
