//! The memory behind a simulated access port.
ghost use Rattle.std.specs.Prelude.{◌≡◌, ◌≢◌, ◌↔◌, ◌+◌, ◌*◌, ◌<◌, ◌%◌, ◌^◌, IfOk, IsErrOf};
ghost use Rattle.std.specs.FinMap.{get};
ghost use Rattle.swd_port.specs.PlainAnswers.{succeeds_at, plain_answer, plain_after};
ghost use Rattle.swd_target.specs.MemoryWords.{target_zero_memory, target_window};

use crate::window::Window;
use crate::words::OwnWords;
use std::alloc::{Allocator, Global};
use std::fmt::{self, Debug, Formatter};
use std::marker::Model;
use swd_port::{Access, Answer, Transfer};
use thiserror::Error;

/// The reason why a memory wasn't created.
#[derive(Clone, Copy, Debug, PartialEq, Eq, Error)]
pub enum MakeFault {
    /// Out of memory for the words or the log.
    #[error("out of memory for the words or the log")]
    Memory,
    /// The first address isn't a multiple of 4.
    #[error("the first address is no multiple of 4")]
    Base,
    /// The words pass address 2^32.
    #[error("the words go past 2^32")]
    Range,
    /// The number of words is 0.
    #[error("no words")]
    Empty,
}

// Where the words are.
#[derive(Drop)]
pub(crate) enum Storage<A: Allocator> {
    // In this memory.
    Here(OwnWords<A>),
    // Elsewhere; at most one word is here.
    Elsewhere(Window),
}

/// Words at addresses, and a log of the transfers that succeeded, the oldest first. Contracts see both as a
/// `PlainMemory`.
#[derive(Drop)]
pub struct Memory<A: Allocator = Global> {
    kept: Storage<A>,
}

/// Writes the log. [`Memory::word`] has the words.
impl<A: Allocator> Debug for Memory<A> {
    fn fmt<W: fmt::Write>(&self, f: &mut Formatter<W>) -> fmt::Result {
        f.debug_struct("Memory")
            .field("log", &self.log())
            .finish_non_exhaustive()
    }
}

impl<A: Allocator> Model for Memory<A> {
    ghost use Rattle.std.specs.Coded.{codes, coded_ℕ};
    ghost use Rattle.std.specs.FinMap as map;
    ghost use Rattle.std.specs.Ordering.{nat_cmp};
    ghost use Rattle.swd_port.specs.contracts.access.Transfer as transfer;
    ghost use Rattle.swd_port.specs.PlainMemory.{PlainMemory};
    ghost use Rattle.swd_target.specs.Kept.{target_memory_in};

    ghost Value = { PlainMemory };

    ghost coded = { Prim.hlevel (codes, map.code {R = nat_cmp} coded_ℕ coded_ℕ, transfer.the_row.coded) };

    ghost view = { λ m. target_memory_in m.kept };
}

impl<A: Allocator + Copy> Memory<A> {
    /// Creates a memory of `words` zero words from byte address `base`, with an empty log for up to `room` transfers.
    /// It allocates here and never again.
    ///
    /// # Errors
    ///
    /// Returns `Base` if `base` isn't a multiple of 4, `Empty` if `words` is 0, `Range` if the words pass 2^32, and
    /// `Memory` if allocating fails.
    pub fn new(alloc: A, base: u32, words: u32, room: u32) -> Result<Memory<A>, MakeFault>
        ensures made { IfOk result (λ memory. memory ≡ target_zero_memory base words room) }
        ensures base { IsErrOf result MakeFault.Base ↔ (base % 4 ≢ 0) }
        ensures empty { IsErrOf result MakeFault.Empty ↔ ((base % 4 ≡ 0) × (words ≡ 0)) }
        ensures range { IsErrOf result MakeFault.Range ↔ ((base % 4 ≡ 0) × (words ≢ 0) × (2 ^ 32 < base + 4 * words)) }
    {
        match OwnWords::new(alloc, base, words, room) {
            Ok(words) => Ok(Memory {
                kept: Storage::Here(words),
            }),
            Err(fault) => Err(fault),
        }
    }
}

impl<A: Allocator> Memory<A> {
    /// Creates a memory of one word at a byte address, or of no word, in place of a memory elsewhere. Its empty log has
    /// room for one transfer. It doesn't allocate.
    pub fn window(addr: u32, word: Option<u32>) -> Memory<A>
        ensures { result ≡ target_window addr word }
    {
        Memory {
            kept: Storage::Elsewhere(Window::new(addr, word)),
        }
    }

    /// Returns the word at a byte address, or `None` if the memory has no word there, as at an address that isn't a
    /// multiple of 4. It logs no transfer.
    pub fn word(&self, addr: u32) -> Option<u32>
        ensures { result ≡ get self.now.words addr }
    {
        match &self.kept {
            Storage::Here(words) => words.word(addr),
            Storage::Elsewhere(window) => window.word(addr),
        }
    }

    /// Returns the transfers that succeeded, the oldest first.
    pub fn log(&self) -> &[Transfer]
        ensures { result.now ≡ self.now.log }
    {
        match &self.kept {
            Storage::Here(words) => words.log(),
            Storage::Elsewhere(window) => window.log(),
        }
    }

    /// Returns whether a transfer at this address would succeed: the memory has a word there, and the log has room.
    pub fn is_ready(&self, addr: u32) -> bool
        ensures { result ≡ succeeds_at addr self.now }
    {
        match &self.kept {
            Storage::Here(words) => words.is_ready(addr),
            Storage::Elsewhere(window) => window.is_ready(addr),
        }
    }

    /// Performs one transfer, as the access port does. If the memory has no word at the address, or the log is full, it
    /// is a bus error, which changes nothing and isn't logged.
    #[inline(always)]
    pub fn transfer(&mut self, access: Access) -> Answer
        ensures answer { result ≡ plain_answer access self.old }
        ensures after { self.new ≡ plain_after access self.old }
    {
        match &mut self.kept {
            Storage::Here(words) => words.transfer(access),
            Storage::Elsewhere(window) => window.transfer(access),
        }
    }
}
