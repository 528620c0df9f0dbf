//! The words that a memory holds itself, and its log.
ghost use Rattle.std.specs.Prelude.{◌≡◌, ◌≢◌, ◌↔◌, ◌+◌, ◌*◌, ◌<◌, ◌≤◌, ◌%◌, ◌^◌, ℕ, MatchOption, IfOk, IsErrOf};
ghost use Rattle.std.specs.FinMap.{get};
ghost use Rattle.swd_port.specs.PlainAnswers.{succeeds_at, plain_answer, plain_after};
ghost use Rattle.swd_target.specs.MemoryWords.{target_zero_memory};

use crate::memory::MakeFault;
use std::alloc::Allocator;
use std::marker::Model;
use swd_port::{Access, Answer, Transfer};

/// Words at addresses, and a log of the transfers that succeeded, the oldest first. Contracts see both as a
/// `PlainMemory`.
#[derive(Drop)]
pub(crate) struct OwnWords<A: Allocator> {
    base: u32,
    words: Vec<u32, A>,
    log: Vec<Transfer, A>,
    room: u32,
}

impl<A: Allocator> Model for OwnWords<A> {
    ghost use Rattle.std.specs.Prelude.{◌≡◌, ◌+◌, ◌*◌, ◌≤◌, ◌%◌, ◌^◌, vec_len};
    ghost use Rattle.std.specs.Vec.{vec_capacity};
    ghost use Rattle.std.specs.Coded.{codes, coded_ℕ};
    ghost use Rattle.std.specs.FinMap as map;
    ghost use Rattle.std.specs.Ordering.{nat_cmp};
    ghost use Rattle.swd_port.specs.contracts.access.Transfer as transfer;
    ghost use Rattle.swd_port.specs.PlainMemory.{PlainMemory};
    ghost use Rattle.swd_target.specs.MemoryWords.{target_words_from};

    ghost Value = { PlainMemory };

    ghost coded = { Prim.hlevel (codes, map.code {R = nat_cmp} coded_ℕ coded_ℕ, transfer.the_row.coded) };

    ghost view = { λ m. record { words = target_words_from m.base m.words.items; log = m.log.items; room = m.room } };

    ghost invariant = { λ m. record {
      aligned : m.base % 4 ≡ 0;
      end : m.base + 4 * vec_len m.words ≤ 2 ^ 32;
      logged : vec_len m.log ≤ m.room;
      room : m.room ≤ vec_capacity m.log;
    } };
}

// Returns the index of the word at a byte address, or `None` if there is no word.
fn place(base: u32, words: usize, addr: u32) -> Option<usize>
    requires { base + 4 * words ≤ 2 ^ 32 }
    ensures { MatchOption result
        ((i : ℕ) → i < words → base + 4 * i ≡ addr → ⊥)
        (λ i. (i < words) × (base + 4 * i ≡ addr)) }
{
    if addr < base {
        return None;
    }
    let ahead = addr - base;
    if ahead % 4 != 0 {
        return None;
    }
    let place = (ahead / 4) as usize;
    if place < words { Some(place) } else { None }
}

impl<A: Allocator + Copy> OwnWords<A> {
    /// Creates a memory of `words` zero words from byte address `base`, with an empty log for up to `room` transfers.
    /// It allocates here and never again.
    pub(crate) fn new(alloc: A, base: u32, words: u32, room: u32) -> Result<OwnWords<A>, MakeFault>
        ensures made { IfOk result (λ memory. memory ≡ target_zero_memory base words room) }
        ensures base { IsErrOf result MakeFault.Base ↔ (base % 4 ≢ 0) }
        ensures empty { IsErrOf result MakeFault.Empty ↔ ((base % 4 ≡ 0) × (words ≡ 0)) }
        ensures range { IsErrOf result MakeFault.Range ↔ ((base % 4 ≡ 0) × (words ≢ 0) × (2 ^ 32 < base + 4 * words)) }
    {
        if base % 4 != 0 {
            return Err(MakeFault::Base);
        }
        if words == 0 {
            return Err(MakeFault::Empty);
        }
        if u64::from(base) + 4 * u64::from(words) > 1 << 32 {
            return Err(MakeFault::Range);
        }
        let Ok(zeros) = vec![in alloc; 0; words as usize] else {
            return Err(MakeFault::Memory);
        };
        let Ok(log) = Vec::with_capacity(alloc, room as usize) else {
            return Err(MakeFault::Memory);
        };
        Ok(OwnWords {
            base,
            words: zeros,
            log,
            room,
        })
    }
}

impl<A: Allocator> OwnWords<A> {
    /// Returns the word at a byte address, or `None` if the memory has no word there. It logs no transfer.
    pub(crate) fn word(&self, addr: u32) -> Option<u32>
        ensures { result ≡ get self.now.words addr }
    {
        match place(self.base, self.words.len(), addr) {
            Some(i) => Some(self.words[i]),
            None => None,
        }
    }

    /// Returns the transfers that succeeded, the oldest first.
    pub(crate) fn log(&self) -> &[Transfer]
        ensures { result.now ≡ self.now.log }
    {
        &self.log
    }

    // Returns whether a transfer at this address would succeed.
    pub(crate) fn is_ready(&self, addr: u32) -> bool
        ensures { result ≡ succeeds_at addr self.now }
    {
        match place(self.base, self.words.len(), addr) {
            Some(_) => self.log.len() < self.room as usize,
            None => false,
        }
    }

    // Performs one transfer, as the access port does.
    #[inline(always)]
    pub(crate) fn transfer(&mut self, access: Access) -> Answer
        ensures answer { result ≡ plain_answer access self.old }
        ensures after { self.new ≡ plain_after access self.old }
    {
        match access {
            Access::Read(addr) => self.read(addr),
            Access::Write(addr, word) => self.write(addr, word),
        }
    }

    #[inline(always)]
    fn read(&mut self, addr: u32) -> Answer
        ensures answer { result ≡ plain_answer (Access.Read addr) self.old }
        ensures after { self.new ≡ plain_after (Access.Read addr) self.old }
    {
        let Some(i) = place(self.base, self.words.len(), addr) else {
            return Answer::BusFault;
        };
        if self.log.len() >= self.room as usize {
            return Answer::BusFault;
        }
        let word = self.words[i];
        let transfer = Transfer {
            read: true,
            addr,
            word,
        };
        self.log.push(transfer).unwrap();
        Answer::Value(word)
    }

    #[inline(always)]
    fn write(&mut self, addr: u32, word: u32) -> Answer
        ensures answer { result ≡ plain_answer (Access.Write addr word) self.old }
        ensures after { self.new ≡ plain_after (Access.Write addr word) self.old }
    {
        let Some(i) = place(self.base, self.words.len(), addr) else {
            return Answer::BusFault;
        };
        if self.log.len() >= self.room as usize {
            return Answer::BusFault;
        }
        let transfer = Transfer {
            read: false,
            addr,
            word,
        };
        self.log.push(transfer).unwrap();
        self.words[i] = word;
        Answer::Written
    }
}
