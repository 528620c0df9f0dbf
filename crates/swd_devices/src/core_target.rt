//! A memory, and a core beside it.
ghost use Rattle.std.specs.Prelude.{◌≡◌};
ghost use Rattle.swd_port.specs.PlainAnswers.{plain_after};
ghost use Rattle.swd_port.specs.PlainBus.{plain_result};
ghost use Rattle.swd_devices.specs.CoreTargets.{core_target_after, core_target_answer, core_target_reset};
ghost use Rattle.swd_devices.specs.CoreTargets.{core_target_word};

use crate::halting::Core;
use std::alloc::{Allocator, Global};
use swd_port::{Access, Answer};
use swd_target::{Memory, Peripheral};

/// A memory, and a core that starts at the vector table that lies in it.
///
/// The debug registers have their architected addresses, which the memory doesn't answer then. At a reset SP and PC are
/// the two words of the memory at the address of the table, or 0 where it has no word there.
#[derive(Debug, Drop)]
pub struct CoreTarget<A: Allocator = Global> {
    memory: Memory<A>,
    core: Core,
    table: u32,
}

impl<A: Allocator> CoreTarget<A> {
    /// Puts a core beside a memory, with its vector table at this byte address.
    pub fn new(memory: Memory<A>, core: Core, table: u32) -> CoreTarget<A>
        ensures memory { result.memory ≡ memory }
        ensures core { result.core ≡ core }
        ensures table { result.table ≡ table }
    {
        CoreTarget {
            memory,
            core,
            table,
        }
    }

    /// Returns the memory. Its log has the transfers that weren't the core's.
    pub fn memory(&self) -> &Memory<A>
        ensures { result.now ≡ self.now.memory }
    {
        &self.memory
    }

    /// Returns the core.
    pub fn core(&self) -> &Core
        ensures { result.now ≡ self.now.core }
    {
        &self.core
    }

    // Returns the memory's word at a byte address, or 0.
    fn word(&self, addr: u32) -> u32
        ensures { result ≡ core_target_word addr self.now.memory }
    {
        self.memory.word(addr).unwrap_or(0)
    }

    // Resets the core.
    fn reset(&mut self)
        ensures { self.new ≡ core_target_reset self.old }
    {
        let sp = self.word(self.table);
        let pc = self.word(self.table.wrapping_add(4));
        self.core.reset(sp, pc);
    }

    // Reads the word of the memory at a byte address.
    fn read_memory(&mut self, addr: u32) -> Option<u32>
        ensures word { result ≡ plain_result (Access.Read addr) self.old.memory }
        ensures after { self.new ≡ record self.old { memory = plain_after (Access.Read addr) self.old.memory } }
    {
        match self.memory.transfer(Access::Read(addr)) {
            Answer::Value(word) => Some(word),
            _ => None,
        }
    }
}

impl<A: Allocator> Peripheral for CoreTarget<A> {
    ghost answer = { core_target_answer };

    ghost after = { core_target_after };

    fn read(&mut self, addr: u32) -> Option<u32> {
        if Core::has(addr) {
            Some(self.core.read(addr))
        } else {
            self.read_memory(addr)
        }
    }

    fn write(&mut self, addr: u32, word: u32) -> bool {
        if !Core::has(addr) {
            return matches!(
                &self.memory.transfer(Access::Write(addr, word)),
                Answer::Written
            );
        }
        if Core::asks_reset(addr, word) {
            self.reset();
        } else {
            self.core.write(addr, word);
        }
        true
    }

    fn would_succeed(&self, access: Access) -> bool {
        match access {
            Access::Read(addr) => Core::has(addr) || self.memory.is_ready(addr),
            Access::Write(addr, _) => Core::has(addr) || self.memory.is_ready(addr),
        }
    }
}
