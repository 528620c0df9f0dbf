//! What the lines of a script have said so far.
ghost use Rattle.std.specs.Prelude.{◌≡◌, ◌+◌, ◌∷◌, [], length, nat_le};
ghost use Rattle.std.specs.Prelude.{Ok, Err, OnOk, IfErr, IfOk, option_copied};
ghost use Rattle.swd_script.specs.Scripts.{are_script_words, script_until_can_match};

use crate::batch::{Batch, Expected, Until};
use crate::command::{Command, command_of};
use crate::fault::{LineFault, ScriptFault};
use crate::script::Script;
use crate::words::FirstWords;
use std::alloc::Allocator;
use std::mem;
use swd_port::{Access, MOST_ACCESSES, push_reads};

// The most words of a memory, and the most transfers in its log.
const MOST: u32 = 65536;

// The most reads of an `until`.
const MOST_READS: u32 = 1_000_000;

/// The extent of a memory: the address of the first word, and the number of words.
#[derive(Clone, Copy)]
pub(crate) struct Extent {
    pub(crate) base: u32,
    pub(crate) words: u32,
}

/// What the lines of a script have said so far.
#[derive(Drop)]
pub struct Draft<A: Allocator> {
    alloc: A,
    pub(crate) memory: Option<Extent>,
    pub(crate) room: Option<u32>,
    // the address of the vector table, if there is a core
    pub(crate) core: Option<u32>,
    // the complete calls, and the current one
    pub(crate) earlier: Vec<Batch<A>, A>,
    pub(crate) batch: Batch<A>,
}

impl<A: Allocator + Copy> Draft<A> {
    ghost use Rattle.swd_port.specs.declared.access.Access.{Access};
    ghost use Rattle.swd_port.specs.PlainAnswers.{plain_reads};
    ghost use Rattle.swd_script.specs.declared.batch.Expected.{Expected as TheExpected};
    ghost use Rattle.swd_script.specs.Scripts.{script_as_block, script_as_expected, script_command_added};
    ghost use Rattle.swd_script.specs.Scripts.{script_has_calls, misplaced_script_command, script_nothing_said};
    ghost use Rattle.swd_script.specs.Scripts.{script_line, script_meaning, script_with_accesses, script_with_memory};
    ghost use Rattle.swd_script.specs.Scripts.{script_with_next, script_further, script_with_room, script_with_until};
    ghost use Rattle.swd_script.specs.Scripts.{script_with_core, script_with_verified};
    ghost use Rattle.swd_script.specs.Readers.{IsScriptEndFault, IsScriptLineFault, read_script_meaning};
    ghost use Rattle.swd_script.specs.Readers.{script_draft_sayings};
    ghost use Rattle.swd_script.specs.Words.{texts_of};

    /// Returns the state before the first line.
    pub(crate) fn new(alloc: A) -> Draft<A>
        ensures { script_draft_sayings result ≡ script_nothing_said }
    {
        Draft {
            alloc,
            memory: None,
            room: None,
            core: None,
            earlier: Vec::new(alloc),
            batch: Batch::new(alloc),
        }
    }

    /// Takes the line with this number and these first words. `None` stands for a line with an invalid byte.
    /// After an error the state is unspecified.
    pub(crate) fn line(&mut self, number: u64, words: Option<&FirstWords>) -> Result<(), LineFault>
        ensures ok { OnOk result
            (script_line number (script_draft_sayings self.old) (texts_of (option_copied words.entry))
            ≡ Ok (script_draft_sayings self.new)) }
        ensures err { IfErr result
            (λ fault. IsScriptLineFault fault
            (script_line number (script_draft_sayings self.old) (texts_of (option_copied words.entry)))) }
    {
        let Some(words) = words else {
            return Err(LineFault::Word);
        };
        if words.is_empty() {
            return Ok(());
        }
        let Some(command) = command_of(words.as_slice()) else {
            return Err(LineFault::Word);
        };
        if let Some(fault) = self.misplaced(command) {
            return Err(fault);
        }
        self.carry_out(number, command)
    }

    // Returns the error of a command that isn't allowed here.
    fn misplaced(&self, command: Command) -> Option<LineFault>
        ensures { result ≡ misplaced_script_command (script_draft_sayings self.now) command }
    {
        match command {
            Command::Memory { .. } if self.memory.is_some() => Some(LineFault::Word),
            Command::Memory { .. } => None,
            Command::Room { .. } if self.room.is_some() || self.has_begun() => {
                Some(LineFault::Word)
            }
            Command::Core { .. } if self.core.is_some() || self.has_begun() => {
                Some(LineFault::Word)
            }
            Command::Block { .. } if self.place() != 0 => Some(LineFault::Word),
            Command::Read { .. }
            | Command::Write { .. }
            | Command::ReadMany { .. }
            | Command::Verify { .. }
                if self.batch.block.is_some() => { Some(LineFault::Word) }
            _ if self.memory.is_none() => Some(LineFault::NoMemoryLine),
            _ => None,
        }
    }

    // Returns whether there was an access or a line `next`.
    fn has_begun(&self) -> bool
        ensures { result ≡ script_has_calls (script_draft_sayings self.now) }
    {
        !self.earlier.is_empty() || !self.batch.accesses.is_empty()
    }

    // Adds a command that is allowed here, on the line with this number.
    fn carry_out(&mut self, line: u64, command: Command) -> Result<(), LineFault>
        ensures ok { OnOk result (script_command_added line (script_draft_sayings self.old) command
            ≡ Ok (script_draft_sayings self.new)) }
        ensures err { IfErr result (λ fault. IsScriptLineFault fault
            (script_command_added line (script_draft_sayings self.old) command)) }
    {
        match command {
            Command::Memory {
                base: Some(base),
                words: Some(words),
            } => self.set_memory(base, words),
            Command::Room { count: Some(count) } => self.set_room(count),
            Command::Core { table: Some(table) } => self.set_core(table),
            Command::Read { addr: Some(addr) } => self.add(addr, Access::Read(addr)),
            Command::Write {
                addr: Some(addr),
                value: Some(value),
            } => self.add(addr, Access::Write(addr, value)),
            Command::ReadMany {
                addr: Some(addr),
                count: Some(count),
            } => self.add_reads(addr, count),
            Command::Block {
                addr: Some(addr),
                count: Some(count),
            } => self.add_block(addr, count),
            Command::Verify {
                addr: Some(addr),
                value: Some(value),
            } => self.add_verified(line, addr, value),
            Command::Until {
                addr: Some(addr),
                mask: Some(mask),
                value: Some(value),
                most: Some(most),
            } => self.add_until(Until {
                addr,
                mask,
                value,
                most,
            }),
            Command::Next => self.end_batch(),
            _ => Err(LineFault::Number),
        }
    }

    fn set_memory(&mut self, base: u32, words: u32) -> Result<(), LineFault>
        ensures ok { OnOk result (script_with_memory (script_draft_sayings self.old) base words
            ≡ Ok (script_draft_sayings self.new)) }
        ensures err { IfErr result (λ fault. IsScriptLineFault fault
            (script_with_memory (script_draft_sayings self.old) base words)) }
    {
        if !are_words(base, words) || words > MOST {
            return Err(LineFault::Range);
        }
        self.memory = Some(Extent { base, words });
        Ok(())
    }

    fn set_room(&mut self, count: u32) -> Result<(), LineFault>
        ensures ok { OnOk result (script_with_room (script_draft_sayings self.old) count
            ≡ Ok (script_draft_sayings self.new)) }
        ensures err { IfErr result (λ fault. IsScriptLineFault fault
            (script_with_room (script_draft_sayings self.old) count)) }
    {
        if count > MOST {
            return Err(LineFault::Range);
        }
        self.room = Some(count);
        Ok(())
    }

    fn set_core(&mut self, table: u32) -> Result<(), LineFault>
        ensures ok { OnOk result (script_with_core (script_draft_sayings self.old) table
            ≡ Ok (script_draft_sayings self.new)) }
        ensures err { IfErr result (λ fault. IsScriptLineFault fault
            (script_with_core (script_draft_sayings self.old) table)) }
    {
        if table % 4 != 0 {
            return Err(LineFault::Range);
        }
        self.core = Some(table);
        Ok(())
    }

    // Adds an access at an address.
    fn add(&mut self, addr: u32, access: Access) -> Result<(), LineFault>
        ensures ok { OnOk result (script_with_accesses (script_further (script_draft_sayings self.old)) addr 1
            (access ∷ []) ≡ Ok (script_draft_sayings self.new)) }
        ensures err { IfErr result (λ fault.
            IsScriptLineFault fault (script_with_accesses (script_further (script_draft_sayings self.old)) addr 1
            (access ∷ []))) }
    {
        if !are_words(addr, 1) || !self.has_room_for(1) {
            return Err(LineFault::Range);
        }
        self.leave_until()?;
        match self.batch.accesses.push(access) {
            Ok(()) => Ok(()),
            Err(_) => Err(LineFault::Memory),
        }
    }

    // Adds `count` reads from an address on.
    fn add_reads(&mut self, addr: u32, count: u32) -> Result<(), LineFault>
        ensures ok { OnOk result (script_with_accesses (script_further (script_draft_sayings self.old)) addr count
            (plain_reads addr count)
            ≡ Ok (script_draft_sayings self.new)) }
        ensures err { IfErr result (λ fault.
            IsScriptLineFault fault (script_with_accesses (script_further (script_draft_sayings self.old)) addr count
            (plain_reads addr count))) }
    {
        if !are_words(addr, count) || !self.has_room_for(count) {
            return Err(LineFault::Range);
        }
        self.leave_until()?;
        match push_reads(&mut self.batch.accesses, addr, count) {
            Ok(()) => Ok(()),
            Err(_) => Err(LineFault::Memory),
        }
    }

    // Adds a read with the word that the line with this number expects.
    fn add_verified(&mut self, line: u64, addr: u32, word: u32) -> Result<(), LineFault>
        ensures ok { OnOk result (script_with_verified line (script_further (script_draft_sayings self.old)) addr word
            ≡ Ok (script_draft_sayings self.new)) }
        ensures err { IfErr result (λ fault. IsScriptLineFault fault
            (script_with_verified line (script_further (script_draft_sayings self.old)) addr word)) }
    {
        let place = self.place();
        self.add(addr, Access::Read(addr))?;
        let expected = Expected {
            line,
            place,
            addr,
            word,
        };
        match self.batch.expected.push(expected) {
            Ok(()) => Ok(()),
            Err(_) => Err(LineFault::Memory),
        }
    }

    // Adds the call of an `until`, and ends the call before it if that has accesses.
    fn add_until(&mut self, until: Until) -> Result<(), LineFault>
        ensures ok { OnOk result (script_with_until (script_draft_sayings self.old) until
            ≡ Ok (script_draft_sayings self.new)) }
        ensures err { IfErr result (λ fault. IsScriptLineFault fault
            (script_with_until (script_draft_sayings self.old) until)) }
    {
        if !are_words(until.addr, 1) || !can_come(until) {
            return Err(LineFault::Range);
        }
        let Some(batch) = Batch::waiting(self.alloc, until) else {
            return Err(LineFault::Memory);
        };
        if !self.batch.accesses.is_empty() {
            self.end_batch()?;
        }
        self.batch = batch;
        Ok(())
    }

    // Starts a further call, if the current one is that of an `until`.
    fn leave_until(&mut self) -> Result<(), LineFault>
        ensures ok { OnOk result (script_further (script_draft_sayings self.old) ≡ script_draft_sayings self.new) }
        ensures err { IfErr result (λ fault. fault ≡ LineFault.Memory) }
    {
        if self.batch.until.is_none() {
            return Ok(());
        }
        self.end_batch()
    }

    // Ends the current call, and starts a further one.
    fn end_batch(&mut self) -> Result<(), LineFault>
        ensures ok { OnOk result (script_with_next (script_draft_sayings self.old) ≡ script_draft_sayings self.new) }
        ensures err { IfErr result (λ fault. fault ≡ LineFault.Memory) }
    {
        let batch = mem::replace(&mut self.batch, Batch::new(self.alloc));
        match self.earlier.push(batch) {
            Ok(()) => Ok(()),
            Err(_) => Err(LineFault::Memory),
        }
    }

    // Adds the reads of a block, which are the only accesses of their call.
    fn add_block(&mut self, addr: u32, count: u32) -> Result<(), LineFault>
        ensures ok { OnOk result (script_as_block addr
            (script_with_accesses (script_further (script_draft_sayings self.old)) addr count (plain_reads addr count))
            ≡ Ok (script_draft_sayings self.new)) }
        ensures err { IfErr result (λ fault.
            IsScriptLineFault fault (script_as_block addr (script_with_accesses
            (script_further (script_draft_sayings self.old)) addr count (plain_reads addr count)))) }
    {
        self.add_reads(addr, count)?;
        self.batch.block = Some(addr);
        Ok(())
    }

    // Returns the index that the next access gets in its call. After an `until` that is a further call.
    fn place(&self) -> usize
        ensures { result ≡ length (script_further (script_draft_sayings self.now)).batch.accesses }
    {
        if self.batch.until.is_some() {
            0
        } else {
            self.batch.accesses.len()
        }
    }

    // Returns whether the call of the next access may have `count` more accesses.
    fn has_room_for(&self, count: u32) -> bool
        ensures { result ≡ nat_le (length (script_further (script_draft_sayings self.now)).batch.accesses + count)
            65536 }
    {
        self.place() as u64 + u64::from(count) <= u64::from(MOST_ACCESSES)
    }

    /// Returns the whole script, whose last line has this number.
    pub(crate) fn finish(self, line: u64) -> Result<Script<A>, ScriptFault>
        ensures ok { IfOk result (λ script. script_meaning self.memory (script_draft_sayings self)
            ≡ Ok (read_script_meaning script)) }
        ensures err { IfErr result (λ fault. IsScriptEndFault fault line
            (script_meaning self.memory (script_draft_sayings self))) }
    {
        let Draft {
            alloc: _,
            memory,
            room,
            core,
            earlier: mut batches,
            batch,
        } = self;
        let Some(extent) = memory else {
            return Err(ScriptFault::NoMemoryLine { line: 1 });
        };
        if batches.push(batch).is_err() {
            return Err(ScriptFault::Memory { line });
        }
        Ok(Script {
            base: extent.base,
            words: extent.words,
            room: room.unwrap_or(MOST),
            core,
            batches,
        })
    }
}

// Returns whether `count` words from an address on are at least one, at multiples of 4, and end within 32
// bits.
fn are_words(addr: u32, count: u32) -> bool
    ensures { result ≡ are_script_words addr count }
{
    addr % 4 == 0 && count >= 1 && u64::from(addr) + 4 * u64::from(count) <= 1 << 32
}

// Returns whether the word of an `until` can come, and the number of its reads is in range.
fn can_come(until: Until) -> bool
    ensures { result ≡ script_until_can_match until }
{
    until.value & until.mask == until.value && until.most >= 1 && until.most <= MOST_READS
}
