//! Reads and writes the file of a simulated target's memory, and reads its plan.
ghost use Rattle.std.specs.Prelude.{◌≡◌, ◌+◌, ◌≤◌, ◌^◌, [], ℕ, IfErr, IfOk, List, None, OnOk, Option};
ghost use Rattle.swd_io.specs.Pieces.{IsReaderText};
ghost use Rattle.swd_target.specs.Marks.{IsLegalPlan};
ghost use Rattle.swd_image_ends.specs.Memories.{AreImageEndWholeWords};
ghost use Rattle.swd_console.specs.MemoryFiles.{CommandWritesBack};
ghost use Rattle.swd_console.specs.Roles.{ReadsConsoleMemory, ReadsConsolePlan};

use crate::in_use::{InUse, ReadRole};
use crate::machine::Console;
use crate::noted::TrackedReader;
use crate::open_files::Files;
use crate::reason::plan_status;
use crate::report::{FAULT, cannot_open, cannot_use};
use crate::streams::{Stream, tell_failure, tell_failure_or};
use crate::watched::{KeepsError, Watched};
use std::alloc::Allocator;
use std::fmt::{Display, Formatter};
use std::io::{Read, Write};
use std::{fmt, io};
use swd_command_line::MemoryLine;
use swd_image_ends::{FileFault, memory_bytes, read_file};
use swd_io::{Unread, send};
use swd_port::Mark;
use swd_script::read_plan;
use swd_target::Memory;

// The length of a file that is no memory: a memory has whole words.
#[derive(Drop)]
struct OddLength(usize);

impl Display for OddLength {
    fn fmt<W: fmt::Write>(&self, f: &mut Formatter<W>) -> fmt::Result {
        let length = self.0;
        write!(
            f,
            "its length, {length}, is no multiple of 4: truncate -s %4 FILE appends zeros"
        )
    }
}

/// The bytes of a memory, and the marks of its plan.
#[derive(Drop)]
pub struct HeldMemory<'a, A: Allocator> {
    pub memory: &'a MemoryLine,
    pub bytes: Vec<u8, A>,
    pub marks: Vec<Mark, A>,
    pub ghost whole: { AreImageEndWholeWords memory.now.base bytes.items },
}

/// The file of a memory that is open for writing, and how many bytes it gets.
#[derive(Drop)]
pub struct MemoryFile<'a, M> {
    pub memory: &'a MemoryLine,
    pub count: u64,
    pub file: M,
}

/// Opens and reads the file of a memory, and that of its plan. Without a plan no faults are injected. At an error it
/// prints a line and returns the status 2.
pub fn read_target_files<'a, A: Allocator + Copy, F: Files, C, E: Write>(
    memory: &'a MemoryLine,
    in_use: &mut InUse,
    console: &mut Console<'_, A, F, C, E>,
) -> Result<HeldMemory<'a, A>, u8>
    ensures memory { IfOk result (λ held. held.memory.now ≡ memory.now) }
    ensures text { IfOk result (λ held. (text : Option (List ℕ)) × IsReaderText text held.bytes.items) }
    ensures legal { IfOk result (λ held. IsLegalPlan held.marks.items) }
    ensures none { IfOk result (λ held. memory.now.plan ≡ None → held.marks.items ≡ []) }
    ensures used { OnOk result (ReadsConsoleMemory memory.now.plan in_use.old in_use.new) }
    ensures status { IfErr result (λ status. status ≡ 2) }
{
    let name = memory.file.as_str();
    let opened = match in_use.open_read(name, ReadRole::Memory, console) {
        Ok(opened) => opened,
        Err(status) => return Err(status),
    };
    let bytes = match read_memory(memory, &mut Watched::new(opened.file), console) {
        Ok(bytes) => bytes,
        Err(status) => return Err(status),
    };
    match read_marks(memory, in_use, console) {
        Ok(marks) => Ok(HeldMemory {
            memory,
            bytes,
            marks,
        }),
        Err(status) => Err(status),
    }
}

// Reads the bytes of a memory. At an error it prints a line with the file's name and returns the status 2.
fn read_memory<R: Read + KeepsError, A: Allocator + Copy, F, C, E: Write>(
    memory: &MemoryLine,
    reader: &mut R,
    console: &mut Console<'_, A, F, C, E>,
) -> Result<Vec<u8, A>, u8>
    ensures text { IfOk result (λ bytes. IsReaderText (R.remaining reader.old) bytes.items) }
    ensures whole { IfOk result (λ bytes. AreImageEndWholeWords memory.now.base bytes.items) }
    ensures status { IfErr result (λ status. status ≡ 2) }
{
    let name = memory.file.as_str();
    let most = (1 << 32) - memory.base as u64;
    let bytes = match read_file(console.alloc, reader, most) {
        Ok(bytes) => bytes,
        Err(Unread::Consumer(FileFault::TooLong)) => {
            let why = "the memory extends past ffffffff: see --base";
            return Err(cannot_use(console.errors, name, &why));
        }
        Err(unread) => {
            if tell_failure(console.errors, [Stream::read(name, reader)].as_slice()) {
                return Err(FAULT);
            }
            return Err(cannot_use(console.errors, name, &unread));
        }
    };
    if bytes.len() % 4 != 0 {
        return Err(cannot_use(console.errors, name, &OddLength(bytes.len())));
    }
    Ok(bytes)
}

// Opens and reads the plan, if one is named. At an error it prints a line and returns the status 2.
fn read_marks<A: Allocator + Copy, F: Files, C, E: Write>(
    memory: &MemoryLine,
    in_use: &mut InUse,
    console: &mut Console<'_, A, F, C, E>,
) -> Result<Vec<Mark, A>, u8>
    ensures legal { IfOk result (λ marks. IsLegalPlan marks.items) }
    ensures none { IfOk result (λ marks. memory.now.plan ≡ None → marks.items ≡ []) }
    ensures used { OnOk result (ReadsConsolePlan memory.now.plan in_use.old in_use.new) }
    ensures status { IfErr result (λ status. status ≡ 2) }
{
    let Some(name) = &memory.plan else {
        return Ok(Vec::new(console.alloc));
    };
    let name = name.as_str();
    match in_use.open_read(name, ReadRole::Plan, console) {
        Ok(opened) => read_noted(name, &mut Watched::new(opened.file), console),
        Err(status) => Err(status),
    }
}

// Reads a plan. At an error it prints a line and returns the status 2.
fn read_noted<R: Read + KeepsError, A: Allocator + Copy, F, C, E: Write>(
    name: &str,
    reader: &mut R,
    console: &mut Console<'_, A, F, C, E>,
) -> Result<Vec<Mark, A>, u8>
    ensures legal { IfOk result (λ marks. IsLegalPlan marks.items) }
    ensures status { IfErr result (λ status. status ≡ 2) }
{
    let mut plan = TrackedReader::new(name, reader);
    match read_plan(console.alloc, &mut plan) {
        Ok(marks) => Ok(marks),
        Err(Unread::Consumer(fault)) => Err(plan_status(console.errors, fault, &plan.seen)),
        Err(Unread::Reader) => Err(tell_failure_or(
            console.errors,
            [plan.stream()].as_slice(),
            "read failed",
        )),
    }
}

/// Replaces the file of a memory by its bytes. At an error it prints a line and returns the status 2, and a regular
/// file is as it was.
pub fn write_back<A: Allocator + Copy, F: Files, C, E: Write>(
    after: &Memory<A>,
    to: &mut MemoryFile<'_, F::Made>,
    console: &mut Console<'_, A, F, C, E>,
) -> Result<(), u8>
    requires { to.old.memory.now.base + to.old.count ≤ 2 ^ 32 }
    ensures { CommandWritesBack after.now to.old.memory.now.base to.old.count result
        (F.Made.Write.contents to.old.file) (F.Made.Write.contents to.new.file) }
{
    let name = to.memory.file.as_str();
    let Some(bytes) = memory_bytes(console.alloc, after, to.memory.base, to.count) else {
        return Err(cannot_use(console.errors, name, &"no memory"));
    };
    if let Err(why) = console.files.begin_replacing(name, &mut to.file) {
        return Err(cannot_open(console.errors, name, &why));
    }
    if let Err(unsent) = send(&mut to.file, bytes.as_slice()) {
        return Err(give_back(name, &mut to.file, unsent.error, console));
    }
    match console.files.finish_replacing(&mut to.file) {
        Ok(()) => Ok(()),
        Err(error) => Err(give_back(name, &mut to.file, error, console)),
    }
}

// Leaves the file of a memory as it was, prints why it could not be written, and returns the status 2.
fn give_back<A, F: Files, C, E: Write>(
    name: &str,
    file: &mut F::Made,
    error: io::Error,
    console: &mut Console<'_, A, F, C, E>,
) -> u8
    ensures status { result ≡ 2 }
    ensures same { F.Made.Write.contents file.new ≡ F.Made.Write.contents file.old }
{
    console.files.give_up(name, file);
    let streams = [Stream::failed(name, error)];
    tell_failure_or(console.errors, streams.as_slice(), "write failed")
}
