//! Performs `swd target --memory`: a simulated target on the standard streams, whose memory is in a file.
ghost use Rattle.std.specs.Prelude.{◌≡◌, ◌+◌, ◌≤◌, ◌^◌, ℕ, List, Option};
ghost use Rattle.swd_target.specs.Marks.{IsLegalPlan};
ghost use Rattle.swd_run_commands.specs.MemoryTargets.{ServesBytes, ServesMemory, TargetCommandServes};
ghost use Rattle.swd_run_commands.specs.MemoryTargets.{target_command_room};

use crate::host::{Hosted, serve_host};
use crate::session::{
    SessionFiles, cut_off_session, missing_of, open_session, served_status, served_streams,
};
use std::alloc::Allocator;
use std::io::{Read, Write};
use swd_bitbang::Pins;
use swd_command_line::{MemoryLine, TargetLine};
use swd_console::{
    Console, Files, HeldMemory, InUse, KeepsError, MemoryFile, StreamsInUse, Watched, WriteRole,
    cannot_use, read_target_files, tell_used_up, write_back,
};
use swd_ends::target_pins;
use swd_image_ends::memory_with;
use swd_target::Memory;

/// Reads the memory's file, and serves a host at the target that has it. Then writes the memory to the file. Returns
/// the status: 0 or 2.
pub(crate) fn perform_memory_target<
    I: Read + KeepsError,
    O: Write + KeepsError,
    A: Allocator + Copy,
    F: Files,
    C,
    E: Write,
>(
    target: &TargetLine,
    memory: &MemoryLine,
    input: &mut I,
    output: &mut O,
    console: &mut Console<'_, A, F, C, E>,
) -> u8
    ensures { (ram : Option (List ℕ)) × ServesMemory A result (I.remaining input.old) (I.remaining input.new)
        (O.contents output.old) (O.contents output.new) target.now.idr target.now.buffers
        target.now.packet_size memory.now ram }
{
    let mut in_use = InUse::new(StreamsInUse::Both);
    match read_target_files(memory, &mut in_use, console) {
        Ok(held) => serve_held(target, held, in_use, input, output, console),
        Err(status) => status,
    }
}

// Returns the room of a session at a memory of so many words: 16 transfers for each word, and 65,536 more. It is
// smaller only where the log would have more than 2^32 - 1 transfers, with one for each word.
fn session_room(words: u32) -> u32
    ensures { result ≡ target_command_room words }
{
    let room = 16 * u64::from(words) + 65_536;
    room.min(u64::from(u32::MAX - words)) as u32
}

// Opens the memory's file again, and the files of the session, and serves a host at the target with this memory.
fn serve_held<
    I: Read + KeepsError,
    O: Write + KeepsError,
    A: Allocator + Copy,
    F: Files,
    C,
    E: Write,
>(
    target: &TargetLine,
    held: HeldMemory<'_, A>,
    in_use: InUse,
    input: &mut I,
    output: &mut O,
    console: &mut Console<'_, A, F, C, E>,
) -> u8
    requires { IsLegalPlan held.marks.items }
    ensures { ServesBytes A result (I.remaining input.old) (I.remaining input.new) (O.contents output.old)
        (O.contents output.new) target.now.idr target.now.buffers target.now.packet_size held.entry.memory.now.base
        held.entry.bytes.items held.entry.marks.items }
{
    let HeldMemory {
        memory,
        bytes,
        marks,
    } = held;
    let slice = bytes.as_slice();
    let mut in_use = in_use;
    let name = memory.file.as_str();
    let room = session_room((slice.len() / 4) as u32);
    let Some(words) = memory_with(console.alloc, memory.base, slice, room) else {
        return cannot_use(console.errors, name, &"no memory");
    };
    let file = match in_use.open_write(name, WriteRole::Memory, console) {
        Ok(opened) => opened.file,
        Err(status) => return status,
    };
    let files = match open_session(target, &mut in_use, console) {
        Ok(files) => files,
        Err(status) => return status,
    };
    if let Err(status) = cut_off_session(target, &files, console) {
        return status;
    }
    let trace = files.empty_trace(console.alloc);
    let pins = target_pins(words, marks, target.idr, target.buffers, trace);
    let back = MemoryFile {
        memory,
        count: slice.len() as u64,
        file,
    };
    let session = Session { pins, files, back };
    serve_session(target, session, input, output, console)
}

// A session at a memory from a file: the pins of its target, its files, and the file that the memory is written to.
struct Session<'a, M, A: Allocator> {
    pins: Pins<Memory<A>, A>,
    files: SessionFiles<Watched<M>>,
    back: MemoryFile<'a, M>,
}

// Serves a host, and writes the log and the trace while it does. Then writes the memory to its file, whatever ended the
// session.
fn serve_session<
    I: Read + KeepsError,
    O: Write + KeepsError,
    A: Allocator + Copy,
    F: Files,
    C,
    E: Write,
>(
    target: &TargetLine,
    session: Session<'_, F::Made, A>,
    input: &mut I,
    output: &mut O,
    console: &mut Console<'_, A, F, C, E>,
) -> u8
    requires { session.back.memory.now.base + session.back.count ≤ 2 ^ 32 }
    ensures { (new : Option (List ℕ)) × TargetCommandServes target.now.packet_size session.entry.pins
        session.entry.back.memory.now.base session.entry.back.count
        result (I.remaining input.old) (I.remaining input.new) (O.contents output.old) (O.contents output.new)
        (F.Made.Write.contents session.entry.back.file) new }
{
    let Session {
        pins,
        files,
        mut back,
    } = session;
    let SessionFiles { log, trace } = files;
    let before = pins.target().memory().log().len();
    let Hosted {
        served,
        is_cut_off,
        pins,
        files,
    } = serve_host(target.packet_size, input, output, pins, log, trace);
    let missing = missing_of(&files, pins.trace(), is_cut_off);
    let (log, trace) = files.into_writers();
    let files = SessionFiles { log, trace };
    let after = pins.target().memory();
    tell_if_used_up(console.errors, back.memory.base, after, before);
    match write_back(after, &mut back, console) {
        Ok(()) => {
            let streams = served_streams(target, input, output, &files);
            served_status(console.errors, target, served, missing, streams.as_slice())
        }
        Err(status) => status,
    }
}

// Prints that the room of a session is used up, if no further transfer can succeed. `before` is how many the target had
// made before the session.
fn tell_if_used_up<E: Write, A: Allocator>(
    errors: &mut E,
    base: u32,
    after: &Memory<A>,
    before: usize,
) {
    if after.word(base).is_some() && !after.is_ready(base) {
        tell_used_up(errors, after.log().len().saturating_sub(before));
    }
}
