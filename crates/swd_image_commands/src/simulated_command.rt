//! Performs `swd load`, `swd verify` and `swd dump` at a simulated target, whose memory is in a file.
ghost use Rattle.std.specs.Prelude.{◌≡◌, ◌+◌, ◌≤◌, ◌^◌, ℕ, IfErr, IfOk, IfSome, List, Option, is_some, length};
ghost use Rattle.swd_host.specs.Reports.{IsAtRest};
ghost use Rattle.swd_port.specs.PlainBus.{bus_of};
ghost use Rattle.swd_target.specs.Benches.{bench_port};
ghost use Rattle.swd_target.specs.Marks.{IsLegalPlan};
ghost use Rattle.swd_image_ends.specs.Pieces.{pieces_to_load};
ghost use Rattle.swd_image_commands.specs.declared.pieces.PiecesAction.{PiecesAction as PiecesActionType};
ghost use Rattle.swd_image_commands.specs.Simulated.{DumpCommandSimulated, IsBackFor, IsWrittenBackFor};
ghost use Rattle.swd_image_commands.specs.Simulated.{PiecesCommandSimulated, SimulatesAction, SimulatesCommandTarget};
ghost use Rattle.swd_image_commands.specs.Simulated.{SimulatesDump, SimulatesImage, SimulatesPieces};
ghost use Rattle.swd_image_commands.specs.Simulated.{simulated_back_held};

use crate::image_file::{finish_dump, keep_or_give_up, open_dump, read_image_file, withdraw_dump};
use crate::image_report::{ReportTo, image_reports, limits_of, open_report, words_in, words_of};
use crate::pieces::{PiecesAction, PiecesJob};
use crate::result::{Came, pieces_status, range_of, reached};
use std::alloc::Allocator;
use std::io::Write;
use swd_command_line::{ImageAction, ImageLine, MemoryLine};
use swd_console::{
    Clock, Console, Escaped, Files, HeldMemory, InUse, MemoryFile, StreamsInUse, Watched,
    WriteRole, cannot_use, read_target_files, write_back,
};
use swd_image::{ImageFault, dump};
use swd_image_ends::simulated_target;
use swd_image_files::Image;
use swd_target::{Bench, Memory};

/// Reads the memory's file, and performs a command over an image at the simulated target that has it. Returns the
/// status.
pub(crate) fn perform_simulated<A: Allocator + Copy, F: Files, C: Clock, E: Write>(
    image: &ImageLine,
    memory: &MemoryLine,
    console: &mut Console<'_, A, F, C, E>,
) -> u8
    ensures { (text : Option (List ℕ)) × SimulatesImage A image.now memory.now result text }
{
    let mut in_use = InUse::new(StreamsInUse::Neither);
    match read_target_files(memory, &mut in_use, console) {
        Ok(held) => simulate_action(image, held, &mut in_use, console),
        Err(status) => status,
    }
}

// Performs the command at the target.
fn simulate_action<A: Allocator + Copy, F: Files, C: Clock, E: Write>(
    image: &ImageLine,
    held: HeldMemory<'_, A>,
    in_use: &mut InUse,
    console: &mut Console<'_, A, F, C, E>,
) -> u8
    requires { IsLegalPlan held.marks.items }
    ensures { SimulatesAction A image.now image.now.action held.entry.memory.now.base held.entry.bytes.items
        held.entry.marks.items result }
{
    match image.action {
        ImageAction::Load => simulate_pieces(image, PiecesAction::Load, held, in_use, console),
        ImageAction::Verify => simulate_pieces(image, PiecesAction::Verify, held, in_use, console),
        ImageAction::Dump(count) => simulate_dump(image, count, held, in_use, console),
    }
}

// Returns the room that the log needs for the transfers of an image: one for each word, which is at most one for four
// bytes and two for each piece, and those of a load's partial words. After a lost acknowledgement each call may repeat
// some, one for each mark that loses a request, and two more. All this is at most twice the words, and 16 for each
// piece.
fn spare_room(pieces: usize, bytes: u64, marks: usize) -> u32 {
    let most = (pieces as u64)
        .saturating_mul(16)
        .saturating_add(bytes / 2)
        .saturating_add(marks as u64);
    most.min(u32::MAX as u64) as u32
}

// Makes the target. At an error it prints a line with the memory's name and returns the status 2.
fn target_of<A: Allocator + Copy, F, C, E: Write>(
    held: HeldMemory<'_, A>,
    spare: u32,
    console: &mut Console<'_, A, F, C, E>,
) -> Result<Bench<Memory<A>, A>, u8>
    requires { IsLegalPlan held.marks.items }
    ensures target { IfOk result (SimulatesCommandTarget held.entry.memory.now.base held.entry.bytes.items
        held.entry.marks.items) }
    ensures status { IfErr result (λ status. status ≡ 2) }
{
    let HeldMemory {
        memory,
        bytes,
        marks,
    } = held;
    match simulated_target(console.alloc, memory.base, bytes.as_slice(), spare, marks) {
        Some(bench) => Ok(bench),
        None => Err(cannot_use(console.errors, memory.file.as_str(), &"no memory")),
    }
}

// Prints that the memory doesn't have the word of a bus error, if it doesn't, and where its words begin.
fn tell_outside<V, A: Allocator, E: Write>(
    errors: &mut E,
    image: &ImageLine,
    answer: &Result<V, ImageFault>,
    after: &Memory<A>,
) {
    if let Err(ImageFault::BusFault(at)) = answer
        && let Some(memory) = &image.memory
        && after.word(*at - *at % 4).is_none()
    {
        let (name, base) = (Escaped(memory.file.as_str()), memory.base);
        let longer = if *at < base {
            ""
        } else {
            ", or it is too short"
        };
        let _ = writeln!(
            errors,
            "swd: {name} has no word at {at:08x}: its words begin at {base:08x}, see --base{longer}"
        );
    }
}

// Loads the file's pieces, and writes the memory back; or compares the memory with them.
fn simulate_pieces<A: Allocator + Copy, F: Files, C: Clock, E: Write>(
    image: &ImageLine,
    action: PiecesAction,
    held: HeldMemory<'_, A>,
    in_use: &mut InUse,
    console: &mut Console<'_, A, F, C, E>,
) -> u8
    requires { IsLegalPlan held.marks.items }
    ensures { SimulatesPieces A image.now held.entry.memory.now.base held.entry.bytes.items held.entry.marks.items
        result action }
{
    let whole = match read_image_file(image, in_use, console) {
        Ok(whole) => whole,
        Err(status) => return status,
    };
    let mut back = match open_back(action, &held, in_use, console) {
        Ok(back) => back,
        Err(status) => return status,
    };
    let report = match open_report(image, in_use, console) {
        Ok(report) => report,
        Err(status) => return status,
    };
    let spare = spare_room(
        whole.ranges.len(),
        whole.bytes.len() as u64,
        held.marks.len(),
    );
    match target_of(held, spare, console) {
        Ok(bench) => pieces_over(image, &whole, bench, &mut back, report, console),
        Err(status) => status,
    }
}

// The memory's file, which a load writes back. A verification has none.
type Back<'a, M> = Option<MemoryFile<'a, M>>;

// Opens the memory's file, if it is to be written back. At an error it prints a line and returns the status 2.
fn open_back<'a, A: Allocator, F: Files, C, E: Write>(
    action: PiecesAction,
    held: &HeldMemory<'a, A>,
    in_use: &mut InUse,
    console: &mut Console<'_, A, F, C, E>,
) -> Result<Back<'a, F::Made>, u8>
    ensures back { IfOk result (IsBackFor action held.now.memory.now.base (length held.now.bytes.items)) }
    ensures fits { IfOk result (λ back. IfSome back (λ to. to.memory.now.base + to.count ≤ 2 ^ 32)) }
    ensures status { IfErr result (λ status. status ≡ 2) }
{
    let PiecesAction::Load = action else {
        return Ok(None);
    };
    let memory = held.memory;
    match in_use.open_write(memory.file.as_str(), WriteRole::Memory, console) {
        Ok(opened) => Ok(Some(MemoryFile {
            memory,
            count: held.bytes.len() as u64,
            file: opened.file,
        })),
        Err(status) => Err(status),
    }
}

// Returns the action for which there is this file, or none.
fn action_of<M>(back: &Back<'_, M>) -> PiecesAction
    ensures { (action : PiecesActionType) (base count : ℕ) → IsBackFor action base count back.now → result ≡ action }
{
    match back {
        Some(_) => PiecesAction::Load,
        None => PiecesAction::Verify,
    }
}

// Writes the memory back, if there is a file for it.
fn write_back_to<A: Allocator + Copy, F: Files, C, E: Write>(
    after: &Memory<A>,
    back: &mut Back<'_, F::Made>,
    console: &mut Console<'_, A, F, C, E>,
) -> Result<(), u8>
    requires { IfSome back.old (λ to. to.memory.now.base + to.count ≤ 2 ^ 32) }
    ensures { (action : PiecesActionType) (base count : ℕ) → IsBackFor action base count back.old
        → IsWrittenBackFor action after.now base count result (simulated_back_held F.Made.Write.contents back.old)
        (simulated_back_held F.Made.Write.contents back.new) }
{
    match back {
        Some(to) => write_back(after, to, console),
        None => Ok(()),
    }
}

// Makes the calls for the pieces at the target, and writes the memory after that back, however the run ended.
fn pieces_over<A: Allocator + Copy, F: Files, C: Clock, E: Write>(
    image: &ImageLine,
    whole: &Image<A>,
    mut bench: Bench<Memory<A>, A>,
    back: &mut Back<'_, F::Made>,
    opened: ReportTo<F::Made>,
    console: &mut Console<'_, A, F, C, E>,
) -> u8
    requires rests { IsAtRest (bench_port bus_of bench) }
    requires fits { IfSome back.old (λ to. to.memory.now.base + to.count ≤ 2 ^ 32) }
    requires named { is_some opened ≡ is_some image.now.report }
    ensures { (action : PiecesActionType) (base count : ℕ) → IsBackFor action base count back.old
        → PiecesCommandSimulated image.now action (pieces_to_load whole.now) bench base count result
        (simulated_back_held F.Made.Write.contents back.old) (simulated_back_held F.Made.Write.contents back.new) }
{
    let (action, words) = (action_of(back), words_in(whole));
    let mut job = PiecesJob {
        alloc: console.alloc,
        action,
        whole,
        limits: limits_of(image),
        report: image_reports(image, opened, words, &mut *console.errors, console.clock),
    };
    let answer = job.make_calls(&mut bench);
    let streams = [job.report.stream(image)];
    let came = Came {
        ranges: whole.ranges.as_slice(),
        done: job.report.done,
    };
    drop(job);
    tell_outside(console.errors, image, &answer, bench.memory());
    match write_back_to(bench.memory(), back, console) {
        Ok(()) => {
            let answer = reached(console.errors, answer, None, streams.as_slice(), came);
            pieces_status(console.errors, image, action, whole, answer)
        }
        Err(status) => status,
    }
}

// Opens the file, and reads bytes of the memory. Then replaces the file by the bytes.
fn simulate_dump<A: Allocator + Copy, F: Files, C: Clock, E: Write>(
    image: &ImageLine,
    count: u32,
    held: HeldMemory<'_, A>,
    in_use: &mut InUse,
    console: &mut Console<'_, A, F, C, E>,
) -> u8
    requires { IsLegalPlan held.marks.items }
    ensures { SimulatesDump A image.now count held.entry.memory.now.base held.entry.bytes.items held.entry.marks.items
        result }
{
    let mut file = match open_dump(image, in_use, console) {
        Ok(file) => file,
        Err(status) => return status,
    };
    let report = match open_report(image, in_use, console) {
        Ok(report) => report,
        Err(status) => {
            keep_or_give_up(image, status, &mut file.stream, console);
            return status;
        }
    };
    withdraw_dump(image, &file.stream, console);
    let spare = spare_room(1, count as u64, held.marks.len());
    match target_of(held, spare, console) {
        Ok(bench) => dump_over(image, count, bench, &mut file, report, console),
        Err(status) => {
            keep_or_give_up(image, status, &mut file.stream, console);
            status
        }
    }
}

// Reads bytes of the target's memory. Then replaces the file by the bytes.
fn dump_over<A: Allocator + Copy, F: Files, C: Clock, E: Write>(
    image: &ImageLine,
    count: u32,
    mut bench: Bench<Memory<A>, A>,
    file: &mut Watched<F::Made>,
    opened: ReportTo<F::Made>,
    console: &mut Console<'_, A, F, C, E>,
) -> u8
    requires rests { IsAtRest (bench_port bus_of bench) }
    requires named { is_some opened ≡ is_some image.now.report }
    ensures { DumpCommandSimulated image.now count bench result }
{
    let (addr, limits) = (image.addr, limits_of(image));
    let words = words_of(addr, u64::from(count));
    let mut report = image_reports(image, opened, words, &mut *console.errors, console.clock);
    let answer = dump(
        console.alloc,
        &mut bench,
        addr,
        count as u64,
        limits,
        &mut report,
    );
    let streams = [report.stream(image)];
    let range = range_of(addr, count);
    let came = Came {
        ranges: &[range],
        done: report.done,
    };
    drop(report);
    tell_outside(console.errors, image, &answer, bench.memory());
    let answer = reached(console.errors, answer, None, streams.as_slice(), came);
    finish_dump(image, answer, file, console)
}
