//! Performs `swd target` and `swd probe`: a simulated target on the standard streams.
ghost use Rattle.std.specs.Prelude.{◌≡◌, ℕ, List, Option};
ghost use Rattle.swd_run_commands.specs.MemoryTargets.{CommandServesTarget};
ghost use Rattle.swd_run_commands.specs.Targets.{TargetCommandServesHost};

use crate::host::{Hosted, serve_host};
use crate::memory_target::perform_memory_target;
use crate::session::{
    SessionFiles, cut_off_session, give_up_session, missing_of, open_session, served_status,
    served_streams,
};
use crate::unread::unread_status;
use std::alloc::Allocator;
use std::io::{Read, Write};
use swd_command_line::{ScriptLine, ServedMemory, TargetLine};
use swd_console::{
    Console, Files, InUse, KeepsError, ReadRole, StreamsInUse, TrackedReader, Watched, cannot_use,
    tell,
};
use swd_ends::{TargetFault, read_target};

// What is wrong with a script that has more than the device of a target.
const ACCESSES: &str = "a target's script has the lines memory, room and core alone";

/// Serves a host at a simulated target. Returns the status: 0 or 2.
pub fn perform_target<
    I: Read + KeepsError,
    O: Write + KeepsError,
    A: Allocator + Copy,
    F: Files,
    C,
    E: Write,
>(target: &TargetLine, input: &mut I, output: &mut O, console: &mut Console<'_, A, F, C, E>) -> u8
    ensures { CommandServesTarget A result (I.remaining input.old) (I.remaining input.new) (O.contents output.old)
        (O.contents output.new) target.now.idr target.now.buffers target.now.packet_size target.now.memory }
{
    match &target.memory {
        ServedMemory::Script(texts) => perform_script_target(target, texts, input, output, console),
        ServedMemory::File(memory) => perform_memory_target(target, memory, input, output, console),
    }
}

// The script of a target, and its plan.
#[derive(Drop)]
struct TargetTexts<'a, S, P> {
    script: TrackedReader<'a, S>,
    plan: TrackedReader<'a, P>,
}

// Opens the script and the plan, and serves a host at the script's target. Without a plan no faults are injected.
fn perform_script_target<
    I: Read + KeepsError,
    O: Write + KeepsError,
    A: Allocator + Copy,
    F: Files,
    C,
    E: Write,
>(
    target: &TargetLine,
    texts: &ScriptLine,
    input: &mut I,
    output: &mut O,
    console: &mut Console<'_, A, F, C, E>,
) -> u8
    ensures { (script : Option (List ℕ)) × (plan : Option (List ℕ)) × TargetCommandServesHost A result script plan
        target.now.idr target.now.buffers target.now.packet_size (I.remaining input.old) (I.remaining input.new)
        (O.contents output.old) (O.contents output.new) }
{
    let name = texts.script.as_str();
    let mut in_use = InUse::new(StreamsInUse::Both);
    let opened = match in_use.open_read(name, ReadRole::Script, console) {
        Ok(opened) => opened,
        Err(status) => return status,
    };
    let script = TrackedReader::new(name, Watched::new(opened.file));
    let Some(name) = &texts.plan else {
        let plan = TrackedReader::new("", Watched::new([].as_slice()));
        let texts = TargetTexts { script, plan };
        return serve_under(target, texts, in_use, input, output, console);
    };
    match in_use.open_read(name.as_str(), ReadRole::Plan, console) {
        Ok(opened) => {
            let plan = TrackedReader::new(name.as_str(), Watched::new(opened.file));
            let texts = TargetTexts { script, plan };
            serve_under(target, texts, in_use, input, output, console)
        }
        Err(status) => status,
    }
}

// Opens the files of the log and the trace, and serves a host. Writes both files while it does: if there is no target,
// they have what they had.
fn serve_under<
    S: Read + KeepsError + Drop,
    P: Read + KeepsError + Drop,
    I: Read + KeepsError,
    O: Write + KeepsError,
    A: Allocator + Copy,
    F: Files,
    C,
    E: Write,
>(
    target: &TargetLine,
    texts: TargetTexts<'_, S, P>,
    in_use: InUse,
    input: &mut I,
    output: &mut O,
    console: &mut Console<'_, A, F, C, E>,
) -> u8
    ensures { TargetCommandServesHost A result (S.remaining texts.entry.script.reader)
        (P.remaining texts.entry.plan.reader) target.now.idr target.now.buffers target.now.packet_size
        (I.remaining input.old) (I.remaining input.new) (O.contents output.old) (O.contents output.new) }
{
    let TargetTexts {
        mut script,
        mut plan,
    } = texts;
    let mut in_use = in_use;
    let files = match open_session(target, &mut in_use, console) {
        Ok(files) => files,
        Err(status) => return status,
    };
    let kept = files.empty_trace(console.alloc);
    let (idr, buffers) = (target.idr, target.buffers);
    match read_target(console.alloc, &mut script, &mut plan, idr, buffers, kept) {
        Ok(pins) => {
            if let Err(status) = cut_off_session(target, &files, console) {
                return status;
            }
            let SessionFiles { log, trace } = files;
            let Hosted {
                served,
                is_cut_off,
                pins,
                files,
            } = serve_host(target.packet_size, input, output, pins, log, trace);
            let missing = missing_of(&files, pins.trace(), is_cut_off);
            let (log, trace) = files.into_writers();
            let files = SessionFiles { log, trace };
            let streams = served_streams(target, input, output, &files);
            served_status(console.errors, target, served, missing, streams.as_slice())
        }
        Err(fault) => {
            give_up_session(target, files, console);
            target_status(console.errors, fault, &script, &plan)
        }
    }
}

// Prints why there is no target, and returns the status 2.
fn target_status<S: KeepsError, P: KeepsError, E: Write>(
    errors: &mut E,
    fault: TargetFault,
    script: &TrackedReader<'_, S>,
    plan: &TrackedReader<'_, P>,
) -> u8
    ensures { result ≡ 2 }
{
    match fault {
        TargetFault::Texts(fault) => unread_status(errors, fault, script, plan),
        TargetFault::Memory => tell(errors, "no memory"),
        TargetFault::Accesses => cannot_use(errors, script.name(), &ACCESSES),
    }
}
