//! The commands at a target, and the one place where what leads there is opened.
ghost use Rattle.std.specs.Prelude.{◌≡◌, ◌≢◌, IsSomeAnd, codes};
ghost use Rattle.std.specs.Option.{option_map};

use crate::conform::Conforming;
use std::alloc::Global;
use std::io::{Read, Write};
use swd_command_line::{CoreLine, ImageLine, InfoLine, RunLine};
use swd_console::{
    Clock, Console, Files, KeepsError, LineFiles, Untold, Watched, named_file_of, open_line, tell,
    tell_info, tell_session,
};
use swd_image_commands::perform_image;
use swd_run_commands::{perform_core, perform_info, perform_run, print_core};

const SHOWN: &str = "\
--remote: standard output is a terminal, not a target's line: connect it, as by \
swd-line localhost:4711 -- swd .., or name files, --remote=IN,OUT";

/// A command at a target.
#[derive(Drop)]
pub(crate) enum TargetCommand<'a, 'b> {
    Run(&'a RunLine),
    Info(&'a InfoLine),
    Core(&'a CoreLine),
    Image(&'a ImageLine),
    Conform(&'b mut Conforming<'a>),
}

impl TargetCommand<'_, '_> {
    // Performs the command at the target to which these streams lead, and returns the status.
    fn perform<I: Read + KeepsError, O: Write + KeepsError, F: Files, C: Clock, E: Write>(
        self,
        input: &mut I,
        output: &mut O,
        console: &mut Console<'_, Global, F, C, E>,
    ) -> u8 {
        match self {
            TargetCommand::Run(run) => perform_run(run, input, output, console),
            TargetCommand::Info(info) => {
                let (status, line) = perform_info::<Untold, _, _, _, _, _, _>(
                    info, input, output, console,
                );
                tell_info(console.errors, status, &line);
                status
            }
            TargetCommand::Core(core) if core.script => print_core(core, output, console),
            TargetCommand::Core(core) => perform_core::<Untold, _, _, _, _, _, _>(
                core, input, output, console,
            ).0,
            TargetCommand::Image(image) => {
                let (status, line) = perform_image::<Untold, _, _, _, _, _, _>(
                    image, input, output, console,
                );
                tell_session(console.errors, status, &line);
                status
            }
            TargetCommand::Conform(run) => run.perform(input, output, console),
        }
    }
}

/// Performs a command at its target, and returns the status. `lead` names the files that lead there, which are opened,
/// or is `-`: then the standard streams do. Without one the target is simulated. In a terminal no command speaks to a
/// target: its characters would fill the screen.
pub(crate) fn lead_to<I: Read + KeepsError, O: Write + KeepsError, F: Files, C: Clock, E: Write>(
    command: TargetCommand<'_, '_>,
    lead: Option<&str>,
    to_probe: bool,
    input: &mut I,
    output: &mut O,
    console: &mut Console<'_, Global, F, C, E>,
) -> u8
    ensures { IsSomeAnd (option_map (λ s. s.now) lead.entry) (λ files. files ≢ codes "-")
        → (I.remaining input.new ≡ I.remaining input.old) × (O.contents output.new ≡ O.contents output.old) }
{
    let Some(lead) = lead else {
        return command.perform(input, output, console);
    };
    match named_file_of(lead) {
        Some(files) => over_files(command, files, to_probe, console),
        None if console.files.shows_output() => tell(console.errors, SHOWN),
        None => command.perform(input, output, console),
    }
}

// Performs a command at the target to which these files lead.
fn over_files<F: Files, C: Clock, E: Write>(
    command: TargetCommand<'_, '_>,
    files: &str,
    to_probe: bool,
    console: &mut Console<'_, Global, F, C, E>,
) -> u8 {
    let (input, output) = match open_line(files, to_probe, console) {
        Ok(opened) => opened,
        Err(status) => return status,
    };
    let files = LineFiles {
        files: console.files,
        input: input.identity,
        output: output.identity,
    };
    let mut console = Console {
        alloc: console.alloc,
        files: &files,
        clock: console.clock,
        errors: &mut *console.errors,
    };
    let (mut input, mut output) = (Watched::line(input.file), Watched::line(output.file));
    command.perform(&mut input, &mut output, &mut console)
}
