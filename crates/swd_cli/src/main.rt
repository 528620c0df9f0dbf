//! The program `swd`.
#![tactic(auto)]

mod beside;
mod disk;
mod stopwatch;

use disk::Disk;
use std::process::ExitCode;
use std::{env, io};
use stopwatch::Stopwatch;
use swd_commands::run_arguments;
use swd_console::Console;

// Reads the arguments behind the program's name.
fn arguments(rt: &HostRuntime) -> io::Result<Vec<String>> {
    Ok(env::args(rt)?.skip(1).collect(rt.alloc())?)
}

// Runs the program with its arguments, its standard streams, and the machine's files and clock.
fn main(rt: HostRuntime) -> ExitCode {
    let mut console = Console {
        alloc: rt.alloc(),
        files: &Disk { rt: &rt },
        clock: &Stopwatch::start(&rt),
        errors: &mut rt.stderr(),
    };
    ExitCode::from(run_arguments(
        rt.alloc(),
        arguments(&rt),
        &mut rt.stdin(),
        &mut rt.stdout(),
        &mut console,
    ))
}
