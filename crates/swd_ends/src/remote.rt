//! Runs a script at a target behind a line: OpenOCD's remote_bitbang characters, or the packets of a probe.
ghost use Rattle.std.specs.Prelude.{◌≡◌};
ghost use Rattle.swd_remote.specs.WholeRuns.{GoesOver, IsUnusedRemote};
ghost use Rattle.swd_run.specs.Records.{run_files_of};
ghost use Rattle.swd_ends.specs.RemoteRuns.{RunsRemote, remote_end_answer, remote_end_script_fault};

use crate::run_job::RunJob;
use std::alloc::Allocator;
use std::io::{Read, Write};
use swd_io::Unread;
use swd_port::Story;
use swd_remote::{Line, RemoteStreams, over_line};
use swd_run::{EngineFault, Finished, Limits, Progress, Records};
use swd_script::{ScriptFault, read_script};
use swd_text::ItemsPrinter;
use thiserror::Error;

/// The error of a script's run at a remote target.
#[derive(Clone, Copy, Debug, PartialEq, Eq, Error)]
pub enum RemoteFault {
    /// The script is invalid.
    #[error("script {0}")]
    Script(ScriptFault),
    /// The script's reader failed.
    #[error("read failed")]
    Read,
    /// The script wasn't run to its end, or not all output was written.
    #[error(transparent)]
    Engine(EngineFault),
}

impl RemoteFault {
    // Returns the error of a script that wasn't read.
    fn unread(unread: Unread<ScriptFault>) -> RemoteFault
        ensures { result ≡ remote_end_script_fault unread }
    {
        match unread {
            Unread::Reader => RemoteFault::Read,
            Unread::Consumer(fault) => RemoteFault::Script(fault),
        }
    }
}

/// A run of a script at a remote target.
#[derive(Drop)]
pub struct RemoteRan<R, W, O, T, I, G> {
    /// The result.
    pub answer: Result<Finished, RemoteFault>,
    /// The connection, with the error that ended it, if any.
    pub line: RemoteStreams<R, W>,
    /// The writer of the reports.
    pub report: O,
    /// The writers of the other files.
    pub records: Records<T, I, G>,
}

/// Reads a script, and runs its calls by a [`RunJob`] at the target behind a line. Writes their reports, and the files
/// for which `records` has a writer. Then ends the connection, over characters by `Q`.
///
/// Over characters, up to the first I/O error, exactly `O`, the characters of the calls of a wire and `Q` are sent, and
/// exactly the levels that these calls ask for are read. Nothing is sent after that error.
///
/// # Errors
///
/// Returns `Script` for the first error of the script, or if out of memory for its accesses. Returns `Read` if its
/// reader failed. The connection wasn't used in these cases. Returns `Engine` as `swd_run::run_batches` does.
pub fn run_remote<
    P: Story,
    S: Read,
    R: Read,
    W: Write,
    O: Write + Drop,
    T: Write + Drop,
    I: ItemsPrinter + Drop,
    A: Allocator + Copy,
    G: Progress + Drop,
>(
    alloc: A,
    script: &mut S,
    line: Line<R, W>,
    limits: Limits,
    report: O,
    records: Records<T, I, G>,
) -> RemoteRan<R, W, O, T, I, G>
    ensures { RunsRemote P.at limits
        (λ calls. ∥ GoesOver line.way R.remaining W.contents (W.contents line.writer) (R.remaining line.reader)
        result.line calls ∥₁)
        (IsUnusedRemote R.remaining W.contents (W.contents line.writer) (R.remaining line.reader) result.line)
        result.answer (S.remaining script.old) (O.contents report) (O.contents result.report)
        (run_files_of T.contents I.text records) (run_files_of T.contents I.text result.records) }
{
    let script = match read_script(alloc, script) {
        Ok(script) => script,
        Err(unread) => return RemoteRan {
            answer: Err(RemoteFault::unread(unread)),
            line: RemoteStreams::unused(line.reader, line.writer),
            report,
            records,
        },
    };
    let mut job = RunJob {
        alloc,
        script: &script,
        limits,
        report,
        records,
    };
    let (answer, line) = over_line::<P, _, _, _>(&mut job, line);
    let RunJob {
        report,
        records,
        ..
    } = job;
    RemoteRan {
        answer: answer_of(answer),
        line,
        report,
        records,
    }
}

// Returns the result of a script that was read and run.
fn answer_of(answer: Result<Finished, EngineFault>) -> Result<Finished, RemoteFault>
    ensures { result ≡ remote_end_answer answer }
{
    match answer {
        Ok(finished) => Ok(finished),
        Err(fault) => Err(RemoteFault::Engine(fault)),
    }
}
