//! Serves a host at a target, and writes the target's log and trace while the session goes on.
ghost use Rattle.std.specs.Prelude.{◌≡◌, ◌↔◌, drop, false, is_err, length, take, true};
ghost use Rattle.swd_bitbang.specs.Protocols.{ProtocolServes};
ghost use Rattle.swd_run.specs.GrowingFiles.{GrowingFileHas};
ghost use Rattle.swd_run.specs.Records.{run_file_held};
ghost use Rattle.swd_ends.specs.TargetLogs.{live_log_lines};
ghost use Rattle.swd_ends.specs.LiveFiles.{LiveFileFinishes, LiveFileWrites, LiveFilesFollow, live_log_first};
ghost use Rattle.swd_ends.specs.LiveFiles.{live_files_follow_further, live_files_follow_nowhere, live_trace_first};
ghost use Rattle.swd_ends.specs.LiveFiles.{live_pins_sound, live_log_at, live_trace_at, live_transfers_at};
ghost use Rattle.swd_ends.specs.LiveFiles.{live_log_whole, live_trace_whole};

use crate::portions::{Characters, LogLines};
use crate::target_log::counts_line;
use std::alloc::Allocator;
use std::io::{Read, Write};
use swd_bitbang::{Pins, Protocol, Served, Watch, serve_watched};
use swd_port::Transfer;
use swd_run::{GrowingFile, KeepsLog};

/// The files of a session: the log of its target, and the trace of its pins, each if it is wanted.
#[derive(Debug, Drop)]
pub struct LiveFiles<M> {
    // How many transfers the target had made before the session. The log leaves them out.
    skipped: usize,
    log: GrowingFile<M>,
    trace: GrowingFile<M>,
}

// Returns the transfers behind the first `skipped` of a log.
fn transfers_since(log: &[Transfer], skipped: usize) -> &[Transfer]
    ensures { result.now ≡ drop skipped log.now }
{
    if skipped <= log.len() {
        &log[skipped..]
    } else {
        [].as_slice()
    }
}

// Writes the lines of the transfers behind those that were written.
#[tactic(auto, using(crate::proofs::LiveLemmas::live_log_lines_next))]
fn log_on<M: Write>(file: &mut GrowingFile<M>, log: &[Transfer])
    ensures { LiveFileWrites M.contents (λ n. live_log_lines (take n log.now)) (length log.now) file.old file.new }
{
    if file.done < log.len() {
        file.add(&LogLines(&log[file.done..]), log.len());
    }
}

// Writes the characters behind those that were written.
fn trace_on<M: Write>(file: &mut GrowingFile<M>, text: &[u8])
    ensures { LiveFileWrites M.contents (λ n. take n text.now) (length text.now) file.old file.new }
{
    if file.done < text.len() {
        file.add(&Characters(&text[file.done..]), text.len());
    }
}

impl<M> LiveFiles<M> {
    /// Returns the writers of the log and the trace.
    pub fn into_writers(self) -> (Option<M>, Option<M>)
        ensures log { result.0 ≡ self.log.writer }
        ensures trace { result.1 ≡ self.trace.writer }
    {
        (self.log.writer, self.trace.writer)
    }

    /// Returns whether no writer failed: then each file is whole.
    pub fn are_whole(&self) -> bool
        ensures { (result ≡ true) ↔ ((is_err self.now.log.sent ≡ false) × (is_err self.now.trace.sent ≡ false)) }
    {
        self.log.sent.is_ok() && self.trace.sent.is_ok()
    }
}

impl<D: KeepsLog, A: Allocator, M: Write> Watch<D, A> for LiveFiles<M> {
    ghost follows = { LiveFilesFollow D.Device.bus M.contents };

    fn see(&mut self, pins: &Pins<D, A>) {
        self.write(pins);
    }

    ghost stays = { live_files_follow_nowhere D.Device.bus M.contents };

    ghost goes_on = { live_files_follow_further D.Device.bus M.contents };
}

impl<M: Write> LiveFiles<M> {
    // Writes what isn't written yet.
    fn write<D: KeepsLog, A: Allocator>(&mut self, pins: &Pins<D, A>)
        ensures skipped { self.new.skipped ≡ self.old.skipped }
        ensures log { LiveFileWrites M.contents (live_log_first D.Device.bus self.old.skipped pins.now)
            (length (live_log_at D.Device.bus self.old.skipped pins.now)) self.old.log self.new.log }
        ensures trace { LiveFileWrites M.contents (live_trace_first pins.now) (length (live_trace_at pins.now))
            self.old.trace self.new.trace }
    {
        log_on(
            &mut self.log,
            transfers_since(pins.target().device().log(), self.skipped),
        );
        trace_on(&mut self.trace, pins.trace().text());
    }

    // Writes what isn't written yet, and the last lines.
    fn finish<D: KeepsLog, A: Allocator>(&mut self, pins: &Pins<D, A>)
        ensures log { LiveFileFinishes M.contents (live_log_first D.Device.bus self.old.skipped pins.now)
            (length (live_log_at D.Device.bus self.old.skipped pins.now))
            (live_log_whole D.Device.bus self.old.skipped pins.now) self.old.log
            self.new.log }
        ensures trace { LiveFileFinishes M.contents (live_trace_first pins.now) (length (live_trace_at pins.now))
            (live_trace_whole pins.now) self.old.trace self.new.trace }
    {
        self.write(pins);
        let target = pins.target();
        let counts = counts_line(target.cycles(), target.requests());
        let (logged, traced) = (self.log.done, self.trace.done);
        self.log
            .add(&Characters(counts.as_str().as_bytes()), logged);
        self.trace.add(&Characters(b"\n"), traced);
    }
}

/// Serves a host by any protocol, and writes the log of its target and the trace of its pins, each if there is a writer
/// for it. After each piece of input, before the last of what it returns is written and before the next read, the log
/// has the line of each transfer that took effect so far, and the trace the bits of all cycles so far. At the end of
/// the session the log gets its last line, and the trace its line feed. Transfers of the target from before the session
/// have no line.
///
/// If the writer of a file fails, nothing is retried, nothing more is written to this file, and the session goes on.
/// The file then has exactly the first bytes of the whole one. [`LiveFiles::are_whole`] says whether no writer failed.
pub fn serve_logged<R: Read, W: Write, D: KeepsLog, M: Write, A: Allocator, P: Protocol<D, A>>(
    reader: &mut R,
    writer: &mut W,
    protocol: P,
    log: Option<M>,
    trace: Option<M>,
) -> (Served, P, LiveFiles<M>)
    ensures session { ProtocolServes P.step P.end result.0 (R.remaining reader.old) (R.remaining reader.new)
        (W.contents writer.old) (W.contents writer.new) protocol result.1 }
    ensures log { live_pins_sound (P.pins_of protocol) → GrowingFileHas M.contents (run_file_held M.contents log)
        result.2.log (live_log_whole D.Device.bus (length (live_transfers_at D.Device.bus (P.pins_of protocol)))
        (P.pins_of result.1)) }
    ensures trace { live_pins_sound (P.pins_of protocol) → GrowingFileHas M.contents (run_file_held M.contents trace)
        result.2.trace (live_trace_whole (P.pins_of result.1)) }
{
    let files = LiveFiles {
        skipped: protocol.pins().target().device().log().len(),
        log: GrowingFile::new(log),
        trace: GrowingFile::new(trace),
    };
    let (served, protocol, mut files) = serve_watched(reader, writer, protocol, files);
    files.finish(protocol.pins());
    (served, protocol, files)
}
