//! A recorder whose calls are known to be steps of the port model from the start of a run on. It writes the file of its
//! trace while it goes on.
ghost use Rattle.std.specs.Prelude.{◌≡◌, ◌-◌, ◌≤◌, [], List, None, Option, length, true, ℕ};
ghost use Rattle.std.specs.FinMap.{empty};
ghost use Rattle.swd_port.specs.declared.call.Call.{Call};
ghost use Rattle.swd_port.specs.declared.wire.Due.TheVariants.{Nothing};
ghost use Rattle.swd_port.specs.PlainBus.{bus_of};
ghost use Rattle.swd_port.specs.Port.{Port};
ghost use Rattle.swd_port.specs.Made.{port_made};
ghost use Rattle.swd_port.specs.Laws.Calls.{port_with_asked};
ghost use Rattle.swd_trace.specs.Texts.{trace_text};
ghost use Rattle.swd_recorder.specs.Recorders.{recorder_calls, recorder_kept, recorder_lawful, recorder_port};
ghost use Rattle.swd_run.specs.GrowingFiles.{GrowingFileHas, RunTraceHasDone};
ghost use Rattle.swd_run.specs.Recorded.{RunCallsStepped};
ghost use Rattle.swd_run.specs.Records.{run_file_held};
ghost use Rattle.swd_run.specs.Wires.{run_wire_seen};

use crate::growing::GrowingFile;
use crate::trace_file::{write_settled, write_to};
use std::alloc::Allocator;
use std::io::Write;
use std::marker::{Brand, PhantomData};
use swd_port::{Coming, Cue, Due, Pieces, Wire};
use swd_recorder::Recorder;

/// The state of the port model at the start of a recorded run, the contents of the trace's writer, if there is one, and
/// which calls the wire had noted. They are for contracts alone: a caller passes [`Brand`], and its proof gives them.
pub(crate) trait Origin {
    ghost start: { Port };

    ghost before: { Option (Option (List ℕ)) };

    ghost noted: { List Call → Type 0 };
}

impl Origin for Brand {
    ghost start = { port_made 0 (bus_of (record { words = empty; log = []; room = 0 })) };

    ghost before = { None };

    ghost noted = { λ calls. ⊥ };
}

/// A recorder that was made at the start of a run. If its wire is lawful, its calls are steps of the port model from
/// `B.start` on. If the file of its trace is wanted, this gets the lines of the items while the run goes on, behind
/// what its writer held at the start, `B.before`.
#[derive(Drop)]
pub(crate) struct Traced<W: Wire, T: Write, A: Allocator, B: Origin> {
    pub(crate) recorder: Recorder<W, A>,
    pub(crate) file: GrowingFile<T>,
    origin: PhantomData<B>,
    ghost steps: { ∥ (recorder_lawful recorder
        → RunCallsStepped B.start (recorder_calls recorder) (recorder_port recorder)) ∥₁ },
    // No further call changes the items that are done.
    ghost settled: { file.done ≤ length (recorder_kept recorder).items - 1 },
    ghost has: { ∥ RunTraceHasDone T.contents B.before (recorder_kept recorder).items file ∥₁ },
}

impl<W: Wire, T: Write, A: Allocator, B: Origin> Traced<W, T, A, B> {
    ghost use Rattle.swd_recorder.specs.Recorders.{recorder_plan, recorder_wire_under};

    /// Returns a recorder over this wire, without items, with the writer of the trace, if it is to be written.
    pub(crate) fn new(alloc: A, wire: W, writer: Option<T>) -> Traced<W, T, A, B>
        requires due { (W.port wire).link.due ≡ Nothing }
        requires start { B.start ≡ port_with_asked 0 (W.port wire) }
        requires before { B.before ≡ run_file_held T.contents writer }
        ensures calls { recorder_calls result.recorder ≡ [] }
        ensures port { recorder_port result.recorder ≡ port_with_asked 0 (W.port wire) }
        ensures plan { recorder_plan result.recorder ≡ W.plan wire }
        ensures wire { recorder_wire_under result.recorder ≡ wire }
    {
        Traced {
            recorder: Recorder::new(alloc, wire),
            file: GrowingFile::new(writer),
            origin: PhantomData,
        }
    }

    /// Writes what isn't written yet of the trace. Returns the recorder, and the file.
    pub(crate) fn finish(self) -> (Recorder<W, A>, GrowingFile<T>)
        ensures recorder { result.0 ≡ self.recorder }
        ensures file { ∥ GrowingFileHas T.contents B.before result.1
            (trace_text (recorder_kept self.recorder).items) ∥₁ }
    {
        let Traced {
            recorder,
            mut file,
            ..
        } = self;
        let items = recorder.items();
        write_to(&mut file, items, items.len());
        (recorder, file)
    }
}

impl<W: Wire, T: Write, A: Allocator, B: Origin> Wire for Traced<W, T, A, B> {
    ghost use Rattle.swd_recorder.specs.Recorders.{recorder_plan, recorder_wire_under};

    ghost port = { λ traced. recorder_port traced.recorder };

    ghost plan = { λ traced. recorder_plan traced.recorder };

    ghost lawful = { λ traced. recorder_lawful traced.recorder };

    ghost notes = { λ calls traced. (run_wire_seen true W.Wire B.noted).notes calls
        (recorder_calls traced.recorder, recorder_wire_under traced.recorder) };

    fn due(&self) -> Due {
        self.recorder.due()
    }

    fn step(&mut self, cue: Cue) -> u64 {
        let seen = self.recorder.step(cue);
        write_settled(&mut self.file, self.recorder.items(), cue);
        seen
    }

    fn looks_ahead(&self) -> Option<Pieces> {
        self.recorder.looks_ahead()
    }

    fn announce(&mut self, coming: &[Coming]) {
        self.recorder.announce(coming);
    }
}
