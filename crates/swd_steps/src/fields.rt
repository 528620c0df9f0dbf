//! A run as a struct of integers, for callers that store it themselves, such as programs in C.
ghost use Rattle.std.specs.Prelude.{◌≡◌, IfSome, Some};
ghost use Rattle.swd_steps.specs.declared.run.Run.{Run as RunType};
ghost use Rattle.swd_steps.specs.Fields.{stepped_end_from, stepped_end_fields, stepped_fields, stepped_stage_from};
ghost use Rattle.swd_steps.specs.Fields.{stepped_stage_number};

use crate::run::{Run, Stage};
use swd_host::{End, EngineFields, Outcome, OutcomeFields};

/// The state of a run as integers, laid out as in C. [`Run::fields`] returns it, and [`run`](RunFields::run) restores
/// the run. Any values are safe: `run` rejects those of no run, such as zeros.
///
/// `requests`, `answered` and `begun` are what the methods of `Run` with these names return, and `end` is what `ended`
/// returns. The meaning of the other fields is private to this crate.
#[repr(C)]
#[derive(Clone, Copy, Debug, PartialEq, Eq)]
pub struct RunFields {
    /// The number of requests sent.
    pub requests: u64,
    pub engine: EngineFields,
    /// The end of the run: an outcome that is a stop, or one of kind 0 before the end.
    pub end: OutcomeFields,
    /// The number of answered accesses.
    pub answered: u32,
    /// The number of unanswered accesses whose DRW request was sent.
    pub begun: u8,
    pub stage: u8,
}

fn number_of_stage(stage: Stage) -> u8
    ensures { result ≡ stepped_stage_number stage }
{
    match stage {
        Stage::Driving => 1,
        Stage::Between => 2,
        Stage::Ended(_) => 3,
    }
}

fn fields_of_end(stage: Stage) -> OutcomeFields
    ensures { result ≡ stepped_end_fields stage }
{
    match stage {
        Stage::Ended(end) => OutcomeFields::of(Outcome::Stopped(end)),
        Stage::Driving | Stage::Between => OutcomeFields::NONE,
    }
}

// Here and below, invalid numbers may give any result: `RunFields::run` rejects a run whose own fields differ.
fn end_with(fields: OutcomeFields) -> End
    ensures { result ≡ stepped_end_from fields }
{
    match fields.kind {
        5 => End::All,
        6 => End::Lost,
        7 => End::TriesOut,
        8 => End::WrongId(fields.word),
        _ => End::Confused,
    }
}

fn stage_with(number: u8, end: OutcomeFields) -> Stage
    ensures { result ≡ stepped_stage_from number end }
{
    match number {
        1 => Stage::Driving,
        2 => Stage::Between,
        _ => Stage::Ended(end_with(end)),
    }
}

impl RunFields {
    /// Returns the run with these fields, or `None` if no run has them.
    pub fn run(&self) -> Option<Run>
        ensures found { (run : RunType) → stepped_fields run ≡ self.now → result ≡ Some run }
        ensures same { IfSome result (λ run. stepped_fields run ≡ self.now) }
    {
        let engine = self.engine.engine()?;
        let run = Run {
            engine,
            stage: stage_with(self.stage, self.end),
            answered: self.answered,
        };
        if run.fields_with(self.engine) == *self {
            Some(run)
        } else {
            None
        }
    }
}

impl Run {
    /// Returns the fields of the run.
    pub fn fields(&self) -> RunFields
        ensures { result ≡ stepped_fields self.now }
    {
        self.fields_with(self.engine.fields())
    }

    // Returns the fields of the run, with these for its engine.
    fn fields_with(&self, engine: EngineFields) -> RunFields
        ensures { result ≡ record (stepped_fields self.now) { engine = engine } }
    {
        RunFields {
            requests: self.requests(),
            engine,
            end: fields_of_end(self.stage),
            answered: self.answered,
            begun: self.begun(),
            stage: number_of_stage(self.stage),
        }
    }
}
