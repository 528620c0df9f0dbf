//! Laws of the runs of scripts, and of recorded runs. The functions do nothing: their contracts are the laws.
ghost use Rattle.swd_run.specs.Laws.{UntilFreeScripts};
ghost use Rattle.swd_run.specs.Recorded.{AnyRunTraceIsAccounted, RunTraceIsAccounted};
ghost use Rattle.swd_run.specs.Transfers.{ReportKnownIsExact, ReportExplainsSession, ReportSureIsExact};

/// States that a script without `until` unfolds to itself: its calls are its batches, each once, and the report has the
/// lines of their runs and no others.
pub fn plain_scripts_are_unchanged()
    ensures { UntilFreeScripts }
{}

/// States the theorem of the observer for a recorder's items. Let its calls be steps of the port model, each of whose
/// requests led to a whole transaction. Then the accesses that its items show are those that the memory logged, in
/// order. An access reported as `May` was logged once or not at all. The calls start in the target's reset state, or
/// for an observer that knows nothing, in any state in which nothing is due or pending and no write data is awaited.
pub fn recorded_accesses()
    ensures made { RunTraceIsAccounted }
    ensures any { AnyRunTraceIsAccounted }
{}

/// States what the accesses that an observer reports have to do with the answers of runs. Let successive runs and
/// blocks over a target at rest each have ended `All`. Then accesses that explain what the memory logged in them
/// explain the transfers of their answers: one for each access of the lists, but for bus errors.
///
/// If none is reported as `May`, those that took effect are these transfers, one by one and in order. Each has the
/// direction of its transfer, and its address and word unless they are unknown. If none of these is unknown, they are
/// equal.
pub fn reported_accesses()
    ensures sessions { ReportExplainsSession }
    ensures sure { ReportSureIsExact }
    ensures known { ReportKnownIsExact }
{}
