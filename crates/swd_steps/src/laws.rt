//! The theorem of a run whose caller makes the calls. A function here does nothing: its contract is the law.
ghost use Rattle.swd_steps.specs.Laws.{SteppedAlwaysCloses, SteppedRunEnds, SteppedRunsAreShown, SteppedResumeFits};
ghost use Rattle.swd_steps.specs.Laws.{SteppedOpenFits, SteppedRunFits};
ghost use Rattle.swd_steps.specs.StandIns.{SteppedRanByStandIns, SteppedRunFitsByStandIns};
ghost use Rattle.swd_steps.specs.Reached.{SteppedOpenReaches, SteppedResumeReaches, SteppedRunReaches};

/// States what the report of a run that ended says. Whatever came back, it matches the list and the calls that were
/// made for it. For each story with which what came back is consistent, the report is that of the theorem of
/// `swd_host::run`. For a run over an open target it is that of the theorem of `swd_host::run_open`. For a run that
/// resumes after an earlier report, it is that of the theorem of `swd_host::resume`.
pub fn runs()
    ensures closes { SteppedAlwaysCloses }
    ensures runs { SteppedRunFits }
    ensures opened { SteppedOpenFits }
    ensures resumes { SteppedResumeFits }
{}

/// States which accesses reached the bus in a run that ended, in each story with which what came back is consistent and
/// whose target is at first as the run's theorem requires: those that were answered, bus errors among them, and at most
/// as many more as the report has as begun. Each reached it once, in the order of the list. In a run that resumes, the
/// transfer that was still pending comes first.
pub fn accesses()
    ensures runs { SteppedRunReaches }
    ensures opened { SteppedOpenReaches }
    ensures resumes { SteppedResumeReaches }
{}

/// States that a run could have come where it is by calls with other bits of damaged words, those read with wrong
/// parity. So a caller that doesn't know which bits of such a word arrived may pass any with wrong parity. The report
/// of a new run is then that of the theorem of `swd_host::run`, for each story with which the bits that arrived are
/// consistent.
pub fn stand_ins()
    ensures ran { SteppedRanByStandIns }
    ensures runs { SteppedRunFitsByStandIns }
{}

/// States that a run makes a bounded number of calls, whatever comes back.
pub fn ends()
    ensures { SteppedRunEnds }
{}

/// States that the fields of a run that ended have its report, except for the answers.
pub fn numbers()
    ensures { SteppedRunsAreShown }
{}
