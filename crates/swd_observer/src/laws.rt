//! Laws that relate an observer to the port model. The functions do nothing: their contracts are the laws.
ghost use Rattle.swd_observer.specs.Laws.{ObserverAtCompletion, ObserverAtWait, ObserverAtFault, ObserverAtOkay};
ghost use Rattle.swd_observer.specs.Laws.{ObserverAtAbort};
ghost use Rattle.swd_observer.specs.Laws.{ObserverAtDpidr, ObserverAtLost, ObserverAtStatus, ObserverAlways};
ghost use Rattle.swd_observer.specs.Runs.{ObservedRunsAccounted, ObservedMadeAccounted, ObservedAnyAccounted};
ghost use Rattle.swd_observer.specs.Runs.{ObservedRestAccounted};
ghost use Rattle.swd_observer.specs.Sure.{ObservedClearIsSure};
ghost use Rattle.swd_observer.specs.Traces.{ObservedTraceAccounted};
ghost use Rattle.swd_observer.specs.AnyTraces.{ObservedAnyTraceAccounted, ObservedRestTraceAccounted};

/// States that what is known remains true whenever a pending transfer takes effect.
pub fn completion()
    ensures { ObserverAtCompletion }
{}

/// States that WAIT shows nothing, and neither does FAULT.
pub fn refusals()
    ensures wait { ObserverAtWait }
    ensures fault { ObserverAtFault }
{}

/// States what OK to a request that can be refused shows: the transfer in flight took effect, exactly once.
/// No other transfer took effect, except that the request itself may be one where it is reported as `May`.
pub fn confirmations()
    ensures { ObserverAtOkay }
{}

/// States what the requests show that are never refused, before which a pending write may be given up. A read of DPIDR
/// shows nothing. After a write of ABORT the transfer in flight is reported as `May`. A read of CTRL/STAT shows whether
/// the transfer met an error or was given up, if its parity is right and DPBANKSEL is known to be 0.
pub fn exempt_requests()
    ensures dpidr { ObserverAtDpidr }
    ensures abort { ObserverAtAbort }
    ensures status { ObserverAtStatus }
{}

/// States what is known after a lost acknowledgement. The transfer in flight is reported as `May`. The request itself
/// is reported as `May` if it may be a DRW read.
pub fn lost_requests()
    ensures { ObserverAtLost }
{}

/// States the same of every transaction, whatever its request and its result.
pub fn transactions()
    ensures { ObserverAlways }
{}

/// States the theorem of whole runs, from any state of which the observer knows nothing wrong: the reported
/// accesses, with those of `last`, are those that the memory logged, in order. An access reported as `May`
/// was logged once or not at all.
///
/// Such a state is a target's reset state. For an observer that knows nothing, it is any state without a
/// pending transfer and without a data phase due. For one that knows that the target is at rest, SELECT is 0 too.
///
/// Before `last`, nothing is reported as `May` if all of these hold: every transaction was acknowledged,
/// SELECT is known, ABORT is written only where no transfer is in flight, so after FAULT only once CTRL/STAT was read,
/// and the data registers are those of AP 0.
pub fn observed_runs()
    ensures runs { ObservedRunsAccounted }
    ensures made { ObservedMadeAccounted }
    ensures rest { ObservedRestAccounted }
    ensures any { ObservedAnyAccounted }
    ensures sure { ObservedClearIsSure }
{}

/// States the theorem of a trace without junk bits or a cut end. If its transactions are those of a run, the
/// reported accesses, with those of `last`, are those that the memory logged in that run, as in
/// `observed_runs`. The run starts in the target's reset state, or for an observer that knows nothing, in any
/// state without a pending transfer in which no write data is awaited, or for one of a target at rest, in such a state
/// with SELECT 0.
pub fn observed_traces()
    ensures made { ObservedTraceAccounted }
    ensures rest { ObservedRestTraceAccounted }
    ensures any { ObservedAnyTraceAccounted }
{}
