//! Laws of successive calls, and of an engine over a wire. A function here does nothing: its contract is the law.
ghost use Rattle.std.specs.Prelude.{◌≡◌, List, Option, true};
ghost use Rattle.swd_port.specs.declared.access.Access.{Access};
ghost use Rattle.swd_port.specs.declared.access.Answer.{Answer};
ghost use Rattle.swd_port.specs.Port.{Port};
ghost use Rattle.swd_host.specs.Reports.{HostIsOpen, IsAtRest};
ghost use Rattle.swd_host.specs.declared.engine.Engine.{Engine};
ghost use Rattle.swd_host.specs.Engines.{engine_outcome, engine_may_start};
ghost use Rattle.swd_host.specs.Chains.{ResumedCallsAreChained, ResumeChainDoes, ResumeChainReads, ResumeChainRepeats};
ghost use Rattle.swd_host.specs.PlainRuns.{FitsOverPlain, RunsOverPlain};
ghost use Rattle.swd_host.specs.Sessions.{HostFindsMadeAtRest, HostLists, HostListsAreAsOne, HostSession};
ghost use Rattle.swd_host.specs.Sessions.{HostSessionIsAsOne};
ghost use Rattle.swd_host.specs.StandIns.{AreHostStandInsBothWays, EngineTurnedByStandIn, EngineTurnsByStandIns};
ghost use Rattle.swd_host.specs.StandIns.{HostReportsStandIns};
ghost use Rattle.swd_host.specs.Tracks.{EngineDueFits};
ghost use Rattle.swd_host.specs.Turns.{EngineContinuesBurst, EngineStarts};

/// States that a simulated target that was just made is at rest, as `run` and `run_block` assume.
pub fn made_is_at_rest()
    ensures { HostFindsMadeAtRest }
{}

/// States what a run reports where the bus is a plain memory: the answers that this memory gives to a prefix of the
/// list. The bus is still a plain memory then, which is that after this prefix and some of the accesses begun.
pub fn plain_runs()
    ensures fits { FitsOverPlain }
    ensures runs { RunsOverPlain }
{}

/// States that successive lists and blocks, each of which ended `All`, are as one list. Their answers are those of the
/// bus to the concatenated list, and the bus is that after it. The target is at rest again.
pub fn sessions()
    ensures { (s : Port) (list : List Access) (answers : List Answer) (t : Port) → IsAtRest s
        → HostSession s list answers t → HostSessionIsAsOne s list answers t }
{}

/// States that successive lists and blocks over an open target, each of which ended `All`, are as one list. Their
/// answers are those of the bus to the concatenated list, and the bus is that after it. The target is open again.
pub fn lists()
    ensures { (s : Port) (list : List Access) (answers : List Answer) (t : Port) → HostIsOpen s
        → HostLists s list answers t → HostListsAreAsOne s list answers t }
{}

/// States what a call and the calls of `resume` after it do, over a target that was at rest. Each is a run over the
/// rest of the list, from the bus that the one before left. `chained` and `done` assume nothing of how many accesses
/// were in flight or of the room of the log.
pub fn resumptions()
    ensures chained { ResumedCallsAreChained }
    ensures done { ResumeChainDoes }
    ensures reads { ResumeChainReads }
    ensures repeats { ResumeChainRepeats }
{}

/// States that after `start` what is due on the wire is still what the engine expects, so `Engine::turn` may be called.
pub fn started()
    ensures { (a : Access) (following : Option Access) (e f : Engine) (s : Port) → EngineStarts a following e f
        → engine_may_start (engine_outcome e) ≡ true → EngineContinuesBurst e a → EngineDueFits e s
        → EngineDueFits f s }
{}

/// States that the bits of a read's data phase decide nothing where their parity is wrong. So a wire that doesn't know
/// which bits of a damaged word arrived, as that over a CMSIS-DAP probe, may tell any others with wrong parity. The
/// engine that made the calls with these stand-ins could have made those with the true bits, and is the same then. A
/// report relates to the one list of calls exactly if it relates to the other. So the theorem holds for each story that
/// the calls with the true bits fit (`swd_steps::laws::stand_ins`).
pub fn stand_ins()
    ensures both { AreHostStandInsBothWays }
    ensures turned { EngineTurnedByStandIn }
    ensures turns { EngineTurnsByStandIns }
    ensures reports { HostReportsStandIns }
{}
