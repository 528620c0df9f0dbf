//! Laws of the calls of a wire: requests and their answers, data phases, turnarounds, line resets.
ghost use Rattle.swd_port.specs.Laws.Answers.{PortAnswerNeverWait, PortReplyAllowed, PortWaitAtWaitMark};
ghost use Rattle.swd_port.specs.Laws.Answers.{PortWaitAtWaitMarkOnly, PortSeenRange, PortSeenDriven};
ghost use Rattle.swd_port.specs.Laws.Calls.{PortDueAfterStep, PortAckSeen, PortNoAckSeen, PortRequestCounted};
ghost use Rattle.swd_port.specs.Laws.Calls.{PortOthersUncounted, PortIdentificationKept, PortCountedApart};
ghost use Rattle.swd_port.specs.Laws.Requests.{PortExemptRequest, PortExemptAtRest, PortIdentificationRead};
ghost use Rattle.swd_port.specs.Laws.Requests.{PortIdentificationAtRest, PortFlaggedRequest, PortFlaggedAtRest};
ghost use Rattle.swd_port.specs.Laws.Requests.{PortUnpoweredAtRest, PortFreeRequest, PortFreeAtRest, PortFreeExact};
ghost use Rattle.swd_port.specs.Laws.Requests.{PortLostRequest, PortRefusedWithPower, PortConfirmingRequest};
ghost use Rattle.swd_port.specs.Laws.Requests.{PortUnmovedByExempt, PortUnmovedByFree, PortUnmovedByRefused};
ghost use Rattle.swd_port.specs.Laws.DataPhases.{PortDataTaken, PortTakeKeeps, PortTakeKeepsAtRest, PortDataGiven};
ghost use Rattle.swd_port.specs.Laws.DataPhases.{PortDataGivenAtRest, PortDataGivenExact, PortTurnaroundPassed};
ghost use Rattle.swd_port.specs.Laws.DataPhases.{PortTurnaroundAtRest};
ghost use Rattle.swd_port.specs.GivingUp.{PortAsksSplit};
ghost use Rattle.swd_port.specs.Laws.LineResets.{PortLineReset, PortIdleCycles, PortIdleCyclesAtRest};
ghost use Rattle.swd_port.specs.Laws.LineResets.{PortFirstLineReset};

/// States how requests are answered. WAIT occurs at a Wait mark alone, and there wherever the request may get it. An
/// acknowledgement that the host sees is the one that was driven.
#[tactic(auto, using(crate::proofs::AnswerLaws::answer_laws))]
pub fn answers()
    ensures never_waits { PortAnswerNeverWait }
    ensures allowed { PortReplyAllowed }
    ensures waits { PortWaitAtWaitMark }
    ensures waits_only { PortWaitAtWaitMarkOnly }
    ensures range { PortSeenRange }
    ensures seen { PortSeenDriven }
{}

/// States what is due after each call, in any state, and what the call adds to the counts of requests, of disturbed and
/// of lost ones.
pub fn calls()
    ensures due { PortDueAfterStep }
    ensures acknowledged { PortAckSeen }
    ensures unacknowledged { PortNoAckSeen }
    ensures counted { PortRequestCounted }
    ensures uncounted { PortOthersUncounted }
    ensures identified { PortIdentificationKept }
    ensures apart { PortCountedApart }
{}

/// States the result of a request, by its kind and the flags: an exempt one, one refused for a flag, one that is free
/// of flags, and one that confirms a transfer. Before an exempt one a pending write may be given up.
pub fn requests()
    ensures split { PortAsksSplit }
    ensures exempt { PortExemptRequest }
    ensures exempt_at_rest { PortExemptAtRest }
    ensures identification { PortIdentificationRead }
    ensures identification_at_rest { PortIdentificationAtRest }
    ensures flagged { PortFlaggedRequest }
    ensures flagged_at_rest { PortFlaggedAtRest }
    ensures unpowered_at_rest { PortUnpoweredAtRest }
    ensures free { PortFreeRequest }
    ensures free_at_rest { PortFreeAtRest }
    ensures free_exact { PortFreeExact }
    ensures lost { PortLostRequest }
    ensures refused { PortRefusedWithPower }
    ensures unmoved_by_exempt { PortUnmovedByExempt }
    ensures unmoved_by_free { PortUnmovedByFree }
    ensures unmoved_by_refused { PortUnmovedByRefused }
    ensures confirming { PortConfirmingRequest }
{}

/// States what a data phase carries and changes, and that a turnaround changes nothing, apart from completion.
pub fn data_phases()
    ensures taken { PortDataTaken }
    ensures take_moves_nothing { PortTakeKeeps }
    ensures take_at_rest { PortTakeKeepsAtRest }
    ensures given { PortDataGiven }
    ensures given_at_rest { PortDataGivenAtRest }
    ensures given_exact { PortDataGivenExact }
    ensures passed { PortTurnaroundPassed }
    ensures passed_at_rest { PortTurnaroundAtRest }
{}

/// States what a line reset and idle cycles change.
pub fn line_resets()
    ensures reset { PortLineReset }
    ensures idle { PortIdleCycles }
    ensures idle_at_rest { PortIdleCyclesAtRest }
    ensures first { PortFirstLineReset }
{}
