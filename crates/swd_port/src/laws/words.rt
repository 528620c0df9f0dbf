//! Laws of words: as data phases, as registers, and as what a read returns.
ghost use Rattle.swd_port.specs.Laws.Phases.{PortPhaseSent, PortPhaseSentOnly, PortPhaseRead, PortNoPhaseRead};
ghost use Rattle.swd_port.specs.Laws.Phases.{PortWholePhaseRead, PortPhasePlaceChanged, PortDamagedPhaseRead};
ghost use Rattle.swd_port.specs.Laws.Phases.{PortUndrivenOnes, PortUndrivenRead};
ghost use Rattle.swd_port.specs.Laws.Registers.{PortSelectKept, PortCswKept, PortCswReads};
ghost use Rattle.swd_port.specs.Laws.WordsRead.{CtrlStatWordReads, PortIdentificationReturned, CtrlStatReturned};
ghost use Rattle.swd_port.specs.Laws.WordsRead.{PortBufferReturned, PortValueResent, PortCarriedByRequest};
ghost use Rattle.swd_port.specs.Laws.WordsRead.{PortCarriedWhereHeld, PortCarriedWhereRefused, PortCarriedWherePassed};
ghost use Rattle.swd_port.specs.Laws.WordsRead.{PortCarriedByReset, PortAbortClearsFlags};

/// States that a data phase as a number is its 33 bits in time order. States what is sent for a word, which word is
/// read, and what a changed bit does.
#[tactic(auto, using(crate::proofs::PhaseBits::phase_laws))]
pub fn phases()
    ensures sent { PortPhaseSent }
    ensures sent_only { PortPhaseSentOnly }
    ensures read { PortPhaseRead }
    ensures none { PortNoPhaseRead }
    ensures whole { PortWholePhaseRead }
    ensures changed { PortPhasePlaceChanged }
    ensures damaged { PortDamagedPhaseRead }
    ensures ones { PortUndrivenOnes }
    ensures ones_damaged { PortUndrivenRead }
{}

/// States which bits of a word the fields of SELECT and CSW keep: those that the register names, and no others. States
/// the fields of the word that CSW reads.
#[tactic(auto, using(crate::proofs::RegisterLemmas::register_laws))]
pub fn registers()
    ensures select { PortSelectKept }
    ensures csw { PortCswKept }
    ensures csw_reads { PortCswReads }
{}

/// States what DPIDR, CTRL/STAT, RDBUFF and RESEND return, and what they and ABORT change.
pub fn words_read()
    ensures status { CtrlStatWordReads }
    ensures identification_returned { PortIdentificationReturned }
    ensures status_returned { CtrlStatReturned }
    ensures buffer { PortBufferReturned }
    ensures resent { PortValueResent }
    ensures carried { PortCarriedByRequest }
    ensures held { PortCarriedWhereHeld }
    ensures refused { PortCarriedWhereRefused }
    ensures passed { PortCarriedWherePassed }
    ensures reset { PortCarriedByReset }
    ensures cleared { PortAbortClearsFlags }
{}
