//! Laws of the bus behind the access port: transfers by DRW, their completion, and whole accesses.
ghost use Rattle.swd_port.specs.Laws.Completion.{PortCompletionNotYet, CompletionWithoutPending, PortCompletionTwice};
ghost use Rattle.swd_port.specs.Laws.Completion.{PortCompletionKeeps};
ghost use Rattle.swd_port.specs.Laws.Completion.{PortMayBecomeStays, PortMayBecomeCarried, PortMayBecomeOfNone};
ghost use Rattle.swd_port.specs.Laws.Transfers.{PortDrwReadSent, PortDrwWriteSent, PortSentStays, PortSentCarried};
ghost use Rattle.swd_port.specs.Laws.Transfers.{PortSentSucceeds, PortSentFails, PortSentBecomes, PortSentMemory};
ghost use Rattle.swd_port.specs.Laws.Transfers.{PortBecomesStays};
ghost use Rattle.swd_port.specs.Laws.Transfers.{PortBecomesCarried, PortBecomesIs, PortBecomesCompleted};
ghost use Rattle.swd_port.specs.Laws.Transfers.{PortAimedCarried, PortAimedByTar, PortAimedByTransfer};
ghost use Rattle.swd_port.specs.Laws.Accesses.{PortWordWritten, PortWordRead};
ghost use Rattle.swd_port.specs.Laws.Buses.{BusOfAnswers, BusOfChanges, BusOfHolds};

/// States what completion of the pending transfer does. It may occur or not, occurs once, and does nothing where no
/// transfer is pending. It changes only what belongs to the transfer. What the bus may become depends on the
/// transfer, TAR and the bus alone.
pub fn completion()
    ensures not_yet { PortCompletionNotYet }
    ensures of_none { CompletionWithoutPending }
    ensures twice { PortCompletionTwice }
    ensures keeps { PortCompletionKeeps }
    ensures may_become_stays { PortMayBecomeStays }
    ensures may_become_carried { PortMayBecomeCarried }
    ensures may_become_of_none { PortMayBecomeOfNone }
{}

/// States the course of a DRW transfer: how it starts, that it stays pending, done or failed, and what the state shows
/// of that.
pub fn transfers()
    ensures read_begins { PortDrwReadSent }
    ensures write_begins { PortDrwWriteSent }
    ensures sent_stays { PortSentStays }
    ensures sent_carried { PortSentCarried }
    ensures sent_succeeds { PortSentSucceeds }
    ensures sent_fails { PortSentFails }
    ensures sent_becomes { PortSentBecomes }
    ensures becomes_stays { PortBecomesStays }
    ensures becomes_carried { PortBecomesCarried }
    ensures becomes_is { PortBecomesIs }
    ensures becomes_completed { PortBecomesCompleted }
    ensures sent_memory { PortSentMemory }
    ensures aimed_carried { PortAimedCarried }
    ensures aimed_by_tar { PortAimedByTar }
    ensures aimed_by_transfer { PortAimedByTransfer }
{}

/// States what a whole write and a whole read of a word do, at a target ready for transfers with TAR set. If the
/// requests are answered OK and the one that carries the word isn't disturbed, the bus is that after the access,
/// done once. A read returns the bus's word. The proofs use the laws above alone.
pub fn accesses()
    ensures written { PortWordWritten }
    ensures read { PortWordRead }
{}

/// States that a plain memory is a bus: it answers as the memory does, and after an access it is that of the memory
/// after the access. The buses of two memories differ.
pub fn plain_memories()
    ensures answers { BusOfAnswers }
    ensures changes { BusOfChanges }
    ensures holds { BusOfHolds }
{}
