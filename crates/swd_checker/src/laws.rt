//! Laws of worlds and the states of the port model. The functions do nothing: their contracts are the laws.
ghost use Rattle.swd_checker.specs.Laws.{WorldAtCompletion, WorldAtIdle, WorldAtReset, WorldAtWait, WorldAtFault};
ghost use Rattle.swd_checker.specs.Laws.{WorldAtDamage, WorldAtMade, WorldAtOkay};
ghost use Rattle.swd_checker.specs.Shown.{ObservedRunsAreShown};
ghost use Rattle.swd_checker.specs.Whole.{WatchedBreaksAreRight};
ghost use Rattle.swd_checker.specs.StepLaws.{WorldAtDpidr, WorldAtResend, WorldAtRdbuff, WorldAtCswRead};
ghost use Rattle.swd_checker.specs.StepLaws.{WorldAtTarRead};
ghost use Rattle.swd_checker.specs.StepLaws.{WorldAtDrwRead, WorldAtReadElsewhere, WorldAtCtrlStat, WorldAtSelect};
ghost use Rattle.swd_checker.specs.StepLaws.{WorldAtCswWrite, WorldAtTarWrite, WorldAtDrwWrite};
ghost use Rattle.swd_checker.specs.StepLaws.{WorldAtWriteElsewhere};
ghost use Rattle.swd_checker.specs.StepLaws.{WorldAtAbort, WorldFindsPower, WorldAtStatus, WorldAtSticky};

/// States that the first world of a target in its reset state describes it, whatever its identification and its bus.
pub fn made()
    ensures { WorldAtMade }
{}

/// States that a world still describes a target once its pending transfer takes effect, whatever the bus answers.
pub fn completion()
    ensures { WorldAtCompletion }
{}

/// States what idle cycles and a line reset leave of the states that a world describes.
pub fn leads()
    ensures idle { WorldAtIdle }
    ensures reset { WorldAtReset }
{}

/// States what WAIT and FAULT leave of them.
pub fn refusals()
    ensures wait { WorldAtWait }
    ensures fault { WorldAtFault }
{}

/// States what OK to a request that can be refused leaves, before what the request does: the pending transfer
/// succeeded.
pub fn confirmations()
    ensures { WorldAtOkay }
{}

/// States that a write whose data arrives damaged sets WDATAERR alone.
pub fn damage()
    ensures { WorldAtDamage }
{}

/// States what a read that was answered OK does in a world: it returns the last returned value or the read buffer, of
/// which more is known from then on, and leaves another word in the read buffer.
pub fn reads()
    ensures dpidr { WorldAtDpidr }
    ensures resend { WorldAtResend }
    ensures rdbuff { WorldAtRdbuff }
    ensures csw { WorldAtCswRead }
    ensures tar { WorldAtTarRead }
    ensures drw { WorldAtDrwRead }
    ensures elsewhere { WorldAtReadElsewhere }
{}

/// States what a read of CTRL/STAT shows and changes. STICKYERR may show the bus error of the pending transfer.
pub fn statuses()
    ensures power { WorldFindsPower }
    ensures status { WorldAtStatus }
    ensures sticky { WorldAtSticky }
{}

/// States what a word that arrives does in a world.
pub fn writes()
    ensures ctrl_stat { WorldAtCtrlStat }
    ensures select { WorldAtSelect }
    ensures csw { WorldAtCswWrite }
    ensures tar { WorldAtTarWrite }
    ensures drw { WorldAtDrwWrite }
    ensures elsewhere { WorldAtWriteElsewhere }
    ensures abort { WorldAtAbort }
{}

/// States that each run of the port model that an observer of the wire knows is one that some items show. So where
/// [`broken_item`](crate::broken_item) finds a broken rule, no such run is one of its items.
pub fn runs()
    ensures { ObservedRunsAreShown }
{}

/// States of a checker that is given items one by one, as in C: where it says `Breaks`, no run of the port model shows
/// the items so far.
pub fn watched()
    ensures { WatchedBreaksAreRight }
{}
