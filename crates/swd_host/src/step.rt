//! The engine's own steps: from the result of a request to the next request or an outcome.
ghost use Rattle.std.specs.Prelude.{◌≡◌, ◌+◌, ◌-◌, ◌&&◌, ℕ, true, false, not, Option, Some, None};
ghost use Rattle.swd_host.specs.Events.{EngineMeets, engine_clearing_is_damaged, engine_write_is_damaged};
ghost use Rattle.swd_host.specs.Events.{is_engine_event, is_engine_event_at, opening_finds_flags, engine_flag_is_stray};
ghost use Rattle.swd_host.specs.Events.{opening_is_unpowered, opening_wrong_id, engine_reads_wrong_id};
ghost use Rattle.swd_host.specs.Early.{StepKeepsResumedOpening, ResumedOpeningRereads, ResumedBefore};
ghost use Rattle.swd_host.specs.Early.{ResumedOpeningFaulted, ResumedOpeningSentData, ResumedOpeningReadWord};
ghost use Rattle.swd_host.specs.Early.{ResumedOpeningWaits, GlimpseKeepsResumedOpening, FlagsKeepResumedOpening};
ghost use Rattle.swd_host.specs.Flags.{host_csw_is_configured, no_host_flags};
ghost use Rattle.swd_host.specs.Progress.{engine_job_is_of, engine_place_is_of};
ghost use Rattle.swd_host.specs.Requests.{engine_job_is_exempt, engine_word_is_ignored, engine_job_is_write};
ghost use Rattle.swd_host.specs.Steps.{EngineGoesTo, EngineRestsWith, engine_ahead_sent, engine_ahead_to};
ghost use Rattle.swd_host.specs.Steps.{engine_after_check, engine_after_clearing, engine_after_fault, engine_is_rested};
ghost use Rattle.swd_host.specs.Steps.{engine_after_ignored_word, engine_after_read, engine_after_resend};
ghost use Rattle.swd_host.specs.Steps.{engine_after_status, engine_after_value, engine_after_write};
ghost use Rattle.swd_host.specs.Steps.{EngineRestsAtTar, engine_tar_left, engine_tar_to, engine_word_decides};
ghost use Rattle.swd_host.specs.Addresses.{burst_next_address};
ghost use Rattle.swd_host.specs.Tasks.{access_of_task};
ghost use Rattle.swd_port.specs.PlainMemory.{plain_address};
ghost use Rattle.swd_host.specs.Turns.{EngineLandsAnswered, EngineLandsAtEvent, EngineLandsFromJob};
ghost use Rattle.swd_host.specs.Tracks.{EngineBefore, EngineChecksFlags, EngineErrorCleared, EngineStepKeeps};
ghost use Rattle.swd_host.specs.Tracks.{EngineStepKeepsFlags, TaskEarnsAnswer, EngineFaultAtJob, OpeningAskedPower};
ghost use Rattle.swd_host.specs.Tracks.{EngineMetFlag, EngineResendWord, EngineTookWordAt, EngineTookForJob};
ghost use Rattle.swd_host.specs.Tracks.{EngineTookAtPlace, EngineWaitAtJob, EngineDataWasSent};

use crate::engine::{Ahead, Engine, Phase, State};
use crate::flags::{Flags, flags_of, is_configured, is_powered};
use crate::outcome::{End, Outcome};
use crate::request::{HostStep, Job};
use crate::task::next_in_kilobyte;
use swd_port::Answer;

impl Engine {
    // Counts an event, and sends this request next; stops where the retries ran out.
    pub(crate) fn event(&mut self, job: Job)
        ensures tracks { EngineStepKeeps (λ n b k t. EngineBefore job (n + 1) b k t) self.old self.new }
        ensures early { StepKeepsResumedOpening (λ n stray start s. ResumedBefore job (n + 1) stray start s) self.old
            self.new }
        ensures lands { EngineLandsAtEvent job self.old self.new }
        ensures meets { EngineMeets true None self.old self.new }
        ensures goes { EngineGoesTo (State.Doing job Phase.Ask) self.new.state }
    {
        if self.events >= self.tries {
            self.state = State::Resting(Outcome::Stopped(End::TriesOut));
        } else {
            self.events += 1;
            self.state = State::Doing(job, Phase::Ask);
        }
    }

    // Sends this request next, after the bus error of a transfer that an earlier run left pending. Once, that is no
    // event.
    fn forgive(&mut self, job: Job)
        ensures { self.new ≡ record self.old { stray = false; state = State.Doing job Phase.Ask } }
    {
        self.stray = false;
        self.state = State::Doing(job, Phase::Ask);
    }

    // Checks the flags after ABORT was written.
    pub(crate) fn check(&mut self, place: HostStep, owed: Flags, now: Flags)
        ensures tracks { EngineStepKeepsFlags now (EngineChecksFlags place owed) self.old self.new }
        ensures early { FlagsKeepResumedOpening now (ResumedBefore (Job.Check place owed)) self.old self.new }
        ensures lands { EngineLandsFromJob (Job.Check place owed) Phase.Data self.old self.new }
        ensures meets { EngineMeets (engine_clearing_is_damaged owed now) None self.old self.new }
        ensures goes { EngineGoesTo (engine_after_check place owed now self.old.task self.old.aims self.old.bursts)
            self.new.state }
        ensures rests { EngineRestsWith Ahead.Unsent self.new.state self.new.ahead }
    {
        if !now.error && !now.damaged {
            if owed.error {
                self.finish_clear(place, owed);
            } else {
                let again = place.repeats(self.task, self.aims, self.bursts);
                self.state = State::Doing(Job::At(again), Phase::Ask);
            }
        } else if now.damaged && now.error == owed.error {
            self.event(Job::Clear(place, now));
        } else {
            self.state = State::Resting(Outcome::Stopped(End::Confused));
        }
    }

    // Continues once the flag of a bus error is cleared. The error answers the current access. If it was the next
    // one's, RESEND is read. If an earlier run left the transfer pending, the refused request is sent again.
    fn finish_clear(&mut self, place: HostStep, owed: Flags)
        requires { owed.error ≡ true }
        ensures tracks { EngineStepKeeps (EngineErrorCleared place) self.old self.new }
        ensures early { FlagsKeepResumedOpening no_host_flags (ResumedBefore (Job.Check place owed)) self.old self.new }
        ensures lands { EngineLandsFromJob (Job.Check place owed) Phase.Data self.old self.new }
        ensures meets { EngineMeets false None self.old self.new }
        ensures goes { self.new.state ≡ engine_after_clearing place }
        ensures rests { EngineRestsWith Ahead.Unsent self.new.state self.new.ahead }
    {
        match place {
            HostStep::Confirm => self.answer(Answer::BusFault, Ahead::Unsent),
            HostStep::Behind => self.state = State::Doing(Job::Resend(place), Phase::Ask),
            _ => self.state = State::Doing(Job::At(place), Phase::Ask),
        }
    }

    // Answers the access. A successful transfer leaves TAR at the next address, except at the end of a kilobyte.
    pub(crate) fn answer(&mut self, answer: Answer, ahead: Ahead)
        ensures tracks { EngineStepKeeps (TaskEarnsAnswer answer ahead) self.old self.new }
        ensures lands { EngineLandsAnswered self.old self.new }
        ensures meets { EngineMeets false None self.old self.new }
        ensures goes { self.new.state ≡ State.Resting (Outcome.Answered answer) }
        ensures ahead { self.new.ahead ≡ ahead }
        ensures tar { self.new.tar ≡ engine_tar_left answer ahead self.old.task }
    {
        self.tar = match (answer, ahead) {
            (Answer::BusFault, _) | (_, Ahead::Failed) => None,
            _ => next_in_kilobyte(self.task.address()),
        };
        // In a block the DRW request of the next one was sent already.
        self.begun = self.begun.min(u8::from(self.task.is_block()));
        self.ahead = ahead;
        self.state = State::Resting(Outcome::Answered(answer));
    }

    // Continues after the data phase of a write was sent.
    pub(crate) fn follow_write(&mut self, job: Job)
        requires { engine_job_is_write job self.old.task ≡ true }
        ensures tracks { EngineStepKeeps (EngineDataWasSent job) self.old self.new }
        ensures early { StepKeepsResumedOpening (ResumedOpeningSentData job) self.old self.new }
        ensures lands { EngineLandsFromJob job Phase.Data self.old self.new }
        ensures meets { EngineMeets false None self.old self.new }
        ensures goes { self.new.state ≡ engine_after_write job }
    {
        let next = match job {
            Job::At(place) => Job::At(place.next()),
            Job::Clear(place, owed) => Job::Check(place, owed),
            _ => unreachable!(),
        };
        self.state = State::Doing(next, Phase::Ask);
    }

    // Continues after WAIT and its turnaround.
    pub(crate) fn take_wait(&mut self, job: Job)
        ensures tracks { EngineStepKeeps (EngineWaitAtJob job) self.old self.new }
        ensures early { StepKeepsResumedOpening (ResumedOpeningWaits job) self.old self.new }
        ensures lands { EngineLandsFromJob job Phase.Waited self.old self.new }
        ensures meets { EngineMeets (not (engine_job_is_exempt job)) None self.old self.new }
        ensures goes { EngineGoesTo (State.Doing job Phase.Ask) self.new.state }
    {
        if job.is_exempt() {
            self.state = State::Resting(Outcome::Stopped(End::Confused));
        } else {
            self.event(job);
        }
    }

    // Continues after FAULT and its turnaround.
    pub(crate) fn take_fault(&mut self, job: Job)
        ensures tracks { EngineStepKeeps (EngineFaultAtJob job) self.old self.new }
        ensures early { StepKeepsResumedOpening (ResumedOpeningFaulted job) self.old self.new }
        ensures lands { EngineLandsFromJob job Phase.Faulted self.old self.new }
        ensures meets { EngineMeets false None self.old self.new }
        ensures goes { EngineGoesTo (engine_after_fault job self.old.task) self.new.state }
    {
        self.state = if job.is_exempt() {
            State::Resting(Outcome::Stopped(End::Confused))
        } else {
            match job {
                Job::At(place) => State::Doing(Job::Status(place), Phase::Ask),
                // The next access of the block was a bus error.
                Job::Resend(HostStep::Confirm) if self.task.is_block() => {
                    State::Doing(Job::Status(HostStep::Behind), Phase::Ask)
                }
                _ => State::Doing(Job::LastStatus, Phase::Ask),
            }
        };
    }

    // Continues after a data phase was read with wrong parity.
    pub(crate) fn take_damage(&mut self, job: Job)
        requires { engine_job_is_write job self.old.task ≡ false }
        ensures tracks { EngineStepKeeps (EngineTookForJob job None) self.old self.new }
        ensures early { StepKeepsResumedOpening (ResumedOpeningRereads job) self.old self.new }
        ensures lands { EngineLandsFromJob job Phase.Data self.old self.new }
        ensures meets { EngineMeets (is_engine_event job None self.old.task self.old.aims self.old.stray) None self.old
            self.new }
        ensures goes { EngineGoesTo (engine_after_read job None self.old.task self.old.aims self.old.bursts)
            self.new.state }
        ensures rests { EngineRestsWith (engine_ahead_to job self.old.task) self.new.state self.new.ahead }
    {
        match job {
            Job::At(place) if self.is_unread(place) => self.pass_over(place),
            Job::At(place) => self.event(place.again()),
            other => self.event(other),
        }
    }

    // Continues after this word was read with right parity.
    pub(crate) fn take_word(&mut self, job: Job, word: u32)
        requires { engine_job_is_write job self.old.task ≡ false }
        ensures tracks { EngineStepKeeps (EngineTookForJob job (Some word)) self.old self.new }
        ensures early { StepKeepsResumedOpening (ResumedOpeningReadWord job word) self.old self.new }
        ensures lands { EngineLandsFromJob job Phase.Data self.old self.new }
        ensures meets { EngineMeets (is_engine_event job (Some word) self.old.task self.old.aims self.old.stray)
            (engine_reads_wrong_id job (Some word)) self.old self.new }
        ensures goes { engine_job_is_of false job ≡ true
            → EngineGoesTo (engine_after_read job (Some word) self.old.task self.old.aims self.old.bursts)
            self.new.state }
        ensures rests { EngineRestsWith (engine_ahead_to job self.old.task) self.new.state self.new.ahead }
        ensures on { engine_word_decides job ≡ false
            → self.new.state ≡ engine_after_read job (Some word) self.old.task self.old.aims self.old.bursts }
        ensures tar { engine_word_decides job ≡ false
            → EngineRestsAtTar (engine_tar_to job self.old.task) self.new.state self.new.tar }
    {
        match job {
            Job::At(place) if self.is_unread(place) => self.pass_over(place),
            Job::At(place) => self.value(place, word),
            Job::Resend(place) => self.take_resent(place, word),
            Job::Status(place) => self.status(place, flags_of(word)),
            Job::Check(place, owed) => self.check(place, owed, flags_of(word)),
            Job::LastStatus | Job::Clear(_, _) => {
                self.state = State::Resting(Outcome::Stopped(End::Confused));
            }
        }
    }

    // Returns whether the word that is read here is ignored: that of a posted read, and RDBUFF's after a write.
    fn is_unread(&self, place: HostStep) -> bool
        ensures { result ≡ engine_word_is_ignored place self.now.task }
    {
        match place {
            HostStep::ReadCsw | HostStep::Transfer => true,
            HostStep::Confirm => !self.task.is_read(),
            _ => false,
        }
    }

    // Continues after a word that is ignored.
    fn pass_over(&mut self, place: HostStep)
        requires { engine_word_is_ignored place self.old.task ≡ true }
        ensures tracks { (word : Option ℕ) → EngineStepKeeps (EngineTookAtPlace place word) self.old self.new }
        ensures lands { EngineLandsFromJob (Job.At place) Phase.Data self.old self.new }
        ensures meets { EngineMeets false None self.old self.new }
        ensures goes { self.new.state ≡ engine_after_ignored_word place }
        ensures rests { EngineRestsWith Ahead.Unsent self.new.state self.new.ahead }
        ensures tar { EngineRestsAtTar (engine_tar_to (Job.At place) self.old.task) self.new.state self.new.tar }
    {
        match place {
            HostStep::Confirm => self.answer(Answer::Written, Ahead::Unsent),
            _ => self.state = State::Doing(Job::At(place.next()), Phase::Ask),
        }
    }

    // Continues after this word was read at a place of the sequence.
    fn value(&mut self, place: HostStep, word: u32)
        ensures tracks { EngineStepKeeps (EngineTookWordAt place word) self.old self.new }
        ensures early { StepKeepsResumedOpening (ResumedOpeningReadWord (Job.At place) word) self.old self.new }
        ensures lands { EngineLandsFromJob (Job.At place) Phase.Data self.old self.new }
        ensures meets { EngineMeets (is_engine_event_at place word self.old.stray) (opening_wrong_id place word)
            self.old self.new }
        ensures goes { engine_place_is_of false place ≡ true
            → EngineGoesTo (engine_after_value place word) self.new.state }
        ensures rests { EngineRestsWith (engine_ahead_to (Job.At place) self.old.task) self.new.state self.new.ahead }
        ensures on { place ≡ HostStep.Confirm → self.new.state ≡ engine_after_value place word }
        ensures tar { place ≡ HostStep.Confirm
            → EngineRestsAtTar (engine_tar_to (Job.At place) self.old.task) self.new.state self.new.tar }
    {
        match place {
            HostStep::Identify => self.identify(word),
            HostStep::CheckCtrlStat => self.check_ctrl_stat(flags_of(word)),
            HostStep::Powered => self.check_power(flags_of(word), is_powered(word)),
            HostStep::Configured => self.check_csw(is_configured(word)),
            HostStep::Confirm => self.give_word(word),
            _ => self.state = State::Resting(Outcome::Stopped(End::Confused)),
        }
    }

    // Continues after RESEND returned this word.
    fn take_resent(&mut self, place: HostStep, word: u32)
        ensures tracks { EngineStepKeeps (EngineResendWord place word) self.old self.new }
        ensures lands { EngineLandsFromJob (Job.Resend place) Phase.Data self.old self.new }
        ensures meets { EngineMeets false None self.old self.new }
        ensures goes { engine_place_is_of false place ≡ true
            → EngineGoesTo (engine_after_resend place word) self.new.state }
        ensures rests { EngineRestsWith (engine_ahead_to (Job.Resend place) self.old.task) self.new.state
            self.new.ahead }
        ensures on { engine_word_decides (Job.Resend place) ≡ false → self.new.state ≡ engine_after_resend place word }
        ensures tar { engine_word_decides (Job.Resend place) ≡ false
            → EngineRestsAtTar (engine_tar_to (Job.Resend place) self.old.task) self.new.state self.new.tar }
    {
        match place {
            HostStep::Configured => self.check_csw(is_configured(word)),
            HostStep::Confirm => self.give_word(word),
            HostStep::Behind => self.answer(Answer::Value(word), Ahead::Failed),
            _ => self.state = State::Resting(Outcome::Stopped(End::Confused)),
        }
    }

    // Answers a read with its word, which RDBUFF returned, or in a block the DRW read of the next access.
    fn give_word(&mut self, word: u32)
        ensures tracks { EngineStepKeeps (EngineTookWordAt HostStep.Confirm word) self.old self.new }
        ensures lands { EngineLandsAnswered self.old self.new }
        ensures meets { EngineMeets false None self.old self.new }
        ensures goes { self.new.state ≡ State.Resting (Outcome.Answered (Answer.Value word)) }
        ensures ahead { self.new.ahead ≡ engine_ahead_sent self.old.task }
        ensures tar { self.new.tar ≡ burst_next_address (plain_address (access_of_task self.old.task)) }
    {
        let ahead = if self.task.is_block() {
            Ahead::Sent
        } else {
            Ahead::Unsent
        };
        self.answer(Answer::Value(word), ahead);
    }

    // Checks the identification that DPIDR returned.
    fn identify(&mut self, word: u32)
        ensures tracks { EngineStepKeeps (EngineTookWordAt HostStep.Identify word) self.old self.new }
        ensures early { StepKeepsResumedOpening (ResumedOpeningReadWord (Job.At HostStep.Identify) word) self.old
            self.new }
        ensures lands { EngineLandsFromJob (Job.At HostStep.Identify) Phase.Data self.old self.new }
        ensures meets { EngineMeets false (opening_wrong_id HostStep.Identify word) self.old self.new }
        ensures rests { engine_is_rested self.new.state ≡ false }
    {
        self.state = if word % 2 == 1 {
            State::Doing(Job::At(HostStep::WriteAbort), Phase::Ask)
        } else {
            State::Resting(Outcome::Stopped(End::WrongId(word)))
        };
    }

    // Checks CTRL/STAT after the opening cleared the flags.
    fn check_ctrl_stat(&mut self, flags: Flags)
        ensures tracks { EngineStepKeepsFlags flags (EngineBefore (Job.At HostStep.CheckCtrlStat)) self.old self.new }
        ensures early { GlimpseKeepsResumedOpening flags (ResumedBefore (Job.At HostStep.CheckCtrlStat)) self.old
            self.new }
        ensures lands { EngineLandsFromJob (Job.At HostStep.CheckCtrlStat) Phase.Data self.old self.new }
        ensures meets { EngineMeets (opening_finds_flags flags && not (engine_flag_is_stray self.old.stray flags)) None
            self.old self.new }
        ensures rests { engine_is_rested self.new.state ≡ false }
    {
        if self.stray && flags.error && !flags.damaged {
            self.forgive(Job::At(HostStep::WriteAbort));
        } else if flags.error || flags.damaged {
            self.event(Job::At(HostStep::WriteAbort));
        } else {
            self.state = State::Doing(Job::At(HostStep::Select), Phase::Ask);
        }
    }

    // Checks CTRL/STAT after power was requested.
    fn check_power(&mut self, flags: Flags, powered: bool)
        ensures tracks { EngineStepKeepsFlags flags (OpeningAskedPower powered) self.old self.new }
        ensures lands { EngineLandsFromJob (Job.At HostStep.Powered) Phase.Data self.old self.new }
        ensures meets { EngineMeets (opening_is_unpowered flags powered) None self.old self.new }
        ensures rests { engine_is_rested self.new.state ≡ false }
    {
        if flags.error {
            self.state = State::Resting(Outcome::Stopped(End::Confused));
        } else if flags.damaged {
            self.event(Job::Clear(HostStep::Powered, flags));
        } else if powered {
            self.state = State::Doing(Job::At(HostStep::Configure), Phase::Ask);
        } else {
            self.event(Job::At(HostStep::Powered));
        }
    }

    // Checks CSW as it was read back. TAR is unknown, and no access was sent.
    fn check_csw(&mut self, right: bool)
        ensures tracks { (word : ℕ) → right ≡ host_csw_is_configured word
            → EngineStepKeeps (EngineTookWordAt HostStep.Configured word) self.old self.new }
        ensures lands { EngineLandsFromJob (Job.At HostStep.Configured) Phase.Data self.old self.new }
        ensures meets { EngineMeets false None self.old self.new }
        ensures ahead { self.new.ahead ≡ Ahead.Unsent }
    {
        self.tar = None;
        self.ahead = Ahead::Unsent;
        self.state = if right {
            State::Resting(Outcome::Opened)
        } else {
            State::Resting(Outcome::Stopped(End::Confused))
        };
    }

    // Checks the flags after the request at a place was answered FAULT.
    fn status(&mut self, place: HostStep, flags: Flags)
        ensures tracks { EngineStepKeepsFlags flags (EngineMetFlag place) self.old self.new }
        ensures early { FlagsKeepResumedOpening flags (ResumedBefore (Job.Status place)) self.old self.new }
        ensures lands { EngineLandsFromJob (Job.Status place) Phase.Data self.old self.new }
        ensures meets { EngineMeets (engine_write_is_damaged place self.old.task self.old.aims flags) None self.old
            self.new }
        ensures goes { EngineGoesTo (engine_after_status place flags self.old.task) self.new.state }
        ensures rests { engine_is_rested self.new.state ≡ false }
    {
        let write = place.confirms(self.task, self.aims);
        match (flags.error, flags.damaged) {
            (false, true) if write.is_some() => self.event(Job::Clear(place, flags)),
            (true, false) if matches!(place, HostStep::Confirm | HostStep::Behind) => {
                self.state = State::Doing(Job::Clear(place, flags), Phase::Ask);
            }
            (true, false) if self.stray && matches!(place, HostStep::Select) => {
                self.forgive(Job::Clear(place, flags));
            }
            _ => self.state = State::Resting(Outcome::Stopped(End::Confused)),
        }
    }
}
