//! The transactions that an engine asks for next as long as each is answered OK.
ghost use Rattle.std.specs.Prelude.{◌≡◌, ◌∷◌, ◌⊎◌, [], List, IfNone, IfSome, false, true, unwrap_or};
ghost use Rattle.swd_port.specs.declared.call.Call.{Call};
ghost use Rattle.swd_host.specs.Coming.{EngineAsked, EngineForeseesNext, EnginesForeseeNone, HostForesees};
ghost use Rattle.swd_host.specs.Coming.{HostTakesUp, HostTakesUpNone};
ghost use Rattle.swd_host.specs.Engines.{engine_cue, engine_job, engine_may_start, engine_outcome};
ghost use Rattle.swd_host.specs.Requests.{engine_word_for};
ghost use Rattle.swd_host.specs.Steps.{engine_word_decides};

use crate::engine::{Engine, State};
use crate::outcome::Outcome;
use crate::request::{HostStep, Job};
use arrayvec::ArrayVec;
use swd_bits::{Request, data_bits};
use swd_port::{Access, Coming, Cue, Wire};

/// The most transactions that are told at once.
pub(crate) const MOST_COMING: usize = 160;

// A transaction that comes next, with the engine after it, and the accesses that are left then.
#[derive(Clone, Copy)]
struct Foreseen<'a> {
    coming: Coming,
    engine: Engine,
    left: &'a [Access],
}

impl Engine {
    /// Returns the transactions that come next, each as long as those before it are answered OK with right parity: up
    /// to a read whose word decides what follows (of DPIDR, CTRL/STAT or CSW), up to 160, or up to the end of the last
    /// access. `after` are the accesses after the current one. Where a line reset, a data phase or a turnaround is due,
    /// there are none.
    pub fn coming(&self, after: &[Access]) -> ArrayVec<Coming, MOST_COMING>
        ensures { HostForesees 160 self.now after.now result.items }
    {
        let mut engine = *self;
        let mut left = after;
        let mut coming = ArrayVec::new();
        for _ in 0..MOST_COMING {
            let Some(next) = engine.foresee(left) else {
                return coming;
            };
            let Ok(()) = coming.try_push(next.coming) else {
                return coming;
            };
            engine = next.engine;
            left = next.left;
        }
        coming
    }

    // Returns the next transaction, if there is one. At a word that decides, the engine stays at its data phase, from
    // which nothing is foreseen.
    fn foresee<'a>(self, left: &'a [Access]) -> Option<Foreseen<'a>>
        ensures next { IfSome result (λ next. EngineForeseesNext self left.now next.coming next.engine next.left.now) }
        ensures none { IfNone result (EnginesForeseeNone self left.now) }
    {
        let mut engine = self;
        let (request, left) = engine.ask(left)?;
        let cue = engine.cue()?;
        match cue {
            Cue::Give(_) => {
                let coming = Coming {
                    request,
                    word: engine.word(),
                };
                engine.done();
                Some(Foreseen {
                    coming,
                    engine,
                    left,
                })
            }
            Cue::Take => {
                let coming = Coming { request, word: 0 };
                let decides = engine.is_deciding();
                if decides {
                    return Some(Foreseen {
                        coming,
                        engine,
                        left,
                    });
                }
                engine.taken(data_bits(0));
                Some(Foreseen {
                    coming,
                    engine,
                    left,
                })
            }
            _ => None,
        }
    }

    // Asks for the next request, sees OK, and returns it with the accesses that are left then; `None` where there is no
    // request.
    fn ask<'a>(&mut self, left: &'a [Access]) -> Option<(Request, &'a [Access])>
        ensures asked { IfSome result (λ next. EngineAsked self.old left.now next.0 self.new next.1.now) }
        ensures none { IfNone result (EnginesForeseeNone self.old left.now) }
    {
        let left = self.take_up(left)?;
        let request = self.asked()?;
        self.seen(1);
        let left = self.take_up(left)?;
        Some((request, left))
    }

    // Returns the request that comes next, if one does.
    fn asked(&self) -> Option<Request>
        ensures asks { IfSome result (λ request. engine_cue self.now ≡ Some (Cue.Ask request)) }
        ensures none { IfNone result ((request : Request) → engine_cue self.now ≡ Some (Cue.Ask request) → ⊥) }
    {
        let cue = self.cue()?;
        match cue {
            Cue::Ask(request) => Some(request),
            _ => None,
        }
    }

    // Takes up accesses until there is a cue, and returns those that are left; `None` where there is none.
    fn take_up<'a>(&mut self, left: &'a [Access]) -> Option<&'a [Access]>
        ensures takes { IfSome result (λ rest. HostTakesUp self.old left.now self.new rest.now) }
        ensures none { IfNone result (HostTakesUpNone self.old left.now) }
    {
        let mut rest = left;
        while self.cue().is_none() {
            let (first, more) = self.next_access(rest)?;
            self.start(first, more.first().copied());
            rest = more;
        }
        Some(rest)
    }

    // Returns the first of these accesses and the others, if the one before was answered.
    fn next_access<'a>(&self, left: &'a [Access]) -> Option<(Access, &'a [Access])>
        ensures may { IfSome result (λ next. engine_may_start (engine_outcome self.now) ≡ true) }
        ensures parts { IfSome result (λ next. left.now ≡ next.0 ∷ next.1.now) }
        ensures none { IfNone result ((engine_may_start (engine_outcome self.now) ≡ false) ⊎ (left.now ≡ [])) }
    {
        match self.finished() {
            Some(Outcome::Opened | Outcome::Answered(_)) => {
                let (first, more) = left.split_first()?;
                Some((*first, more))
            }
            _ => None,
        }
    }

    // Returns whether the word that is read decides what comes next.
    fn is_deciding(&self) -> bool
        ensures { result ≡ engine_word_decides (engine_job self.now.state) }
    {
        match self.state {
            State::Doing(job, _) => decides(job),
            _ => true,
        }
    }

    // Returns the word that a write sends; 0 where none is due.
    fn word(&self) -> u32
        ensures { result ≡ unwrap_or (engine_word_for (engine_job self.now.state) self.now.task) 0 }
    {
        match self.state {
            State::Doing(job, _) => job.word(self.task).unwrap_or(0),
            _ => 0,
        }
    }
}

// Returns whether the word of a read decides what comes next. Any other word is ignored, or answers an access.
fn decides(job: Job) -> bool
    ensures { result ≡ engine_word_decides job }
{
    match job {
        Job::At(place) => !matches!(
            place,
            HostStep::ReadCsw | HostStep::Transfer | HostStep::Confirm
        ),
        Job::Resend(place) => !matches!(place, HostStep::Confirm | HostStep::Behind),
        _ => true,
    }
}

// Tells the wire what comes next, where that is of use to it.
#[inline(always)]
pub(crate) fn announce<W: Wire>(wire: &mut W, engine: &Engine, after: &[Access])
    ensures port { W.port wire.new ≡ W.port wire.old }
    ensures plan { W.plan wire.new ≡ W.plan wire.old }
    ensures lawful { W.lawful wire.new → W.lawful wire.old }
    ensures notes { (calls : List Call) → W.notes calls wire.old → W.notes calls wire.new }
{
    if wire.looks_ahead().is_some() {
        wire.announce(engine.coming(after).as_slice());
    }
}
