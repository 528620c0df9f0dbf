//! What takes the answers of a run, and the places where it is resumed.
ghost use Rattle.std.specs.Prelude.{◌≡◌, ◌≤◌, ◌++◌, ◌∷◌, [], length, List, OnOk};
ghost use Rattle.std.proofs.Common.{◌∙◌};
ghost use Rattle.std.specs.Vec.{vec_capacity};
ghost use Rattle.swd_run.specs.declared.going_on.Stop.{Stop as StopType};
ghost use Rattle.swd_run.specs.Leads.{run_sink_no_more, run_sink_grows_twice, run_sink_unchanged};

use crate::going_on::Stop;
use std::alloc::Allocator;
use swd_host::AnswerSink;
use swd_port::Answer;

/// Takes the answers of a run in order, each once it is certain, and the places where the run is resumed, each before
/// the next call.
pub trait RunSink: AnswerSink {
    /// The reason why it doesn't take a place: `Infallible` for a sink that takes each.
    type Refusal;

    /// What holds from one state to a later one, between which it took these places, and any answers.
    ghost follows: { Self → List StopType → Self → Type 0 };

    /// Takes the place where the run is resumed.
    ///
    /// # Errors
    ///
    /// The reason why it doesn't take the place. The run isn't resumed then.
    fn stop(&mut self, stop: Stop) -> Result<(), Self::Refusal>
        requires { stop.answered ≡ length (Self.taken self.old) }
        ensures taken { Self.taken self.new ≡ Self.taken self.old }
        ensures most { Self.most self.old ≤ Self.most self.new }
        ensures follows { OnOk result (follows self.old (stop ∷ []) self.new) };

    ghost answers_follow: { (a b : Self) → Self.keeps a b → follows a [] b };

    ghost follows_on: { (a b c : Self) (first next : List StopType) → follows a first b → follows b next c
        → follows a (first ++ next) c };
}

/// Keeps the answers and the places. It takes as many answers as there is capacity for.
#[derive(Drop)]
pub(crate) struct KeptAnswers<A: Allocator> {
    pub(crate) answers: Vec<Answer, A>,
    pub(crate) stops: Vec<Stop, A>,
}

impl<A: Allocator> AnswerSink for KeptAnswers<A> {
    ghost taken = { λ kept. kept.answers.items };

    ghost most = { λ kept. vec_capacity kept.answers };

    ghost keeps = { λ old new. new.stops.items ≡ old.stops.items };

    fn count(&self) -> usize {
        self.answers.len()
    }

    fn take(&mut self, answer: Answer) {
        self.answers.push(answer).unwrap();
    }

    ghost keeps_all = { λ a. run_sink_unchanged a.stops.items };

    ghost keeps_on = { λ a b c first next. next ∙ first };
}

/// Refuses a place if an allocation fails.
impl<A: Allocator> RunSink for KeptAnswers<A> {
    type Refusal = ();

    ghost follows = { λ old stops new. new.stops.items ≡ old.stops.items ++ stops };

    fn stop(&mut self, stop: Stop) -> Result<(), ()> {
        match self.stops.push(stop) {
            Ok(()) => Ok(()),
            Err(_) => Err(()),
        }
    }

    ghost answers_follow = { λ a b kept. run_sink_no_more a.stops.items b.stops.items kept };

    ghost follows_on = { λ a b c one next. run_sink_grows_twice a.stops.items b.stops.items c.stops.items one next };
}
