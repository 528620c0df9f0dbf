//! What takes the answers of a run.
ghost use Rattle.std.specs.Prelude.{ℕ, ◌≡◌, ◌<◌, ◌≤◌, ◌++◌, ◌∷◌, [], length, List};
ghost use Rattle.std.specs.Vec.{vec_capacity};
ghost use Rattle.swd_port.specs.declared.access.Answer.{Answer as AnswerType};

use std::alloc::Allocator;
use swd_port::Answer;

/// Takes the answers of a run in order, each once it is certain.
///
/// An answer is passed on when the request that confirms its access was acknowledged. So at each moment the answers
/// that were taken are the first ones of the report, whatever comes back later.
pub trait AnswerSink {
    /// The answers that it took so far.
    ghost taken: { Self → List AnswerType };

    /// The most answers that it can take in all.
    ghost most: { Self → ℕ };

    /// What holds from one state to a later one, beside the answers.
    ghost keeps: { Self → Self → Type 0 };

    /// Returns the number of answers that it took so far.
    fn count(&self) -> usize
        ensures { result ≡ length (taken self.now) };

    /// Takes the next answer.
    fn take(&mut self, answer: Answer)
        requires { length (taken self.old) < most self.old }
        ensures taken { taken self.new ≡ taken self.old ++ answer ∷ [] }
        ensures most { most self.old ≤ most self.new }
        ensures keeps { keeps self.old self.new };

    ghost keeps_all: { (a : Self) → keeps a a };

    ghost keeps_on: { (a b c : Self) → keeps a b → keeps b c → keeps a c };
}

/// Appends the answers. It takes as many as the vector has capacity for, so that nothing is allocated.
impl<A: Allocator> AnswerSink for Vec<Answer, A> {
    ghost taken = { λ answers. answers.items };

    ghost most = { λ answers. vec_capacity answers };

    ghost keeps = { λ _ _. Unit {0} };

    fn count(&self) -> usize {
        self.len()
    }

    fn take(&mut self, answer: Answer) {
        self.push(answer).unwrap();
    }

    ghost keeps_all = { λ a. tt };

    ghost keeps_on = { λ a b c first next. tt };
}

// Room for one answer, for a list without accesses.
#[derive(Drop)]
pub(crate) struct OneAnswer {
    pub(crate) answer: Option<Answer>,
}

impl AnswerSink for OneAnswer {
    ghost use Rattle.swd_host.specs.Sinks.{answer_list};

    ghost taken = { λ sink. answer_list sink.answer };

    ghost most = { λ _. 1 };

    ghost keeps = { λ _ _. Unit {0} };

    fn count(&self) -> usize {
        usize::from(self.answer.is_some())
    }

    fn take(&mut self, answer: Answer) {
        self.answer = Some(answer);
    }

    ghost keeps_all = { λ a. tt };

    ghost keeps_on = { λ a b c first next. tt };
}
