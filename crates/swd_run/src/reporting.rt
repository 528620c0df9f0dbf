//! Writes the report of a run while it goes on.
ghost use Rattle.std.specs.Prelude.{◌≡◌, ◌++◌, ◌∷◌, [], List, ℕ, Option, length, min, refl};
ghost use Rattle.std.proofs.Common.{◌∙◌};
ghost use Rattle.swd_io.specs.Blocks.{BlockBufferSends};
ghost use Rattle.swd_run.specs.Reporting.{Goes, Has};
ghost use Rattle.swd_run.specs.Reports.{ReportWritesOn, report_last_line};
ghost use Rattle.swd_run.specs.Leads.{leads_further, leads_nowhere};

use crate::going_on::Stop;
use crate::progress::{Progress, TOLD_AFTER, tell_written};
use crate::report::{answer_line, last_line, resume_line};
use crate::run_sink::RunSink;
use std::convert::Infallible;
use std::io::Write;
use swd_host::{AnswerSink, Ending};
use swd_io::Block;
use swd_port::{Access, Answer};

/// Appends the line of each answer to a block when the answer comes, and a line wherever the run is resumed, and passes
/// the answers on. Writes the block after every 1,024 answers, and tells how many lines it wrote. If the writer fails,
/// the further lines are dropped, and the block keeps the count of the bytes written.
#[derive(Drop)]
pub(crate) struct Reporting<'a, 'b, 'c, W, K, G> {
    /// What the lines are appended to.
    pub(crate) block: &'a mut Block<'b, W>,
    /// The accesses of the run.
    pub(crate) accesses: &'a [Access],
    /// What the answers are passed on to.
    pub(crate) answers: &'a mut K,
    /// What is told how many answers have their lines.
    pub(crate) progress: &'c mut G,
}

impl<'a, 'b, 'c, W: Write, K: AnswerSink, G: Progress> AnswerSink
    for Reporting<'a, 'b, 'c, W, K, G> {
    ghost taken = { λ state. K.taken state.answers.now };

    ghost most = { λ state. min (K.most state.answers.now) (length state.accesses.now) };

    ghost keeps = { λ old new. Goes W.contents K.taken old [] new };

    #[inline(always)]
    fn count(&self) -> usize {
        self.answers.count()
    }

    #[inline(always)]
    fn take(&mut self, answer: Answer) {
        let line = answer_line(&self.accesses[self.answers.count()], &answer);
        self.block.put_line(line.as_str().as_bytes());
        self.answers.take(answer);
        if self.answers.count() % TOLD_AFTER == 0 {
            let sent = self.block.flush();
            tell_written(self.progress, sent.is_ok(), self.answers.count());
        }
    }

    ghost keeps_all = { λ a. record {
      block = refl;
      writer = refl;
      answers = refl;
      accesses = refl;
      has = λ start. leads_nowhere (Has W.contents K.taken start) a;
    } };

    ghost keeps_on = { λ a b c first next. record {
      block = next.block ∙ first.block;
      writer = next.writer ∙ first.writer;
      answers = next.answers ∙ first.answers;
      accesses = next.accesses ∙ first.accesses;
      has = λ start. leads_further (Has W.contents K.taken start) a b c [] [] (first.has start) (next.has start);
    } };
}

impl<'a, 'b, 'c, W: Write, K: AnswerSink, G: Progress> RunSink for Reporting<'a, 'b, 'c, W, K, G> {
    type Refusal = Infallible;

    ghost follows = { λ old stops new. Goes W.contents K.taken old stops new };

    fn stop(&mut self, stop: Stop) -> Result<(), Infallible> {
        self.block.put_line(resume_line(&stop).as_str().as_bytes());
        Ok(())
    }

    ghost answers_follow = { λ a b kept. kept };

    ghost follows_on = { λ a b c stops further first next. record {
      block = next.block ∙ first.block;
      writer = next.writer ∙ first.writer;
      answers = next.answers ∙ first.answers;
      accesses = next.accesses ∙ first.accesses;
      has = λ start. leads_further (Has W.contents K.taken start) a b c stops further (first.has start)
          (next.has start);
    } };
}

/// Appends the line of the end of a run with so many answers, and writes the block. Returns the number of bytes of the
/// report, at most 2^64 - 1.
///
/// # Errors
///
/// If the writer failed, now or before: how many bytes of the report were written, at most 2^64 - 1.
pub(crate) fn finish<W: Write>(
    block: &mut Block<'_, W>,
    ending: &Ending,
    answered: usize,
) -> Result<u64, u64>
    ensures writer { block.new.writer.ghost_name ≡ block.old.writer.ghost_name }
    ensures writes { (start : Option (List ℕ)) (all : List ℕ) → BlockBufferSends W.contents start block.old all
        → ReportWritesOn result start (W.contents block.new.writer.now)
        (all ++ (report_last_line ending.now.ended answered ending.now.begun ++ 10 ∷ [])) }
{
    let line = last_line(ending.ended, answered, ending.begun);
    block.put_line(line.as_str().as_bytes());
    block.flush()
}
