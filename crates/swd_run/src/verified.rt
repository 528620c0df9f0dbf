//! Compares read words with those that a script expects, and finds bus errors.
ghost use Rattle.std.specs.Prelude.{◌≡◌, ◌||◌};
ghost use Rattle.swd_run.specs.Verified.{verify_difference_in, verify_read_differs, verify_read_differs_in};
ghost use Rattle.swd_run.specs.Verified.{report_has_bus_fault, verify_or_else};

use swd_port::Answer;
use swd_script::Expected;

/// An answered read whose answer isn't the expected word.
#[derive(Clone, Copy, Debug, PartialEq, Eq)]
pub struct Difference {
    /// The line of the script, from 1.
    pub line: u64,
    /// The address of the read.
    pub addr: u32,
    /// The expected word.
    pub expected: u32,
    /// The answer: another word, or a bus error.
    pub found: Answer,
}

// Returns the difference, if the answer isn't the expected word.
fn differs(read: &Expected, answer: Answer) -> Option<Difference>
    ensures { result ≡ verify_read_differs read.now answer }
{
    if answer == Answer::Value(read.word) {
        return None;
    }
    Some(Difference {
        line: read.line,
        addr: read.addr,
        expected: read.word,
        found: answer,
    })
}

// Returns the same for a read that may not be answered; an unanswered read isn't a difference.
fn differs_among(answers: &[Answer], read: &Expected) -> Option<Difference>
    ensures { result ≡ verify_read_differs_in answers.now read.now }
{
    if read.place < answers.len() {
        differs(read, answers[read.place])
    } else {
        None
    }
}

// Returns the first difference of a run.
fn difference_in(reads: &[Expected], answers: &[Answer]) -> Option<Difference>
    ensures { result ≡ verify_difference_in reads.now answers.now }
{
    for read in reads {
        if let Some(found) = differs_among(answers, read) {
            return Some(found);
        }
    }
    None
}

/// Returns the first difference of earlier runs or, if there was none, of this one.
pub(crate) fn or_difference_in(
    earlier: Option<Difference>,
    reads: &[Expected],
    answers: &[Answer],
) -> Option<Difference>
    ensures { result ≡ verify_or_else earlier (verify_difference_in reads.now answers.now) }
{
    match earlier {
        Some(found) => Some(found),
        None => difference_in(reads, answers),
    }
}

// Returns whether one of these answers is a bus error.
fn has_bus_fault(answers: &[Answer]) -> bool
    ensures { result ≡ report_has_bus_fault answers.now }
{
    for answer in answers {
        if let Answer::BusFault = answer {
            return true;
        }
    }
    false
}

/// Returns whether an access of earlier runs, or of this one, was a bus error.
pub(crate) fn or_bus_fault(earlier: bool, answers: &[Answer]) -> bool
    ensures { result ≡ (earlier || report_has_bus_fault answers.now) }
{
    earlier || has_bus_fault(answers)
}
