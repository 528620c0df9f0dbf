//! The text of a plan: which lines and words it may have.
ghost use Rattle.std.specs.Prelude.{◌≡◌, IfOk};

use crate::plan::{MOST_STEPS, Without, word_in};
use crate::send::Send;
use crate::steps::STEPS;

/// The text of a plan, each line and word of which is one: those that the head of `STEPS` lists.
#[derive(Clone, Copy, Debug, PartialEq, Eq)]
pub struct Steps<'a> {
    pub(crate) text: &'a str,
    // What its groups need.
    pub(crate) needs: Without,
}

/// Why a text is no plan's, and in which line. The first line is 1.
#[derive(Clone, Copy, Debug, PartialEq, Eq)]
pub struct StepFault<'a> {
    /// The number of the line, at most 2^32 - 1. It is 0 in a text without one.
    pub line: u32,
    pub trouble: StepTrouble<'a>,
}

/// What is wrong with a line of a plan's text.
#[derive(Clone, Copy, Debug, PartialEq, Eq)]
pub enum StepTrouble<'a> {
    /// This word begins no line.
    Line(&'a str),
    /// No group can need this.
    Needs(&'a str),
    /// This word is no step, or stands for a word of `first` or `second` where there is none.
    Word(&'a str),
    /// No line `send` with a step follows.
    Unsent,
    /// The plan has more than [`MOST_STEPS`] steps up to here.
    TooMany,
}

// What was read of a text: how many words the lines `first` and `second` have and whether `send` has to follow, how
// many steps there are, and what the groups need.
#[derive(Clone, Copy)]
struct Reading {
    firsts: u32,
    seconds: u32,
    is_open: bool,
    steps: u32,
    needs: Without,
}

impl<'a> Steps<'a> {
    /// Returns the steps of this project's own plan.
    pub fn own() -> Steps<'static> {
        Steps {
            text: STEPS,
            needs: Without {
                errors: true,
                page: true,
                kilobyte: true,
            },
        }
    }

    /// Returns the steps of a text.
    ///
    /// # Errors
    ///
    /// Returns the first line that a plan can't have, or the last one if a line `send` is missing behind it.
    pub fn of(text: &'a str) -> Result<Steps<'a>, StepFault<'a>>
        ensures { IfOk result (λ steps. steps.text.now ≡ text.now) }
    {
        let (mut reading, mut line) = (Reading::new(), 0u32);
        for words in text.lines() {
            line = line.saturating_add(1);
            if let Err(trouble) = reading.take(words) {
                return Err(StepFault { line, trouble });
            }
        }
        if reading.is_open || reading.steps == 0 {
            let trouble = StepTrouble::Unsent;
            return Err(StepFault { line, trouble });
        }
        Ok(Steps {
            text,
            needs: reading.needs,
        })
    }
}

impl Reading {
    // Nothing was read.
    fn new() -> Reading {
        Reading {
            firsts: 0,
            seconds: 0,
            is_open: false,
            steps: 0,
            needs: Without {
                errors: false,
                page: false,
                kilobyte: false,
            },
        }
    }

    // Reads a line.
    fn take<'a>(&mut self, line: &'a str) -> Result<(), StepTrouble<'a>> {
        let (name, words) = word_in(line);
        match name {
            "#" if self.is_open => return Err(StepTrouble::Unsent),
            "#" => return Ok(()),
            "" if words.is_empty() => return Ok(()),
            "needs" => self.need(words)?,
            "first" => self.firsts = count_of(words, 0, 0)?,
            "second" => self.seconds = count_of(words, 0, 0)?,
            "send" => return self.send(words),
            _ => return Err(StepTrouble::Line(name)),
        }
        self.is_open = true;
        Ok(())
    }

    // Notes what a group needs.
    fn need<'a>(&mut self, needs: &'a str) -> Result<(), StepTrouble<'a>> {
        match needs {
            "hole" => self.needs.errors = true,
            "page" => self.needs.page = true,
            "kilobyte" => self.needs.kilobyte = true,
            _ => return Err(StepTrouble::Needs(needs)),
        }
        Ok(())
    }

    // Counts the steps of a group, which ends here.
    fn send<'a>(&mut self, words: &'a str) -> Result<(), StepTrouble<'a>> {
        let count = count_of(words, self.firsts, self.seconds)?;
        if count == 0 {
            return Err(StepTrouble::Unsent);
        }
        let rounds = self.firsts.max(1).saturating_mul(self.seconds.max(1));
        self.steps = self.steps.saturating_add(count.saturating_mul(rounds));
        if self.steps > MOST_STEPS {
            return Err(StepTrouble::TooMany);
        }
        (self.firsts, self.seconds, self.is_open) = (0, 0, false);
        Ok(())
    }
}

// Returns how many steps these words are, where so many stand for `1` and for `2`.
fn count_of<'a>(words: &'a str, firsts: u32, seconds: u32) -> Result<u32, StepTrouble<'a>> {
    let mut count = 0u32;
    for word in words.split(' ') {
        let is_step = match word {
            "" => continue,
            "1" => firsts > 0,
            "2" => seconds > 0,
            _ => Send::of(word).is_some(),
        };
        if !is_step {
            return Err(StepTrouble::Word(word));
        }
        count = count.saturating_add(1);
    }
    Ok(count)
}
