//! The first words of a line.
ghost use Rattle.std.specs.Prelude.{◌≡◌, ◌∷◌, ◌++◌, [], ℕ, List, take, false};
ghost use Rattle.swd_script.specs.Lines.{is_script_blank};

use arrayvec::ArrayVec;
use std::mem;

// One byte more than the longest valid word has.
const LONGEST: usize = 11;

// One word more than the longest valid line has.
const MOST: usize = 6;

/// The first bytes of a word. A truncated word is invalid, as is the whole one.
pub(crate) type Word = ArrayVec<u8, LONGEST>;

/// The first words of a line. A line with further words is invalid.
pub type FirstWords = ArrayVec<Word, MOST>;

/// The first words of the line so far, and the current word.
#[derive(Drop)]
pub(crate) struct LineWords {
    pub(crate) ended: FirstWords,
    pub(crate) last: Word,
}

impl LineWords {
    ghost use Rattle.swd_script.specs.Words.{begun, texts, Gathers};

    /// Returns the state before the first word.
    pub(crate) fn new() -> LineWords
        ensures { Gathers [] result }
    {
        LineWords {
            ended: ArrayVec::new(),
            last: ArrayVec::new(),
        }
    }

    /// Takes a byte of a word.
    pub(crate) fn push(&mut self, byte: u8)
        requires { is_script_blank byte ≡ false }
        ensures { (line : List ℕ) → Gathers line self.old → Gathers (line ++ byte ∷ []) self.new }
    {
        if !self.last.is_full() {
            self.last.push(byte);
        }
    }

    /// Ends the current word, if there is one: at a space, a tab or the end of the line. Then the line's first words
    /// are those in `ended`.
    pub(crate) fn end_word(&mut self)
        ensures ended { texts self.new.ended.items
            ≡ take 6 (texts self.old.ended.items ++ begun self.old.last.items) }
        ensures last { self.new.last.items ≡ [] }
    {
        let word = mem::take(&mut self.last);
        if !self.ended.is_full() && !word.is_empty() {
            self.ended.push(word);
        }
    }

    /// Removes all words.
    pub(crate) fn clear(&mut self)
        ensures { Gathers [] self.new }
    {
        self.ended.clear();
        self.last.clear();
    }
}
