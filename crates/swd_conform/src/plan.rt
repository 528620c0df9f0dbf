//! The plan: a list of steps, made from the text of its groups.
ghost use Rattle.std.specs.Prelude.{◌≡◌, ◌+◌, ◌≤◌, IfNone, IfSome};

use crate::aim::Bounds;
use crate::send::{Send, Word};
use crate::steps_text::Steps;
use swd_bits::Request;

/// The least number of words of memory that a plan is made for.
pub const LEAST_WORDS: u32 = 80;

/// The most steps of a plan.
pub const MOST_STEPS: u32 = 2000;

// How many bytes, from the first word that a plan uses on, are in one kilobyte.
const SPAN: u32 = 64;

// Where the pseudo-random words begin.
const SEED: u32 = 0x2545_f491;

/// A step of a conformance run.
#[derive(Clone, Copy, Debug, PartialEq, Eq)]
pub enum Step {
    /// Sends a request until it doesn't get WAIT. A write has this word, and wrong parity if `damaged`. On a lost line,
    /// a line reset and a read of DPIDR come before it.
    Ask {
        request: Request,
        word: u32,
        damaged: bool,
    },
    /// Sends a request once. A write has the word 0. On a lost line, a line reset comes before it.
    Once(Request),
    /// Sends a write once, with a line reset in place of its data phase.
    Cut(Request),
    /// Sends a line reset.
    Reset,
    /// Sends reads of CTRL/STAT, with idle cycles between them, up to one that acknowledges both powers.
    Power,
}

/// What a plan leaves out, since its memory and its addresses don't allow it.
#[derive(Clone, Copy, Debug, PartialEq, Eq)]
pub struct Without {
    /// Bus errors: no address without memory is known.
    pub errors: bool,
    /// An end of 256 bytes: none but one of a kilobyte is in the memory.
    pub page: bool,
    /// An end of a kilobyte: none is in the memory.
    pub kilobyte: bool,
}

// A group: the words of a round, what is left of the words of `first` and of `second`, and all of the latter.
#[derive(Clone, Copy)]
struct Group<'a> {
    words: &'a str,
    first: &'a str,
    second: &'a str,
    seconds: &'a str,
}

// A group without words.
const EMPTY: Group<'static> = Group {
    words: "",
    first: "",
    second: "",
    seconds: "",
};

/// The steps of a conformance run, in order, for a target in its reset state. It sends and reads nothing.
///
/// Where nothing is damaged or lost, and no request gets WAIT eight times, a target that conforms to the port model
/// makes no transfer at another address than that of one of the words that the plan was made for, or the one without
/// memory. [`ConformRun`](crate::ConformRun) leaves out those that could be elsewhere.
#[derive(Clone, Copy)]
pub struct Plan<'a> {
    // What is left of the text, the rule that the group reaches, what is left of the round, and the group.
    text: &'a str,
    pub(crate) rule: &'a str,
    round: &'a str,
    group: Group<'a>,
    needs: Without,
    memory: u32,
    page: Option<u32>,
    kilobyte: Option<u32>,
    pub(crate) bounds: Bounds,
    fresh: u32,
    pub(crate) left: u32,
    ghost few: { left ≤ 2000 },
}

impl<'a> Plan<'a> {
    ghost use Rattle.swd_conform.specs.Aims.{conform_bounds};
    ghost use Rattle.swd_conform.specs.Plans.{IsConformMemory, conform_steps_left};

    /// Returns this project's own plan, for memory as [`Plan::of`] takes it.
    pub fn new(base: u32, words: u32, hole: Option<u32>) -> Option<Plan<'static>>
        ensures steps { IfSome result (λ plan. conform_steps_left plan ≡ MOST_STEPS) }
        ensures bounds { IfSome result (λ plan. plan.bounds ≡ conform_bounds base words hole) }
        ensures some { IfSome result (λ _. IsConformMemory base words hole) }
        ensures none { IfNone result (IsConformMemory base words hole → ⊥) }
    {
        Plan::of(Steps::own(), base, words, hole)
    }

    /// Returns the plan of these steps for this many words of memory from `base` on, a multiple of 4, and an address
    /// without memory, a multiple of 4 that isn't one of these. The words are at least [`LEAST_WORDS`], and none is
    /// past `ffffffff`; otherwise it returns `None`.
    pub fn of(steps: Steps<'a>, base: u32, words: u32, hole: Option<u32>) -> Option<Plan<'a>>
        ensures steps { IfSome result (λ plan. conform_steps_left plan ≡ MOST_STEPS) }
        ensures bounds { IfSome result (λ plan. plan.bounds ≡ conform_bounds base words hole) }
        ensures some { IfSome result (λ _. IsConformMemory base words hole) }
        ensures none { IfNone result (IsConformMemory base words hole → ⊥) }
    {
        let end = u64::from(base) + 4 * u64::from(words);
        if base % 4 != 0 || words < LEAST_WORDS || end > 1 << 32 {
            return None;
        }
        if let Some(at) = hole
            && (at % 4 != 0 || at >= base && u64::from(at) < end)
        {
            return None;
        }
        let mut plan = Plan {
            text: steps.text,
            rule: "",
            round: "",
            group: EMPTY,
            needs: steps.needs,
            memory: first_of(base),
            page: page_in(base, end),
            kilobyte: within(last_of_kilobyte(base), end),
            bounds: Bounds {
                first: base,
                last: base + 4 * (words - 1),
                hole,
            },
            fresh: SEED,
            left: MOST_STEPS,
        };
        plan.enter();
        Some(plan)
    }

    /// Returns what the plan leaves out.
    pub fn without(&self) -> Without {
        Without {
            errors: self.needs.errors && self.bounds.hole.is_none(),
            page: self.needs.page && self.page.is_none(),
            kilobyte: self.needs.kilobyte && self.kilobyte.is_none(),
        }
    }

    /// Returns the next step, or `None` after the last one.
    pub fn next(&mut self) -> Option<Step>
        ensures some { IfSome result (λ _. conform_steps_left self.new + 1 ≡ conform_steps_left self.old) }
        ensures none { IfNone result (conform_steps_left self.new ≡ conform_steps_left self.old) }
    {
        let (word, round) = word_in(self.round);
        let send = Send::of(self.meant(word))?;
        let left = self.left.checked_sub(1)?;
        let step = self.step_of(send);
        self.left = left;
        self.round = round;
        if round.is_empty() {
            self.turn();
        }
        Some(step)
    }

    // Returns the word of `first` or `second` for which this one stands, or this one.
    fn meant(&self, word: &'a str) -> &'a str {
        match word {
            "1" => word_in(self.group.first).0,
            "2" => word_in(self.group.second).0,
            _ => word,
        }
    }

    // Returns the step that sends this.
    fn step_of(&mut self, send: Send) -> Step
        ensures { conform_steps_left self.new ≡ conform_steps_left self.old }
    {
        match send {
            Send::Read(request) => Step::Ask {
                request,
                word: 0,
                damaged: false,
            },
            Send::Write(request, word) => Step::Ask {
                request,
                word: self.number_of(word),
                damaged: false,
            },
            Send::Damaged(request, word) => Step::Ask {
                request,
                word: self.number_of(word),
                damaged: true,
            },
            Send::Once(request) => Step::Once(request),
            Send::Cut(request) => Step::Cut(request),
            Send::Reset => Step::Reset,
            Send::Power => Step::Power,
        }
    }

    // Returns a word of a write.
    fn number_of(&mut self, word: Word) -> u32
        ensures { conform_steps_left self.new ≡ conform_steps_left self.old }
    {
        match word {
            Word::Is(word) => word,
            Word::Memory(behind) => self.memory.wrapping_add(behind),
            Word::Page(behind) => self.page.unwrap_or(self.memory).wrapping_add(behind),
            Word::Kilobyte(behind) => self.kilobyte.unwrap_or(self.memory).wrapping_add(behind),
            Word::Hole => self.bounds.hole.unwrap_or(self.memory),
            Word::Fresh => {
                self.fresh = self
                    .fresh
                    .wrapping_mul(1_664_525)
                    .wrapping_add(1_013_904_223);
                self.fresh
            }
        }
    }

    // Begins the next round of the group, or the next group.
    fn turn(&mut self)
        ensures { conform_steps_left self.new ≡ conform_steps_left self.old }
    {
        self.round = self.group.words;
        self.group.second = word_in(self.group.second).1;
        if !self.group.second.is_empty() {
            return;
        }
        self.group.second = self.group.seconds;
        self.group.first = word_in(self.group.first).1;
        if self.group.first.is_empty() {
            self.enter();
        }
    }

    // Begins the next of the groups that can be sent.
    fn enter(&mut self)
        ensures left { conform_steps_left self.new ≡ conform_steps_left self.old }
        ensures bounds { self.new.bounds ≡ self.old.bounds }
    {
        let (mut group, mut is_sent) = (EMPTY, true);
        for _ in 0..self.text.len() {
            let (line, text) = line_in(self.text);
            self.text = text;
            let (name, words) = word_in(line);
            match name {
                "#" => self.rule = words,
                "needs" => is_sent = is_sent && self.has(words),
                "first" => group.first = words,
                "second" => group.seconds = words,
                "send" if is_sent => {
                    group.words = words;
                    group.second = group.seconds;
                    self.begin(group);
                    return;
                }
                "send" => (group, is_sent) = (EMPTY, true),
                _ => {}
            }
        }
        self.begin(EMPTY);
    }

    // Begins the first round of a group.
    fn begin(&mut self, group: Group<'a>)
        ensures left { conform_steps_left self.new ≡ conform_steps_left self.old }
        ensures bounds { self.new.bounds ≡ self.old.bounds }
    {
        self.group = group;
        self.round = group.words;
    }

    // Returns whether what a group needs is there.
    fn has(&self, needs: &str) -> bool {
        match needs {
            "page" => self.page.is_some(),
            "kilobyte" => self.kilobyte.is_some(),
            _ => self.bounds.hole.is_some(),
        }
    }
}

// Returns the first line of a text, without a carriage return at its end, and what follows.
fn line_in(text: &str) -> (&str, &str) {
    let (line, text) = text.split_once('\n').unwrap_or((text, ""));
    (line.strip_suffix('\r').unwrap_or(line), text)
}

/// Returns the first word of a line, and the words behind it.
pub(crate) fn word_in(line: &str) -> (&str, &str) {
    let (word, words) = line.split_once(' ').unwrap_or((line, ""));
    (word, words.trim_start())
}

// Returns the address of the first word, from `base` on, that begins `SPAN` bytes of one kilobyte: `base`, or the next
// kilobyte's first word.
fn first_of(base: u32) -> u32 {
    if base % 1024 + SPAN <= 1024 {
        base
    } else {
        last_of_kilobyte(base).wrapping_add(4)
    }
}

// Returns the address of the last word of the kilobyte of this address.
fn last_of_kilobyte(addr: u32) -> u32 {
    (addr | 0x3ff) & 0xffff_fffc
}

// Returns the address of a word, if it and the next one are below `end`.
fn within(word: u32, end: u64) -> Option<u32> {
    if u64::from(word) + 8 <= end {
        Some(word)
    } else {
        None
    }
}

// Returns the address of the last word of 256 bytes which isn't the last of a kilobyte, from `base` on, if it and the
// next word are below `end`.
fn page_in(base: u32, end: u64) -> Option<u32> {
    let last = (base | 0xff) & 0xffff_fffc;
    if last == last_of_kilobyte(base) {
        within(last.checked_add(256)?, end)
    } else {
        within(last, end)
    }
}
