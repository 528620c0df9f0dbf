//! A word of which one bit of its data phase may have been changed.
ghost use Rattle.std.specs.Prelude.{ℕ, ◌≡◌, ◌<◌, ◌↔◌, IfSome, IsTrue, Some, None, true, false};
ghost use Rattle.swd_port.specs.Registers.{register_bit};
ghost use Rattle.swd_checker.specs.Described.{IsCheckedNear, checked_near_at, checked_changed_at};
ghost use Rattle.swd_checker.specs.Words.{IsCheckedWord, IsSomeNear, NearIncludes, IsCheckedNearAt};
ghost use Rattle.swd_checker.specs.Reaching.{checked_near_of, checked_near_seen, NearNarrows};

use crate::world::World;
use swd_port::Csw;

/// The number of places of a data phase: 32 of the word, and its parity.
const PLACES: u8 = 33;

/// The place of the parity bit: where it is changed, the word is as it is.
const PARITY: u8 = 32;

/// `word` with the bit at one of `places` changed. The set is never empty.
#[derive(Clone, Copy, PartialEq, Eq)]
pub(crate) struct Near {
    pub(crate) word: u32,
    /// Bit n says that place n may be the one.
    pub(crate) places: u64,
}

/// Words that a read may return.
#[derive(Clone, Copy)]
pub(crate) enum Words {
    /// Those whose bit 0 is 1, as of DPIDR.
    Odd,
    /// Those of CSW, with AddrInc single or off.
    Csw(bool),
    /// Those of CTRL/STAT in a world.
    Status(World),
    /// These.
    Near(Near),
}

impl Words {
    /// Returns whether it is one of them.
    fn has(self, word: u32) -> bool
        ensures { IsTrue result ↔ IsCheckedWord self word }
    {
        match self {
            Words::Odd => bit(word, 0),
            Words::Csw(increments) => {
                let csw = Csw::of(word);
                csw.size == 2 && csw.addr_inc == u8::from(increments) && csw.device_en
            }
            Words::Status(world) => world.shows(word),
            Words::Near(near) => near.has(word),
        }
    }
}

/// Returns bit n of a word.
pub(crate) fn bit(word: u32, n: u8) -> bool
    requires { n < 32 }
    ensures { result ≡ register_bit n word }
{
    word >> n & 1 == 1
}

impl Near {
    /// Returns exactly this word.
    pub(crate) fn of(word: u32) -> Near
        ensures near { IsCheckedNear result word }
        ensures exact { result ≡ checked_near_of word }
    {
        Near {
            word,
            places: 1 << PARITY,
        }
    }

    /// Returns the words whose data phase may have been seen, or sent, as this one.
    pub(crate) fn seen(word: u32, parity_ok: bool) -> Near
        ensures same { parity_ok ≡ true → IsCheckedNear result word }
        ensures changed { parity_ok ≡ false → (place : ℕ) → place < 33
            → IsCheckedNear result (checked_changed_at word place) }
        ensures exact { result ≡ checked_near_seen word parity_ok }
    {
        if parity_ok {
            Near::of(word)
        } else {
            Near {
                word,
                places: (1 << PLACES) - 1,
            }
        }
    }

    /// Returns the word with the bit at one place changed, if that place is one of the set.
    pub(crate) fn at(self, place: u8) -> Option<u32>
        requires { place < 33 }
        ensures some { register_bit place self.places ≡ true → result ≡ Some (checked_near_at self place) }
        ensures none { register_bit place self.places ≡ false → result ≡ None }
    {
        if self.places >> place & 1 == 0 {
            None
        } else if place < PARITY {
            Some(self.word ^ 1 << place)
        } else {
            Some(self.word)
        }
    }

    // Returns whether it may be this word.
    fn has(self, word: u32) -> bool
        ensures { IsTrue result ↔ IsCheckedNear self word }
    {
        for place in 0..PLACES {
            if self.at(place) == Some(word) {
                return true;
            }
        }
        false
    }

    /// Returns those of its words that are among these, or `None` if there are none.
    pub(crate) fn among(self, words: Words) -> Option<Near>
        ensures all { (word : ℕ) → IsCheckedNear self word → IsCheckedWord words word → IsSomeNear result word }
        ensures exact { IfSome result (λ near. NearNarrows self words near) }
    {
        let mut places = 0;
        let mut count: u8 = 0;
        let mut last = 0;
        for place in 0..PLACES {
            match self.at_among(place, words) {
                Some(word) => {
                    places |= 1 << place;
                    count += 1;
                    last = word;
                }
                None => {}
            }
        }
        // one word alone has one form
        match count {
            0 => None,
            1 => Some(Near::of(last)),
            _ => Some(Near {
                word: self.word,
                places,
            }),
        }
    }

    /// Returns whether each of its words is among these.
    pub(crate) fn is_among(self, words: Words) -> bool
        ensures { result ≡ true → NearIncludes words self }
    {
        for place in 0..PLACES {
            if self.at(place).is_some() && self.at_among(place, words).is_none() {
                return false;
            }
        }
        true
    }

    // Returns the word with the bit at one place changed, if that place is one of the set, and the word among these.
    fn at_among(self, place: u8, words: Words) -> Option<u32>
        requires { place < 33 }
        ensures { IsCheckedNearAt self place words result }
    {
        let word = self.at(place)?;
        if words.has(word) { Some(word) } else { None }
    }
}
