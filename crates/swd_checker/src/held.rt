//! What is known of a word that the target holds: the read buffer, or the last returned value.
ghost use Rattle.std.specs.Prelude.{ℕ, ◌≡◌, Option, Some, unwrap_or, true, IfSome};
ghost use Rattle.swd_checker.specs.Described.{IsCheckedNear, CheckedHeld};
ghost use Rattle.swd_checker.specs.Words.{IsSomeHeld, IsSomeNear, HeldIncludes};
ghost use Rattle.swd_checker.specs.Exact.{IsNearSound};
ghost use Rattle.swd_checker.specs.Reaching.{HeldNarrows, IsHeldOfNear};
ghost use Rattle.swd_checker.specs.Joining.{HeldCovers};

use crate::near::{Near, Words};

/// What is known of a word that the target holds.
#[derive(Clone, Copy, PartialEq, Eq)]
pub(crate) enum Held {
    /// Nothing: any word, anew at each use.
    Unknown,
    /// It is a word, one and the same at each use.
    Word,
    /// It was read from CSW, with AddrInc single or off.
    Csw(bool),
    /// It is one of these words.
    Seen(Near),
}

impl Held {
    /// Returns what is known once the word was seen, or `None` if it can't be what was seen.
    pub(crate) fn narrowed(self, seen: Near) -> Option<Held>
        ensures all { (value : Option ℕ) (filler : ℕ) → CheckedHeld self value
            → IsCheckedNear seen (unwrap_or value filler) → IsSomeHeld result value }
        ensures exact { IsNearSound seen → IfSome result (λ held. HeldNarrows self seen held) }
    {
        match self {
            Held::Unknown => Some(Held::Unknown),
            Held::Word => Some(Held::Seen(seen)),
            Held::Csw(increments) => Held::of(seen.among(Words::Csw(increments))),
            Held::Seen(near) => Held::of(seen.among(Words::Near(near))),
        }
    }

    // Returns that it is one of these words, if there are any.
    fn of(seen: Option<Near>) -> Option<Held>
        ensures all { (value : Option ℕ) (word : ℕ) → value ≡ Some word → IsSomeNear seen word
            → IsSomeHeld result value }
        ensures exact { IfSome result (λ held. IsHeldOfNear seen held) }
    {
        match seen {
            Some(near) => Some(Held::Seen(near)),
            None => None,
        }
    }

    /// Returns whether all that the other explains is explained by this.
    pub(crate) fn covers(self, other: Held) -> bool
        ensures includes { result ≡ true → HeldIncludes self other }
        ensures has { result ≡ true → HeldCovers self other }
    {
        match (self, other) {
            (Held::Unknown, _) => true,
            (_, Held::Unknown) => false,
            (Held::Word, _) => true,
            (_, Held::Word) => false,
            (Held::Csw(a), Held::Csw(b)) => a == b,
            (Held::Csw(increments), Held::Seen(near)) => near.is_among(Words::Csw(increments)),
            (Held::Seen(_), Held::Csw(_)) => false,
            (Held::Seen(a), Held::Seen(b)) => b.is_among(Words::Near(a)),
        }
    }
}
