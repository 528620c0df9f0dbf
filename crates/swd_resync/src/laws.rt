//! Laws of the reading of captures. The functions do nothing: their contracts are the laws.
ghost use Rattle.std.specs.Prelude.{◌↔◌, ◌≡◌, ◌⊎◌, ◌≤◌, ℕ, Bool, true, false, List, [], map, drop, length};
ghost use Rattle.swd_trace.specs.Reading.{reading_of};
ghost use Rattle.swd_trace.specs.Texts.{bits_of_items};
ghost use Rattle.swd_resync.specs.declared.part.Part.{Part};
ghost use Rattle.swd_resync.specs.declared.part.Part.TheVariants.{Item as Told};
ghost use Rattle.swd_resync.specs.AsItems.{resync_items};
ghost use Rattle.swd_resync.specs.Parts.{pair, begins_stretch, stretch_gap, overrun_at_start, resync_parts_of};
ghost use Rattle.swd_resync.specs.Divisions.{PartsDivide, SkipsApart, ResyncNeverLost, IsPair, LeavesOverrunOff};

/// States that a capture whose reading as a trace is never lost has the same items, and nothing is skipped, if the host
/// doesn't use overrun detection at its beginning, and no write of CTRL/STAT with OK sets it.
pub fn what_is_never_lost_is_told()
    ensures { (bits : List Bool) → ResyncNeverLost (reading_of bits)
        → LeavesOverrunOff (overrun_at_start false) (reading_of bits)
        → resync_parts_of false bits ≡ map Told (reading_of bits) }
{}

/// States that every bit of a capture belongs to one item, whose bits it has, to the data phase after WAIT or FAULT, or
/// to one skip. No two skips follow one another.
pub fn parts_divide_a_capture()
    ensures divides { (over : Bool) (bits : List Bool) → PartsDivide (resync_parts_of over bits) bits }
    ensures apart { (over : Bool) (bits : List Bool) → SkipsApart (resync_parts_of over bits) }
{}

/// States that parts of a capture, as the items of a trace, have as many bits as they take: what follows them keeps
/// its place.
pub fn places_are_kept()
    ensures { (parts : List Part) (bits : List Bool) → PartsDivide parts bits
        → length (bits_of_items (resync_items parts)) ≡ length bits }
{}

/// States where the next stretch begins. If a pair begins between two stretches, the next stretch begins
/// there or before. Bits are skipped only up to the place where a stretch begins, or to the end.
pub fn a_pair_is_found()
    ensures found { (over : Bool) (bits : List Bool) (n : ℕ) → pair over (drop n bits) ≡ true
        → stretch_gap over bits ≤ n }
    ensures begins { (over : Bool) (bits : List Bool)
        → (drop (stretch_gap over bits) bits ≡ []) ⊎ (begins_stretch over (drop (stretch_gap over bits) bits) ≡ true) }
{}

/// States what the test for a pair means. Two transactions are there, each with the bits that spell it, and
/// at most zeros between them. With overrun detection 33 bits follow WAIT and FAULT of the first.
pub fn tests_of_a_capture()
    ensures { (over : Bool) (bits : List Bool) → (pair over bits ≡ true) ↔ IsPair over bits }
{}
