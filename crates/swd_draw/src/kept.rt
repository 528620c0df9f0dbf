//! Keeps the parts that are drawn.
ghost use Rattle.std.specs.Prelude.{◌≡◌, ◌≤◌, ◌∷◌, [], ◌++◌, ℕ, List, length};
ghost use Rattle.swd_bits.specs.BitLists.{tx_bits_of};
ghost use Rattle.swd_resync.specs.declared.part.Part.{Part};
ghost use Rattle.swd_text.specs.Sinks.{LeadsSinkOn, sink_takes_nothing, sink_leads_join};
ghost use Rattle.swd_capture.specs.Printing.{capture_junk_parts};

use swd_bits::TxBits;
use swd_capture_text::PartSink;
use swd_resync::Part;
use swd_trace::Item;

/// The most parts of a drawing.
pub(crate) const MOST_PARTS: usize = 1000;

/// A sink of parts, which keeps the first of them and counts the others.
#[derive(Drop)]
pub(crate) struct DrawnParts {
    parts: [Part; MOST_PARTS],
    // The number of parts that are kept, and how many may be.
    count: usize,
    most: usize,
    // The number of the others, at most 2^64 - 1.
    left_out: u64,
    ghost within: { count ≤ most },
    ghost room: { most ≤ 1000 },
}

impl DrawnParts {
    ghost use Rattle.swd_draw.specs.Collecting.{drawn_kept_parts, KeepsDrawn};

    /// Returns one that was given no parts. It keeps so many at most.
    pub(crate) fn new(most: usize) -> DrawnParts
        requires { most ≤ MOST_PARTS }
        ensures { KeepsDrawn most [] result }
    {
        DrawnParts {
            parts: [Part::Skip(0); MOST_PARTS],
            count: 0,
            most,
            left_out: 0,
        }
    }

    /// Takes the next part. It is kept if it is drawn.
    pub(crate) fn add(&mut self, part: &Part)
        ensures { (most : ℕ) (parts : List Part) → KeepsDrawn most parts self.old
            → KeepsDrawn most (parts ++ part.now ∷ []) self.new }
    {
        if self.count >= self.most {
            self.left_out = self.left_out.saturating_add(1);
            return;
        }
        self.parts[self.count] = *part;
        self.count += 1;
    }

    // Takes junk bits, each of them a part.
    fn add_junk(&mut self, junk: TxBits)
        ensures { (most : ℕ) (parts : List Part) → KeepsDrawn most parts self.old
            → KeepsDrawn most (parts ++ capture_junk_parts (tx_bits_of junk)) self.new }
    {
        let mut bits = junk.bits;
        let mut left = junk.len;
        while left > 0 {
            self.add(&Part::Item(Item::Junk(bits % 2 == 1)));
            bits /= 2;
            left -= 1;
        }
    }

    /// Returns the parts that are drawn.
    pub(crate) fn parts(&self) -> &[Part]
        ensures parts { result.now ≡ drawn_kept_parts self.now }
        ensures most { length result.now ≤ MOST_PARTS }
    {
        &self.parts[..self.count]
    }

    /// Returns how many parts are left out, at most 2^64 - 1.
    pub(crate) fn left_out(&self) -> u64
        ensures { result ≡ self.now.left_out }
    {
        self.left_out
    }
}

impl PartSink<()> for DrawnParts {
    ghost use Rattle.swd_draw.specs.Collecting.{DrawnHasTaken, drawing_never_stops};

    ghost led = { LeadsSinkOn DrawnHasTaken };

    ghost stops = { drawing_never_stops };

    fn take_part(&mut self, _writer: &mut (), part: &Part) {
        self.add(part);
    }

    fn take_junk(&mut self, _writer: &mut (), junk: TxBits) {
        self.add_junk(junk);
    }

    fn pause(&mut self, _writer: &mut ()) -> Result<(), u64> {
        Ok(())
    }

    ghost led_nowhere = { sink_takes_nothing DrawnHasTaken };

    ghost led_on = { sink_leads_join DrawnHasTaken };
}
