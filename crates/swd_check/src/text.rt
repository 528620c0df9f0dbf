//! Checks a trace or a capture from its text.
ghost use Rattle.std.specs.Prelude.{◌≡◌, ℕ, List, ◌∷◌, ◌++◌, [], map};
ghost use Rattle.swd_bits.specs.BitLists.{tx_bits_of};
ghost use Rattle.swd_trace.specs.Held.{idle_items};
ghost use Rattle.swd_resync.specs.declared.part.Part.{Part};
ghost use Rattle.swd_resync.specs.AsItems.{resync_part_items};
ghost use Rattle.swd_capture.specs.Gaps.{capture_held_items, capture_items_of_due};
ghost use Rattle.swd_capture_text.specs.declared.reading.Reading.TheVariants.{Trace, Capture};
ghost use Rattle.swd_io.specs.Blocks.{WritesOutput};
ghost use Rattle.swd_text.specs.Sinks.{LeadsSinkOn, sink_takes_nothing, sink_leads_join};
ghost use Rattle.swd_check.specs.declared.check.Check.{Check};
ghost use Rattle.swd_check.specs.Checks.{AreFewParts, CheckHasHeld, CheckHasTaken, CheckSaysBehind, ChecksText};
ghost use Rattle.swd_check.specs.Checks.{IsCheckedCount, WritesChecked, check_capture_items, check_count};
ghost use Rattle.swd_check.specs.Checks.{check_never_stops};
ghost use Rattle.swd_check.specs.Lines.{check_line};
ghost use Rattle.swd_check.specs.Watched.{CheckTakes};

use crate::check::Check;
use crate::checked::Checked;
use std::alloc::Allocator;
use std::io;
use swd_bits::TxBits;
use swd_capture::{DueParts, HeldBack};
use swd_capture_text::{PartSink, Reading, read_parts};
use swd_io::Block;
use swd_resync::{PHASE_BITS, Part};
use swd_text::DecodeFault;
use swd_trace::Item;

/// A sink of parts, which checks them.
#[derive(Drop)]
pub(crate) struct CheckedParts<A: Allocator> {
    pub(crate) check: Check<A>,
    // The number of parts, at most 2^64 - 1.
    pub(crate) parts: u64,
}

// Takes a part.
fn watch_part<A: Allocator + Copy>(check: &mut Check<A>, part: &Part)
    ensures { CheckTakes (resync_part_items part.now) check.old check.new }
{
    match part {
        Part::Item(item) => check.watch(item),
        Part::Phased(tx) => {
            check.watch(&Item::Tx(*tx));
            check.pass(u64::from(PHASE_BITS));
        }
        Part::Skip(count) => check.skip(*count),
    }
}

// Takes junk bits.
fn watch_junk<A: Allocator + Copy>(check: &mut Check<A>, junk: TxBits)
    ensures { CheckTakes (map Item.Junk (tx_bits_of junk)) check.old check.new }
{
    let mut bits = junk.bits;
    for _taken in 0..junk.len {
        check.watch(&Item::Junk(bits % 2 == 1));
        bits /= 2;
    }
}

impl<A: Allocator + Copy> PartSink<()> for CheckedParts<A> {
    ghost led = { LeadsSinkOn CheckHasTaken };

    ghost stops = { check_never_stops };

    fn take_part(&mut self, _writer: &mut (), part: &Part) {
        self.parts = self.parts.saturating_add(1);
        watch_part(&mut self.check, part);
    }

    fn take_junk(&mut self, _writer: &mut (), junk: TxBits) {
        self.parts = self.parts.saturating_add(u64::from(junk.len));
        watch_junk(&mut self.check, junk);
    }

    fn pause(&mut self, _writer: &mut ()) -> Result<(), u64> {
        Ok(())
    }

    ghost led_nowhere = { sink_takes_nothing CheckHasTaken };

    ghost led_on = { sink_leads_join CheckHasTaken };
}

// Takes a transaction that waited, and the idle cycles behind it.
fn watch_held<A: Allocator + Copy>(check: &mut Check<A>, held: Option<Part>, idle: u64)
    ensures { CheckTakes (capture_held_items held idle) check.old check.new }
{
    if let Some(part) = held {
        watch_part(check, &part);
        watch_idle(check, idle);
    }
}

// Takes idle cycles, if there are some.
fn watch_idle<A: Allocator + Copy>(check: &mut Check<A>, idle: u64)
    ensures { CheckTakes (idle_items idle) check.old check.new }
{
    if idle > 0 {
        check.pass(idle);
    }
}

// Takes what is due of a capture.
fn watch_due<A: Allocator + Copy>(check: &mut Check<A>, due: &DueParts)
    ensures { CheckTakes (capture_items_of_due due.now) check.old check.new }
{
    watch_held(check, due.held, due.idle);
    if let Some(part) = due.part {
        watch_part(check, &part);
    }
}

/// A sink of the parts of a capture, which checks them. The last transaction waits for the next part that isn't idle
/// cycles: if that is a skip, it belongs to the gap, and nothing is said of it.
#[derive(Drop)]
pub(crate) struct CapturedParts<A: Allocator> {
    pub(crate) held: HeldBack,
    pub(crate) checked: CheckedParts<A>,
}

impl<A: Allocator + Copy> CapturedParts<A> {
    // Takes the next part.
    fn take(&mut self, part: &Part)
        ensures { LeadsSinkOn CheckHasHeld (self.old, tt) (part.now ∷ []) (self.new, tt) }
    {
        self.checked.parts = self.checked.parts.saturating_add(1);
        let due = self.held.take(part);
        watch_due(&mut self.checked.check, &due);
    }

    // Returns what is said of a capture that ends here.
    fn checked(self) -> Checked
        ensures { (before : Check A) (parts : List Part) → CheckHasHeld before (self, tt) parts
            → IsCheckedCount (check_count parts) result × (AreFewParts parts
            → CheckSaysBehind before (check_capture_items parts) result) }
    {
        let CapturedParts { held, checked } = self;
        let due = held.last();
        let CheckedParts { mut check, parts } = checked;
        watch_due(&mut check, &due);
        check.checked(parts)
    }
}

impl<A: Allocator + Copy> PartSink<()> for CapturedParts<A> {
    ghost led = { LeadsSinkOn CheckHasHeld };

    ghost stops = { check_never_stops };

    fn take_part(&mut self, _writer: &mut (), part: &Part) {
        self.take(part);
    }

    fn take_junk(&mut self, _writer: &mut (), junk: TxBits) {
        let mut bits = junk.bits;
        for _taken in 0..junk.len {
            self.take(&Part::Item(Item::Junk(bits % 2 == 1)));
            bits /= 2;
        }
    }

    fn pause(&mut self, _writer: &mut ()) -> Result<(), u64> {
        Ok(())
    }

    ghost led_nowhere = { sink_takes_nothing CheckHasHeld };

    ghost led_on = { sink_leads_join CheckHasHeld };
}

/// Reads a trace text as a trace or as a capture, and checks its parts. In a capture the transaction directly before a
/// skip belongs to that gap, with the idle cycles between. Its time is linear in the text, and nothing is retried.
///
/// # Errors
///
/// Returns the first error of the text or of the reader.
pub fn check_text<R: io::Read, A: Allocator + Copy>(
    reading: Reading,
    check: Check<A>,
    reader: &mut R,
) -> Result<Checked, DecodeFault>
    ensures { ChecksText reading (CheckSaysBehind check) result (R.remaining reader.old) (R.remaining reader.new) }
{
    let checked = CheckedParts { check, parts: 0 };
    match reading {
        Reading::Trace => check_trace(checked, reader),
        Reading::Capture { over } => check_capture(over, checked, reader),
    }
}

// Reads a text as a trace, and checks its parts.
fn check_trace<R: io::Read, A: Allocator + Copy>(
    checked: CheckedParts<A>,
    reader: &mut R,
) -> Result<Checked, DecodeFault>
    requires { checked.parts ≡ 0 }
    ensures { ChecksText Trace (CheckSaysBehind checked.check) result (R.remaining reader.old)
        (R.remaining reader.new) }
{
    match read_parts(Reading::Trace, reader, &mut (), checked) {
        Ok(checked) => Ok(checked.check.checked(checked.parts)),
        Err(fault) => Err(fault),
    }
}

// Reads a text as a capture, and checks its parts.
fn check_capture<R: io::Read, A: Allocator + Copy>(
    over: bool,
    checked: CheckedParts<A>,
    reader: &mut R,
) -> Result<Checked, DecodeFault>
    requires { checked.parts ≡ 0 }
    ensures { ChecksText (Capture over) (CheckSaysBehind checked.check) result (R.remaining reader.old)
        (R.remaining reader.new) }
{
    let parts = CapturedParts {
        held: HeldBack::new(),
        checked,
    };
    match read_parts(Reading::Capture { over }, reader, &mut (), parts) {
        Ok(parts) => Ok(parts.checked()),
        Err(fault) => Err(fault),
    }
}

/// Reads a trace text as [`check_text`] does, and then writes the line of the verdict. Returns the verdict.
///
/// # Errors
///
/// Returns the first error.
/// - `Text` and `Read`: nothing was written.
/// - `Write`: exactly the first `written` bytes of the line were written.
pub fn check_to<R: io::Read, W: io::Write, A: Allocator + Copy>(
    reading: Reading,
    check: Check<A>,
    reader: &mut R,
    writer: &mut W,
) -> Result<Checked, DecodeFault>
    ensures { WritesChecked reading (CheckSaysBehind check) result (R.remaining reader.old) (R.remaining reader.new)
        (W.contents writer.old) (W.contents writer.new) }
{
    let checked = match check_text(reading, check, reader) {
        Ok(checked) => checked,
        Err(fault) => return Err(fault),
    };
    match write_line(&checked, writer) {
        Ok(()) => Ok(checked),
        Err(written) => Err(DecodeFault::Write { written }),
    }
}

// Writes the line of a verdict. At an error, returns how many bytes of it were written.
fn write_line<W: io::Write>(checked: &Checked, writer: &mut W) -> Result<(), u64>
    ensures { (why : List ℕ) × WritesOutput result (W.contents writer.old) (W.contents writer.new)
        (check_line checked.now why ++ 10 ∷ []) }
{
    let line = checked.line();
    let mut block = Block::new(writer, 0);
    block.put_line(line.as_str().as_bytes());
    match block.flush() {
        Ok(_) => Ok(()),
        Err(written) => Err(written),
    }
}
