//! The file of a run's trace, which is written while the run goes on.
ghost use Rattle.std.specs.Prelude.{◌≡◌, ◌-◌, ◌≤◌, List, Option, ℕ, length};
ghost use Rattle.swd_trace.specs.Listed.{AreLegalItems};
ghost use Rattle.swd_trace.specs.Texts.{trace_text};
ghost use Rattle.swd_run.specs.GrowingFiles.{RunTraceHasDone};

use crate::growing::{GrowingFile, Portion};
use std::io::Write;
use swd_io::Block;
use swd_port::Cue;
use swd_text::put_items;
use swd_trace::Item;

/// The most items whose lines wait.
const MOST_WAITING: usize = 1024;

// The lines of some items.
#[derive(Clone, Copy)]
struct TraceLines<'a>(&'a [Item]);

impl Portion for TraceLines<'_> {
    ghost text = { λ lines. trace_text lines.0.now };

    ghost can_write = { λ lines. AreLegalItems lines.0.now };

    fn write<W: Write>(&self, writer: &mut W, written: u64) -> Result<u64, u64> {
        let mut block = Block::new(writer, written);
        put_items(&mut block, self.0);
        block.flush()
    }
}

/// Writes the lines of the first `count` items, behind those that were written.
#[tactic(auto, using(crate::proofs::TraceLemmas::run_trace_legal_in, crate::proofs::TraceLemmas::run_trace_text_next))]
pub(crate) fn write_to<T: Write>(file: &mut GrowingFile<T>, items: &[Item], count: usize)
    requires legal { AreLegalItems items.now }
    requires more { file.old.done ≤ count }
    requires within { count ≤ length items.now }
    ensures done { file.new.done ≡ count }
    ensures has { (start : Option (Option (List ℕ))) → RunTraceHasDone T.contents start items.now file.old
        → RunTraceHasDone T.contents start items.now file.new }
{
    file.add(&TraceLines(&items[file.done..count]), count);
}

// Returns whether a line reset begins.
fn is_reset(cue: Cue) -> bool {
    match cue {
        Cue::Lead { ones, .. } => ones > 0,
        _ => false,
    }
}

/// Writes the lines of the items that no further call changes: all but the last one. It does so after a line reset,
/// with which each opening begins, and where many lines wait.
#[inline]
pub(crate) fn write_settled<T: Write>(file: &mut GrowingFile<T>, items: &[Item], cue: Cue)
    requires legal { AreLegalItems items.now }
    requires within { file.old.done ≤ length items.now - 1 }
    ensures within { file.new.done ≤ length items.now - 1 }
    ensures has { (start : Option (Option (List ℕ))) → RunTraceHasDone T.contents start items.now file.old
        → RunTraceHasDone T.contents start items.now file.new }
{
    let settled = items.len().saturating_sub(1);
    if is_reset(cue) || settled - file.done >= MOST_WAITING {
        write_to(file, items, settled);
    }
}
