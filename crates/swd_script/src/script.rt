//! Scripts: a memory, maybe a core beside it, and calls with accesses of them.
ghost use Rattle.std.specs.Prelude.{◌≡◌, [], ℕ, List, Ok, IfErr, IfOk, IfSome};
ghost use Rattle.swd_io.specs.Pieces.{IsReaderText, IsUnreadByConsumer};
ghost use Rattle.swd_script.specs.Readers.{IsScriptFault, read_script_meaning};
ghost use Rattle.swd_script.specs.Scripts.{script_of};

use crate::batch::Batch;
use crate::draft::Draft;
use crate::fault::{LineFault, ScriptFault};
use crate::line_reader::{LineReader, LineSink, read_lines};
use crate::words::FirstWords;
use std::alloc::Allocator;
use std::io::Read;
use swd_io::Unread;

/// The contents of a script.
#[derive(Debug, Drop)]
pub struct Script<A: Allocator> {
    /// The address of the memory's first word, a multiple of 4.
    pub base: u32,
    /// The number of the memory's words, 1 to 65,536.
    pub words: u32,
    /// The number of transfers that fit in its log, at most 65,536.
    pub room: u32,
    /// The address of the vector table of the core beside the memory, a multiple of 4, if there is a core.
    pub core: Option<u32>,
    /// The calls in order, each with its accesses. There is at least one call; a call may have no accesses.
    pub batches: Vec<Batch<A>, A>,
}

/// A reader of a script, which takes the file in pieces (`Consumer::take`).
pub type ScriptReader<A> = LineReader<Draft<A>>;

impl<A: Allocator + Copy> LineReader<Draft<A>> {
    ghost use Rattle.swd_script.specs.Readers.{ReadsScriptLines, TookScriptLines};

    /// Returns a reader before the first byte.
    pub fn new(alloc: A) -> ScriptReader<A>
        ensures { ReadsScriptLines TookScriptLines result [] }
    {
        LineReader::over(Draft::new(alloc))
    }
}

impl<A: Allocator + Copy> LineSink for Draft<A> {
    ghost use Rattle.swd_script.specs.Readers.{TookScriptLines};

    type Whole = Script<A>;

    ghost took = { TookScriptLines };

    ghost says = { λ text script. script_of text ≡ Ok (read_script_meaning script) };

    ghost refuses = { IsScriptFault };

    fn add_line(&mut self, number: u64, words: Option<&FirstWords>) -> Result<(), LineFault> {
        self.line(number, words)
    }

    fn whole(self, last: u64) -> Result<Script<A>, ScriptFault> {
        self.finish(last)
    }
}

/// Reads a script to its end or to the first error, and returns its contents. Nothing is retried.
///
/// # Errors
///
/// The first error of the file, or `Memory` if memory ran out for the accesses or the calls. `Reader` if the
/// reader failed, or didn't end within 2^64 - 1 reads.
pub fn read_script<R: Read, A: Allocator + Copy>(
    alloc: A,
    reader: &mut R,
) -> Result<Script<A>, Unread<ScriptFault>>
    ensures ok { IfOk result (λ script.
        (text : List ℕ) × IsReaderText (R.remaining reader.old) text
        × (script_of text ≡ Ok (read_script_meaning script))) }
    ensures err { IfErr result (λ unread. IfSome (R.remaining reader.old) (IsUnreadByConsumer IsScriptFault unread)) }
{
    read_lines(Draft::new(alloc), reader)
}
