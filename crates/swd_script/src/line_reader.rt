//! Reads input line by line, however it is divided into pieces.
ghost use Rattle.std.specs.Prelude.{◌++◌, ◌∷◌, [], ℕ, List, OnOk, IfErr, IfOk, IfSome, option_copied};
ghost use Rattle.swd_io.specs.Pieces.{IsReaderText, IsUnreadByConsumer};
ghost use Rattle.swd_script.specs.declared.fault.ScriptFault.{ScriptFault as TheFault};
ghost use Rattle.swd_script.specs.Lines.{script_lines};
ghost use Rattle.swd_script.specs.Readers.{HasLastScriptLine, ScriptLineLeads, ScriptLineStops};

use crate::fault::{LineFault, ScriptFault};
use crate::line_scan::LineScan;
use crate::words::FirstWords;
use std::io::Read;
use swd_io::{Consumer, Unread, read_pieces};

/// A sink for the lines of an input, one after another. It defines what a line means; a [`LineReader`] finds
/// the lines.
pub trait LineSink: Drop {
    /// What a whole input says.
    type Whole;

    // The lines so far, all of them valid, lead to this state.
    ghost took: { List (List ℕ) → Self → Type 0 };

    // An input says this.
    ghost says: { List ℕ → Self.Whole → Type 0 };

    // An input has this error, or memory ran out there.
    ghost refuses: { TheFault → List ℕ → Type 0 };

    /// Adds the line with this number and these first words. `None` stands for a line with an invalid byte.
    /// After an error the state is unspecified.
    fn add_line(&mut self, number: u64, words: Option<&FirstWords>) -> Result<(), LineFault>
        ensures ok { OnOk result (ScriptLineLeads took number (option_copied words.entry) self.old self.new) }
        ensures err { IfErr result (λ fault. ScriptLineStops took refuses number (option_copied words.entry) self.old
            fault) };

    /// Returns what the whole input says, once all lines were added. The last one has this number.
    fn whole(self, last: u64) -> Result<Self::Whole, ScriptFault>
        ensures ok { IfOk result (λ whole. (text : List ℕ) → took (script_lines text) self → says text whole) }
        ensures err { IfErr result (λ fault. (text : List ℕ) → HasLastScriptLine text last
            → took (script_lines text) self
            → refuses fault text) };
}

/// A reader of lines, which takes input in pieces (`Consumer::take`). It stops at the first error, whatever
/// follows the piece.
///
/// It holds a bounded number of bytes of a line, however long the line is, and what the lines before it said.
#[derive(Drop)]
pub struct LineReader<S> {
    // The current line, and its number, from 1 and at most 2^64 - 1.
    scan: LineScan,
    number: u64,
    sink: S,
}

impl<S: LineSink> LineReader<S> {
    ghost use Rattle.swd_script.specs.Readers.{ReadsScriptLines};

    // Returns a reader before the first byte.
    pub(crate) fn over(sink: S) -> LineReader<S>
        ensures { S.took [] sink → ReadsScriptLines S.took result [] }
    {
        LineReader {
            scan: LineScan::new(),
            number: 1,
            sink,
        }
    }

    // Takes a byte. After an error the state is unspecified.
    fn byte(&mut self, byte: u8) -> Result<(), ScriptFault>
        ensures ok { OnOk result ((seen : List ℕ) → ReadsScriptLines S.took self.old seen
            → ReadsScriptLines S.took self.new (seen ++ byte ∷ [])) }
        ensures err { IfErr result (λ fault. (seen more : List ℕ) → ReadsScriptLines S.took self.old seen
            → S.refuses fault (seen ++ byte ∷ more)) }
    {
        if byte != b'\n' {
            self.scan.byte(byte);
            return Ok(());
        }
        let line = self.number;
        self.scan.feed();
        let added = self.sink.add_line(line, self.scan.words());
        self.scan.begin();
        self.number = line.saturating_add(1);
        match added {
            Ok(()) => Ok(()),
            Err(fault) => Err(fault.at(line)),
        }
    }

    /// Ends the input, and returns what it says.
    ///
    /// # Errors
    ///
    /// The first error of the input, or `Memory` if memory ran out for what a line says.
    pub fn finish(self) -> Result<S::Whole, ScriptFault>
        ensures ok { IfOk result (λ whole. (seen : List ℕ) → ReadsScriptLines S.took self seen → S.says seen whole) }
        ensures err { IfErr result (λ fault. (seen : List ℕ) → ReadsScriptLines S.took self seen →
            S.refuses fault seen) }
    {
        let LineReader {
            mut scan,
            number,
            mut sink,
        } = self;
        scan.finish();
        match sink.add_line(number, scan.words()) {
            Ok(()) => sink.whole(number),
            Err(fault) => Err(fault.at(number)),
        }
    }
}

impl<S: LineSink> Consumer<()> for LineReader<S> {
    ghost use Rattle.swd_io.specs.Pieces.{LeadsConsumerOn, LeadsConsumerToEnd};
    ghost use Rattle.swd_io.proofs.PieceLemmas.{consumer_reads_no_byte, consumer_pieces_join, consumer_pieces_fault};
    ghost use Rattle.swd_script.specs.Readers.{HasReadScriptLines, RefusesScriptLines};

    type Fault = ScriptFault;

    ghost can_take = { λ _. Unit {0} };

    ghost takes = { LeadsConsumerOn (HasReadScriptLines S.took) };

    ghost stops = { LeadsConsumerToEnd (HasReadScriptLines S.took) (RefusesScriptLines S.refuses) };

    // Takes the next piece of the input. After an error the state is unspecified.
    fn take(&mut self, _writer: &mut (), piece: &[u8]) -> Result<(), ScriptFault> {
        for byte in piece {
            if let Err(fault) = self.byte(*byte) {
                return Err(fault);
            }
        }
        Ok(())
    }

    ghost takes_nothing = { consumer_reads_no_byte (HasReadScriptLines S.took) };

    ghost takes_on = { consumer_pieces_join (HasReadScriptLines S.took) };

    ghost stops_later = { consumer_pieces_fault (HasReadScriptLines S.took) (RefusesScriptLines S.refuses) };
}

/// Reads an input to its end or to the first error, and returns what it says. Nothing is retried.
///
/// # Errors
///
/// The first error of the input, or `Memory` if memory ran out for what a line says. `Reader` if the reader
/// failed, or didn't end within 2^64 - 1 reads.
pub(crate) fn read_lines<R: Read, S: LineSink>(
    sink: S,
    reader: &mut R,
) -> Result<S::Whole, Unread<ScriptFault>>
    ensures ok { IfOk result (λ whole. S.took [] sink
        → (text : List ℕ) × IsReaderText (R.remaining reader.old) text × S.says text whole) }
    ensures err { IfErr result (λ unread. S.took [] sink
        → IfSome (R.remaining reader.old) (IsUnreadByConsumer S.refuses unread)) }
{
    let mut lines = LineReader::over(sink);
    match read_pieces(reader, &mut (), &mut lines) {
        Ok(()) => match lines.finish() {
            Ok(whole) => Ok(whole),
            Err(fault) => Err(Unread::Consumer(fault)),
        },
        Err(unread) => Err(unread),
    }
}
