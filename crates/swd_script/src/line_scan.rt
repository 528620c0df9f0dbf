//! Scans one line of a script or a plan, byte by byte.
ghost use Rattle.std.specs.Prelude.{◌≡◌, ◌≢◌, ◌∷◌, ◌++◌, [], ℕ, List, option_copied};
ghost use Rattle.swd_script.specs.Lines.{is_script_blank};

use crate::words::{FirstWords, LineWords};

/// The state of a scan within a line.
#[derive(Clone, Copy)]
pub(crate) enum ScanState {
    /// Before a comment.
    Code,
    /// After a carriage return, which only a line feed may follow.
    Return,
    /// In a comment.
    Comment,
    /// After an invalid byte.
    Spoiled,
}

/// The current line. However long it is, only its first words are kept, and only the first bytes of these.
#[derive(Drop)]
pub(crate) struct LineScan {
    pub(crate) words: LineWords,
    pub(crate) place: ScanState,
}

impl LineScan {
    ghost use Rattle.swd_script.specs.Scans.{ScriptScanHolds, IsScannedScriptLine, script_without_return};
    ghost use Rattle.swd_script.specs.Scans.{script_scan_words};

    /// Returns a scan before the first byte of a line.
    pub(crate) fn new() -> LineScan
        ensures { ScriptScanHolds [] result }
    {
        LineScan {
            words: LineWords::new(),
            place: ScanState::Code,
        }
    }

    /// Takes a byte of the line.
    pub(crate) fn byte(&mut self, byte: u8)
        requires { byte ≢ 10 }
        ensures { (line : List ℕ) → ScriptScanHolds line self.old → ScriptScanHolds (line ++ byte ∷ []) self.new }
    {
        match self.place {
            ScanState::Code => self.code(byte),
            ScanState::Return => self.place = ScanState::Spoiled,
            ScanState::Comment | ScanState::Spoiled => {}
        }
    }

    // Takes a byte of the line before a comment.
    fn code(&mut self, byte: u8)
        requires code { self.old.place ≡ ScanState.Code }
        requires unbroken { byte ≢ 10 }
        ensures { (line : List ℕ) → ScriptScanHolds line self.old → ScriptScanHolds (line ++ byte ∷ []) self.new }
    {
        match byte {
            b'#' => self.place = ScanState::Comment,
            b'\r' => self.place = ScanState::Return,
            _ if is_blank(byte) => self.words.end_word(),
            b'!'..=b'~' => self.words.push(byte),
            _ => self.place = ScanState::Spoiled,
        }
    }

    /// Ends the line at a line feed. Then call `words`.
    pub(crate) fn feed(&mut self)
        ensures { (line : List ℕ) → ScriptScanHolds line self.old
            → IsScannedScriptLine (script_without_return line) (script_scan_words self.new) }
    {
        self.words.end_word();
    }

    /// Ends the line at the end of the input. Then call `words`.
    pub(crate) fn finish(&mut self)
        ensures { (line : List ℕ) → ScriptScanHolds line self.old
            → IsScannedScriptLine line (script_scan_words self.new) }
    {
        match self.place {
            ScanState::Code | ScanState::Comment => self.words.end_word(),
            ScanState::Return | ScanState::Spoiled => self.place = ScanState::Spoiled,
        }
    }

    /// Returns the first words of the line that was ended. Returns `None` if a byte was invalid.
    pub(crate) fn words(&self) -> Option<&FirstWords>
        ensures { option_copied result ≡ script_scan_words self.now }
    {
        match self.place {
            ScanState::Code | ScanState::Return | ScanState::Comment => Some(&self.words.ended),
            ScanState::Spoiled => None,
        }
    }

    /// Begins the next line.
    pub(crate) fn begin(&mut self)
        ensures { ScriptScanHolds [] self.new }
    {
        self.words.clear();
        self.place = ScanState::Code;
    }
}

fn is_blank(byte: u8) -> bool
    ensures { result ≡ is_script_blank byte }
{
    byte == b' ' || byte == b'\t'
}
