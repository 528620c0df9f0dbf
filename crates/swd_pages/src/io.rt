//! Lines that are written through a block.
ghost use Rattle.std.specs.Prelude.{◌≤◌, [], ◌∷◌, ◌++◌, OnOk, length};
ghost use Rattle.std.specs.Io.KnownBytes.{Appends};

use std::io::Write;
use swd_io::{Block, LONGEST};

/// Writes a name and a value, a line each. Returns the number of written bytes: of both lines, or of those before the
/// writer failed.
pub fn write_pair<W: Write>(writer: &mut W, name: &[u8], value: &[u8]) -> Result<u64, u64>
    requires name { length name.now ≤ LONGEST }
    requires value { length value.now ≤ LONGEST }
    ensures { OnOk result (Appends (W.contents writer.old) (W.contents writer.new)
        ((name.now ++ 10 ∷ []) ++ (value.now ++ 10 ∷ []))) }
{
    let mut block = Block::new(writer, 0);
    block.put_line(name);
    block.put_line(value);
    block.flush()
}
