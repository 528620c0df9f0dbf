//! A script in memory.
ghost use Rattle.std.specs.Prelude.{◌≡◌, IfOk, Ok};
ghost use Rattle.swd_script.specs.Readers.{read_script_meaning};
ghost use Rattle.swd_script.specs.Scripts.{script_of};

use std::alloc::Global;
use swd_io::Unread;
use swd_script::{Script, ScriptFault, read_script};

/// Returns what a script means, or its first error.
pub fn parse(alloc: Global, mut text: &[u8]) -> Result<Script<Global>, Unread<ScriptFault>>
    ensures { IfOk result (λ script. script_of text.now ≡ Ok (read_script_meaning script)) }
{
    read_script(alloc, &mut text)
}
