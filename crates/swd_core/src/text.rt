//! The text of a script that works at a core.
ghost use Rattle.std.specs.Prelude.{◌≡◌, ◌++◌, IfOk};
ghost use Rattle.swd_core.specs.Steps.{core_script_text, core_step_lines};

use crate::step::CoreStep;
use std::alloc::{AllocError, Allocator};

// The first line of the script: its memory, which a run at a remote target ignores.
const MEMORY: &[u8] = b"memory 20000000 1\n";

// Appends the lines of these accesses, each with its line feed.
fn put_lines<A: Allocator>(text: &mut Vec<u8, A>, steps: &[CoreStep]) -> Result<(), AllocError>
    ensures { IfOk result (λ _. text.new.items ≡ text.old.items ++ core_step_lines steps.now) }
{
    match steps {
        [] => Ok(()),
        [first, rest @ ..] => {
            text.extend_from_slice(first.line().as_str().as_bytes())?;
            text.push(b'\n')?;
            put_lines(text, rest)
        }
    }
}

/// Returns the text of the script that makes these accesses. Its first line is a memory, which a run at a remote target
/// ignores.
///
/// # Errors
///
/// Fails if out of memory.
pub fn script_text<A: Allocator>(alloc: A, steps: &[CoreStep]) -> Result<Vec<u8, A>, AllocError>
    ensures { IfOk result (λ text. text.items ≡ core_script_text steps.now) }
{
    let mut text = Vec::new(alloc);
    text.extend_from_slice(MEMORY)?;
    put_lines(&mut text, steps)?;
    Ok(text)
}
