//! Prints why the texts of a command weren't read.
ghost use Rattle.std.specs.Prelude.{◌≡◌};

use std::io::Write;
use swd_console::{
    FAULT, KeepsError, TrackedReader, script_status, tell, tell_failure, texts_status,
};
use swd_io::Unread;
use swd_run::TextsFault;
use swd_script::ScriptFault;

/// Prints why a script or a plan wasn't read: its reader failed, or it has an error. Returns the status 2.
pub(crate) fn unread_status<S: KeepsError, P: KeepsError, E: Write>(
    errors: &mut E,
    fault: TextsFault,
    script: &TrackedReader<'_, S>,
    plan: &TrackedReader<'_, P>,
) -> u8
    ensures { result ≡ 2 }
{
    let streams = [script.stream(), plan.stream()];
    if tell_failure(errors, streams.as_slice()) {
        return FAULT;
    }
    texts_status(errors, fault, &script.seen, &plan.seen)
}

/// Prints the same of a script that no plan goes with.
pub(crate) fn unread_script_status<S: KeepsError, E: Write>(
    errors: &mut E,
    unread: Unread<ScriptFault>,
    script: &TrackedReader<'_, S>,
) -> u8
    ensures { result ≡ 2 }
{
    let streams = [script.stream()];
    if tell_failure(errors, streams.as_slice()) {
        return FAULT;
    }
    match unread {
        Unread::Consumer(fault) => script_status(errors, fault, &script.seen),
        Unread::Reader => tell(errors, "read failed"),
    }
}
