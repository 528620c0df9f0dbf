//! The target of a script, served to a host, and its log.
use std::alloc::Global;
use swd_bitbang::Trace;
use swd_ends::{TargetFault, read_target, serve_logged};

/// Serves the simulated target whose memory the script describes to a host whose characters are these. Returns the log
/// of the target, or `None` if it can't be written.
pub fn serve_script(
    alloc: Global,
    mut script: &[u8],
    mut characters: &[u8],
    levels: &mut Vec<u8>,
) -> Result<Option<Vec<u8>>, TargetFault> {
    let mut plan: &[u8] = b"";
    let pins = read_target(
        alloc,
        &mut script,
        &mut plan,
        None,
        false,
        Trace::none(alloc),
    )?;
    let log = Some(Vec::new(alloc));
    let (_, _, files) = serve_logged(&mut characters, levels, pins, log, None);
    if !files.are_whole() {
        return Ok(None);
    }
    let (log, _) = files.into_writers();
    Ok(log)
}
