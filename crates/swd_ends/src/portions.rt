//! What is appended to the files of a session.
ghost use Rattle.swd_ends.specs.TargetLogs.{live_log_lines};

use crate::target_log::put_transfers;
use std::io::Write;
use swd_io::{Block, send};
use swd_port::Transfer;
use swd_run::Portion;

/// The lines of some transfers.
#[derive(Clone, Copy)]
pub(crate) struct LogLines<'a>(pub(crate) &'a [Transfer]);

impl Portion for LogLines<'_> {
    ghost text = { λ lines. live_log_lines lines.0.now };

    fn write<W: Write>(&self, writer: &mut W, written: u64) -> Result<u64, u64> {
        let mut block = Block::new(writer, written);
        put_transfers(&mut block, self.0);
        block.flush()
    }
}

/// Some characters.
#[derive(Clone, Copy)]
pub(crate) struct Characters<'a>(pub(crate) &'a [u8]);

impl Portion for Characters<'_> {
    ghost text = { λ characters. characters.0.now };

    fn write<W: Write>(&self, writer: &mut W, written: u64) -> Result<u64, u64> {
        match send(writer, self.0) {
            Ok(()) => Ok(written.saturating_add(self.0.len() as u64)),
            Err(unsent) => Err(written.saturating_add(unsent.sent as u64)),
        }
    }
}
