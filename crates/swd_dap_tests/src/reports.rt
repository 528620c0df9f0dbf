//! Packets over readers and writers.

use crate::row::{Wrong, has, put_bytes, said, want};
use std::alloc::Global;
use swd_dap::{Packets, Reports};

/// Exchanges a packet of one byte for the bytes that come back. Compares how long the reply is, or why there is none,
/// and how many bytes were sent.
pub fn come<'t>(alloc: Global, lines: &'t str) -> Result<(), Wrong<'t>> {
    let mut comes = Vec::new(alloc);
    put_bytes(&mut comes, said(lines, "<").unwrap_or(""))?;
    let sent: Vec<u8> = Vec::new(alloc);
    let mut reports = Reports::new(comes.as_slice(), sent, has(lines, "framed"));
    let mut reply = [0u8; 512];
    let told = match reports.exchange(&[3], &mut reply) {
        Ok(length) => format!(in alloc; "{length}")?,
        Err(fault) => format!(in alloc; "{fault:?}")?,
    };
    let (_, sent) = reports.into_parts();
    let wanted = said(lines, "reply ").unwrap_or("");
    want(wanted, told.as_str() == wanted)?;
    let length = format!(in alloc; "sent {}", sent.len())?;
    want("the length of what was sent", has(lines, length.as_str()))
}
