//! Writes the trace text of an item.
ghost use Rattle.std.specs.Prelude.{ℕ, ◌<◌, length, take, OnOk, OnErr};
ghost use Rattle.std.specs.Io.KnownBytes.{Appends};
ghost use Rattle.swd_trace.specs.Listed.{IsEncodableItem};
ghost use Rattle.swd_trace.specs.Texts.{item_text};

use crate::item::Item;
use crate::item_bits::ItemBits;
use crate::item_bytes::ItemBytes;
use std::io;
use std::io::Write;
use swd_io::send;

/// Writes the trace text of an item: its bits as the characters `0` and `1` in time order, turnarounds as 1,
/// and then a line feed.
///
/// # Errors
///
/// Returns the writer's error, without a retry, or `WriteZero` if a write takes no bytes. A proper prefix of
/// the text was written then.
pub fn encode<W: Write>(item: &Item, writer: &mut W) -> io::Result<()>
    requires { IsEncodableItem item.now }
    ensures ok { OnOk result (Appends (W.contents writer.old) (W.contents writer.new) (item_text item.now)) }
    ensures err { OnErr result ((k : ℕ) × (k < length (item_text item.now))
        × Appends (W.contents writer.old) (W.contents writer.new) (take k (item_text item.now))) }
{
    let mut bytes = ItemBytes::with_end(ItemBits::of(item));
    let mut piece = [0u8; 512];
    loop {
        let filled = bytes.fill(&mut piece);
        if filled == 0 {
            return Ok(());
        }
        if let Err(unsent) = send(writer, &piece[..filled]) {
            return Err(unsent.error);
        }
    }
}
