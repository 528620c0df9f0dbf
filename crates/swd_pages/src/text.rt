//! The listing of a trace.
ghost use Rattle.std.specs.Prelude.{◌≡◌, ◌++◌, List, OnOk};
ghost use Rattle.swd_trace.specs.declared.item.Item.{Item};
ghost use Rattle.swd_trace.specs.Texts.{listing};
ghost use Rattle.swd_text.specs.Decoding.{DecodeTextReadsAs};

use swd_text::{DecodeFault, decode_text};

/// Appends the listing of a trace text.
pub fn list(mut text: &[u8], lines: &mut Vec<u8>) -> Result<(), DecodeFault>
    ensures { OnOk result ((items : List Item) × DecodeTextReadsAs text.now items
        × (lines.new.items ≡ lines.old.items ++ listing items)) }
{
    decode_text(&mut text, lines)
}
