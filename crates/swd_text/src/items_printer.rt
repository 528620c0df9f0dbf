//! What prints the items of a whole trace.
ghost use Rattle.std.specs.Prelude.{List, ℕ, []};
ghost use Rattle.swd_io.specs.Blocks.{WritesOutput};
ghost use Rattle.swd_trace.specs.declared.item.Item.{Item as ItemType};

use std::io::Write;
use swd_trace::Item;

/// Prints what the items of a whole trace show. `()` prints nothing.
pub trait ItemsPrinter {
    ghost text: { Self → List ItemType → List ℕ };

    /// Writes what these items show. Nothing is retried.
    ///
    /// # Errors
    ///
    /// If the writer fails or takes no bytes: how many bytes were written. These are exactly the first ones.
    fn print<W: Write>(&self, writer: &mut W, items: &[Item]) -> Result<(), u64>
        ensures { WritesOutput result (W.contents writer.old) (W.contents writer.new) (Self.text self.now items.now) };
}

impl ItemsPrinter for () {
    ghost text = { λ printer items. [] };

    fn print<W: Write>(&self, _: &mut W, _: &[Item]) -> Result<(), u64> {
        Ok(())
    }
}
