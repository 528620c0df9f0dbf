//! How a host moves the pins of a target: the bytes that it sends, and what is returned for them.
ghost use Rattle.std.specs.Prelude.{◌≡◌, ℕ, List, ◌-◌, ◌^◌, length, min, OnOk, IfErr};
ghost use Rattle.swd_io.specs.Blocks.{BlockQueues};
ghost use Rattle.swd_bitbang.specs.Serving.{IsServingStop};
ghost use Rattle.swd_bitbang.specs.Watching.{PinsReach};

use crate::pins::Pins;
use crate::serving::Served;
use std::alloc::Allocator;
use std::io::Write;
use swd_io::Block;
use swd_target::Device;

/// A protocol by which a host moves the pins of a target. Its state has the pins.
pub trait Protocol<D: Device, A: Allocator> {
    ghost use Rattle.swd_bitbang.specs.declared.pins.Pins.{Pins};
    ghost use Rattle.swd_bitbang.specs.declared.serving.Served.{Served};

    // The pins of a state.
    ghost pins_of: { Self → Pins D A };

    // What a byte does that doesn't end the session: what is returned for it, and the state before and after it.
    ghost step: { ℕ → List ℕ → Self → Self → Type 0 };

    // Why a session ends in this way: the state, the bytes that led to it, and the byte that ends the session.
    ghost end: { Served → Self → List ℕ → ℕ → Type 0 };

    /// Returns the pins.
    fn pins(&self) -> &Pins<D, A>
        ensures { result.now ≡ pins_of self.now };

    /// Takes a byte of the host, the one at this position, at most 2^64 - 1, and queues what is returned for it.
    ///
    /// # Errors
    ///
    /// How the byte ends the session: `Quit` or `Bad`.
    fn answer<W: Write>(
        &mut self,
        block: &mut Block<'_, W>,
        byte: u8,
        place: u64,
    ) -> Result<(), Served>
        ensures writer { block.new.writer.ghost_name ≡ block.old.writer.ghost_name }
        ensures ok { OnOk result ((answers : List ℕ) × step byte answers self.old self.new
            × BlockQueues W.contents answers block.old block.new) }
        ensures same { IfErr result (λ served. (self.new ≡ self.old) × (block.new ≡ block.old)) }
        ensures err { IfErr result (λ served. IsServingStop served × ((taken : List ℕ)
            → place ≡ min (length taken) (2 ^ 64 - 1) → end served self.old taken byte)) };

    ghost reaches: { (byte : ℕ) (answers : List ℕ) (s t : Self) → step byte answers s t
        → PinsReach D.bus (pins_of s) (pins_of t) };
}
