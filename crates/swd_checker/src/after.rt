//! Worlds after a part of a transaction.
ghost use Rattle.std.specs.Prelude.{◌≡◌, ◌<◌, ◌+◌, ◌*◌, ◌^◌, ◌&&◌, not, Some, is_some};
ghost use Rattle.swd_port.specs.Registers.{register_bit};
ghost use Rattle.swd_port.specs.Port.{Target};
ghost use Rattle.swd_checker.specs.Worlds.{TarFrom, HeldSeen};
ghost use Rattle.swd_checker.specs.Described.{IsWorldNow};
ghost use Rattle.swd_checker.specs.Steps.{world_live, world_posted, world_selecting, world_cleared};
ghost use Rattle.swd_checker.specs.Steps.{world_powered, world_written};
ghost use Rattle.swd_checker.specs.Reaching.{checked_near_of};

use crate::held::Held;
use crate::near::{Near, bit};
use crate::tar::Tar;
use crate::world::{Power, World};
use swd_port::{Reset, Select};

/// Returns whether a bus error that didn't show yet may show in STICKYERR.
pub(crate) fn may_show(world: World) -> bool
    ensures { result ≡ (is_some world.pending && not world.sticky_error) }
{
    world.pending.is_some() && !world.sticky_error
}

/// Returns the world after a read of DPIDR.
pub(crate) fn live(world: World) -> World
    ensures { result ≡ world_live world }
{
    World {
        reset: Reset::Live,
        ..world
    }
}

/// Returns the world after the read buffer was returned, of which this is known.
#[inline(always)]
pub(crate) fn posted(world: World, buffer: Held) -> World
    ensures { result ≡ world_posted buffer world }
{
    World {
        read_ok: true,
        last_returned: buffer,
        buffer: Held::Unknown,
        ..world
    }
}

/// Returns the world in which TAR, and the read buffer, is the address at this index.
pub(crate) fn at_tar(world: World, first: u32, index: u16) -> World
    requires { index < 2 ^ 9 }
    ensures tar { (x : Target) → IsWorldNow world x → x.tar ≡ Some (first + 4 * index) → x.buffer ≡ x.tar
        → IsWorldNow result x }
    ensures awaits { result.awaits ≡ world.awaits }
    ensures exact { first + 4 * index < 2 ^ 32 → result ≡ record world {
      tar = TarFrom (first + 4 * index) 0;
      buffer = HeldSeen (checked_near_of (first + 4 * index));
    } }
{
    match first.checked_add(4 * u32::from(index)) {
        Some(address) => World {
            tar: Tar::at(address),
            buffer: Held::Seen(Near::of(address)),
            ..world
        },
        // no address: the kilobytes end at 2^32
        None => world,
    }
}

/// Returns the world after CTRL/STAT was written.
pub(crate) fn powered(world: World, word: u32) -> World
    ensures { result ≡ world_powered word world }
{
    World {
        debug: Power::requested(bit(word, 28)),
        system: Power::requested(bit(word, 30)),
        ..world
    }
}

/// Returns the world after SELECT was written.
pub(crate) fn selecting(world: World, word: u32) -> World
    ensures { result ≡ world_selecting word world }
{
    let select = Select::of(word);
    World {
        mem_ap: select.apsel == 0 && select.apbanksel == 0,
        bank0: select.dpbanksel == 0,
        ..world
    }
}

/// Returns the world after a word arrived at an access port: the read buffer and the last returned value are unknown.
#[inline(always)]
pub(crate) fn written(world: World) -> World
    ensures { result ≡ world_written world }
{
    World {
        buffer: Held::Unknown,
        last_returned: Held::Unknown,
        ..world
    }
}

/// Returns whether ABORT with this word clears STICKYERR where a bus error may not have shown.
pub(crate) fn may_clear(world: World, word: u32) -> bool
    ensures { result ≡ (is_some world.pending && register_bit 2 word) }
{
    world.pending.is_some() && bit(word, 2)
}

/// Returns the world after ABORT with this word: STKERRCLR is bit 2, WDERRCLR bit 3.
pub(crate) fn cleared(world: World, word: u32) -> World
    ensures { result ≡ world_cleared word world }
{
    World {
        sticky_error: world.sticky_error && !bit(word, 2),
        write_error: world.write_error && !bit(word, 3),
        ..world
    }
}
