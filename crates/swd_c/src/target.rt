//! The clocked target in the caller's memory. The caller makes its transfers, on any bus.
ghost use Rattle.std.specs.Prelude.{◌≡◌, ◌≢◌, ◌<◌, ◌≤◌, ◌==◌, true, false, IsTrue, IfSome, IsSome, MatchOption};
ghost use Rattle.swd_port.specs.Bus.{Bus as BusType, bus_after};
ghost use Rattle.swd_port.specs.PlainBus.{bus_of};
ghost use Rattle.swd_port.specs.declared.access.Access.{Access as AccessType};
ghost use Rattle.swd_clocked.specs.declared.clocked.Clocked.{Clocked as ClockedType};
ghost use Rattle.swd_clocked.specs.Clocks.{clocked_device};
ghost use Rattle.swd_c.specs.Targets.{CApiTargetAnswered, CApiTransferAnswer, CApiTargetCycled, CApiHasNoTarget};
ghost use Rattle.swd_c.specs.Targets.{CApiHasTarget, CApiTargetHeld, CApiTargetIsMade, CApiCallerIsReady};
ghost use Rattle.swd_c.specs.Targets.{CApiNumbers, CApiTargetSettled, CApiTargetTransfers, c_api_drive, c_api_flag};
ghost use Rattle.swd_c.specs.Targets.{c_api_ready_memory, c_api_transfer, c_api_wanted_access};

use crate::nowhere::Nowhere;
use swd_clocked::{Clocked, ClockedFields};
use swd_target::{Memory, PendingFields, Quirks};

/// A pending transfer, by `kind`: 0 none, 1 a read of the word at an address, 2 a write of a word there. Fields that
/// aren't listed for a kind are 0.
#[repr(C)]
#[derive(Clone, Copy, Debug, PartialEq, Eq)]
pub struct SwdTransfer {
    /// The address in bytes.
    pub addr: u32,
    /// The word to write.
    pub word: u32,
    /// The kind.
    pub kind: u8,
}

// The cycle wasn't made: the pending transfer has to take effect first.
const WANTS: u8 = 2;

const REFUSED: u8 = 255;

// Returns the target with these fields over a memory.
fn target_over(fields: &ClockedFields, memory: Memory<Nowhere>) -> Option<Clocked<Memory<Nowhere>>>
    ensures found { (c : ClockedType BusType) → CApiNumbers fields.now c → IsSome result }
    ensures same { IfSome result (λ c. CApiNumbers fields.now c × (clocked_device c ≡ memory)) }
{
    if fields.target.late != 1 {
        return None;
    }
    fields.clocked(memory)
}

/// Makes a target before its first line reset. Its DPIDR is 2ba01477. `wraps` selects whether TAR wraps at the end of a
/// kilobyte. `filler` is what a read returns whose value is unknown.
#[unsafe(no_mangle)]
pub extern "C" fn swd_target_new(target: &mut ClockedFields, wraps: u8, filler: u32)
    ensures new { (b : BusType) → CApiHasTarget b target.new (CApiTargetIsMade (c_api_flag wraps) filler b) }
{
    let quirks = Quirks {
        wrap: wraps != 0,
        late: true,
        filler,
        idr: None,
    };
    *target = Clocked::new(Memory::<Nowhere>::window(0, None), quirks).fields();
}

/// Makes the target busy, or not. While busy it answers WAIT instead of OK to each request that may get WAIT. Returns
/// false, and leaves the fields unchanged, if they are those of no target.
#[unsafe(no_mangle)]
pub extern "C" fn swd_target_hold(target: &mut ClockedFields, wait: u8) -> bool
    ensures holds { IsTrue result → (b : BusType)
        → CApiHasTarget b target.old (λ c. CApiHasTarget b target.new (CApiTargetHeld (c_api_flag wait) c)) }
    ensures found { (c : ClockedType BusType) → CApiNumbers target.old c → result ≡ true }
    ensures refused { CApiHasNoTarget target.old → result ≡ false }
    ensures same { result ≡ false → target.new ≡ target.old }
{
    let Some(mut now) = target_over(target, Memory::window(0, None)) else {
        return false;
    };
    now.hold(wait != 0);
    *target = now.fields();
    true
}

/// Returns the pending transfer: accepted, and not yet in effect.
#[unsafe(no_mangle)]
pub extern "C" fn swd_target_wants(target: &ClockedFields) -> SwdTransfer
    ensures { result ≡ c_api_transfer (c_api_wanted_access target.now) }
{
    let addr = target.target.tar.word;
    let pending = target.target.pending;
    match pending.kind {
        1 => SwdTransfer {
            addr,
            word: 0,
            kind: 1,
        },
        2 => SwdTransfer {
            addr,
            word: pending.word,
            kind: 2,
        },
        _ => SwdTransfer {
            addr: 0,
            word: 0,
            kind: 0,
        },
    }
}

// Returns a memory that gives this result for the pending transfer, if the transfer can have it. `kind` is 2 for a word
// read, 3 for written, and 4 for a bus error.
fn answering(pending: PendingFields, addr: u32, kind: u8, word: u32) -> Option<Memory<Nowhere>>
    ensures { MatchOption result
        ((a : AccessType) (b : BusType) → CApiTransferAnswer pending addr kind word a b → ⊥)
        (λ m. (a : AccessType) × CApiTransferAnswer pending addr kind word a (bus_of m)) }
{
    match (pending.kind, kind) {
        (1, 2) => Some(Memory::window(addr, Some(word))),
        (2, 3) => Some(Memory::window(addr, Some(0))),
        (1, 4) => Some(Memory::window(addr, None)),
        (2, 4) => Some(Memory::window(addr, None)),
        _ => None,
    }
}

/// Takes the result of the pending transfer, which takes effect in the target. `kind` is 2 if `word` was read, 3 if it
/// was written, and 4 for a bus error. Returns false, and leaves the fields unchanged, if they are those of no target,
/// nothing is pending, or the transfer can't have this result.
#[unsafe(no_mangle)]
pub extern "C" fn swd_target_settle(target: &mut ClockedFields, kind: u8, word: u32) -> bool
    ensures settles { IsTrue result → (a : AccessType) (b : BusType) → CApiTargetAnswered target.old kind word a b
        → CApiHasTarget b target.old (λ c. CApiHasTarget (bus_after a b) target.new (CApiTargetSettled c)) }
    ensures found { (c : ClockedType BusType) (a : AccessType) (b : BusType)
        → CApiNumbers target.old c → CApiTargetAnswered target.old kind word a b → result ≡ true }
    ensures refused { ((c : ClockedType BusType) (a : AccessType) (b : BusType)
        → CApiNumbers target.old c → CApiTargetAnswered target.old kind word a b → ⊥) → result ≡ false }
    ensures same { result ≡ false → target.new ≡ target.old }
{
    let Some(memory) = answering(target.target.pending, target.target.tar.word, kind, word) else {
        return false;
    };
    let Some(mut now) = target_over(target, memory) else {
        return false;
    };
    now.settle();
    *target = now.fields();
    true
}

// Returns the bit that the host drives, if any.
fn driven(drive: u8) -> Option<bool>
    ensures { result ≡ c_api_drive drive }
{
    if drive == 2 { None } else { Some(drive == 1) }
}

/// Performs one clock. `drive` is the bit that the host drives, or 2 if it releases the line. Returns the bit on the
/// line. Returns 2 if the pending transfer has to take effect first, and 255 if the fields are those of no target or
/// `drive` is above 2. The fields are unchanged then.
#[unsafe(no_mangle)]
pub extern "C" fn swd_target_cycle(target: &mut ClockedFields, drive: u8) -> u8
    ensures clocks { result < 2 → (b : BusType) → (target.old.waits ≡ 1 → CApiCallerIsReady target.old b)
        → CApiHasTarget b target.old (λ c. CApiHasTarget b target.new
        (CApiTargetCycled (c_api_drive drive) (result == 1) c)) }
    ensures pending { result ≡ 2 → c_api_wanted_access target.old ≢ None }
    ensures wants { result ≡ 2 → CApiHasTarget (c_api_ready_memory target.old) target.old
        (CApiTargetTransfers (c_api_drive drive)) }
    ensures found { (c : ClockedType BusType) → CApiNumbers target.old c → drive < 3 → result < 3 }
    ensures refused { CApiHasNoTarget target.old → result ≡ 255 }
    ensures driven { 2 < drive → result ≡ 255 }
    ensures same { 2 ≤ result → target.new ≡ target.old }
{
    if drive > 2 {
        return REFUSED;
    }
    let Some(mut now) = target_over(target, Memory::window(target.target.tar.word, Some(0))) else {
        return REFUSED;
    };
    let line = now.cycle(driven(drive));
    if !now.memory().log().is_empty() {
        return WANTS;
    }
    *target = now.fields();
    u8::from(line)
}
