//! The memory of a simulated target as bytes.
ghost use Rattle.swd_port.specs.PlainBus.{bus_of, plain_of};
ghost use Rattle.std.specs.Prelude.{◌≡◌, ◌+◌, ◌/◌, ◌%◌, ◌<◌, ◌≤◌, ◌^◌, IfSome, Some, length};
ghost use Rattle.std.specs.FinMap.{get, insert};
ghost use Rattle.swd_host.specs.Reports.{IsAtRest};
ghost use Rattle.swd_image.specs.Bytes.{image_byte_at, image_bytes_at};
ghost use Rattle.swd_target.specs.Benches.{bench_plan, bench_port, bench_simulation};
ghost use Rattle.swd_target.specs.Marks.{IsLegalPlan};
ghost use Rattle.swd_target.specs.MemoryWords.{target_words_from};
ghost use Rattle.swd_image_ends.specs.Memories.{ImageEndHasRoom, image_end_words_in};

use std::alloc::Allocator;
use swd_port::{Access, Mark};
use swd_run::QUIRKS;
use swd_target::{Bench, MakeFault, Memory};

// Puts a word at an address that has 0. A write of 0 is left out, which takes no place in the log.
fn put_word<A: Allocator>(memory: &mut Memory<A>, addr: u32, word: u32)
    requires zero { get memory.old.words addr ≡ Some 0 }
    requires free { length memory.old.log < memory.old.room }
    ensures words { memory.new.words ≡ insert memory.old.words addr word }
    ensures log { length memory.new.log ≤ length memory.old.log + 1 }
    ensures room { memory.new.room ≡ memory.old.room }
{
    if word != 0 {
        memory.transfer(Access::Write(addr, word));
    }
}

/// Returns the memory of these bytes from address `base` on: their words, the least significant byte first, and no
/// other word. Its log has the transfers that put the words there, and room for `spare` more, as far as a log may have
/// 2^32 - 1 in all. Returns `None` if out of memory.
pub fn memory_with<A: Allocator + Copy>(
    alloc: A,
    base: u32,
    bytes: &[u8],
    spare: u32,
) -> Option<Memory<A>>
    requires aligned { base % 4 ≡ 0 }
    requires whole { length bytes.now % 4 ≡ 0 }
    requires fits { base + length bytes.now ≤ 2 ^ 32 }
    ensures words { IfSome result (λ memory. memory.words ≡ target_words_from base (image_end_words_in bytes.now)) }
    ensures room { IfSome result (λ memory. ImageEndHasRoom (length bytes.now / 4) spare memory) }
{
    let count = (bytes.len() / 4) as u32;
    if count == 0 {
        return Some(Memory::window(base, None));
    }
    let mut memory = match Memory::new(alloc, base, count, count.saturating_add(spare)) {
        Ok(memory) => memory,
        Err(MakeFault::Memory) => return None,
        Err(_) => unreachable!(),
    };
    for index in 0..count {
        let at = 4 * index as usize;
        let word = u32::from_le_bytes([bytes[at], bytes[at + 1], bytes[at + 2], bytes[at + 3]]);
        put_word(&mut memory, base + 4 * index, word);
    }
    Some(memory)
}

/// Creates the simulated target of `swd run` under a plan. Its memory has the words of `bytes`, from address `base` on,
/// the least significant byte first, and no other word. Its log has room for `spare` transfers, as that of
/// [`memory_with`]. Returns `None` if out of memory.
pub fn simulated_target<A: Allocator + Copy>(
    alloc: A,
    base: u32,
    bytes: &[u8],
    spare: u32,
    plan: Vec<Mark, A>,
) -> Option<Bench<Memory<A>, A>>
    requires aligned { base % 4 ≡ 0 }
    requires whole { length bytes.now % 4 ≡ 0 }
    requires fits { base + length bytes.now ≤ 2 ^ 32 }
    requires plan { IsLegalPlan plan.items }
    ensures words { IfSome result (λ bench. (plain_of (bench_port bus_of bench).target.memory).words
        ≡ target_words_from base (image_end_words_in bytes.now)) }
    ensures room { IfSome result (λ bench. ImageEndHasRoom (length bytes.now / 4) spare
        (plain_of (bench_port bus_of bench).target.memory)) }
    ensures quirks { IfSome result (λ bench. (bench_simulation bus_of bench).quirks ≡ QUIRKS) }
    ensures rests { IfSome result (λ bench. IsAtRest (bench_port bus_of bench)) }
    ensures plan { IfSome result (λ bench. bench_plan bench ≡ plan.items) }
{
    let memory = memory_with(alloc, base, bytes, spare)?;
    Some(Bench::new(memory, QUIRKS, plan))
}

// Returns the byte at an address, and 0 if the memory doesn't have its word.
fn byte_at<A: Allocator>(memory: &Memory<A>, at: u32) -> u8
    ensures { result ≡ image_byte_at memory.now at }
{
    let word = memory.word(at - at % 4).unwrap_or(0);
    word.to_le_bytes()[(at % 4) as usize]
}

/// Returns `count` bytes of a memory from `base` on. A byte of a word that the memory doesn't have is 0. Returns `None`
/// if out of memory.
pub fn memory_bytes<A: Allocator + Copy>(
    alloc: A,
    memory: &Memory<A>,
    base: u32,
    count: u64,
) -> Option<Vec<u8, A>>
    requires { base + count ≤ 2 ^ 32 }
    ensures { IfSome result (λ bytes. bytes.items ≡ image_bytes_at memory.now base count) }
{
    let Ok(mut bytes) = Vec::with_capacity(alloc, count as usize) else {
        return None;
    };
    for index in 0..count {
        let at = (base as u64 + index) as u32;
        let Ok(()) = bytes.push(byte_at(memory, at)) else {
            return None;
        };
    }
    Some(bytes)
}
