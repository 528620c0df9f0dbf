//! Replies, a few bytes after the others.
ghost use Rattle.std.specs.Prelude.{◌≡◌, ◌≤◌, ◌+◌, ◌++◌, length};
ghost use Rattle.std.specs.Int.{w32, to_le_bytes};

use crate::size::LONGEST;
use arrayvec::ArrayVec;

/// What a packet is answered.
pub(crate) type Reply = ArrayVec<u8, LONGEST>;

/// Appends these bytes, for which there is room.
pub(crate) fn put(reply: &mut Reply, bytes: &[u8])
    requires { length reply.old.items + length bytes.now ≤ 512 }
    ensures { reply.new.items ≡ reply.old.items ++ bytes.now }
{
    match reply.try_extend_from_slice(bytes) {
        Ok(()) => {}
        Err(_) => unreachable!(),
    }
}

/// Appends a word, the first byte least significant.
pub(crate) fn put_word(reply: &mut Reply, word: u32)
    requires { length reply.old.items + 4 ≤ 512 }
    ensures { reply.new.items ≡ reply.old.items ++ to_le_bytes w32 word }
{
    put(reply, &word.to_le_bytes());
}
