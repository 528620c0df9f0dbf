//! The characters that clock a level into a target.
ghost use Rattle.std.specs.Prelude.{◌≡◌, [], ◌∷◌, false, true};
ghost use Rattle.swd_sequences.specs.Alphabet.{alphabet_byte};

use swd_sequences::Character;

/// Returns the two characters of one clock in which the host drives this level: SWCLK falls, and then rises.
pub fn clock(level: bool) -> [u8; 2]
    ensures { result ≡ alphabet_byte (Character.Moves false level) ∷ alphabet_byte (Character.Moves true level) ∷ [] }
{
    [
        Character::Moves(false, level).byte(),
        Character::Moves(true, level).byte(),
    ]
}
