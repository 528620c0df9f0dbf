//! Laws of the characters. The functions do nothing: their contracts are the laws.
ghost use Rattle.std.specs.Prelude.{◌≡◌, ℕ, Some};
ghost use Rattle.swd_sequences.specs.declared.character.Character.{Character};
ghost use Rattle.swd_sequences.specs.Alphabet.{alphabet_byte, alphabet_character};

/// States that each character is read back from its byte, and that no other byte is read as this character.
pub fn characters_are_read_back()
    ensures back { (c : Character) → alphabet_character (alphabet_byte c) ≡ Some c }
    ensures only { (byte : ℕ) (c : Character) → alphabet_character byte ≡ Some c → byte ≡ alphabet_byte c }
{}
