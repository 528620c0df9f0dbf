//! The characters of the protocol.
ghost use Rattle.std.specs.Prelude.{◌≡◌, ◌≢◌, Bool, IfSome, IfNone};
ghost use Rattle.swd_sequences.specs.Alphabet.{alphabet_byte, alphabet_character, alphabet_level};

/// One character of a host.
#[derive(Clone, Copy, Debug, PartialEq, Eq)]
pub enum Character {
    /// Sets SWCLK to low or high, and SWDIO to 0 or 1 where the host drives it: `d` to `g`.
    Moves(bool, bool),
    /// Asks for the level of SWDIO: `c`.
    Looks,
    /// Drives or releases SWDIO: `O` and `o`.
    Drives(bool),
    /// Switches the lamp on or off: `B` and `b`.
    Lights(bool),
    /// Sets the reset lines TRST and SRST: `r` to `u`.
    Resets(bool, bool),
    /// Makes the server wait for a millisecond or a microsecond: `Z` and `z`.
    Waits(bool),
    /// Ends the session: `Q`.
    Quits,
}

impl Character {
    /// Returns the byte of this character.
    #[inline(always)]
    pub fn byte(self) -> u8
        ensures { result ≡ alphabet_byte self }
    {
        match self {
            Character::Moves(false, false) => b'd',
            Character::Moves(false, true) => b'e',
            Character::Moves(true, false) => b'f',
            Character::Moves(true, true) => b'g',
            Character::Looks => b'c',
            Character::Drives(true) => b'O',
            Character::Drives(false) => b'o',
            Character::Lights(true) => b'B',
            Character::Lights(false) => b'b',
            Character::Resets(false, false) => b'r',
            Character::Resets(false, true) => b's',
            Character::Resets(true, false) => b't',
            Character::Resets(true, true) => b'u',
            Character::Waits(true) => b'Z',
            Character::Waits(false) => b'z',
            Character::Quits => b'Q',
        }
    }

    /// Returns the character with this byte, or `None` if no character of the protocol for serial wire has
    /// it.
    pub fn of(byte: u8) -> Option<Character>
        ensures { result ≡ alphabet_character byte }
    {
        match byte {
            b'd' => Some(Character::Moves(false, false)),
            b'e' => Some(Character::Moves(false, true)),
            b'f' => Some(Character::Moves(true, false)),
            b'g' => Some(Character::Moves(true, true)),
            b'c' => Some(Character::Looks),
            b'O' => Some(Character::Drives(true)),
            b'o' => Some(Character::Drives(false)),
            b'B' => Some(Character::Lights(true)),
            b'b' => Some(Character::Lights(false)),
            b'r' => Some(Character::Resets(false, false)),
            b's' => Some(Character::Resets(false, true)),
            b't' => Some(Character::Resets(true, false)),
            b'u' => Some(Character::Resets(true, true)),
            b'Z' => Some(Character::Waits(true)),
            b'z' => Some(Character::Waits(false)),
            b'Q' => Some(Character::Quits),
            _ => None,
        }
    }
}

/// Returns the byte of a level: `0` or `1`.
#[inline(always)]
pub fn level_byte(level: bool) -> u8
    ensures { result ≡ alphabet_level level }
{
    if level { b'1' } else { b'0' }
}

/// Returns the level with this byte, or `None` if no level has it.
#[inline(always)]
pub fn level_of(byte: u8) -> Option<bool>
    ensures level { IfSome result (λ level. byte ≡ alphabet_level level) }
    ensures none { IfNone result ((level : Bool) → byte ≢ alphabet_level level) }
{
    match byte {
        b'0' => Some(false),
        b'1' => Some(true),
        _ => None,
    }
}
