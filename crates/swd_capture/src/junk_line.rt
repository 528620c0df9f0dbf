//! The lines of junk bits.
ghost use Rattle.std.specs.Prelude.{◌≡◌, ◌+◌, ◌-◌, ◌*◌, ◌/◌, ◌%◌, ◌^◌, ◌<◌, ◌≤◌, ◌==◌, ◌++◌, ◌∷◌, []};
ghost use Rattle.std.specs.Prelude.{length, replicate};
ghost use Rattle.arrayvec.specs.ArrayString.{array_string_len};
ghost use Rattle.swd_trace.specs.Texts.{item_line};
ghost use Rattle.swd_trace.specs.declared.item.Item.TheVariants.{Junk};
ghost use Rattle.swd_capture.specs.Places.{capture_place_prefix, capture_tens_prefix};
ghost use Rattle.swd_capture.specs.Printing.{capture_place_if};

use arrayvec::ArrayString;

// The most bytes of `@` and the digits of a place before its last one.
const LONGEST_TENS: usize = 20;

// Room for these, and for as many spaces.
const ROOM: usize = 2 * LONGEST_TENS;

// As many spaces.
const SPACES: &str = "                    ";

// The most bytes of a junk bit's line, with its place and its line feed.
const LONGEST_JUNK: usize = LONGEST_TENS + 9;

/// `@`, and the digits of a place before its last one. They are kept, since ten places in a row begin with them.
#[derive(Drop)]
pub(crate) struct Tens {
    // The first of these places.
    start: u64,
    // The number of their bytes.
    len: usize,
    // These bytes, and then spaces: a copy of constant length is fastest.
    text: ArrayString<ROOM>,
    ghost holds: { text.bytes ≡ capture_tens_prefix (start / 10) ++ replicate 20 32 },
    ghost counts: { len ≡ length (capture_tens_prefix (start / 10)) },
    ghost even: { start % 10 ≡ 0 },
    ghost short: { len ≤ 20 },
}

// Appends `@`, and the digits of a number of tens, if it isn't 0.
fn push_tens<const N: usize>(text: &mut ArrayString<N>, tens: u64)
    requires room { array_string_len text.old + LONGEST_TENS ≤ N }
    requires tens { tens * 10 < 2 ^ 64 }
    ensures bytes { text.new.bytes ≡ text.old.bytes ++ capture_tens_prefix tens }
    ensures len { array_string_len text.new ≤ array_string_len text.old + LONGEST_TENS }
{
    text.push_str("@");
    if tens == 0 {
        return;
    }
    let mut digits = itoa::Buffer::new();
    text.push_str(digits.format(tens));
}

// Replaces `@`, the digits of a number of tens (both are `len` bytes), and the spaces after them by `@` and the digits
// of another number. Within a hundred it writes the last digit alone.
fn change_tens(text: &mut ArrayString<ROOM>, len: usize, from: u64, to: u64)
    requires holds { text.old.bytes ≡ capture_tens_prefix from ++ replicate 20 32 }
    requires counts { len ≡ length (capture_tens_prefix from) }
    requires short { len ≤ 20 }
    requires to { to * 10 < 2 ^ 64 }
    ensures bytes { text.new.bytes ≡ capture_tens_prefix to }
    ensures len { array_string_len text.new ≤ 20 }
{
    if from >= 10 && to / 10 == from / 10 {
        text.truncate(len - 1);
        text.push_str(digit(to % 10));
    } else {
        text.clear();
        push_tens(text, to);
    }
}

impl Tens {
    pub(crate) fn new() -> Tens {
        let mut text = ArrayString::new();
        push_tens(&mut text, 0);
        text.push_str(SPACES);
        Tens {
            start: 0,
            len: 1,
            text,
        }
    }

    // Changes them to those of a place.
    #[inline(always)]
    fn set(&mut self, place: u64)
        ensures { self.new.start ≡ place - place % 10 }
    {
        if place < self.start || place - self.start > 9 {
            self.change(place);
        }
    }

    #[inline(never)]
    fn change(&mut self, place: u64)
        ensures { self.new.start ≡ place - place % 10 }
    {
        change_tens(&mut self.text, self.len, self.start / 10, place / 10);
        self.start = place - place % 10;
        self.len = self.text.len();
        self.text.push_str(SPACES);
    }

    // Appends them.
    #[inline(always)]
    fn push<const N: usize>(&self, text: &mut ArrayString<N>)
        requires { array_string_len text.old + LONGEST_TENS ≤ N }
        ensures bytes { text.new.bytes ≡ text.old.bytes ++ capture_tens_prefix (self.now.start / 10) }
        ensures len { array_string_len text.new ≤ array_string_len text.old + LONGEST_TENS }
    {
        let end = text.len() + self.len;
        text.push_str(&self.text.as_str()[..LONGEST_TENS]);
        text.truncate(end);
    }

    // Appends the line of a junk bit, with its place and its line feed.
    #[inline(always)]
    fn push_placed<const N: usize>(&mut self, place: u64, bit: bool, text: &mut ArrayString<N>)
        requires { array_string_len text.old + LONGEST_JUNK ≤ N }
        ensures bytes { text.new.bytes ≡ text.old.bytes
            ++ (capture_place_prefix place ++ (item_line (Junk bit) ++ 10 ∷ [])) }
        ensures len { array_string_len text.new ≤ array_string_len text.old + LONGEST_JUNK }
    {
        self.set(place);
        self.push(text);
        text.push_str(placed_end(2 * (place - self.start) + u64::from(bit)));
    }

    /// Appends the line of a junk bit and its line feed, with its place if lines begin with it.
    #[inline(always)]
    pub(crate) fn push_junk<const N: usize>(
        &mut self,
        places: bool,
        place: u64,
        bit: bool,
        text: &mut ArrayString<N>,
    )
        requires { array_string_len text.old + LONGEST_JUNK ≤ N }
        ensures bytes { text.new.bytes
            ≡ text.old.bytes ++ (capture_place_if places place ++ (item_line (Junk bit) ++ 10 ∷ [])) }
        ensures len { array_string_len text.new ≤ array_string_len text.old + LONGEST_JUNK }
    {
        if places {
            self.push_placed(place, bit, text);
        } else {
            text.push_str(junk_line(bit));
        }
    }
}

// Returns the line of a junk bit, with its line feed.
#[inline(always)]
fn junk_line(bit: bool) -> &'static str
    ensures bytes { result.now ≡ item_line (Junk bit) ++ 10 ∷ [] }
    ensures len { length result.now ≡ 7 }
{
    if bit { "junk 1\n" } else { "junk 0\n" }
}

// Returns a digit.
fn digit(number: u64) -> &'static str
    requires { number < 10 }
    ensures bytes { result.now ≡ (48 + number) ∷ [] }
    ensures len { length result.now ≡ 1 }
{
    match number {
        0 => "0",
        1 => "1",
        2 => "2",
        3 => "3",
        4 => "4",
        5 => "5",
        6 => "6",
        7 => "7",
        8 => "8",
        9 => "9",
        _ => unreachable!(),
    }
}

// Returns the last digit of a place, a space, and the line of the junk bit there, with its line feed. The number is
// twice the digit, plus the bit.
#[inline(always)]
fn placed_end(number: u64) -> &'static str
    requires { number < 20 }
    ensures bytes { result.now ≡ (48 + number / 2) ∷ 32 ∷ (item_line (Junk (number % 2 == 1)) ++ 10 ∷ []) }
    ensures len { length result.now ≡ 9 }
{
    match number {
        0 => "0 junk 0\n",
        1 => "0 junk 1\n",
        2 => "1 junk 0\n",
        3 => "1 junk 1\n",
        4 => "2 junk 0\n",
        5 => "2 junk 1\n",
        6 => "3 junk 0\n",
        7 => "3 junk 1\n",
        8 => "4 junk 0\n",
        9 => "4 junk 1\n",
        10 => "5 junk 0\n",
        11 => "5 junk 1\n",
        12 => "6 junk 0\n",
        13 => "6 junk 1\n",
        14 => "7 junk 0\n",
        15 => "7 junk 1\n",
        16 => "8 junk 0\n",
        17 => "8 junk 1\n",
        18 => "9 junk 0\n",
        19 => "9 junk 1\n",
        // An arm for the rest would cost a jump that is often guessed wrong.
        _ => unreachable!(),
    }
}
