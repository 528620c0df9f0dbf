//! A small generator of numbers.
ghost use Rattle.std.specs.Prelude.{◌<◌};

/// Where each workload begins.
pub const SEED: u64 = 0x1234_5678_9abc_def1;

/// Gives the same numbers in each run (xorshift64*).
#[derive(Clone, Copy, Debug)]
pub struct Random(pub u64);

impl Random {
    /// The next number.
    pub fn word(&mut self) -> u32 {
        self.0 ^= self.0 >> 12;
        self.0 ^= self.0 << 25;
        self.0 ^= self.0 >> 27;
        (self.0.wrapping_mul(0x2545_f491_4f6c_dd1d) >> 32) as u32
    }

    /// The next number below a bound.
    pub fn below(&mut self, bound: u32) -> u32
        requires { 0 < bound }
        ensures { result < bound }
    {
        self.word() % bound
    }
}
