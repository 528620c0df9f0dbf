//! The pins of a probe.
ghost use Rattle.std.specs.Prelude.{Bool};
ghost use Rattle.swd_sequences.specs.Going.{SequenceClock};

/// The pins of a probe: what its maker writes.
///
/// The two relations are optional. They are for implementers who state what their calls do.
pub trait ProbeLine {
    /// What one clock does: the bit that is driven, if one is, and the level that is sampled.
    ghost clocks: { SequenceClock Self } = { λ _ _ _ _. Unit {0} };

    /// What setting nRESET to a level does.
    ghost resets: { Bool → Self → Self → Type 0 } = { λ _ _ _. Unit {0} };

    /// Makes one clock: drives SWDIO if a bit is given, else releases it; SWCLK falls; SWDIO is sampled; SWCLK rises.
    /// Returns the level that was sampled.
    fn clock(&mut self, drive: Option<bool>) -> bool
        ensures { clocks drive result self.old self.new };

    /// Sets nRESET, without a clock.
    fn reset(&mut self, level: bool)
        ensures { resets level self.old self.new };
}
