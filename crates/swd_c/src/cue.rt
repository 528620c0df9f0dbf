//! The cue of a run as integers.
ghost use Rattle.std.specs.Prelude.{◌≡◌};
ghost use Rattle.swd_bits.specs.Bits.{bits_number};
ghost use Rattle.swd_bits.specs.Wire.{bits_of_request};
ghost use Rattle.swd_c.specs.Cues.{c_api_cue_of_kind, c_api_refusal, c_api_rest_cue, c_api_cue};
ghost use Rattle.swd_c.specs.Cues.{c_api_lead_cue, c_api_step_cue};

use swd_bits::Request;
use swd_host::{Outcome, OutcomeFields};
use swd_port::Cue;

/// What to send next, by `kind`: 0 nothing, with the outcome; 1 a lead; 2 a request; 3 the data phase of a read; 4 the
/// data phase of a write; 5 a turnaround; 255 nothing, since the call was refused. Fields that aren't listed for a kind
/// are 0.
#[repr(C)]
#[derive(Clone, Copy, Debug, PartialEq, Eq)]
pub struct SwdCue {
    /// For kind 4: the 33 bits of the data phase, the first in time least significant.
    pub bits: u64,
    /// For kind 1: the number of ones.
    pub ones: u32,
    /// For kind 1: the number of zeros after them.
    pub zeros: u32,
    /// For kind 1: for how many of the first ones to release the line.
    pub undriven: u32,
    /// For kind 0: the outcome. For kind 255 of `swd_run_next`, `swd_run_opened` and `swd_run_fail`: the reason, and
    /// the index of the access.
    pub outcome: OutcomeFields,
    /// The kind.
    pub kind: u8,
    /// For kind 2: the eight bits of the request, the first in time least significant.
    pub request: u8,
    /// For kind 1: 1 if the sixteen bits of the switch and the ones again precede the zeros, else 0.
    pub with_switch: u8,
    /// For every kind but 255: the number of unanswered accesses whose DRW request was sent.
    pub begun: u8,
}

/// The kind of the cue of a refused call.
pub const REFUSED: u8 = 255;

impl SwdCue {
    // Returns a cue of this kind whose other fields are 0.
    fn plain(kind: u8) -> SwdCue
        ensures { result ≡ c_api_cue_of_kind kind }
    {
        SwdCue {
            bits: 0,
            ones: 0,
            zeros: 0,
            undriven: 0,
            outcome: OutcomeFields::NONE,
            kind,
            request: 0,
            with_switch: 0,
            begun: 0,
        }
    }

    /// Returns the cue of a refused call.
    pub fn refusal() -> SwdCue
        ensures { result ≡ c_api_refusal }
    {
        SwdCue::plain(REFUSED)
    }

    // Returns this cue, or the outcome if there is no cue.
    pub(crate) fn told(cue: Option<Cue>, outcome: Option<Outcome>) -> SwdCue
        ensures { result ≡ c_api_cue cue outcome }
    {
        match cue {
            Some(cue) => SwdCue::step(cue),
            None => SwdCue::rest(outcome),
        }
    }

    // Returns this cue as integers.
    fn step(cue: Cue) -> SwdCue
        ensures { result ≡ c_api_step_cue cue }
    {
        match cue {
            Cue::Lead {
                ones,
                undriven,
                switch,
                zeros,
            } => SwdCue::lead(ones, undriven, switch, zeros),
            Cue::Ask(request) => {
                let mut ask = SwdCue::plain(2);
                ask.request = bits_of(request);
                ask
            }
            Cue::Take => SwdCue::plain(3),
            Cue::Give(bits) => {
                let mut give = SwdCue::plain(4);
                give.bits = bits;
                give
            }
            Cue::Pass => SwdCue::plain(5),
        }
    }

    fn lead(ones: u32, undriven: u32, switch: bool, zeros: u32) -> SwdCue
        ensures { result ≡ c_api_lead_cue ones undriven switch zeros }
    {
        let mut lead = SwdCue::plain(1);
        lead.ones = ones;
        lead.zeros = zeros;
        lead.undriven = undriven;
        lead.with_switch = u8::from(switch);
        lead
    }

    fn rest(outcome: Option<Outcome>) -> SwdCue
        ensures { result ≡ c_api_rest_cue outcome }
    {
        let mut rest = SwdCue::plain(0);
        if let Some(outcome) = outcome {
            rest.outcome = OutcomeFields::of(outcome);
        }
        rest
    }
}

// Returns the eight bits of a request, the first in time least significant.
pub(crate) fn bits_of(asked: Request) -> u8
    ensures { result ≡ bits_number (bits_of_request asked) }
{
    asked.bits()
}
