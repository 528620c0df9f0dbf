//! Transactions that aren't complete yet.
ghost use Rattle.std.specs.Prelude.{◌≡◌, ◌<◌, true, IfNone};
ghost use Rattle.swd_recorder.specs.Chains.{is_recorded_no_ack};
ghost use Rattle.swd_port.specs.Steps.{IsPortSeen};
ghost use Rattle.swd_recorder.specs.Items.{recorded_ack_seen, recorded_in_hand_once};
ghost use Rattle.swd_recorder.specs.Steps.{is_recorded_inside};

use swd_bits::{Ack, Request};
use swd_port::Cue;

/// An incomplete transaction: its request was acknowledged, and the rest is due.
#[derive(Clone, Copy)]
pub struct InHand {
    pub request: Request,
    pub ack: Ack,
}

/// Returns the incomplete transaction after a call at which `seen` was seen, if there is one.
pub fn in_hand_once(cue: Cue, seen: u64) -> Option<InHand>
    requires { IsPortSeen cue seen }
    ensures { result ≡ recorded_in_hand_once cue seen }
{
    let Cue::Ask(request) = cue else {
        return None;
    };
    match ack_seen(seen) {
        Some(ack) => Some(InHand { request, ack }),
        None => None,
    }
}

/// Returns the acknowledgement with this number, of which the first bit in time is least significant.
pub(crate) fn ack_seen(seen: u64) -> Option<Ack>
    requires { seen < 8 }
    ensures is { result ≡ recorded_ack_seen seen }
    ensures none { IfNone result (is_recorded_no_ack seen ≡ true) }
{
    Ack::of(seen as u8)
}

/// Returns whether a call is a line reset inside a transaction.
pub(crate) fn is_inside(in_hand: Option<InHand>, cue: Cue) -> bool
    ensures { result ≡ is_recorded_inside in_hand cue }
{
    match cue {
        Cue::Lead { .. } => in_hand.is_some(),
        _ => false,
    }
}
