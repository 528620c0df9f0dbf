//! The check of a session over a line, call by call.
ghost use Rattle.std.specs.Prelude.{◌≡◌, true, [], Some, IfSome, List};
ghost use Rattle.swd_port.specs.declared.call.Call.{Call};
ghost use Rattle.swd_port.specs.Steps.{IsPortSeen};
ghost use Rattle.swd_port.specs.Transports.{PortAttempt};
ghost use Rattle.swd_recorder.specs.Calls.{IsRecordedCue};
ghost use Rattle.swd_check.specs.Watched.{CheckTakes};
ghost use Rattle.swd_conform.specs.Sessions.{GoesOverChecked, IsSessionVerdict, SessionHas};
ghost use Rattle.swd_conform.specs.Sessions.{session_hand_once, session_items_of, session_shown};

use std::alloc::Allocator;
use std::io::{Read, Write};
use swd_check::{Check, Checked, CheckedItems};
use swd_port::{Cue, Disconnected, Story};
use swd_recorder::{InHand, in_hand_once};
use swd_remote::{CallSink, Line, LineJob, RemoteStreams, Way, over_line, over_watched_line};

// The bits of an answer, and of a data phase.
const ANSWERS: u64 = 1 << 3;

const PHASES: u64 = 1 << 33;

/// A check of the calls of a transport, as [`Check::of_session`] is. An item is taken once its last call succeeded.
#[derive(Drop)]
pub struct SessionCheck<A: Allocator> {
    pub(crate) items: CheckedItems<A>,
    pub(crate) in_hand: Option<InHand>,
}

impl<A: Allocator + Copy> SessionCheck<A> {
    /// Returns a check of a session in which no call was made. `untold` is that of [`Check::with_untold`].
    pub fn new(alloc: A, untold: bool) -> SessionCheck<A>
        ensures { SessionHas [] result }
    {
        SessionCheck {
            items: CheckedItems::new(Check::of_session(alloc).with_untold(untold)),
            in_hand: None,
        }
    }

    /// Returns the verdict on the session so far.
    pub fn checked(&self) -> Checked
        ensures { (made : List PortAttempt) → SessionHas made self.now → IsSessionVerdict true made (Some result) }
    {
        self.items.checked()
    }
}

impl<A: Allocator + Copy> CallSink for SessionCheck<A> {
    ghost got = { SessionHas };

    fn take(&mut self, cue: Cue, told: Result<u64, Disconnected>) {
        let shown = shown_by(cue, told);
        take_items(&mut self.items, self.in_hand, cue, shown);
        self.in_hand = in_hand_after(cue, shown);
    }
}

/// Returns whether the bits of a word that is read with wrong parity aren't told over a line.
pub fn tells_no_damage(way: Way) -> bool {
    match way {
        Way::Characters => false,
        Way::Packets { .. } => true,
    }
}

// Returns what a call showed, or `None` if it failed, or a number has too many bits.
fn shown_by(cue: Cue, told: Result<u64, Disconnected>) -> Option<u64>
    ensures is { result ≡ session_shown cue told }
    ensures range { IfSome result (λ seen. IsRecordedCue cue × IsPortSeen cue seen) }
{
    let Ok(seen) = told else {
        return None;
    };
    match cue {
        Cue::Ask(_) if seen < ANSWERS => Some(seen),
        Cue::Take if seen < PHASES => Some(seen),
        Cue::Give(bits) if bits < PHASES => Some(0),
        Cue::Lead { .. } | Cue::Pass => Some(0),
        _ => None,
    }
}

// Gives a check the items of a call that showed this, with this incomplete transaction.
fn take_items<A: Allocator + Copy>(
    items: &mut CheckedItems<A>,
    in_hand: Option<InHand>,
    cue: Cue,
    shown: Option<u64>,
)
    requires { IfSome shown (λ seen. IsRecordedCue cue × IsPortSeen cue seen) }
    ensures { CheckTakes (session_items_of in_hand cue shown) items.old.check items.new.check }
{
    match shown {
        Some(seen) => items.take(in_hand, cue, seen),
        None => {}
    }
}

// Returns the incomplete transaction after a call that showed this.
fn in_hand_after(cue: Cue, shown: Option<u64>) -> Option<InHand>
    requires { IfSome shown (λ seen. IsRecordedCue cue × IsPortSeen cue seen) }
    ensures { result ≡ session_hand_once cue shown }
{
    match shown {
        Some(seen) => in_hand_once(cue, seen),
        None => None,
    }
}

/// Does a job as [`over_line`] does. With `check` returns the verdict on the session, in the words of
/// [`Check::of_session`], up to the first error of the connection.
pub fn over_checked_line<P: Story, J: LineJob, R: Read, W: Write, A: Allocator + Copy>(
    alloc: A,
    check: bool,
    job: &mut J,
    line: Line<R, W>,
) -> (J::Answer, RemoteStreams<R, W>, Option<Checked>)
    ensures { (calls : List Call) × J.came P.at job.old job.new result.0 calls
        × ∥ GoesOverChecked check line.way R.remaining W.contents (W.contents line.writer) (R.remaining line.reader)
        result.1 calls result.2 ∥₁ }
{
    if check {
        let session = SessionCheck::new(alloc, tells_no_damage(line.way));
        let (answer, streams, session) = over_watched_line::<P, J, R, W, SessionCheck<A>>(
            job, line, session,
        );
        let checked = session.checked();
        return (answer, streams, Some(checked));
    }
    let (answer, streams) = over_line::<P, J, R, W>(job, line);
    (answer, streams, None)
}
