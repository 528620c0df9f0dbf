//! What gets the calls of a transport, beside what they are for.
ghost use Rattle.std.specs.Prelude.{◌∷◌, ◌++◌, [], List};
ghost use Rattle.swd_port.specs.Transports.{PortAttempt, port_attempt};

use swd_port::{Coming, Cue, Disconnected, Pieces, Transport};

/// What gets the calls that are made of a transport, each with its result.
pub trait CallSink {
    /// What a sink states about the calls that it got, the first one first. Optional.
    ghost got: { List PortAttempt → Self → Type 0 } = { λ _ _. Unit {0} };

    /// Takes a call, in the words of [`Transport::step`], and its result.
    fn take(&mut self, cue: Cue, told: Result<u64, Disconnected>)
        ensures { (made : List PortAttempt) → got made self.old → got (made ++ port_attempt cue told ∷ []) self.new };
}

/// Nobody looks at the calls.
impl CallSink for () {
    fn take(&mut self, _cue: Cue, _told: Result<u64, Disconnected>) {}
}

/// A transport whose calls a sink gets.
#[derive(Drop)]
pub(crate) struct WatchedTransport<T: Transport, K: CallSink> {
    pub(crate) transport: T,
    pub(crate) sink: K,
}

impl<T: Transport, K: CallSink> Transport for WatchedTransport<T, K> {
    ghost tells = { λ made watched. T.tells made watched.transport × K.got made watched.sink };

    fn step(&mut self, cue: Cue) -> Result<u64, Disconnected> {
        let told = self.transport.step(cue);
        self.sink.take(cue, told);
        told
    }

    fn looks_ahead(&self) -> Option<Pieces> {
        self.transport.looks_ahead()
    }

    fn announce(&mut self, coming: &[Coming]) {
        self.transport.announce(coming);
    }
}
