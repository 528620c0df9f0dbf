//! The laws that no state of the port model is stuck, and that the model allows some replies in every session of a
//! host.
ghost use Rattle.swd_port.specs.Laws.NeverStuck.{PortRequestNeverStuck, PortCallNeverStuck};
ghost use Rattle.swd_port.specs.Laws.Sessions.{MadePortHasWords, PortStepForEachCue, PortSessionFits};

/// States that every call has a step from every state whose values are words, a request under every mark. So what is
/// proved of a `Wire` never holds just because the model has no step.
pub fn never_stuck()
    ensures requests { PortRequestNeverStuck }
    ensures others { PortCallNeverStuck }
{}

/// States that every session of a host is consistent with the model for some replies. Every cue has a step from a state
/// whose values are words to another such state, a request under each mark, and each state made over words is one. So
/// replies and states of the model exist for whatever the host chooses to do next, under any marks and for any number
/// of calls. A run over a `TransportWire` is such a session.
pub fn sessions_fit()
    ensures made { MadePortHasWords }
    ensures steps { PortStepForEachCue }
    ensures sessions { PortSessionFits }
{}
