//! The calls so far, for contracts alone.
ghost use Rattle.std.specs.Prelude.{◌≡◌, List, [], ◌∷◌};
ghost use Rattle.swd_port.specs.declared.call.Call.{Call as Noticed};
ghost use base.Fml.{ftrue};

use crate::call::Call;
use std::fmt;
use std::marker::Model;

/// The calls of a wire so far, the last one first, which only contracts see, as `calls`. It takes no bytes.
#[derive(Drop)]
pub struct NotedCalls {
    pub ghost calls: { List Noticed },
}

impl Model for NotedCalls {
    ghost also_owns = { λ _. ftrue };
}

impl NotedCalls {
    /// Creates a record without calls.
    pub fn new() -> NotedCalls
        ensures { result.calls ≡ [] }
    {
        NotedCalls {}
    }

    /// Adds a call.
    pub fn and(&self, _call: &Call) -> NotedCalls
        ensures { result.calls ≡ _call.now ∷ self.now.calls }
    {
        NotedCalls {}
    }
}

impl fmt::Debug for NotedCalls {
    fn fmt<W: fmt::Write>(&self, f: &mut fmt::Formatter<W>) -> fmt::Result {
        f.write_str("NotedCalls")
    }
}
