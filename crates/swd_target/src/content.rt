//! The contents of registers whose value may be unknown in the port model.
ghost use Rattle.std.specs.Prelude.{◌<◌, ◌^◌};

/// The word that a register contains. Where the port model has the register unknown, this word stands for its value.
#[derive(Clone, Copy)]
pub(crate) struct Content {
    pub(crate) word: u32,
    pub(crate) known: bool,
    ghost fits: { word < 2 ^ 32 },
}

impl Content {
    ghost use Rattle.std.specs.Prelude.{◌≡◌};
    ghost use Rattle.swd_target.specs.Contents.{target_known_word};

    pub(crate) fn known(word: u32) -> Content
        ensures word { result.word ≡ word }
        ensures known { target_known_word result ≡ Some word }
    {
        Content { word, known: true }
    }

    pub(crate) fn unknown(word: u32) -> Content
        ensures word { result.word ≡ word }
        ensures unknown { target_known_word result ≡ None }
    {
        Content { word, known: false }
    }
}
