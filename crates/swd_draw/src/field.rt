//! The fields of a part, as they are drawn.
ghost use Rattle.std.specs.Prelude.{◌≡◌, ◌≤◌, length};
ghost use Rattle.swd_draw.specs.Marks.{name_text, shade_class};

use swd_bits::TxBits;

/// The name of a field.
#[derive(Clone, Copy)]
pub(crate) enum Name {
    Start,
    Port,
    Direction,
    Address,
    Parity,
    Stop,
    Park,
    Turnaround,
    Ack,
    ReadData,
    WriteData,
    Ignored,
    Switch,
    Junk,
    Cut,
    Reset,
    Idle,
    Skip,
}

/// Who drives the line in a field. It is the colour of the field's box.
#[derive(Clone, Copy)]
pub(crate) enum Shade {
    Host,
    Target,
    /// Nobody drives the line.
    Undriven,
    /// A parity bit that is wrong.
    Wrong,
    /// It isn't known who drives it.
    Unknown,
    /// Its levels aren't known either.
    Hidden,
}

/// A field: its name, its shade, and its bits in time order.
#[derive(Clone, Copy)]
pub(crate) struct Field {
    pub(crate) name: Name,
    pub(crate) shade: Shade,
    pub(crate) bits: TxBits,
}

impl Name {
    /// Returns the name that the box has, as IHI 0031, B4, writes it.
    #[tactic(auto, unfolding(crate::specs::Marks::name_text))]
    pub(crate) fn text(self) -> &'static str
        ensures bytes { result.now ≡ name_text self }
        ensures len { length result.now ≤ 16 }
    {
        match self {
            Name::Start => "Start",
            Name::Port => "APnDP",
            Name::Direction => "RnW",
            Name::Address => "A[2:3]",
            Name::Parity => "Parity",
            Name::Stop => "Stop",
            Name::Park => "Park",
            Name::Turnaround => "Trn",
            Name::Ack => "ACK",
            Name::ReadData => "RDATA[0:31]",
            Name::WriteData => "WDATA[0:31]",
            Name::Ignored => "ignored",
            Name::Switch => "JTAG to SWD",
            Name::Junk => "junk",
            Name::Cut => "cut",
            Name::Reset => "line reset",
            Name::Idle => "idle",
            Name::Skip => "skip",
        }
    }
}

impl Shade {
    /// Returns the class of the box.
    #[tactic(auto, unfolding(crate::specs::Marks::shade_class))]
    pub(crate) fn class(self) -> &'static str
        ensures bytes { result.now ≡ shade_class self }
        ensures len { length result.now ≤ 1 }
    {
        match self {
            Shade::Host => "h",
            Shade::Target => "t",
            Shade::Undriven => "u",
            Shade::Wrong => "w",
            Shade::Unknown | Shade::Hidden => "n",
        }
    }
}
