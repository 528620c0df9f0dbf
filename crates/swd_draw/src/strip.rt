//! Gathers the fields of a part: their wave on SWDIO, and their boxes.
ghost use Rattle.std.specs.Prelude.{◌+◌, ◌*◌, ◌<◌, ◌≤◌, ◌∷◌, []};
ghost use Rattle.arrayvec.specs.ArrayString.{array_string_len};
ghost use Rattle.swd_draw.specs.declared.pieces.TheConstants.{LONGEST_BOX, LONGEST_PIECE};

use crate::field::Field;
use crate::pieces::{LONGEST_BOX, LONGEST_PIECE, MOST_DIGITS, push_box, push_field_wave, value_of};
use arrayvec::ArrayString;

/// The most fields of a strip.
pub(crate) const MOST_FIELDS: usize = 14;

/// The most bits of a strip.
pub(crate) const MOST_BITS: usize = 100;

/// The most bytes of a strip's wave.
pub(crate) const LONGEST_WAVE: usize = 1200;

/// The most bytes of a strip's boxes.
pub(crate) const LONGEST_BOXES: usize = 4480;

/// The wave and the boxes of fields.
#[derive(Drop)]
pub(crate) struct Strip {
    pub(crate) wave: ArrayString<LONGEST_WAVE>,
    pub(crate) boxes: ArrayString<LONGEST_BOXES>,
    // The numbers of bits and of fields.
    pub(crate) at: u8,
    pub(crate) count: u8,
    ghost wave_room: { array_string_len wave ≤ LONGEST_PIECE * at },
    ghost box_room: { array_string_len boxes ≤ LONGEST_BOX * count },
}

impl Strip {
    ghost use Rattle.std.specs.Prelude.{◌≡◌, ◌++◌};
    ghost use Rattle.swd_draw.specs.Marks.{field_wave};
    ghost use Rattle.swd_draw.specs.Strips.{StripAdded, IsEmptyStrip};

    /// Returns a strip of no fields.
    pub(crate) fn new() -> Strip
        ensures { IsEmptyStrip result }
    {
        Strip {
            wave: ArrayString::new(),
            boxes: ArrayString::new(),
            at: 0,
            count: 0,
        }
    }

    /// Appends a field.
    pub(crate) fn add(&mut self, field: Field)
        requires bits { self.old.at + field.bits.len ≤ MOST_BITS }
        requires digits { field.bits.len ≤ MOST_DIGITS }
        requires count { self.old.count < MOST_FIELDS }
        ensures { StripAdded self.old self.new (field ∷ []) }
    {
        let Field { name, shade, bits } = field;
        push_field_wave(&mut self.wave, shade, bits);
        let value = value_of(name, bits);
        push_box(
            &mut self.boxes,
            self.at,
            bits.len,
            shade,
            name.text(),
            value.as_str(),
        );
        self.at += bits.len;
        self.count += 1;
    }
}
