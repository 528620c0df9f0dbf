//! Properties of drawings. The functions do nothing: their contracts state the properties.
ghost use Rattle.std.specs.Prelude.{◌≡◌, ◌+◌, ◌≤◌, ◌<◌, ◌^◌, ◌++◌, ℕ, List, length, true};
ghost use Rattle.swd_bits.specs.Transactions.{tx_spelling_bits};
ghost use Rattle.swd_bits.specs.declared.tx.Tx.{Tx};
ghost use Rattle.swd_resync.specs.declared.part.Part.{Part};
ghost use Rattle.swd_draw.specs.Drawings.{drawing_left_out, drawn};
ghost use Rattle.swd_draw.specs.Fields.{bits_of_drawn_fields, drawn_tx_fields};

/// States that the bits of the fields that are drawn of a transaction are the transaction's, turnarounds as 1.
pub fn fields_are_the_transaction()
    ensures { (tx : Tx) → bits_of_drawn_fields (drawn_tx_fields tx) ≡ tx_spelling_bits tx true true }
{}

/// States what is drawn of parts: the first of them, `most` at most. The drawing says how many the others are; it says
/// of none only where all are drawn.
pub fn the_first_parts_are_drawn()
    ensures first { (most : ℕ) (parts : List Part) → (rest : List Part) × (parts ≡ drawn most parts ++ rest) }
    ensures parts { (most : ℕ) (parts : List Part) → length (drawn most parts) ≤ most }
    ensures others { (most : ℕ) (parts : List Part) → length parts < 2 ^ 64
        → length (drawn most parts) + drawing_left_out most parts ≡ length parts }
    ensures all { (most : ℕ) (parts : List Part) → drawing_left_out most parts ≡ 0 → drawn most parts ≡ parts }
{}
