//! Laws of the reading of a list of bits. The functions do nothing: their contracts are the laws.
ghost use Rattle.std.specs.Prelude.{◌≡◌, ◌≢◌, ◌↔◌, ℕ, ◌≤◌, Bool, true, false, List, [], ◌++◌, length, map};
ghost use Rattle.std.specs.Prelude.{take, nat_le, replicate};
ghost use Rattle.swd_bits.specs.Transactions.{SpellsTx};
ghost use Rattle.swd_bits.specs.declared.tx.Tx.{Tx};
ghost use Rattle.swd_trace.specs.declared.item.Item.{Item};
ghost use Rattle.swd_trace.specs.Stands.{Whole, Begun, stands};
ghost use Rattle.swd_trace.specs.Reading.{trace_ones, trace_all_ones, trace_begins_with, switch_item, reading_of};
ghost use Rattle.swd_trace.specs.Decided.{IsDecided};
ghost use Rattle.swd_trace.specs.Spelled.{AreTraceTransactions};
ghost use Rattle.swd_trace.specs.Texts.{bits_of_items};

/// States what the tests of the reading mean. `stands` finds a whole transaction exactly where the first bits
/// spell it. It finds a beginning exactly where more bits make them spell a transaction. The same holds for
/// fifty ones, whole and partial, and for the whole switch.
pub fn tests_of_the_reading()
    ensures transaction { (bits : List Bool) (tx : Tx) (n : ℕ) → (stands bits ≡ Whole tx n)
        ↔ ((n ≤ length bits) × SpellsTx tx (take n bits)) }
    ensures begun { (bits : List Bool) → (stands bits ≡ Begun)
        ↔ ((tx : Tx) × (more : List Bool) × (more ≢ []) × SpellsTx tx (bits ++ more)) }
    ensures fifty { (bits : List Bool) → (nat_le 50 (trace_ones bits) ≡ true)
        ↔ ((more : List Bool) × (bits ≡ replicate 50 true ++ more)) }
    ensures fewer { (bits : List Bool) → ((nat_le 50 (trace_ones bits) ≡ false) × (trace_all_ones bits ≡ true))
        ↔ ((more : List Bool) × (more ≢ []) × (replicate 50 true ≡ bits ++ more)) }
    ensures switch { (bits : List Bool) → (trace_begins_with switch_item bits ≡ true)
        ↔ ((more : List Bool) × (bits ≡ switch_item ++ more)) }
{}

/// States that the same bits decide only one list of items.
pub fn one_list_is_decided()
    ensures { (bits : List Bool) (a b : List Item) → IsDecided bits a → IsDecided bits b → a ≡ b }
{}

/// States that the bits of a reading, turnarounds as 1, have that reading.
pub fn readings_are_read_again()
    ensures { (bits : List Bool) → reading_of (bits_of_items (reading_of bits)) ≡ reading_of bits }
{}

/// States that a sequence of acknowledged transactions is read as these transactions. Their bits never
/// contain fifty ones in a row.
pub fn transactions_are_read()
    ensures read { (txs : List Tx) (bits : List Bool) → AreTraceTransactions txs bits
        → reading_of bits ≡ map Item.Tx txs }
    ensures no_reset { (txs : List Tx) (bits front back : List Bool) → AreTraceTransactions txs bits
        → bits ≢ front ++ (replicate 50 true ++ back) }
{}
