//! The bits of a trace text, up to the length of one transaction.
ghost use Rattle.std.specs.Prelude.{◌≡◌, ◌≤◌};
ghost use Rattle.swd_bits.specs.BitLists.{IsWellFormedTxBits};

use crate::scan::{Scan, Sign};
use crate::tx::MOVED_BITS;
use crate::tx_bits::TxBits;
use swd_io::Consumer;

// The bits of the input so far, up to the length of a transaction.
#[derive(Clone, Copy)]
pub(crate) struct Gathered {
    pub(crate) scan: Scan,
    pub(crate) held: TxBits,
    pub(crate) long: bool,
    // The number of bytes taken, saturating at 2^64 - 1.
    place: u64,
    ghost whole: { IsWellFormedTxBits held },
    ghost short: { held.len ≤ 46 },
}

impl Gathered {
    ghost use Rattle.std.specs.Prelude.{◌≡◌, ℕ, List, [], ◌∷◌, ◌++◌, length, IsTrue, IsFalse};
    ghost use Rattle.swd_bits.specs.One.{GathersTxBits, GatheredTxHasRead, IsFirstBadScanByte};

    pub(crate) fn new() -> Gathered
        ensures { GatheredTxHasRead tt (result, tt) [] }
    {
        Gathered {
            scan: Scan::new(),
            held: TxBits { len: 0, bits: 0 },
            long: false,
            place: 0,
        }
    }

    // Takes a byte. Returns false if the byte isn't allowed here.
    pub(crate) fn byte(&mut self, byte: u8) -> bool
        ensures good { IsTrue result → (seen : List ℕ) → GathersTxBits seen self.old
            → GathersTxBits (seen ++ byte ∷ []) self.new }
        ensures place { self.new.place ≡ self.old.place }
        ensures bad { IsFalse result → (seen : List ℕ) → GathersTxBits seen self.old
            → (more : List ℕ) → IsFirstBadScanByte (seen ++ byte ∷ more) (length seen) }
    {
        match self.scan.byte(byte) {
            Sign::Passed => true,
            Sign::Bad => false,
            Sign::Bit(bit) => {
                if self.held.len < MOVED_BITS {
                    self.held = self.held.then(TxBits::one(bit));
                } else {
                    self.long = true;
                }
                true
            }
        }
    }
}

impl Consumer<()> for Gathered {
    ghost use Rattle.swd_io.specs.Pieces.{LeadsConsumerOn, LeadsConsumerToEnd};
    ghost use Rattle.swd_io.proofs.PieceLemmas.{consumer_reads_no_byte, consumer_pieces_join, consumer_pieces_fault};
    ghost use Rattle.swd_bits.specs.One.{GatheredTxHasRead, ReportsBadScanLater};

    // The place of the first byte that isn't allowed, saturating at 2^64 - 1.
    type Fault = u64;

    ghost can_take = { λ _. Unit {0} };

    ghost takes = { LeadsConsumerOn GatheredTxHasRead };

    ghost stops = { LeadsConsumerToEnd GatheredTxHasRead ReportsBadScanLater };

    fn take(&mut self, _writer: &mut (), piece: &[u8]) -> Result<(), u64> {
        for (index, byte) in piece.iter().enumerate() {
            if !self.byte(*byte) {
                return Err(self.place.saturating_add(index as u64));
            }
        }
        self.place = self.place.saturating_add(piece.len() as u64);
        Ok(())
    }

    ghost takes_nothing = { consumer_reads_no_byte GatheredTxHasRead };

    ghost takes_on = { consumer_pieces_join GatheredTxHasRead };

    ghost stops_later = { consumer_pieces_fault GatheredTxHasRead ReportsBadScanLater };
}
