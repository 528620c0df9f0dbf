//! What a command does with the pieces of an image.
ghost use Rattle.std.specs.Prelude.{◌≡◌, []};
ghost use Rattle.swd_port.specs.declared.wire.Due.TheVariants.{Nothing};
ghost use Rattle.swd_image_ends.specs.Pieces.{pieces_to_load};
ghost use Rattle.swd_run.specs.Wires.{run_story_wire};
ghost use Rattle.swd_image_commands.specs.Pieces.{PiecesCame, pieces_all_loaded};

use std::alloc::Allocator;
use swd_image::{ByteDifference, CallReports, ImageFault, Limits};
use swd_image_ends::{load_pieces, verify_pieces};
use swd_image_files::Image;
use swd_port::{Story, Tied, Transport, TransportWire, Wire};
use swd_remote::LineJob;

/// What a command does with the pieces of an image.
#[derive(Clone, Copy)]
pub(crate) enum PiecesAction {
    /// It loads them.
    Load,
    /// It compares the memory with them.
    Verify,
}

/// The calls of a command for the pieces of an image.
#[derive(Drop)]
pub(crate) struct PiecesJob<'a, S, A: Allocator> {
    /// What the answers are allocated with.
    pub(crate) alloc: A,
    pub(crate) action: PiecesAction,
    pub(crate) whole: &'a Image<A>,
    /// What each call may meet.
    pub(crate) limits: Limits,
    /// What gets the reports of the calls.
    pub(crate) report: S,
}

// Returns the answer of a load, in which no byte differs.
fn all_loaded(answer: Result<(), ImageFault>) -> Result<Option<ByteDifference>, ImageFault>
    ensures { result ≡ pieces_all_loaded answer }
{
    match answer {
        Ok(()) => Ok(None),
        Err(fault) => Err(fault),
    }
}

impl<'a, S: CallReports, A: Allocator + Copy> PiecesJob<'a, S, A> {
    /// Makes the calls over a wire on which nothing is due. Returns the first byte that differs, if one does.
    ///
    /// # Errors
    ///
    /// Returns the error of the first piece that fails.
    pub(crate) fn make_calls<W: Wire>(
        &mut self,
        wire: &mut W,
    ) -> Result<Option<ByteDifference>, ImageFault>
        requires { (W.port wire.old).link.due ≡ Nothing }
        ensures came { PiecesCame W.Wire self.old.limits self.old.action (pieces_to_load self.old.whole.now) result
            wire.old wire.new (S.held self.old.report) (S.held self.new.report) }
        ensures plan { W.plan wire.new ≡ W.plan wire.old }
    {
        let (alloc, whole, limits) = (self.alloc, self.whole, self.limits);
        match self.action {
            PiecesAction::Load => {
                all_loaded(load_pieces(alloc, wire, whole, limits, &mut self.report))
            }
            PiecesAction::Verify => verify_pieces(alloc, wire, whole, limits, &mut self.report),
        }
    }
}

impl<'a, S: CallReports, A: Allocator + Copy> LineJob for PiecesJob<'a, S, A> {
    type Answer = Result<Option<ByteDifference>, ImageFault>;

    ghost came = { λ story old new answer calls. PiecesCame (run_story_wire story) old.limits old.action
        (pieces_to_load old.whole.now) answer [] calls (S.held old.report) (S.held new.report) };

    fn perform<T: Transport, P: Story>(
        &mut self,
        wire: TransportWire<T, P, Tied>,
    ) -> (
        Result<Option<ByteDifference>, ImageFault>,
        TransportWire<T, P, Tied>,
    ) {
        let mut wire = wire;
        let answer = self.make_calls(&mut wire);
        (answer, wire)
    }
}
