//! The jobs of an image, for [`over_line`](swd_remote::over_line).
ghost use Rattle.std.specs.Prelude.{[]};
ghost use Rattle.swd_image_ends.specs.Came.{DumpCame, LoadCame, VerifyCame};
ghost use Rattle.swd_image_ends.specs.Pieces.{pieces_to_load};
ghost use Rattle.swd_run.specs.Wires.{run_story_wire};

use crate::pieces::{load_pieces, verify_pieces};
use std::alloc::Allocator;
use swd_image::{ByteDifference, CallReports, ImageFault, Limits, dump};
use swd_image_files::Image;
use swd_port::{Story, Tied, Transport, TransportWire};
use swd_remote::LineJob;

/// A load of the pieces of an image, by [`load_pieces`].
#[derive(Drop)]
pub struct LoadJob<'a, S, A: Allocator> {
    /// What the answers are allocated with.
    pub alloc: A,
    /// The image.
    pub image: &'a Image<A>,
    /// What each call may meet.
    pub limits: Limits,
    /// What gets the reports of the calls.
    pub report: S,
}

impl<'a, S: CallReports, A: Allocator + Copy> LineJob for LoadJob<'a, S, A> {
    type Answer = Result<(), ImageFault>;

    ghost came = { λ story old new answer calls. LoadCame (run_story_wire story) old.limits
        (pieces_to_load old.image.now) answer [] calls (S.held old.report) (S.held new.report) };

    fn perform<T: Transport, P: Story>(
        &mut self,
        wire: TransportWire<T, P, Tied>,
    ) -> (Result<(), ImageFault>, TransportWire<T, P, Tied>) {
        let mut wire = wire;
        let (image, limits) = (self.image, self.limits);
        let answer = load_pieces(self.alloc, &mut wire, image, limits, &mut self.report);
        (answer, wire)
    }
}

/// A verification of the pieces of an image, by [`verify_pieces`].
#[derive(Drop)]
pub struct VerifyJob<'a, S, A: Allocator> {
    /// What the answers are allocated with.
    pub alloc: A,
    /// The image.
    pub image: &'a Image<A>,
    /// What each call may meet.
    pub limits: Limits,
    /// What gets the reports of the calls.
    pub report: S,
}

impl<'a, S: CallReports, A: Allocator + Copy> LineJob for VerifyJob<'a, S, A> {
    type Answer = Result<Option<ByteDifference>, ImageFault>;

    ghost came = { λ story old new answer calls. VerifyCame (run_story_wire story) old.limits
        (pieces_to_load old.image.now) answer [] calls (S.held old.report) (S.held new.report) };

    fn perform<T: Transport, P: Story>(
        &mut self,
        wire: TransportWire<T, P, Tied>,
    ) -> (
        Result<Option<ByteDifference>, ImageFault>,
        TransportWire<T, P, Tied>,
    ) {
        let mut wire = wire;
        let (image, limits) = (self.image, self.limits);
        let answer = verify_pieces(self.alloc, &mut wire, image, limits, &mut self.report);
        (answer, wire)
    }
}

/// A dump of `count` bytes from `addr` on, by `swd_image::dump`.
#[derive(Drop)]
pub struct DumpJob<S, A: Allocator> {
    /// What the answers and the bytes are allocated with.
    pub alloc: A,
    /// The address of the first byte.
    pub addr: u32,
    /// How many bytes are read.
    pub count: u64,
    /// What each call may meet.
    pub limits: Limits,
    /// What gets the reports of the calls.
    pub report: S,
}

impl<S: CallReports, A: Allocator + Copy> LineJob for DumpJob<S, A> {
    type Answer = Result<Vec<u8, A>, ImageFault>;

    ghost came = { λ story old new answer calls. DumpCame (run_story_wire story) old.limits old.addr old.count
        answer (λ bytes. bytes.items) [] calls (S.held old.report) (S.held new.report) };

    fn perform<T: Transport, P: Story>(
        &mut self,
        wire: TransportWire<T, P, Tied>,
    ) -> (Result<Vec<u8, A>, ImageFault>, TransportWire<T, P, Tied>) {
        let mut wire = wire;
        let (addr, count, limits) = (self.addr, self.count, self.limits);
        let answer = dump(self.alloc, &mut wire, addr, count, limits, &mut self.report);
        (answer, wire)
    }
}
