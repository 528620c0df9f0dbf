//! An image that is loaded over a line of remote_bitbang characters.
ghost use Rattle.std.specs.FinMap.{empty};
ghost use Rattle.std.specs.Prelude.{[]};
ghost use Rattle.swd_port.specs.PlainBus.{bus_of};
ghost use Rattle.swd_port.specs.Made.{port_made};

use std::alloc::Global;
use std::io::{Read, Write};
use swd_image::{ImageFault, Limits, NoReports};
use swd_image_ends::{LoadJob, over_line};
use swd_image_files::Image;
use swd_port::Story;
use swd_remote::{Line, RemoteStreams};

// An instance of `Story`. Which one is irrelevant: the contract of the call is proved for each.
struct Untold;

impl Story for Untold {
    ghost at = { λ _. port_made 0 (bus_of (record { words = empty; log = []; room = 0 })) };
}

/// Loads the pieces of an image, at the target behind a server of remote_bitbang: a reader of levels and a writer of
/// characters. Returns the connection too, with the error that ended it, if any.
pub fn flash<R: Read, W: Write>(
    alloc: Global,
    levels: R,
    characters: W,
    image: &Image<Global>,
) -> (Result<(), ImageFault>, RemoteStreams<R, W>) {
    let mut job = LoadJob {
        alloc,
        image,
        limits: Limits {
            tries: 8,
            resumes: 0,
            bursts: true,
        },
        report: NoReports,
    };
    over_line::<Untold, _, _, _>(&mut job, Line::characters(levels, characters))
}
