//! The jobs of images over a served line.
use super::expect::expect_eq_at;
use super::limits;
use super::memory_server::{BASE, End, Untold};
use std::alloc::{AllocError, Global};
use std::test::Fail;
use swd_host::End as RunEnd;
use swd_image::{ByteDifference, ImageFault, NoReports};
use swd_image_ends::{DumpJob, LoadJob, VerifyJob, over_line};
use swd_image_files::{Image, Range};
use swd_remote::{Line as Ends, RemoteStreams};

type Line<'a> = RemoteStreams<End<'a>, End<'a>>;

/// An image of one piece.
pub(super) fn piece_of(
    alloc: Global,
    addr: u32,
    bytes: &[u8],
) -> Result<Image<Global>, AllocError> {
    let mut image = Image {
        ranges: Vec::new(alloc),
        bytes: Vec::new(alloc),
    };
    let len = bytes.len();
    image.ranges.push(Range { addr, len })?;
    image.bytes.extend_from_slice(bytes)?;
    Ok(image)
}

/// A load, which writes no report.
pub(super) fn load_over<'a>(
    alloc: Global,
    end: End<'a>,
    image: &Image<Global>,
    resumes: u32,
) -> (Result<(), ImageFault>, Line<'a>) {
    let mut job = LoadJob {
        alloc,
        image,
        limits: limits(resumes),
        report: NoReports,
    };
    over_line::<Untold, _, _, _>(&mut job, Ends::characters(end, end))
}

/// A verification.
pub(super) fn verify_over<'a>(
    alloc: Global,
    end: End<'a>,
    image: &Image<Global>,
) -> (Result<Option<ByteDifference>, ImageFault>, Line<'a>) {
    let mut job = VerifyJob {
        alloc,
        image,
        limits: limits(0),
        report: NoReports,
    };
    over_line::<Untold, _, _, _>(&mut job, Ends::characters(end, end))
}

/// A dump.
pub(super) fn dump_over<'a>(
    alloc: Global,
    end: End<'a>,
    addr: u32,
    count: u64,
) -> (Result<Vec<u8>, ImageFault>, Line<'a>) {
    let mut job = DumpJob {
        alloc,
        addr,
        count,
        limits: limits(0),
        report: NoReports,
    };
    over_line::<Untold, _, _, _>(&mut job, Ends::characters(end, end))
}

// WAIT at the first request, or OK and 33 zeros.
const WAITS: &[u8] = b"010";

const ZEROS: &[u8] = b"100000000000000000000000000000000000";

// The fault of a job over these levels, and what the report has.
fn ended_by(
    alloc: Global,
    job: &str,
    levels: &[u8],
) -> Result<(Option<ImageFault>, Vec<u8>), Fail> {
    let image = piece_of(alloc, BASE + 1, b"12345")?;
    let image = &image;
    let limits = limits(1);
    let report = Some(Vec::new(alloc));
    let mut sent = Vec::new(alloc);
    let (fault, report) = match job {
        "load" => {
            let mut job = LoadJob {
                alloc,
                image,
                limits,
                report,
            };
            let (answer, _) = over_line::<Untold, _, _, _>(
                &mut job,
                Ends::characters(levels, &mut sent),
            );
            (answer.err(), job.report)
        }
        "verify" => {
            let mut job = VerifyJob {
                alloc,
                image,
                limits,
                report,
            };
            let (answer, _) = over_line::<Untold, _, _, _>(
                &mut job,
                Ends::characters(levels, &mut sent),
            );
            (answer.err(), job.report)
        }
        _ => {
            let (addr, count) = (BASE + 1, 5);
            let mut job = DumpJob {
                alloc,
                addr,
                count,
                limits,
                report,
            };
            let (answer, _) = over_line::<Untold, _, _, _>(
                &mut job,
                Ends::characters(levels, &mut sent),
            );
            (answer.err(), job.report)
        }
    };
    match report {
        Some(text) => Ok((fault, text)),
        None => Err(Fail::from("no report")),
    }
}

const JOBS: &[&str] = &["load", "verify", "dump"];

const BROKEN: &[(&[u8], RunEnd, &[u8])] = &[
    (WAITS, RunEnd::Confused, b"end confused 0 begun 0\n"),
    (ZEROS, RunEnd::WrongId(0), b"end id 00000000\n"),
];

// The read of DPIDR is answered WAIT, or its word isn't an identification. There is no level for a further request.
#[test]
fn a_job_stops_where_the_target_breaks_the_protocol(rt: HostRuntime) -> Result<(), Fail> {
    for job in JOBS {
        for (levels, end, line) in BROKEN {
            let (fault, report) = ended_by(rt.alloc(), job, levels)?;
            expect_eq_at(&rt, job, &fault, &Some(ImageFault::Stopped(*end)));
            expect_eq_at(&rt, job, &report.as_slice(), line);
        }
    }
    Ok(())
}
