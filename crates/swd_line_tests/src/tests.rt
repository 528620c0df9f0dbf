use swd_run::Limits;

mod expect;
mod faults;
mod images;
mod jobs;
mod memory_server;
mod pieces;
mod same_reports;
mod simulated;
mod stopped;

// Returns what each call may meet, if it may be resumed so often.
fn limits(resumes: u32) -> Limits {
    Limits {
        tries: 8,
        resumes,
        bursts: true,
    }
}
