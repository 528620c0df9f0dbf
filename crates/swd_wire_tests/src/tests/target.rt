//! The tables over each simulated target.
use super::bench_steps::{Step, failing, make};
use super::expect::{expect_at, expect_eq_at};
use super::tables::{MARKED, ROWS, Row};
use std::alloc::Global;
use std::process::Abort;
use swd_clocked::ClockedBench;
use swd_port::Register;
use swd_simulated::{FILLER, Simulated};
use swd_target::{Bench, Mark, Memory, Quirks};

// A target just made for this row goes as its steps say, and so with each choice for late transfers.
fn goes<W: Simulated + Drop, R: Abort>(rt: &R, alloc: Global, row: &Row) {
    for late in row.late {
        let quirks = Quirks {
            wrap: row.wrap,
            late: *late,
            filler: FILLER,
            idr: None,
        };
        match make::<W>(alloc, row.words, quirks, row.marks) {
            Some(mut wire) => {
                for (piece, steps) in row.steps.iter().enumerate() {
                    let failing = failing(&mut wire, steps);
                    expect_eq_at(rt, &(row.name, *late, piece), &failing, &None);
                }
            }
            None => expect_at(rt, &row.name, false),
        }
    }
}

fn goes_over_each<R: Abort>(rt: &R, alloc: Global, row: &Row) {
    goes::<Bench<Memory>, R>(rt, alloc, row);
    goes::<ClockedBench<Memory>, R>(rt, alloc, row);
}

#[test]
fn each_simulated_target_goes_as_the_tables_say(rt: HostRuntime) {
    for row in ROWS {
        goes_over_each(&rt, rt.alloc(), row);
    }
    for marked in MARKED {
        let marks = [
            Mark::Clean,
            Mark::Clean,
            Mark::Clean,
            Mark::Clean,
            Mark::Clean,
            marked.mark,
        ];
        let before = [
            Step::Up,
            Step::Write(Register::TarWrite, marked.addr),
            Step::Write(Register::DrwWrite, 0x0000_0001),
        ];
        let row = Row {
            name: marked.name,
            wrap: true,
            late: &[marked.late],
            words: 16,
            marks: &marks,
            steps: &[&before, marked.steps],
        };
        goes_over_each(&rt, rt.alloc(), &row);
    }
}
