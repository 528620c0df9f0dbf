//! The program's arguments as the system gives them.
use super::expect::{expect_eq, expect_eq_at};
use super::{DPIDR_LINE, Ran, Shelf, Still};
use linked_list_allocator::LocalHeap;
use std::alloc::{Allocator, Global};
use std::cell::Cell;
use std::io;
use std::io::ErrorKind;
use std::test::Fail;
use swd_commands::run_arguments;
use swd_console::Console;

// What comes of these arguments, where the list of words is allocated so.
fn ran_on<A: Allocator>(alloc: Global, list: A, arguments: io::Result<Vec<String>>) -> Ran {
    let mut output = Vec::new(alloc);
    let mut errors = Vec::new(alloc);
    let cuts = Cell::new(0);
    let shelf = Shelf {
        is_unknown: false,
        cuts: &cuts,
    };
    let mut console = Console {
        alloc,
        files: &shelf,
        clock: &Still,
        errors: &mut errors,
    };
    let status = run_arguments(
        list,
        arguments,
        &mut b"".as_slice(),
        &mut output,
        &mut console,
    );
    Ran {
        status,
        output,
        errors,
        cuts: cuts.get(),
    }
}

// `decode trace`, behind the program's name.
fn decode(alloc: Global) -> Result<Vec<String>, Fail> {
    let mut arguments = Vec::new(alloc);
    arguments.push(String::from_str(alloc, "decode")?)?;
    arguments.push(String::from_str(alloc, "trace")?)?;
    Ok(arguments)
}

const UNREAD: &[(ErrorKind, &[u8])] = &[
    (ErrorKind::OutOfMemory, b"swd: no memory\n"),
    (
        ErrorKind::InvalidData,
        b"swd: an argument is not UTF-8: rename the file, or link to it\n",
    ),
];

#[test]
fn arguments_that_are_not_read_are_a_fault(rt: HostRuntime) {
    for (kind, line) in UNREAD {
        let ran = ran_on(rt.alloc(), rt.alloc(), Err(io::Error::from(*kind)));
        expect_eq(&rt, &ran.errors.as_slice(), line);
        expect_eq(&rt, &ran.status, &2);
        assert!(rt; ran.output.is_empty());
    }
}

// The list of words on a heap of each size: the command is carried out, or out of memory is reported.
#[test]
fn arguments_where_memory_ends(rt: HostRuntime) -> Result<(), Fail> {
    let mut refused = 0usize;
    let mut whole = 0usize;
    for size in 1..40usize {
        let heap = LocalHeap::new(rt.alloc(), size * 8)?;
        let ran = ran_on(rt.alloc(), &heap, Ok(decode(rt.alloc())?));
        expect_eq(&rt, &heap.used(), &0);
        if ran.status == 0 {
            whole = whole.saturating_add(1);
            expect_eq_at(&rt, &size, &ran.output.as_slice(), &DPIDR_LINE);
            expect_eq_at(&rt, &size, &ran.errors.as_slice(), &b"".as_slice());
        } else {
            refused = refused.saturating_add(1);
            expect_eq_at(&rt, &size, &ran.status, &2);
            expect_eq_at(&rt, &size, &ran.output.as_slice(), &b"".as_slice());
            expect_eq_at(
                &rt,
                &size,
                &ran.errors.as_slice(),
                &b"swd: no memory\n".as_slice(),
            );
        }
    }
    // Three words are 48 bytes.
    assert!(rt; refused >= 48 / 8 - 1 && whole > 0);
    Ok(())
}
