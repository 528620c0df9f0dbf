//! Opens and truncates the files that a run writes beside its report, and says how far the run is.
ghost use Rattle.std.specs.Prelude.{◌≡◌, IfErr, IfOk, is_some, true};
ghost use Rattle.swd_run_commands.specs.Runs.{run_command_names_file};

use std::io::Write;
use swd_capture_text::AccessesPrinter;
use swd_command_line::RunLine;
use swd_console::{Console, Files, InUse, Pace, Watched, WriteRole, cut_off_named, give_up_named};
use swd_run::Records;

/// Opens the files that a run writes beside its report, as far as they are named. `made` says that the target begins in
/// its reset state. At an error it prints a line and returns the status 2.
pub(crate) fn open_records<A, F: Files, C, E: Write>(
    run: &RunLine,
    made: bool,
    in_use: &mut InUse,
    console: &mut Console<'_, A, F, C, E>,
) -> Result<Records<Watched<F::Made>, AccessesPrinter>, u8>
    ensures ok { IfOk result (λ records. (is_some records.trace ≡ is_some run.now.trace)
        × (is_some records.accesses ≡ is_some run.now.accesses) × (records.printer.made ≡ made)) }
    ensures err { IfErr result (λ status. (status ≡ 2) × (run_command_names_file run.now ≡ true)) }
{
    let trace = match in_use.open_named(&run.trace, WriteRole::Trace, console) {
        Ok(trace) => trace,
        Err(status) => return Err(status),
    };
    match in_use.open_named(&run.accesses, WriteRole::Accesses, console) {
        Ok(accesses) => Ok(Records {
            trace,
            accesses,
            printer: AccessesPrinter { made },
            progress: (),
        }),
        Err(status) => {
            give_up_named(&run.trace, trace, console);
            Err(status)
        }
    }
}

/// Truncates these files once the run's texts are read: until then they have what they had. At an error it prints a
/// line and returns the status 2.
pub(crate) fn cut_off_records<A, F: Files, C, E: Write>(
    run: &RunLine,
    records: &Records<Watched<F::Made>, AccessesPrinter>,
    console: &mut Console<'_, A, F, C, E>,
) -> Result<(), u8>
    ensures { IfErr result (λ status. (status ≡ 2) × (run_command_names_file run.now ≡ true)) }
{
    if let Err(status) = cut_off_named(&run.trace, &records.trace, console) {
        return Err(status);
    }
    cut_off_named(&run.accesses, &records.accesses, console)
}

/// Gives up these files, of which none was written: one that was created for the run is removed, and any other has what
/// it had.
pub(crate) fn give_up_records<A, F: Files, C, E>(
    run: &RunLine,
    records: Records<Watched<F::Made>, AccessesPrinter>,
    console: &Console<'_, A, F, C, E>,
) {
    let Records {
        trace,
        accesses,
        ..
    } = records;
    give_up_named(&run.trace, trace, console);
    give_up_named(&run.accesses, accesses, console);
}

/// Returns these files, and what says on standard error how far the run is, if the arguments ask for that.
pub(crate) fn paced<'a, T, I, E, C>(
    run: &RunLine,
    records: Records<T, I>,
    errors: &'a mut E,
    clock: &'a C,
) -> Records<T, I, Pace<'a, E, C>>
    ensures trace { result.trace ≡ records.trace }
    ensures accesses { result.accesses ≡ records.accesses }
    ensures printer { result.printer ≡ records.printer }
{
    records.with_progress(Pace::new(run.progress, "accesses", errors, clock))
}
