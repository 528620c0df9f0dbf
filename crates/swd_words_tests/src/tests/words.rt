//! What words ask for, and what is said of words that ask for nothing: a row for each, with its words apart by `|`.
use std::alloc::{AllocError, Global};
use std::test::Fail;
use swd_command_line::{CommandLine, ImageAction, ImageLine, ProbeLine, RunLine};
use swd_words::{LineFault, line};

fn named(name: &Option<String>) -> &str {
    match name {
        Some(name) => name.as_str(),
        None => "none",
    }
}

fn bursts_shown(bursts: bool) -> &'static str {
    if bursts { " bursts" } else { "" }
}

fn probe_shown(alloc: Global, probe: Option<ProbeLine>) -> Result<String, AllocError> {
    match probe {
        Some(ProbeLine { speed, framed }) => format!(in alloc; " probe {speed} {framed}"),
        None => format!(in alloc; ""),
    }
}

fn run_shown(alloc: Global, run: &RunLine) -> Result<String, AllocError> {
    let probe = probe_shown(alloc, run.probe)?;
    format!(in alloc;
        "run {} {} {} {} {} {} {} {} {}{}{}",
        run.script,
        named(&run.plan),
        run.tries,
        run.resumes,
        named(&run.trace),
        named(&run.accesses),
        run.strict,
        run.progress,
        named(&run.remote),
        bursts_shown(run.bursts),
        probe
    )
}

fn image_shown(alloc: Global, image: &ImageLine) -> Result<String, AllocError> {
    let (verb, count) = match image.action {
        ImageAction::Load => ("load", 0),
        ImageAction::Verify => ("verify", 0),
        ImageAction::Dump(count) => ("dump", count),
    };
    match &image.memory {
        Some(memory) => format!(in alloc;
            "{verb} {count} {} {} {:x} {}",
            image.check,
            memory.file,
            memory.base,
            named(&memory.plan)
        ),
        None => format!(in alloc;
            "{verb} {count} {}{}",
            image.check,
            bursts_shown(image.bursts)
        ),
    }
}

fn shown(alloc: Global, line: &CommandLine) -> Result<String, AllocError> {
    match line {
        CommandLine::One(file) => format!(in alloc; "one {}", named(file)),
        CommandLine::Decode(decode) => format!(in alloc; "decode {}", named(&decode.file)),
        CommandLine::Encode(file) => format!(in alloc; "encode {}", named(file)),
        CommandLine::Run(run) => run_shown(alloc, run),
        CommandLine::Image(image) => image_shown(alloc, image),
        CommandLine::Probes => format!(in alloc; "probes"),
        _ => format!(in alloc; "another"),
    }
}

// An answer as text. What `clap` says stands below a line `clap`.
fn said(alloc: Global, answer: &Result<CommandLine, LineFault>) -> Result<String, AllocError> {
    match answer {
        Ok(line) => shown(alloc, line),
        Err(LineFault::Clap(error)) => format!(in alloc; "clap\n{error}"),
        Err(LineFault::Memory) => Err(AllocError),
    }
}

// What words come to, as text. It owns the answer and has one way out, since each further one costs the gate seconds.
fn told(alloc: Global, words: &[&str]) -> Result<String, AllocError> {
    let answer = line(alloc, words);
    said(alloc, &answer)
}

// Whether what `clap` says is what a row wants.
fn is_said(said: &str, wanted: &str) -> bool {
    let (how, text) = wanted.split_once(" ").unwrap_or((wanted, ""));
    let text = text.strip_suffix("|").unwrap_or(text);
    let mut lines = said.split('\n');
    match how {
        "refused" => true,
        "ends" => lines.any(|line| line.ends_with(text)),
        "begins" => lines.any(|line| line.trim_start().starts_with(text)),
        "narrow" => lines.all(|line| line.len() <= 80),
        _ => false,
    }
}

// Whether a text is the one that a row wants.
fn is_wanted(found: &str, wanted: &str) -> bool {
    match found.strip_prefix("clap\n") {
        Some(said) => is_said(said, wanted),
        None => found == wanted,
    }
}

// The words, ` => `, and what the row wants, which is one of these:
//
//   one|decode|encode FILE
//   run SCRIPT PLAN TRIES RESUMES TRACE ACCESSES STRICT PROGRESS REMOTE [bursts]
//   load|verify|dump BYTES CHECK [bursts] [MEMORY BASE PLAN]    BYTES is 0 but for a dump
//   refused         the words ask for nothing, whatever `clap` says
//   ends TEXT       a line of what it says ends with TEXT
//   begins TEXT|    a line of it begins with TEXT, behind blanks
//   narrow          each line of it has at most 80 columns
const ROWS: &str = "\
# A number below 0 is refused for its range, as one that is too large is.
swd|run|script|--tries|-1 => ends is not in 0..=1000
swd|run|script|--tries=-1 => ends is not in 0..=1000
swd|run|script|--tries=1001 => ends is not in 0..=1000
swd|run|script|--resume|-1 => ends is not in 0..=1000
swd|run|script|--resume=-1 => ends is not in 0..=1000
swd|run|script|--resume=1001 => ends is not in 0..=1000
swd|load|0|image|--remote|--tries|-1 => ends is not in 0..=1000
swd|verify|0|image|--remote|--tries=1001 => ends is not in 0..=1000
swd|dump|0|1|image|--remote|--resume=-1 => ends is not in 0..=1000
swd|dump|--tries|-1 => ends is not in 0..=1000
swd|draw|--items|-1 => ends is not in 1..=1000
swd|draw|--items=-1 => ends is not in 1..=1000
swd|draw|--items=0 => ends is not in 1..=1000
swd|draw|--items=1001 => ends is not in 1..=1000
# Each help stays within 80 columns, and that of a run names each line of scripts, plans and reports.
swd|--help => narrow
swd|run|--help => narrow
swd|one|--help => narrow
swd|decode|--help => narrow
swd|encode|--help => narrow
swd|target|--help => narrow
swd|probe|--help => narrow
swd|draw|--help => narrow
swd|check|--help => narrow
swd|conform|--help => narrow
swd|info|--help => narrow
swd|load|--help => narrow
swd|verify|--help => narrow
swd|dump|--help => narrow
swd|core|--help => narrow
swd|probes|--help => narrow
swd|run|--help => begins memory |
swd|run|--help => begins room |
swd|run|--help => begins w ADDR VALUE |
swd|run|--help => begins r ADDR |
swd|run|--help => begins rn |
swd|run|--help => begins block |
swd|run|--help => begins verify ADDR VALUE |
swd|run|--help => begins until ADDR MASK VALUE N|
swd|run|--help => begins next |
swd|run|--help => begins . |
swd|run|--help => begins wait |
swd|run|--help => begins flip |
swd|run|--help => begins deaf |
swd|run|--help => begins mute |
swd|run|--help => begins r ADDR WORD |
swd|run|--help => begins w ADDR written |
swd|run|--help => begins r ADDR busfault |
swd|run|--help => begins w ADDR busfault |
swd|run|--help => begins resume K begun B |
swd|run|--help => begins end all |
swd|run|--help => begins end until K |
swd|run|--help => begins end lost |
swd|run|--help => begins end tries |
swd|run|--help => begins end id |
swd|run|--help => begins end confused |
swd|run|--help => begins word |
swd|run|--help => begins number |
swd|run|--help => begins range |
swd|run|--help => begins no memory line |
swd|run|--help => begins memory  |
swd|run|--help => begins --plan |
swd|run|--help => begins --tries |
swd|run|--help => begins --resume |
swd|run|--help => begins --trace |
swd|run|--help => begins --accesses |
swd|run|--help => begins --strict |
swd|run|--help => begins --remote |
swd|run|--help => begins --report |
swd|run|--help => begins --progress |
swd|run|--help => begins --check |
swd|run|--help => begins --bursts |
swd|load|--help => begins --report |
swd|load|--help => begins --check |
swd|load|--help => begins --bursts |
swd|verify|--help => begins --report |
swd|verify|--help => begins --check |
swd|dump|--help => begins --report |
swd|dump|--help => begins --check |
# Words with and without a file.
swd|one => one none
swd|one|a => one a
swd|decode => decode none
swd|decode|a => decode a
swd|encode => encode none
swd|encode|a => encode a
# A number of bytes is decimal, with k or M or without, or hexadecimal behind 0x, and below 2^32.
swd|dump|0|0|file|--remote => dump 0 false
swd|dump|0|65536|file|--remote => dump 65536 false
swd|dump|0|4294967295|file|--remote => dump 4294967295 false
swd|dump|0|4294967296|file|--remote => refused
swd|dump|0|64k|file|--remote => dump 65536 false
swd|dump|0|0k|file|--remote => dump 0 false
swd|dump|0|4194303k|file|--remote => dump 4294966272 false
swd|dump|0|4194304k|file|--remote => refused
swd|dump|0|1M|file|--remote => dump 1048576 false
swd|dump|0|4095M|file|--remote => dump 4293918720 false
swd|dump|0|4096M|file|--remote => refused
swd|dump|0|0x100|file|--remote => dump 256 false
swd|dump|0|0XFfff|file|--remote => dump 65535 false
swd|dump|0|0xffffffff|file|--remote => dump 4294967295 false
swd|dump|0|0x100000000|file|--remote => refused
swd|dump|0|0x|file|--remote => refused
swd|dump|0|0x1k|file|--remote => refused
swd|dump|0|100|file|--remote => dump 100 false
swd|dump|0|ff|file|--remote => refused
swd|dump|0|64K|file|--remote => refused
swd|dump|0|1m|file|--remote => refused
swd|dump|0|1.5k|file|--remote => refused
swd|dump|0|k|file|--remote => refused
swd|dump|0||file|--remote => refused
swd|dump|0|1kk|file|--remote => refused
swd|dump|0|1 k|file|--remote => refused
# The arguments of a run.
swd|run|s|--plan|p => run s p 8 0 none none false false none
swd|run|s|--plan|p|--trace|t|--accesses|a => run s p 8 0 t a false false none
swd|run|--strict|s => run s none 8 0 none none true false none
swd|run|s|--progress => run s none 8 0 none none false true none
swd|run|s|--remote|--report|r|--bursts => run s none 8 0 none none false false - bursts
swd|run|s|--bursts => run s none 8 0 none none false false none bursts
swd|run|s|--tries|0 => run s none 0 0 none none false false none
swd|run|s|--resume|0 => run s none 8 0 none none false false none
swd|run|s|--tries|3 => run s none 3 0 none none false false none
swd|run|s|--resume|3 => run s none 8 3 none none false false none
swd|run|s|--tries|1000 => run s none 1000 0 none none false false none
swd|run|s|--resume|1000 => run s none 8 1000 none none false false none
swd|run|s|--tries|1001 => refused
swd|run|s|--resume|1001 => refused
swd|run|s|--tries|-1 => refused
swd|run|s|--resume|-1 => refused
swd|run|s|--tries|x => refused
swd|run|s|--resume|x => refused
swd|run|s|--tries| => refused
swd|run|s|--resume| => refused
swd|run|s|--tries|5|--resume|7 => run s none 5 7 none none false false none
# What leads to the target of a run: the standard streams where `--remote` stands alone, whatever follows it. After
# `--` there are no options.
swd|run|--report|r|--remote|s => run s none 8 0 none none false false -
swd|run|--report|r|s|--remote => run s none 8 0 none none false false -
swd|run|--report|r|--remote=-|s => run s none 8 0 none none false false -
swd|run|--report|r|--remote=in,out|s => run s none 8 0 none none false false in,out
swd|run|--report|r|--remote=/dev/ttyACM0|s => run s none 8 0 none none false false /dev/ttyACM0
swd|run|--report|r|--remote|--|--remote => run --remote none 8 0 none none false false -
swd|info => refused
swd|info|--|--remote => refused
swd|info|--remote|in,out => refused
swd|info|--remote|--remote=a => refused
# What leads to a probe, in place of a server: with its frequency, and whether packets have their length before them.
swd|run|--report|r|--probe=/dev/hidraw0|s => run s none 8 0 none none false false /dev/hidraw0 probe 1000000 false
swd|run|--report|r|--probe|a,b|--speed|9|--framed|s => run s none 8 0 none none false false a,b probe 9 true
swd|run|--report|r|--probe=f|--speed=4294967295|s => run s none 8 0 none none false false f probe 4294967295 false
swd|run|--report|r|--probe=f|--speed|0|s => refused
swd|run|--report|r|--probe=f|--speed|4294967296|s => refused
swd|run|--report|r|--probe=f|--speed|1M|s => refused
swd|run|--report|r|--remote|--speed|1|s => refused
swd|run|--report|r|--remote|--framed|s => refused
swd|run|--report|r|--remote|--probe=f|s => refused
swd|run|--probe=f|s => refused
swd|run|--report|r|--probe=f|--plan|p|s => refused
swd|run|--report|r|--probe|--framed|s => refused
swd|load|0|image|--probe=f|--check => load 0 true
swd|load|0|image|--probe=f|--memory|m => refused
swd|dump|0|1|image|--memory|m|--speed|1 => refused
swd|info|--probe=f => another
swd|info|--framed => refused
swd|conform|--probe=f|--plain|20000000|80 => another
swd|probes => probes
swd|probes|x => refused
# No command.
swd|two => refused
swd => refused
swd|one|a|b => refused
swd|one|--tries|3 => refused
swd|run => refused
swd|run|a|b => refused
swd|run|a|--plan => refused
swd|run|a|--trace => refused
swd|run|a|--accesses => refused
swd|run|a|--strict=yes => refused
swd|run|a|--progress=yes => refused
swd|run|a|--bursts=yes => refused
swd|load|0|a|--remote|--check=yes => refused
# Only a remote session is checked, and only with `--check`.
swd|load|0|image|--remote => load 0 false
swd|load|0|image|--remote|--check => load 0 true
swd|load|0|image|--check|--remote => load 0 true
swd|load|0|image|--remote=in,out|--check => load 0 true
swd|load|0|image|--remote|--progress => load 0 false
swd|load|0|image|--remote|--bursts => load 0 false bursts
swd|load|0|image|--memory|ram => load 0 false ram 20000000 none
swd|load|0|image|--memory|ram|--check => refused
swd|load|0|image|--check => refused
swd|load|0|image|--remote|--memory|ram|--check => refused
swd|verify|0|image|--remote => verify 0 false
swd|verify|0|image|--remote|--check => verify 0 true
swd|verify|0|image|--check|--remote => verify 0 true
swd|verify|0|image|--remote=in,out|--check => verify 0 true
swd|verify|0|image|--remote|--progress => verify 0 false
swd|verify|0|image|--remote|--bursts => refused
swd|verify|0|image|--memory|ram => verify 0 false ram 20000000 none
swd|verify|0|image|--memory|ram|--check => refused
swd|verify|0|image|--check => refused
swd|verify|0|image|--remote|--memory|ram|--check => refused
swd|dump|0|4|to|--remote => dump 4 false
swd|dump|0|4|to|--remote|--check => dump 4 true
swd|dump|0|4|to|--check|--remote => dump 4 true
swd|dump|0|4|to|--remote=in,out|--check => dump 4 true
swd|dump|0|4|to|--remote|--progress => dump 4 false
swd|dump|0|4|to|--remote|--bursts => refused
swd|dump|0|4|to|--memory|ram => dump 4 false ram 20000000 none
swd|dump|0|4|to|--memory|ram|--check => refused
swd|dump|0|4|to|--check => refused
swd|dump|0|4|to|--remote|--memory|ram|--check => refused
# The address of a memory, and the file of its plan.
swd|load|1|image|--memory|ram|--base|0 => load 0 false ram 0 none
swd|load|1|image|--memory|ram|--base|0x20000004 => load 0 false ram 20000004 none
swd|load|1|image|--memory|ram|--base|FFFFFFFC => load 0 false ram fffffffc none
swd|load|1|image|--memory|ram|--base|2 => refused
swd|load|1|image|--memory|ram|--base|ffffffff => refused
swd|load|1|image|--memory|ram|--base|123456789 => refused
swd|load|1|image|--memory|ram|--base| => refused
swd|load|1|image|--memory|ram|--base|base => refused
swd|dump|1|2|to|--plan|p|--memory|ram => dump 2 false ram 20000000 p";

#[test]
fn words_come_to_what_their_row_says(rt: HostRuntime) -> Result<(), Fail> {
    for row in ROWS.lines().filter(|row| !row.starts_with("# ")) {
        let (words, wanted) = row.split_once(" => ").ok_or("no row")?;
        let words: Vec<&str> = words.split('|').collect(rt.alloc())?;
        let found = told(rt.alloc(), words.as_slice())?;
        assert!(rt; is_wanted(found.as_str(), wanted), "{row}");
    }
    Ok(())
}
