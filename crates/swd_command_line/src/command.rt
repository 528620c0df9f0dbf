//! The commands of the command line.
ghost use Rattle.std.specs.Prelude.{◌≡◌, ◌%◌};

use swd_core::CoreAction;
use swd_image_files::{ElfChoice, Format};

/// A command of the program, with its arguments.
#[derive(Drop)]
pub enum CommandLine {
    /// `swd one [FILE]`. Without a file it reads standard input.
    One(Option<String>),
    /// `swd decode [FILE] [--places] [--names]`, `swd decode [FILE] --count`, or
    /// `swd decode [FILE] --accesses [--made | --rest]`. Each takes `--resync [--overrun]` too.
    Decode(DecodeLine),
    /// `swd draw [FILE] [--items N] [--names] [--resync [--overrun]]`.
    Draw(DrawLine),
    /// `swd check [FILE] [--made | --rest] [--clean] [--plain BASE WORDS].. [--exact-registers] [--resync]
    /// [--overrun]`.
    Check(CheckLine),
    /// `swd encode [FILE]`. Without a file it reads standard input.
    Encode(Option<String>),
    /// `swd run SCRIPT [--plan FILE]` or `swd run SCRIPT --remote[=IN,OUT] --report FILE [--check]`. Both take
    /// `[--tries N] [--resume N] [--trace FILE] [--accesses FILE] [--strict] [--progress]` too.
    Run(RunLine),
    /// `swd target MEMORY [--plan FILE] [--log FILE] [--trace FILE] [--idr WORD] [--buffer]`. MEMORY is SCRIPT or
    /// `--memory FILE [--base ADDR]`. `swd probe` takes the same, and `[--size N]`.
    Target(TargetLine),
    /// `swd info --remote[=IN,OUT] [--tries N]`.
    Info(InfoLine),
    /// `swd core ACTION [NAME..] [--halt] --remote[=IN,OUT] [--tries N] [--resume N] [--trace FILE]`, or with
    /// `--script` in place of a target.
    Core(CoreLine),
    /// `swd conform --remote[=IN,OUT] --plain BASE WORDS [--hole ADDR] [--steps FILE] [--clean]`.
    Conform(ConformLine),
    /// `swd probes`. In each command `--probe FILE [--speed HERTZ] [--framed]` may take the place of
    /// `--remote[=IN,OUT]`.
    Probes,
    /// `swd load ADDR FILE TARGET [--format FORMAT] [--tries N] [--resume N] [--report FILE] [--progress]`, the same
    /// with `verify`, or with `dump ADDR BYTES FILE`. TARGET is `--remote[=IN,OUT] [--check]` or
    /// `--memory FILE [--base ADDR] [--plan FILE]`.
    Image(ImageLine),
}

/// The arguments of `swd decode`.
#[derive(Drop)]
pub struct DecodeLine {
    /// The file of the trace, or `None` for standard input.
    pub file: Option<String>,
    /// Whether each line begins with the place of its item.
    pub places: bool,
    /// Whether registers are printed by name.
    pub names: bool,
    /// Whether items are counted instead of listed.
    pub count: bool,
    /// Whether the accesses of memory are listed, with their effect, instead of the items.
    pub accesses: bool,
    /// Whether the target then begins in its reset state.
    pub made: bool,
    /// Whether it begins at rest, with SELECT 0.
    pub rest: bool,
    /// Whether the trace may begin in mid-session and lose bits.
    pub resync: bool,
    /// Whether a data phase then follows WAIT and FAULT at the beginning.
    pub overrun: bool,
}

/// The arguments of `swd draw`.
#[derive(Drop)]
pub struct DrawLine {
    /// The file of the trace, or `None` for standard input.
    pub file: Option<String>,
    /// The most items that are drawn, at most 1,000.
    pub items: u32,
    /// Whether registers are printed by name.
    pub names: bool,
    /// Whether the trace may begin in mid-session and lose bits.
    pub resync: bool,
    /// Whether a data phase then follows WAIT and FAULT at the beginning.
    pub overrun: bool,
}

/// The words of a plain memory: each is the one that was written to it last.
#[derive(Clone, Copy, Debug, PartialEq, Eq)]
pub struct PlainWords {
    /// The address of the first one, a multiple of 4.
    pub base: u32,
    /// Their number, at least 1. None is past `ffffffff`.
    pub words: u32,
}

/// The arguments of `swd check`.
#[derive(Drop)]
pub struct CheckLine {
    /// The file of the trace, or `None` for standard input.
    pub file: Option<String>,
    /// Whether the target begins in its reset state.
    pub made: bool,
    /// Whether it begins at rest, with SELECT 0.
    pub rest: bool,
    /// Whether nothing is damaged or lost on the wire, as in a simulation.
    pub clean: bool,
    /// The words of plain memory, in the order of the arguments.
    pub plain: Vec<PlainWords>,
    /// Whether CSW and CTRL/STAT are those of this project's simulated target.
    pub exact_registers: bool,
    /// Whether the trace may begin in mid-session and lose bits.
    pub resync: bool,
    /// Whether it may, and a data phase follows WAIT and FAULT at the beginning.
    pub overrun: bool,
}

/// How packets of CMSIS-DAP go to a probe.
#[derive(Clone, Copy, Debug, PartialEq, Eq)]
pub struct ProbeLine {
    /// The frequency of SWCLK in hertz.
    pub speed: u32,
    /// Whether each packet has its length before it, in place of being a report of one size.
    pub framed: bool,
}

/// The arguments of `swd run`.
#[derive(Drop)]
pub struct RunLine {
    /// The file of the script, or `-` for standard input.
    pub script: String,
    /// The file of the plan, if one is named.
    pub plan: Option<String>,
    /// The number of events that an access may meet, at most 1,000.
    pub tries: u32,
    /// How often a call is resumed after a lost acknowledgement, at most 1,000 times.
    pub resumes: u32,
    /// The file that the trace is written to, if one is named.
    pub trace: Option<String>,
    /// The file that the accesses are written to which the trace shows, if one is named.
    pub accesses: Option<String>,
    /// Whether a bus error fails the run.
    pub strict: bool,
    /// Whether a remote session is checked while it goes on.
    pub check: bool,
    /// What leads to a remote target: `-` for the standard streams, two files as `IN,OUT`, or one that does both.
    /// `None` for a simulated target.
    pub remote: Option<String>,
    /// The probe that it leads to. `None` for a server of remote_bitbang.
    pub probe: Option<ProbeLine>,
    /// The file that the report of a remote run is written to.
    pub report: Option<String>,
    /// Whether lines on standard error say how far the run is.
    pub progress: bool,
    /// Whether writes next to each other are sent to a remote target in bursts.
    pub bursts: bool,
}

/// The memory of a target that is served, and its plan.
#[derive(Debug, Drop)]
pub enum ServedMemory {
    /// The zero words that a script describes.
    Script(ScriptLine),
    /// The bytes of a file, which the session overwrites.
    File(MemoryLine),
}

/// The files of a script and of a plan.
#[derive(Debug, Drop)]
pub struct ScriptLine {
    /// The file of the script, which describes the target's memory.
    pub script: String,
    /// The file of the plan, if one is named.
    pub plan: Option<String>,
}

/// The arguments of `swd target` and `swd probe`.
#[derive(Debug, Drop)]
pub struct TargetLine {
    /// The target's memory, with its plan.
    pub memory: ServedMemory,
    /// The file that the log is written to, if one is named.
    pub log: Option<String>,
    /// The file that the trace is written to, if one is named.
    pub trace: Option<String>,
    /// IDR of the access port, if it has one.
    pub idr: Option<u32>,
    /// Whether the debug port has a write buffer.
    pub buffers: bool,
    /// The size of packets of CMSIS-DAP that the host is told, 64 to 512 bytes. `None` for a host of remote_bitbang.
    pub packet_size: Option<u32>,
}

/// The arguments of `swd info`.
#[derive(Debug, Drop)]
pub struct InfoLine {
    /// What leads to the target: `-` for the standard streams, two files as `IN,OUT`, or one that does both.
    pub remote: String,
    /// The probe that it leads to. `None` for a server of remote_bitbang.
    pub probe: Option<ProbeLine>,
    /// The number of events that the opening may meet, at most 1,000.
    pub tries: u32,
}

/// The arguments of `swd core`.
#[derive(Drop)]
pub struct CoreLine {
    /// What is done at the core.
    pub action: CoreAction,
    /// Whether the core is halted by it, where it needs a halted core, or after a reset.
    pub halts: bool,
    /// Whether the script is printed, and nothing is done.
    pub script: bool,
    /// The run of that script: at a target, unless it is printed.
    pub run: RunLine,
}

/// The arguments of `swd conform`.
#[derive(Debug, Drop)]
pub struct ConformLine {
    /// What leads to the target: `-` for the standard streams, two files as `IN,OUT`, or one that does both.
    pub remote: String,
    /// The probe that it leads to. `None` for a server of remote_bitbang.
    pub probe: Option<ProbeLine>,
    /// The words of memory that the run overwrites.
    pub plain: PlainWords,
    /// An address without memory, if one is named.
    pub hole: Option<u32>,
    /// The file of the steps, if one is named. `None` for this project's own plan.
    pub steps: Option<String>,
    /// Whether nothing is damaged or lost on the wire, as in a simulation.
    pub clean: bool,
}

/// What is done with an image.
#[derive(Clone, Copy, Debug, PartialEq, Eq)]
pub enum ImageAction {
    /// The file's bytes are written to the memory.
    Load,
    /// The memory is compared with the file's bytes.
    Verify,
    /// This many bytes of the memory are written to the file.
    Dump(u32),
}

/// The memory of a simulated target.
#[derive(Debug, Drop)]
pub struct MemoryLine {
    /// The file of its bytes, the byte at the lowest address first. A load overwrites it, and so does `swd target`.
    pub file: String,
    /// The address of the first byte, a multiple of 4.
    pub base: u32,
    /// The file of the plan, if one is named.
    pub plan: Option<String>,
    ghost aligned: { base % 4 ≡ 0 },
}

/// The arguments of `swd load`, `swd verify` and `swd dump`.
#[derive(Drop)]
pub struct ImageLine {
    pub action: ImageAction,
    /// The address of the first byte. For a load or a verification of a file that has addresses, the number that is
    /// added to each of them.
    pub addr: u32,
    /// The file of the bytes. For a dump it is overwritten.
    pub file: String,
    /// The format of the file if it isn't ELF: that of `--format`, or of its name.
    pub format: Format,
    /// Whether the file is read as ELF. A dump isn't ELF.
    pub elf: ElfChoice,
    /// The number of events that an access may meet, at most 1,000.
    pub tries: u32,
    /// How often a call is resumed after a lost acknowledgement, at most 1,000 times.
    pub resumes: u32,
    /// The file to which the reports of the calls are written, if they are to be.
    pub report: Option<String>,
    /// Whether lines on standard error say how far the command is.
    pub progress: bool,
    /// Whether a remote session is checked while it goes on.
    pub check: bool,
    /// What leads to a remote target: `-` for the standard streams, two files as `IN,OUT`, or one that does both.
    /// `None` for a simulated target.
    pub remote: Option<String>,
    /// The probe that it leads to. `None` for a server of remote_bitbang.
    pub probe: Option<ProbeLine>,
    /// The memory of the simulated target, or `None` for a remote target.
    pub memory: Option<MemoryLine>,
    /// Whether writes next to each other are sent to a remote target in bursts.
    pub bursts: bool,
}
