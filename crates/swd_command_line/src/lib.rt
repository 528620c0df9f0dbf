//! The command line of `swd` as types: each command with its arguments.
#![tactic(auto)]

mod command;

pub use command::{
    CheckLine, CommandLine, ConformLine, CoreLine, DecodeLine, DrawLine, ImageAction, ImageLine,
    InfoLine, MemoryLine, PlainWords, ProbeLine, RunLine, ScriptLine, ServedMemory, TargetLine,
};
