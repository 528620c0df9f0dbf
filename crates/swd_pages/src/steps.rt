//! A run of the host over a line that the caller drives.
use swd_host::End;
use swd_port::{Access, Answer, Cue};
use swd_steps::{Refusal, Run};

/// A line to a target.
pub trait Line {
    /// Performs a cue. Returns the three acknowledgement bits after a request, the 33 bits of a read's data phase, the
    /// first in time least significant, and any number after another cue.
    fn perform(&mut self, cue: Cue) -> u64;
}

/// Performs a list of accesses, and stores the answer of each at its index, as far as there is room. Returns the end of
/// the run, which comes long before that of the loop (`swd_steps::laws::ends`).
pub fn drive<L: Line>(
    line: &mut L,
    accesses: &[Access],
    answers: &mut [Option<Answer>],
) -> Result<Option<End>, Refusal> {
    let mut run = Run::new(8);
    for _ in 0..u32::MAX {
        let Some(cue) = run.cue() else { break };
        let first = run.answered() as usize;
        let came = run.next(&accesses, line.perform(cue))?;
        for (place, answer) in [(first, came.first), (first + 1, came.second)] {
            if answer.is_some() && place < answers.len() {
                answers[place] = answer;
            }
        }
    }
    Ok(run.ended())
}
