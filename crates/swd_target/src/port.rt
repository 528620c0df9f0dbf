//! The parts of a simulated target, for whatever connects it to a wire: the target behind the wire, the plan of fault
//! injections, and what a host sees under a mark.

pub use crate::acknowledgement::seen_under;
pub use crate::phase::{flip_bit, flip_under};
pub use crate::plan::Plan;
pub use crate::target::Target;
