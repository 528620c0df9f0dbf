//! Work at a core of Armv6-M, Armv7-M or Armv8-M as a script: which registers of its debug are written, read and
//! waited for, and what their words say.
#![tactic(auto)]

mod action;
mod identity;
mod register;
mod step;
mod text;
mod trouble;

pub use action::{CoreAction, CoreWrite, steps_of};
pub use identity::{Identity, identity_of};
pub use register::{CoreRegister, EACH, named};
pub use step::CoreStep;
pub use text::script_text;
pub use trouble::{LOCKED, Trouble, trouble_of};
