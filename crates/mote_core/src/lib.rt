//! The mote: a core, SRAM, flash, devices and swap, and one AVR step over them.
//!
//! [`Mote::plain_step`] executes the instruction of flash at the pc over the physical data space: the
//! devices' registers, and SRAM at its own addresses. Nothing is virtual here, and nothing is tested:
//! the step asks of its caller that the instruction touches no other address (`can_step`), and then it
//! never stops.
//!
//! ```rust
//! let mut mote = Mote::new(rt.alloc(), image.words(), script, 128)?;
//! if let Plain::Wrote(line) = mote.plain_step() { .. } // an OUT to a port, say
//! ```
//!
//! A loop of steps makes those that touch registers and SRAM alone by [`fast_move`] (`specs/FastPath`), which goes by the
//! micro-operation that flash has at the pc, and the others by [`Mote::plain_step_into`], which goes by the instruction.
//!
//! `specs/Physical` is the data space, `specs/Conditions` says which addresses it has and when a step
//! may be made, and `specs/Step` what the step is. `proofs/NeverStops` has the law that no step which
//! may be made stops, and `proofs/OneOutcome` that a step has one outcome.
//!
//! `specs/QuietSteps` says which steps leave all that the kernel keeps. `proofs/StepsByAnswer` makes steps
//! from the one answer of the space, and joins quiet ones; `proofs/QuietMemory` and `proofs/QuietCore`
//! have a law for each instruction of stubs and templates.
#![tactic(auto)]

mod fast_path;
mod mote;
mod space;

pub use fast_path::fast_move;
pub use mote::{Mote, Plain};
pub use mote_devices::{Line, Port};
