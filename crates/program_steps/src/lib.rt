//! Steps of the program, and the arrival before one: what a machine does between two looks at its sink.
//!
//! [`steps`] makes steps, one behind the other, and [`enter`] the arrival that is owed before one. [`must_take`] tells whether an
//! interrupt is taken instead of it, and [`take`] takes it. [`at_bound`] answers where all steps are done. A [`Progress`] is what
//! is counted and owed beside the kernel.
//!
//! `specs/Machines` says for which state of the original program a machine stands, `specs/Ready` when it is sound and may go
//! on, `specs/Stepping` what a step and an arrival leave of it, `specs/Several` what steps behind one another do, and
//! `specs/Interrupts` when an interrupt is taken.
#![tactic(auto)]

mod arrival;
mod interrupts;
mod moves;
mod progress;
mod step;
mod walk;

pub use arrival::{at_bound, enter, may_enter};
pub use interrupts::{must_take, take};
pub use progress::Progress;
pub use step::steps;
