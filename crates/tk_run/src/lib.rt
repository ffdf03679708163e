//! The machine, its boot, and its run loop.
//!
//! [`Machine::boot`] loads a program onto a mote, and [`Machine::advance`] runs it for some further steps of
//! the program, with the device lines put to a sink. The program's own words are never executed:
//! the mote runs rewritten pages, which are made where control first arrives, and calls the kernel for what
//! they can't do.
//!
//! ```rust
//! let options = Options { quantum: 255, swap: 128 };
//! let mut machine = Machine::boot(alloc, &image, script, options)?;
//! match machine.advance(1_000_000, &mut out)? { // the lines go to `out`
//!     End::Spent => ..,         // all steps were done, and the program goes on
//!     End::Stopped(stop) => .., // the program stopped at `machine.at`
//!     End::Wild(t) => ..,       // it left its image
//!     End::Flash(op) => ..,     // an operation on flash was refused, as the script lists
//! }
//! ```
//!
//! docs/MACHINE.md has the fields of a machine, the order of a run, and what always holds.
//! `specs/Ready` of `program_steps` is when a machine is sound and ready to go on, `specs/Running` what `advance` says, and
//! `specs/WholeRuns` what follows of a whole run from boot.
#![tactic(auto)]

mod lines;
mod machine;
mod run;

pub use kernel_entry::{End, Owed};
pub use machine::{Machine, Options};
