//! The machine that a program believes it runs on: 64 KiB of flat data memory, and steps over it.
//!
//! [`class`] says what stands at each data address, and [`is_stack`] whether that is the stack window. A [`Part`] says which
//! words of the image are a program's own: all, or those of one of several programs. [`foreign_word`] tells what it would
//! read outside.
//!
//! The machine stands in `specs/FlatSpace` and `specs/FlatMachine`, in plain lists and numbers: its memory, one step,
//! and a run with its end. It reaches the devices' registers, and knows no SRAM, no swap area, no flash and no kernel.
//!
//! Laws for the layers above: `proofs/MachineLaws` (a try in each case, and what a run does first), `proofs/ClassLaws`
//! (what an address of each class is, and what flat memory answers there), `proofs/ReadLaws` (which instructions read words
//! of the program), and `proofs/PartLaws` (a program that is shut in a part runs as over its own words alone,
//! `specs/Masked`).
#![tactic(auto)]

mod address;
mod part;

pub use address::{AddrClass, class, is_stack};
pub use part::{Part, foreign_word};
