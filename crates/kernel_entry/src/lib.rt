//! The kernel's services: what rewritten code calls the kernel for.
//!
//! A template calls an entry of the kernel, an address in the kernel's own flash, and the word behind the
//! call, the *descriptor*, says for which instruction of the program, or where to go on. [`serve`] does
//! what the entry is for, and answers how the program goes on: behind the descriptor, at an original
//! address, or not at all.
//!
//! ```rust
//! match serve(&mut kernel) { // the pc is at an entry
//!     Served::Resume(line) => ..,            // the pc is behind the descriptor; a device showed `line`
//!     Served::Goto { target, stub } => ..,   // control arrives at the original address `target` next
//!     Served::Woke { target } => ..,         // an interrupt ended a SLEEP; control arrives behind it next
//!     Served::Stopped(stop) => ..,           // the program stopped
//! }
//! ```
//!
//! A run tries [`resume_at_once`] and [`return_at_once`] first, which serve what reaches bytes at hand by a shorter way, and
//! calls [`serve_told`] for the rest; that says besides whether an interrupt may be taken next, and [`interrupt`] then takes
//! one, if any. It and [`serve`], the plain form with the longer contract, which tests alone call, read the descriptor and
//! go on in `serve_at`, which leaves to `serve_apart` the services that execute no instruction. [`Owed`] and [`End`] say
//! where a run stands between two services, and how it ends.
//!
//! docs/LOADER.md has the entries and what each service does. `specs/Services` is that as one function of
//! the whole kernel, `specs/Rows` the same entry by entry, over what the program sees (`specs/Seen`), and
//! `specs/Left` what every service leaves; `specs/Conditions` says when a service may be asked.
//! `specs/Interrupts` says when an interrupt is taken, and what that changes. `proofs/ServedLaws` has the rows
//! as laws of the one function.
#![tactic(auto)]

mod at_once;
mod execution;
mod interrupts;
mod kernel;
mod services;

pub use at_once::{resume_at_once, return_at_once};
pub use interrupts::interrupt;
pub use kernel::{End, Kernel, Owed, Served, Stop, Taken};
pub use services::{has_interrupts, serve, serve_told};
