//! The tasks of a mote: what is parked of each while another runs, and what they are at boot.
//!
//! A [`Task`] is how far its program has come, and its parts of the mote, which are [`Parked`] while another task has the
//! mote ([`give_on`]). `specs/Parking` is what is exchanged, `specs/AtBoot` each task at boot, and `specs/Handing` how
//! the mote goes from one to another of several. docs/TASKS.md tells all of it. How tasks are run is crate `tk_tasks`.
#![tactic(auto)]

mod boot;
mod counts;
mod handing;
mod next;
mod parked;
mod task;

pub use boot::{Booted, boot_tasks};
pub use counts::{Counts, arrivals_of_others, counts_of};
pub use handing::give_on;
pub use parked::Parked;
pub use task::{Task, TaskEnd, quarter_of};
