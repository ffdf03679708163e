//! Up to four tasks on one mote: their boot and their run.
//!
//! ```rust
//! let mut tasks = Tasks::boot(alloc, &image, scripts, 255, 32)?;
//! tasks.run(1_000_000, &mut out)?; // until every task has ended; their lines go to `out`
//! ```
//!
//! Task i has the words 4096·i to 4096·i + 4095 of the image. The tasks share flash, with its pool of code pages,
//! and the kernel's tables of places; each has SRAM, core, swap and devices of its own, which are parked while
//! another task has the mote ([`Parked::exchange`]).
//!
//! docs/TASKS.md tells all of it. Their scripts and their image are read by crate `task_input`; what their programs come
//! to in turn, without a mote, is crate `task_turns`, and what is parked of a task crate `parked_tasks`. `specs/Booted` is
//! the tasks at boot, `specs/States` what each task stands for, and `specs/Changes` the change of the one that runs.
//! `specs/Plays` is what [`Tasks::run`] says: its moves, play by play, are the tasks in turn, and what each task tells, how
//! it ends and what it holds is that of its own run ([`tasks_are_apart`], [`every_task_ends`]).
#![tactic(auto)]

mod change;
mod play;
mod run;
mod tasks;
mod trying;

pub use parked_tasks::{Parked, Task, TaskEnd};
pub use task_input::{QUARTER, misplaced_word, read_scripts, task_image};
pub use task_turns::{every_task_ends, tasks_are_apart};
pub use tasks::Tasks;
