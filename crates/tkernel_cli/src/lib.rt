//! The command line of tkernel as a library: words and an input in, lines and a status out.
//!
//! [`tkernel`] is the whole program but for the process around it. The words and the input ask for a job (crate
//! `cli_requests`), which is done here: a line or a text is printed, or programs are run. The words are one of eight commands:
//!
//! - `run` reads and judges a program, runs it, and prints its lines;
//! - `dump` does so without them, and prints the dump of the flash that the run leaves (crate `pool_check`);
//! - `restart` runs it, loses power, and runs it again over what is kept of its flash (crate `tk_restart`);
//! - `tasks` reads and judges up to four programs, runs them in turn on one mote (crate `tk_tasks`), and prints their lines;
//! - `check` reads an image and a dump, whoever made it, and prints what `pool_check` says of that flash;
//! - `generate SEED` runs the test program of crate `program_generator`, and reads nothing;
//! - `asm` reads a source, and prints the HEX text of its image (crate `avr_asm`);
//! - `help` prints the usage line.
//!
//! The run is made by crate `tk_run`, in rewritten code; what is printed is what the original program would do.
//!
//! ```rust
//! let mut input = MemSource::new(b":060000000FE00BBBFFCF77\n:00000001FF\n".to_vec(alloc)?);
//! let exit = tkernel(alloc, &words, &mut input, &mut out);
//! // PORTA 0x0F
//! // halted 0x0002 steps 2 checkpoints 0
//! // natural 3 entries 1 pages 1
//! assert_eq!(rt; exit.status, Status::Done);
//! ```
//!
//! `specs/Answer` is what is answered, `specs/Jobs` what is done for each job, and `specs/Runs`, `specs/DumpRuns`,
//! `specs/RestartRuns` and `specs/TasksRuns` what holds of a run; by [`a_machine_that_is_kept_can_go_on`] (`specs/GoingOn`) it
//! may be made longer. [`say`] and [`status_of`] serve the program that watches a run, too (crate `tk_watch`).
#![tactic(auto)]

mod dumping;
mod job;
mod laws;
mod restarting;
mod running;
mod tasking;
mod top;

pub use cli_words::{Command, RunOptions, Status, TaskOptions, command_of};
pub use job::say;
pub use laws::a_machine_that_is_kept_can_go_on;
pub use running::status_of;
pub use top::{Exit, tkernel};
