//! What the words of a command line and an input ask for: a [`Job`], before anything is run.
//!
//! The words are a command with its options ([`command_of`] of crate `cli_words`). A command that reads has its input
//! judged, and asks for a run of the programs that it tells, for a text, or for the line that names what is wrong with it
//! ([`job_of`]).
//!
//! ```rust
//! let mut input = MemSource::new(b":060000000FE00BBBFFCF77\n:00000001FF\n".to_vec(alloc)?);
//! match job_of(alloc, &words, &mut input) {
//!     Job::Run(request) => .., // the image, the script and the options of `run`
//!     Job::Print(status, line) => .., // a line that is printed in place of a run, and the status of the call
//!     ..
//! }
//! ```
//!
//! `specs/Asking` says which job is asked for, by a file of `specs/` for each command. Crate `tkernel_cli` does the
//! jobs.
#![tactic(auto)]

mod asking;
mod asm_command;
mod check_command;
mod dump_command;
mod generate_command;
mod printed;
mod reading;
mod restart_command;
mod run_command;
mod tasks_command;

pub use asking::job_of;
pub use cli_words::{
    Command, Job, Output, Request, RunOptions, Scripts, Status, TaskOptions, TaskRequest,
    command_of,
};
pub use run_command::run_job;
