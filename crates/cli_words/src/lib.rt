//! The words of a command line, and what they and an input can ask for: the types of a [`Job`], the exit [`Status`], and
//! the jobs that print a line in place of a run.
//!
//! The words are a command with its options ([`command_of`]). Which job a command asks for is told by crate `cli_requests`,
//! which reads its input; crate `tkernel_cli` does the jobs.
//!
//! ```rust
//! match command_of(&words) {
//!     Some(Command::Run(options)) => .., // `run`, with its numbers
//!     None => usage(Status::Usage), // the words are no command
//!     ..
//! }
//! ```
//!
//! `specs/Options` and `specs/Commands` are the grammar of the words, `specs/Printed` has the jobs that print a line, and
//! `specs/Status` the numbers of the exit statuses.
#![tactic(auto)]

mod command;
mod job;
mod options;
mod output;
mod printed;
mod request;
mod status;
mod table;

pub use command::{Command, DEFAULT_OPTIONS, RunOptions, TaskOptions, command_of, run_options_of};
pub use job::Job;
pub use output::Output;
pub use printed::{bad_hex, bad_script, no_memory, read_fault, too_long, usage};
pub use request::{Request, Scripts, TaskRequest};
pub use status::Status;
