//! The command line of tkwatch as a library: words and an input in, what is shown of a run and a status out.
//!
//! A watched run is that of `tkernel run` over the same words and the same input (crates `cli_words`, `cli_requests`, `tk_run`
//! and `tkernel_cli`), and watching changes nothing of it. The first word is a view, which says what is shown:
//!
//! - `lines`: each device line, with the number of the step that wrote it;
//! - `state`: the program's core, its polls, events and pages, and the interrupts, as the run leaves them;
//! - `memory`: the rows of the program's memory that aren't all 0, as the run leaves it;
//! - `profile`: how many steps began at each original address;
//! - `trace N COUNT`: the core and its registers as they are after N steps, and after each later one, in up to COUNT rows;
//! - `visits 0xPC ..`: after which steps the program stands at one of up to 16 word addresses;
//! - `changes 0xADDR COUNT`: each byte that a step changes, of up to 64 from a data address on;
//! - `accesses 0xADDR COUNT`: each byte that a step reads or writes by address, of those from a data address on;
//!
//! and the words behind it are its own, if it has some, and then the options of `run`. Behind what is shown stands the run's stop
//! line, and the status is the run's.
//!
//! ```rust
//! let mut input = MemSource::new(b":060000000FE00BBBFFCF77\n:00000001FF\n".to_vec(alloc)?);
//! let status = tkwatch(alloc, &words, &mut input, &mut out); // of the word `lines`
//! // step 2 PORTA 0x0F
//! // halted 0x0002 steps 2 checkpoints 0
//! ```
//!
//! A view has a variant of [`View`], its words (`specs/Words`, `specs/ViewWords`), and what it shows: of each step (`specs/StepTexts`,
//! by a definition of its own as `specs/VisitsText`), and at the end (`specs/Views`). `specs/Answer` is what is answered. One loop
//! makes the steps of each view but `profile`, in turns of as many steps as the view tells nothing of.
#![tactic(auto)]

mod access_rows;
mod accesses;
mod changes;
mod lines;
mod memory;
mod profile;
mod reading;
mod showing;
mod state;
mod steps;
mod top;
mod trace;
mod turn;
mod view;
mod visits;
mod words;

pub use cli_words::Status;
pub use top::tkwatch;
pub use view::{MOST_BYTES, MOST_PLACES, Places, View};
