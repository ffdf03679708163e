//! All lines that the program prints, and how those of a run are gathered, so that many go out by one write.
//!
//! ```rust
//! let line = device_line(Line { port: Port::PortA, value: 0x0F });
//! assert_eq!(rt; line.as_slice(), b"PORTA 0x0F\n".as_slice());
//!
//! let line = bad_hex_line(3, HexFault::Digit);
//! assert_eq!(rt; line.as_slice(), b"bad hex line 3 digit\n".as_slice());
//!
//! let mut gathered = Gathered::new();
//! add(&line, &mut gathered, &mut out)?; // goes out by itself where there is no room for more
//! send(&mut gathered, &mut out)?;
//! ```
//!
//! What a line says is defined in `specs/`, in a file for each kind: `DeviceLines`, `Ends` and `StopLines` (how the original
//! program's run ends, and the machine's), `TaskTexts`, `Counts`, `RestartLines`, `Verdicts`, `FaultyLines` and `PlainLines`.
//! `specs/Gathering` says what went out of lines that were gathered, and what is left.
//! Lines are made of the pieces of crate `text_lines`, whose `specs/Pieces` has the name of a task too, which is read in
//! scripts as it is printed. When a line is printed is told by the crates above, and so is the dump of a flash and the HEX
//! text of a source, which are read as well.
#![tactic(auto)]

mod device;
mod fault;
mod gathered_task;
mod last;
mod plain;
mod restart;
mod sending;
mod stop;
mod task;
mod verdict;

pub use device::device_line;
pub use fault::{bad_asm_line, bad_dump_line, bad_hex_line, bad_image_line, bad_script_line};
pub use gathered_task::{TaskLines, add_task};
pub use last::{counts, task_counts};
pub use plain::{NO_MEMORY, no_memory_line, read_fault_line, too_long_line, usage_line};
pub use restart::restart_line;
pub use sending::{Gathered, TURN, add, send, send_in_turn, up_to_turn};
pub use stop::stop_line;
pub use task::{task_line, task_stop};
pub use verdict::verdict_text;
