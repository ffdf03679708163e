//! Dumps of flash: the text of its pages that aren't erased.
//!
//! [`read_dump`] gives the flash of a dump, or the first faulty line and its first fault. [`write_dump`] writes the
//! dump of a flash, which reads back as its words.
//!
//! `specs/DumpLines` says what a line is, `specs/Dumps` what a dump is, and `specs/WrittenDumps` which one is written.
//! [`grammar`] is the law that these say what the format says of all lines at once (`specs/GrammarLaw`). Public laws:
//! `Judgement` (a text is a dump of one flash, or has one first fault) and `ErasedLaws` (a page all of whose words are
//! erased).
#![tactic(auto)]

mod dump;
mod dump_line;
mod dump_writing;
mod laws;

pub use dump::{DumpError, read_dump};
pub use dump_line::DumpFault;
pub use dump_writing::{is_erased, write_dump};
pub use laws::grammar;
