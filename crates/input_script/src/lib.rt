//! Scripts of device inputs, and of flash operations that fail.
//!
//! A script is lines such as `at 5 uart 0x41`: at poll 5 the serial port receives the byte 0x41. The other
//! inputs are `pina 0xHH` to `pind 0xHH`, `adc 0xHHH` and `int K`. A line `fail flash 3` makes the third erase or
//! program of flash fail. A line is empty, begins with `#`, or is one of these. [`read`] answers what the
//! lines schedule, or the first faulty line and its first fault.
//!
//! The lines of a text are those of `text_lines`; `specs/Grammar.antt` says what a line says, and
//! `specs/Script.antt` which fault it has behind others, and what a text without a fault schedules. [`grammar`]
//! is the law that they say what the format says (`specs/GrammarLaw.antt`).
#![tactic(auto)]

mod fault;
mod input;
mod laws;
mod line;
mod script;

pub use fault::{ScriptError, ScriptFault};
pub use input::{Event, Input};
pub use laws::grammar;
pub use script::{Script, read};
