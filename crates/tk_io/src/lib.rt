//! Streams of bytes in and out, those in memory among them.
//!
//! What a stream is, and the process's own streams, is crate `byte_streams`, whose names stand here too. [`MemSource`] and
//! [`MemSink`] stand in memory, [`FlakySource`] and [`FlakySink`] fail at calls that are chosen beforehand, and
//! [`SlowSource`] and [`SlowSink`] move at most a chosen number of bytes at each call.
#![tactic(auto)]

mod flaky;
mod memory;
mod slow;

pub use byte_streams::{
    Failed, NoMemory, NullSink, ReadAll, Reader, Sink, Source, StdSink, StdSource, Writer,
    program_words, put, read_all,
};
pub use flaky::{FlakySink, FlakySource};
pub use memory::{MemSink, MemSource};
pub use slow::{SlowSink, SlowSource};
