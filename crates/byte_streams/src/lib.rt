//! Streams of bytes in and out, each with a count of its faults.
//!
//! A [`Source`] is read by [`read_all`], which takes everything up to a limit; a [`Sink`] is written
//! by [`put`], which sends everything. Both say what reached the other side when they fail, and fail
//! only where the stream's own count of faults rose: no caller can be told of a fault that didn't
//! happen.
//!
//! [`StdSource`] and [`StdSink`] are the process's own streams: each of their calls is one call of a [`Reader`] or a
//! [`Writer`], whose errors they count; [`program_words`] gives the words that the process was started with. [`NullSink`]
//! drops what it takes. Streams in memory, and those that fail where it is wanted, are in crate `tk_io`, which has all
//! names of this one too.
#![tactic(auto)]

mod edge;
mod failure;
mod null;
mod passed;
mod sink;
mod source;
mod standard;
mod words;

pub use base::NoMemory;
pub use edge::{Reader, Writer};
pub use failure::{Failed, ReadAll};
pub use null::NullSink;
pub use sink::{Sink, put};
pub use source::{Source, read_all};
pub use standard::{StdSink, StdSource};
pub use words::program_words;
