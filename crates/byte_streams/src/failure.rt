//! The answers of a stream that isn't well.

/// A stream failed; its count of faults rose.
#[derive(Clone, Copy, PartialEq, Eq)]
pub struct Failed;

/// Why a source was not read to its end.
#[derive(Clone, Copy)]
pub enum ReadAll {
    /// The source failed.
    Fault,
    /// The source gave more bytes than the limit.
    TooLong,
    /// Memory was wanted and not found.
    NoMemory,
}
