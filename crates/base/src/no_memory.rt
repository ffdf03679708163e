//! The answer where memory was wanted and not found.

use std::alloc::AllocError;

/// Memory was wanted and not found.
#[derive(Clone, Copy, Debug)]
pub struct NoMemory;

impl From<AllocError> for NoMemory {
    fn from(_: AllocError) -> NoMemory {
        NoMemory
    }
}
