//! What the tests share.

use std::process::Abort;

/// The value of an answer that fails only where memory is short. A test that ends there has no other way out, at which its proof would
/// let go of what it holds.
pub(crate) fn ample<T, E: Drop>(rt: &impl Abort, answer: Result<T, E>) -> T {
    match answer {
        Ok(value) => value,
        Err(_) => panic!(rt; "memory is ample"),
    }
}
