//! What a bus answers.

/// What a bus answers to what an instruction asks.
#[derive(Clone, Copy)]
pub enum Answer {
    /// It is done, or nothing was asked.
    Done,
    /// The byte asked for.
    Byte(u8),
    /// The return address asked for.
    Address(u16),
}
