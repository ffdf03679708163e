//! What can be wrong with a text.
ghost use Rattle.std.specs.Prelude.{◌≡◌, ◌≤◌, length};
ghost use Rattle.hex_image.specs.HexText.{hex_word};

use thiserror::Error;

/// A fault of a line. A line's faults are tried in this order, and the first is reported.
#[derive(Clone, Copy, Debug, Error)]
pub enum HexFault {
    /// The line doesn't begin with a colon.
    #[error("start")]
    Start,
    /// A byte behind the colon is no hexadecimal digit.
    #[error("digit")]
    Digit,
    /// There are fewer than 10 digits, or not two for each byte of a record of this count.
    #[error("length")]
    Length,
    /// The record's bytes don't sum to a multiple of 256.
    #[error("checksum")]
    Checksum,
    /// The kind is unknown, or the count isn't one of this kind.
    #[error("kind")]
    Kind,
    /// The addresses of a data record go beyond 16 bits.
    #[error("wrap")]
    Wrap,
    /// A byte's place was given by an earlier record.
    #[error("twice")]
    Twice,
    /// A byte's place is beyond the 49,152 bytes that an image can have.
    #[error("size")]
    TooLarge,
    /// The text ends without an end record. The line is then the number of lines plus one.
    #[error("end")]
    NoEnd,
}

impl HexFault {
    /// The word by which it is told.
    pub fn word(self) -> &'static [u8]
        ensures word { result.now ≡ hex_word self }
        ensures short { length result.now ≤ 8 }
    {
        match self {
            HexFault::Start => b"start",
            HexFault::Digit => b"digit",
            HexFault::Length => b"length",
            HexFault::Checksum => b"checksum",
            HexFault::Kind => b"kind",
            HexFault::Wrap => b"wrap",
            HexFault::Twice => b"twice",
            HexFault::TooLarge => b"size",
            HexFault::NoEnd => b"end",
        }
    }
}

/// Why a text was not read.
#[derive(Clone, Copy, Debug)]
pub enum HexError {
    /// The first faulty line, counted from 1, and the first of its faults.
    Bad { line: u32, fault: HexFault },
    /// Memory was wanted and not found.
    NoMemory,
}
