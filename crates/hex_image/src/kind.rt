//! The kinds of records.
ghost use Rattle.std.specs.Prelude.{◌≡◌, true, false, MatchOption};
ghost use Rattle.hex_image.specs.Kinds.{code_of};
ghost use Rattle.hex_image.specs.Lines.{has_right_count};

/// What a record is for.
#[derive(Clone, Copy)]
pub(crate) enum Kind {
    /// Bytes of the image.
    Data,
    /// The end of the text.
    EndOfFile,
    /// A base in units of 16 bytes.
    ExtendedSegmentAddress,
    /// A start address as segment and offset.
    StartSegmentAddress,
    /// The upper half of a base of 32 bits.
    ExtendedLinearAddress,
    /// A start address of 32 bits.
    StartLinearAddress,
}

impl Kind {
    /// The kind with this code that may have this count of content bytes, if there is one.
    pub(crate) fn with_count(code: u8, count: u8) -> Option<Kind>
        ensures cases { MatchOption result (has_right_count code count ≡ false) (λ kind. (code ≡ code_of kind) × (has_right_count code count ≡ true)) }
    {
        match (code, count) {
            (0, _) => Some(Kind::Data),
            (1, 0) => Some(Kind::EndOfFile),
            (2, 2) => Some(Kind::ExtendedSegmentAddress),
            (3, 4) => Some(Kind::StartSegmentAddress),
            (4, 2) => Some(Kind::ExtendedLinearAddress),
            (5, 4) => Some(Kind::StartLinearAddress),
            _ => None,
        }
    }

    /// The code that stands in a record.
    pub(crate) fn code(self) -> u8
        ensures value { result ≡ code_of self }
    {
        match self {
            Kind::Data => 0,
            Kind::EndOfFile => 1,
            Kind::ExtendedSegmentAddress => 2,
            Kind::StartSegmentAddress => 3,
            Kind::ExtendedLinearAddress => 4,
            Kind::StartLinearAddress => 5,
        }
    }
}
