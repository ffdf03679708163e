//! One bit of a byte.

ghost use Rattle.std.specs.Prelude.{◌≡◌, ◌<◌, ◌^◌};
ghost use Rattle.avr_flags.specs.Status.{has_bit as has_bit_of_weight, with_bit as with_bit_of_weight};

/// The bit of SREG that BST writes and BLD copies: T.
pub const TRANSFER: u8 = 6;

/// The weight of a bit of a byte.
pub(crate) fn bit_weight(bit: u8) -> u8
    requires { bit < 8 }
    ensures { result ≡ 2 ^ bit }
{
    1 << bit
}

/// Whether a bit of a byte is set.
pub fn has_bit(byte: u8, bit: u8) -> bool
    requires { bit < 8 }
    ensures { result ≡ has_bit_of_weight byte (2 ^ bit) }
{
    byte >> bit & 1 == 1
}

/// A byte with one bit made so.
pub fn with_bit(byte: u8, bit: u8, value: bool) -> u8
    requires { bit < 8 }
    ensures { result ≡ with_bit_of_weight byte (2 ^ bit) value }
{
    let weight = bit_weight(bit);
    if value { byte | weight } else { byte & !weight }
}
