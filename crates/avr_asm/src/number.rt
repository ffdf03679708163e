//! Numbers as they are written.

ghost use Rattle.std.specs.Prelude.{◌≡◌, ◌≤◌};
ghost use Rattle.avr_asm.specs.Numbers.{number_of, digits_of};

use text_lines::value_of;

/// The number that a text writes: 1 to 10 decimal digits, or `0x` and 1 to 8 hexadecimal digits.
#[tactic(auto, unfolding(crate::specs::Numbers::number_of))]
pub(crate) fn number_in(text: &[u8]) -> Option<u64>
    ensures value { result ≡ number_of text.now }
{
    if text.starts_with(b"0x") {
        digits_in(&text[2..], 16, 8)
    } else {
        digits_in(text, 10, 10)
    }
}

/// The number that digits of a base write, at least one and at most so many.
#[tactic(auto, using(text_lines::proofs::DigitTests::all_digits, text_lines::proofs::DigitTests::some_other))]
fn digits_in(text: &[u8], radix: u32, most: usize) -> Option<u64>
    requires base { (10 ≤ radix) × (radix ≤ 16) }
    requires few { most ≤ 10 }
    ensures value { result ≡ digits_of radix most text.now }
{
    if text.is_empty() || text.len() > most {
        return None;
    }
    value_of(text, radix)
}
