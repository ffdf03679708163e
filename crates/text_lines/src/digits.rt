//! Digits as numbers.

ghost use Rattle.std.specs.Prelude.{◌≡◌, ◌≤◌, length, MatchOption};
ghost use Rattle.std.specs.Str.Parse.{digits_value, AllDigits};

/// The number that up to 10 digits of a base write, none where another byte stands among them. No digits
/// write 0; hexadecimal digits may have either case.
pub fn value_of(text: &[u8], radix: u32) -> Option<u64>
    requires base { (8 ≤ radix) × (radix ≤ 16) }
    requires short { length text.now ≤ 10 }
    ensures cases { MatchOption result (¬ AllDigits radix text.now) (λ value. AllDigits radix text.now × (value ≡ digits_value radix text.now)) }
{
    let mut value = 0u64;
    for b in text {
        let digit = char::from(*b).to_digit(radix)?;
        value = value * u64::from(radix) + u64::from(digit);
    }
    Some(value)
}
