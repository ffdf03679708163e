//! A sequence of numbers.

ghost use Rattle.std.specs.Prelude.{◌≡◌};
ghost use Rattle.base.specs.Sequences.{next_number};

/// The number that follows `x` in a linear congruential sequence: x times 1,664,525 plus 1,013,904,223, modulo 2 to the 32.
pub fn next_number(x: u32) -> u32
    ensures value { result ≡ next_number x }
{
    x.wrapping_mul(1_664_525).wrapping_add(1_013_904_223)
}
