//! Steps of the program that are counted.

ghost use Rattle.std.specs.Prelude.{◌≡◌};
ghost use Rattle.avr_isa.specs.Crossing.{is_crossing as is_crossing_test};

/// Whether a step of the program from one word address to another is a crossing: it goes backward, stays,
/// or leaves its page of 128 words.
pub fn is_crossing(from: u16, to: u16) -> bool
    ensures value { result ≡ is_crossing_test from to }
{
    // How many addresses behind the next one control goes, and how many the page has there.
    let ahead = to.wrapping_add(!from);
    let left = !from & 0x7F;
    ahead >= left
}
