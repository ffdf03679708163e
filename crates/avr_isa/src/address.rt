//! Word addresses, which have 16 bits.

ghost use Rattle.std.specs.Prelude.{◌≡◌};
ghost use Rattle.avr_isa.specs.Addresses.{relative as relative_of};

/// pc + 1 + k: where a relative jump, call or branch at the pc leads. Word addresses wrap at 65,536.
#[tactic(auto, unfolding(crate::specs::Addresses::relative))]
pub fn relative(pc: u16, k: i16) -> u16
    ensures value { result ≡ relative_of pc k }
{
    pc.wrapping_add(1).wrapping_add(k.cast_unsigned())
}
