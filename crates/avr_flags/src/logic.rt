//! Bitwise operations and shifts of a byte.

ghost use Rattle.std.specs.Prelude.{◌≡◌, true, false, ◌-◌, ◌/◌, ◌≤◌, bit_and, bit_or, bit_xor};
ghost use Rattle.avr_flags.specs.Status.{with_bit, carry};
ghost use Rattle.avr_flags.specs.Sums.{carry_in};
ghost use Rattle.avr_flags.specs.Logic.{result_of, shift_of};

use crate::status::Status;
use crate::tables::flags_of_result;

/// The result of a bitwise operation, and SREG after it.
fn bitwise(status: Status, value: u8) -> (u8, u8)
    ensures { result ≡ result_of status.0 value false }
{
    (value, status.with_result(flags_of_result(value)).sreg())
}

/// `d` shifted to the right, with this bit coming in at the top, and SREG after it.
fn shift(sreg: u8, d: u8, top: u8) -> (u8, u8)
    requires top_is_bit { top ≤ 1 }
    ensures { result ≡ shift_of sreg d top }
{
    let value = (top << 7) + (d >> 1);
    // C stands for the carry into bit 8 and N for the one into bit 7, so that V is N xor C.
    let carries = u16::from(d & 1) * 0x100 + u16::from(value);
    (
        value,
        Status::new(sreg).with_top_carries(carries, value).sreg(),
    )
}

/// AND and ANDI. V is cleared; C and H stay.
pub fn and_bits(sreg: u8, d: u8, r: u8) -> (u8, u8)
    ensures outcome { result ≡ result_of sreg (bit_and d r) false }
{
    bitwise(Status::new(sreg), d & r)
}

/// OR and ORI. V is cleared; C and H stay.
pub fn or_bits(sreg: u8, d: u8, r: u8) -> (u8, u8)
    ensures outcome { result ≡ result_of sreg (bit_or d r) false }
{
    bitwise(Status::new(sreg), d | r)
}

/// EOR: exclusive or. V is cleared; C and H stay.
pub fn eor(sreg: u8, d: u8, r: u8) -> (u8, u8)
    ensures outcome { result ≡ result_of sreg (bit_xor d r) false }
{
    bitwise(Status::new(sreg), d ^ r)
}

/// COM: the one's complement. V is cleared and C set; H stays.
pub fn com(sreg: u8, d: u8) -> (u8, u8)
    ensures outcome { result ≡ result_of (with_bit sreg carry true) (255 - d) false }
{
    bitwise(Status::new(sreg).with(Status::CARRY, true), !d)
}

/// LSR: a shift to the right. 0 comes in at the top, and bit 0 leaves into C.
pub fn lsr(sreg: u8, d: u8) -> (u8, u8)
    ensures outcome { result ≡ shift_of sreg d 0 }
{
    shift(sreg, d, 0)
}

/// ROR: a rotation to the right through C.
pub fn ror(sreg: u8, d: u8) -> (u8, u8)
    ensures outcome { result ≡ shift_of sreg d (carry_in sreg) }
{
    shift(sreg, d, Status::new(sreg).carry())
}

/// ASR: a shift to the right that keeps the sign. Bit 0 leaves into C.
pub fn asr(sreg: u8, d: u8) -> (u8, u8)
    ensures outcome { result ≡ shift_of sreg d (d / 128) }
{
    shift(sreg, d, d >> 7)
}
