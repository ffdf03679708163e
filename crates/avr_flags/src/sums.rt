//! Sums and differences of bytes.

ghost use Rattle.std.specs.Prelude.{◌≡◌, true, ◌+◌, ◌%◌, ◌≤◌, ◌==◌};
ghost use Rattle.avr_flags.specs.Sums.{carry_in, sum_of, difference_of, sub_of, sbc_of};
ghost use Rattle.avr_flags.specs.Logic.{result_of};

use crate::status::Status;
use crate::tables::{flags_of_dec, flags_of_inc};

/// The sum of two bytes and a carry, and SREG after it.
fn sum(sreg: u8, d: u8, r: u8, carry: u8) -> (u8, u8)
    requires carry_is_bit { carry ≤ 1 }
    ensures { result ≡ sum_of sreg d r carry }
{
    let sum = u16::from(d) + u16::from(r) + u16::from(carry);
    let carries = u16::from(d) ^ u16::from(r) ^ sum;
    let value = (sum & 0xFF) as u8;
    (value, Status::new(sreg).with_sum(carries, value).sreg())
}

/// The difference of two bytes, less a carry, and SREG after it.
fn difference(sreg: u8, d: u8, r: u8, carry: u8) -> (u8, u8)
    requires carry_is_bit { carry ≤ 1 }
    ensures { result ≡ difference_of sreg d r carry true }
{
    // A bit that stands above gives what is borrowed.
    let difference = 0x200 + u16::from(d) - u16::from(r) - u16::from(carry);
    let borrows = u16::from(d) ^ u16::from(r) ^ difference;
    let value = (difference & 0xFF) as u8;
    (value, Status::new(sreg).with_sum(borrows, value).sreg())
}

/// ADD: the sum of two bytes.
pub fn add(sreg: u8, d: u8, r: u8) -> (u8, u8)
    ensures outcome { result ≡ sum_of sreg d r 0 }
{
    sum(sreg, d, r, 0)
}

/// ADC: the sum of two bytes and the carry.
pub fn adc(sreg: u8, d: u8, r: u8) -> (u8, u8)
    ensures outcome { result ≡ sum_of sreg d r (carry_in sreg) }
{
    sum(sreg, d, r, Status::new(sreg).carry())
}

/// SUB, SUBI, CP and CPI: the difference of two bytes.
pub fn sub(sreg: u8, d: u8, r: u8) -> (u8, u8)
    ensures outcome { result ≡ sub_of sreg d r }
{
    difference(sreg, d, r, 0)
}

/// SBC, SBCI and CPC: the difference of two bytes, less the carry. Z stays set only where it was set
/// and the result is 0, so that a chain of them compares numbers of several bytes.
pub fn sbc(sreg: u8, d: u8, r: u8) -> (u8, u8)
    ensures outcome { result ≡ sbc_of sreg d r }
{
    let (value, status) = difference(sreg, d, r, Status::new(sreg).carry());
    (value, status & (sreg | !Status::ZERO.sreg()))
}

/// NEG: 0 less a byte.
pub fn neg(sreg: u8, d: u8) -> (u8, u8)
    ensures outcome { result ≡ sub_of sreg 0 d }
{
    sub(sreg, 0, d)
}

/// INC: a byte and one. C and H stay.
pub fn inc(sreg: u8, d: u8) -> (u8, u8)
    ensures outcome { result ≡ result_of sreg ((d + 1) % 256) (d == 0x7F) }
{
    let status = Status::new(sreg).with_result(flags_of_inc(d));
    (d.wrapping_add(1), status.sreg())
}

/// DEC: a byte less one. C and H stay.
pub fn dec(sreg: u8, d: u8) -> (u8, u8)
    ensures outcome { result ≡ result_of sreg ((d + 255) % 256) (d == 0x80) }
{
    let status = Status::new(sreg).with_result(flags_of_dec(d));
    (d.wrapping_sub(1), status.sreg())
}
