//! A constant added to or subtracted from a register pair.

ghost use Rattle.std.specs.Prelude.{◌≡◌, ◌%◌, ◌≤◌, ◌==◌, nat_le, bit_xor};
ghost use Rattle.avr_flags.specs.Status.{has_bit, differ};
ghost use Rattle.avr_flags.specs.Pairs.{pair_result_of, adiw_of, sbiw_of};

use crate::status::Status;

/// A byte that is 0 where the pair is, and whose top bit is the pair's.
fn summary(pair: u16) -> u8
    ensures zero { (result == 0) ≡ (pair == 0) }
    ensures top { nat_le 128 result ≡ nat_le 32768 pair }
{
    let high = (pair >> 8) as u8;
    if pair & 0xFF == 0 { high } else { high | 1 }
}

/// What a pair's sum or difference leaves in 16 bits, and SREG after it. `wide` is the whole number, and
/// the constant has no bit above bit 5, so that bits 15 and 16 of `d` xor `wide` are the carries into these.
fn outcome(sreg: u8, d: u16, wide: u32) -> (u16, u8)
    ensures { result
        ≡ pair_result_of sreg
        (wide % 65536)
        (differ (has_bit (bit_xor d wide) 32768) (has_bit (bit_xor d wide) 65536))
        (has_bit (bit_xor d wide) 65536) }
{
    // Those into bits 15 and 16 stand in the place of those into bits 7 and 8.
    let carries = ((u32::from(d) ^ wide) >> 8 & 0x1FF) as u16;
    let value = (wide & 0xFFFF) as u16;
    let status = Status::new(sreg).with_top_carries(carries, summary(value));
    (value, status.sreg())
}

/// ADIW: a register pair and a constant of at most 63. H stays.
pub fn adiw(sreg: u8, d: u16, k: u8) -> (u16, u8)
    requires small { k ≤ 63 }
    ensures outcome { result ≡ adiw_of sreg d k }
{
    outcome(sreg, d, u32::from(d) + u32::from(k))
}

/// SBIW: a register pair less a constant of at most 63. H stays.
pub fn sbiw(sreg: u8, d: u16, k: u8) -> (u16, u8)
    requires small { k ≤ 63 }
    ensures outcome { result ≡ sbiw_of sreg d k }
{
    // A bit that stands above gives what is borrowed.
    outcome(sreg, d, 0x2_0000 + u32::from(d) - u32::from(k))
}
