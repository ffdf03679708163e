//! The arithmetic of an AVR core: what each instruction of the arithmetic and logic unit gives, and
//! what it does to the status register SREG.
//!
//! Each call takes SREG and the operands, and gives the result and the new SREG. The flags that an
//! instruction doesn't name stay. The bits of SREG, from bit 0 on, are C Z N V S H T I.
//!
//! `add(0x00, 0x80, 0x80)` is `(0x00, 0x1B)`: the sum is 0 with a carry, a signed overflow and no half carry.
#![tactic(auto)]

mod logic;
mod pairs;
mod products;
mod status;
mod sums;
mod tables;

pub use logic::{and_bits, asr, com, eor, lsr, or_bits, ror};
pub use pairs::{adiw, sbiw};
pub use products::{fmul, fmuls, fmulsu, mul, muls, mulsu};
pub use sums::{adc, add, dec, inc, neg, sbc, sub};
