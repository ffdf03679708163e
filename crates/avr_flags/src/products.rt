//! Products of two bytes.

ghost use Rattle.std.specs.Prelude.{◌≡◌, ◌*◌, ◌≤◌, nat_le, ◌*ℤ◌};
ghost use Rattle.std.specs.Int.{w16, cast_unsigned};
ghost use Rattle.std.specs.Int.RustNames.{unsigned_abs};
ghost use Rattle.avr_flags.specs.Sums.{signed_byte};
ghost use Rattle.avr_flags.specs.Products.{signed_product as product_of_signed, mixed_product as product_of_mixed, product_result_of, whole_of, fractional_of};

use crate::status::Status;

/// The number that a byte stands for in two's complement.
fn signed(byte: u8) -> i16
    ensures value { result ≡ signed_byte byte }
    ensures range { unsigned_abs result ≤ 128 }
{
    i16::from(byte.cast_signed())
}

/// The product of two unsigned bytes.
fn unsigned_product(d: u8, r: u8) -> u16
    ensures { result ≡ d * r }
{
    u16::from(d) * u16::from(r)
}

/// The product of two numbers that have a byte each, as its 16 bits.
fn product_bits(d: i16, r: i16) -> u16
    requires left { unsigned_abs d ≤ 128 }
    requires right { unsigned_abs r ≤ 255 }
    ensures { result ≡ cast_unsigned w16 (d *ℤ r) }
{
    let product = d * r;
    product.cast_unsigned()
}

/// The product of two signed bytes, as its 16 bits.
fn signed_product(d: u8, r: u8) -> u16
    ensures { result ≡ product_of_signed d r }
{
    product_bits(signed(d), signed(r))
}

/// The product of a signed byte `d` and an unsigned byte `r`, as its 16 bits.
fn mixed_product(d: u8, r: u8) -> u16
    ensures { result ≡ product_of_mixed d r }
{
    product_bits(signed(d), i16::from(r))
}

/// Bit 15 of a product.
fn bit_15(product: u16) -> bool
    ensures { result ≡ nat_le 32768 product }
{
    product >> 15 == 1
}

/// A product given as `value`, and SREG after it.
#[tactic(auto, unfolding(crate::specs::Products::product_result_of))]
fn product_result(sreg: u8, product: u16, value: u16) -> (u16, u8)
    ensures { result ≡ product_result_of sreg product value }
{
    let status = Status::new(sreg)
        .with(Status::ZERO, value == 0)
        .with(Status::CARRY, bit_15(product));
    (value, status.sreg())
}

/// A product, and SREG after it.
fn whole(sreg: u8, product: u16) -> (u16, u8)
    ensures { result ≡ whole_of sreg product }
{
    product_result(sreg, product, product)
}

/// A product shifted left by one, and SREG after it.
fn fractional(sreg: u8, product: u16) -> (u16, u8)
    ensures { result ≡ fractional_of sreg product }
{
    product_result(sreg, product, product.wrapping_mul(2))
}

/// MUL: the product of two unsigned bytes.
pub fn mul(sreg: u8, d: u8, r: u8) -> (u16, u8)
    ensures outcome { result ≡ whole_of sreg (d * r) }
{
    whole(sreg, unsigned_product(d, r))
}

/// MULS: the product of two signed bytes.
pub fn muls(sreg: u8, d: u8, r: u8) -> (u16, u8)
    ensures outcome { result ≡ whole_of sreg (product_of_signed d r) }
{
    whole(sreg, signed_product(d, r))
}

/// MULSU: the product of a signed byte `d` and an unsigned byte `r`.
pub fn mulsu(sreg: u8, d: u8, r: u8) -> (u16, u8)
    ensures outcome { result ≡ whole_of sreg (product_of_mixed d r) }
{
    whole(sreg, mixed_product(d, r))
}

/// FMUL: as `mul`, with the product shifted left by one. C is the bit that leaves.
pub fn fmul(sreg: u8, d: u8, r: u8) -> (u16, u8)
    ensures outcome { result ≡ fractional_of sreg (d * r) }
{
    fractional(sreg, unsigned_product(d, r))
}

/// FMULS: as `muls`, with the product shifted left by one. C is the bit that leaves.
pub fn fmuls(sreg: u8, d: u8, r: u8) -> (u16, u8)
    ensures outcome { result ≡ fractional_of sreg (product_of_signed d r) }
{
    fractional(sreg, signed_product(d, r))
}

/// FMULSU: as `mulsu`, with the product shifted left by one. C is the bit that leaves.
pub fn fmulsu(sreg: u8, d: u8, r: u8) -> (u16, u8)
    ensures outcome { result ≡ fractional_of sreg (product_of_mixed d r) }
{
    fractional(sreg, mixed_product(d, r))
}
