//! The fixed bits of the operations and pointers that share a form.
ghost use Rattle.std.specs.Prelude.{◌≡◌, ◌≤◌};
ghost use Rattle.avr_isa.specs.InstructionTable.{base_bit, imm_opcode, one_opcode, pointer_bits, product_opcode, two_opcode, word_opcode};

use avr_isa::{Base, ImmOp, OneOp, ProductOp, Ptr, TwoOp, WordOp};

pub(crate) fn product(op: &ProductOp) -> u16
    ensures code { result ≡ product_opcode op.now }
    ensures range { result ≤ 0x388 }
{
    match op {
        ProductOp::Mulsu => 0x0300,
        ProductOp::Fmul => 0x0308,
        ProductOp::Fmuls => 0x0380,
        ProductOp::Fmulsu => 0x0388,
    }
}

pub(crate) fn two(op: &TwoOp) -> u16
    ensures code { result ≡ two_opcode op.now }
    ensures range { result ≤ 0x9C00 }
{
    match op {
        TwoOp::Cpc => 0x0400,
        TwoOp::Sbc => 0x0800,
        TwoOp::Add => 0x0C00,
        TwoOp::Cp => 0x1400,
        TwoOp::Sub => 0x1800,
        TwoOp::Adc => 0x1C00,
        TwoOp::And => 0x2000,
        TwoOp::Eor => 0x2400,
        TwoOp::Or => 0x2800,
        TwoOp::Mov => 0x2C00,
        TwoOp::Mul => 0x9C00,
    }
}

pub(crate) fn immediate(op: &ImmOp) -> u16
    ensures code { result ≡ imm_opcode op.now }
    ensures range { result ≤ 0xE000 }
{
    match op {
        ImmOp::Cpi => 0x3000,
        ImmOp::Sbci => 0x4000,
        ImmOp::Subi => 0x5000,
        ImmOp::Ori => 0x6000,
        ImmOp::Andi => 0x7000,
        ImmOp::Ldi => 0xE000,
    }
}

pub(crate) fn word(op: &WordOp) -> u16
    ensures code { result ≡ word_opcode op.now }
    ensures range { result ≤ 0x9700 }
{
    match op {
        WordOp::Adiw => 0x9600,
        WordOp::Sbiw => 0x9700,
    }
}

pub(crate) fn one(op: &OneOp) -> u16
    ensures code { result ≡ one_opcode op.now }
    ensures range { result ≤ 0x940A }
{
    match op {
        OneOp::Com => 0x9400,
        OneOp::Neg => 0x9401,
        OneOp::Swap => 0x9402,
        OneOp::Inc => 0x9403,
        OneOp::Asr => 0x9405,
        OneOp::Lsr => 0x9406,
        OneOp::Ror => 0x9407,
        OneOp::Dec => 0x940A,
    }
}

pub(crate) fn base(base: &Base) -> u16
    ensures code { result ≡ base_bit base.now }
    ensures range { result ≤ 0x8 }
{
    match base {
        Base::Z => 0x0,
        Base::Y => 0x8,
    }
}

pub(crate) fn pointer(pointer: &Ptr) -> u16
    ensures code { result ≡ pointer_bits pointer.now }
    ensures range { result ≤ 0xE }
{
    match pointer {
        Ptr::ZInc => 0x1,
        Ptr::ZDec => 0x2,
        Ptr::YInc => 0x9,
        Ptr::YDec => 0xA,
        Ptr::X => 0xC,
        Ptr::XInc => 0xD,
        Ptr::XDec => 0xE,
    }
}
